//! The months, with their English names.
ghost use Rattle.std.specs.Prelude.{◌≡◌};
ghost use Rattle.osn_days.specs.Month as spec;

/// Returns the English name of a month from 1 to 12. Any other number is taken for 12.
pub fn month_name(month: u8) -> &'static str
    ensures { result.now ≡ spec.month_name month }
{
    match month {
        1 => "January",
        2 => "February",
        3 => "March",
        4 => "April",
        5 => "May",
        6 => "June",
        7 => "July",
        8 => "August",
        9 => "September",
        10 => "October",
        11 => "November",
        _ => "December",
    }
}

/// Returns whether the month has the English name, whose letters may be capital or small.
fn has_name(name: &str, month: u8) -> bool
    ensures { result ≡ spec.has_name name.now month }
{
    month_name(month).eq_ignore_ascii_case(name)
}

/// Returns the month of an English name, 1 to 12. Its letters may be capital or small.
pub fn month_named(name: &str) -> Option<u8>
    ensures { result ≡ spec.month_named name.now }
{
    (1..13).find(|month| has_name(name, *month))
}
