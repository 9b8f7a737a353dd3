//! Lines about a day, in columns. A name has 13 places, as many as `Ash Wednesday`, and a weekday
//! 9, as many as `Wednesday`. The number of a day has 7, the most digits of a day of the line.
ghost use Rattle.std.specs.Prelude.{◌≡◌, ◌++◌, OnOk, string_bytes};
ghost use Rattle.osn_pages.specs.Columns as spec;

use osn_days::Day;
use std::alloc::AllocError;
use std::fmt::Write;

/// Appends the name of a day, its weekday and its number, which its date is to follow.
pub(crate) fn push_day(out: &mut String, name: &str, day: Day) -> Result<(), AllocError>
    ensures { OnOk result (string_bytes out.new
        ≡ string_bytes out.old ++ spec.day_columns name.now day) }
{
    write!(
        out,
        "{:<13} {:<9} {:>7} ",
        name,
        day.weekday().name(),
        day.number()
    )
}

/// Appends the line of a name that no day has, with a remark.
pub(crate) fn push_absent(out: &mut String, name: &str, remark: &str) -> Result<(), AllocError>
    ensures { OnOk result (string_bytes out.new
        ≡ string_bytes out.old ++ spec.absent_line name.now remark.now) }
{
    writeln!(out, "{:<13} {}", name, remark)
}
