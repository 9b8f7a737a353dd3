//! Dates, and how they are written.
ghost use Rattle.std.specs.Prelude.{◌≡◌, ◌+◌, ◌<◌, IfOk, string_bytes, IsUtf8};
ghost use Rattle.osn_days.specs.DateText as spec;

use std::alloc::{AllocError, Global};

/// A date of some calendar: a year counted from 1 January, a month from 1 to 12 and a day of the
/// month. Its numbers may be any: `day_of` says which dates are days.
#[derive(Clone, Copy, Debug, PartialEq, Eq, PartialOrd, Ord, Hash)]
pub struct Date {
    pub year: i32,
    pub month: u8,
    pub day: u8,
}

/// Returns the date with its year in at least four digits, its month in two and its day in two,
/// such as `1582-10-04`. No year is negative.
///
/// # Errors
///
/// If memory runs out, and in no other case.
pub fn date_text(alloc: Global, year: i32, month: u8, day: u8) -> Result<String, AllocError>
    ensures { IfOk result (λ s. string_bytes s ≡ spec.date_text year month day) }
{
    format!(in alloc; "{:04}-{:02}-{:02}", year.unsigned_abs(), month, day)
}

fn digit(number: u32) -> u8
    requires { number < 10 }
    ensures { result ≡ 48 + number }
{
    b'0' + number as u8
}

/// Returns the bytes of the same text, of numbers that have no more digits than these: it takes no
/// memory.
pub fn date_digits(year: u32, month: u32, day: u32) -> [u8; 10]
    requires year { year < 10_000 }
    requires month { month < 100 }
    requires day { day < 100 }
    ensures value { result ≡ spec.date_digits year month day }
    ensures utf8 { IsUtf8 result }
{
    let decades = year / 10;
    let centuries = decades / 10;
    [
        digit(centuries / 10),
        digit(centuries % 10),
        digit(decades % 10),
        digit(year % 10),
        b'-',
        digit(month / 10),
        digit(month % 10),
        b'-',
        digit(day / 10),
        digit(day % 10),
    ]
}
