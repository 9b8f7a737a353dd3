//! A day by a number: a day number, or a Julian day number.
ghost use Rattle.std.specs.Prelude.{◌≡◌};
ghost use Rattle.osn_page_commands.specs.DayNumber as spec;

use osn_days::Day;
use osn_report::Misuse;
use osn_written::{number_of, parts_at};

/// The Julian day number of the day before day 1.
const JULIAN_OFFSET: u32 = 1_721_425;

/// Returns the day of a number.
fn day_of_number(number: u32) -> Result<Day, Misuse>
    ensures { result ≡ spec.day_of_number number }
{
    Day::new(i64::from(number)).ok_or(Misuse::DayNumber)
}

/// Returns the day of a Julian day number.
fn day_of_julian(number: u32) -> Result<Day, Misuse>
    ensures { result ≡ spec.day_of_julian number }
{
    let day = number.saturating_sub(JULIAN_OFFSET);
    Day::new(i64::from(day)).ok_or(Misuse::JulianDayNumber)
}

/// Returns the day of a number that is alone, unless it may be a Julian day number as well.
fn day_of_either(number: u32) -> Result<Day, Misuse>
    ensures { result ≡ spec.day_of_either number }
{
    let day = day_of_number(number)?;
    if number > JULIAN_OFFSET {
        Err(Misuse::WhichDayNumber(number))
    } else {
        Ok(day)
    }
}

/// Returns whether a word says that a Julian day number follows: `JDN`, in capital or small
/// letters.
pub(crate) fn is_julian_word(word: &str) -> bool
    ensures { result ≡ spec.is_julian_word word.now }
{
    word.eq_ignore_ascii_case("jdn")
}

/// Returns the day of a number after a word that says which one it is: `day` or `JDN`.
fn day_after_word(word: &str, text: &str) -> Option<Result<Day, Misuse>>
    ensures { result ≡ spec.day_after_word word.now text.now }
{
    let number = number_of(text)?;
    if word.eq_ignore_ascii_case("day") {
        Some(day_of_number(number))
    } else if is_julian_word(word) {
        Some(day_of_julian(number))
    } else {
        None
    }
}

/// Returns the day of a text that is a number: `632287`, `day 632287` or `JDN 2353712`. Any other
/// text, which may be a date, has none.
pub(crate) fn day_by_number(text: &str) -> Option<Result<Day, Misuse>>
    ensures { result ≡ spec.day_by_number text.now }
{
    match parts_at(text, ' ') {
        Some((word, rest)) => day_after_word(word, rest),
        None => Some(day_of_either(number_of(text)?)),
    }
}

/// Returns the day of a Julian day number, which the text is.
pub(crate) fn day_by_julian(text: &str) -> Result<Day, Misuse>
    ensures { result ≡ spec.day_by_julian text.now }
{
    day_of_julian(number_of(text).ok_or(Misuse::JulianDayNumber)?)
}
