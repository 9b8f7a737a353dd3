//! Dates of one day, as people write them.
ghost use Rattle.std.specs.Prelude.{◌≡◌, ◌<◌, ◌^◌, IfSome, Some, find, option_map};
ghost use Rattle.std.specs.Str.{all_ascii_digits};
ghost use Rattle.osn_written.specs.WrittenDate as spec;

use osn_days::{Weekday, month_name};
use std::fmt;

/// A date as people write it: a year, a month and a day, and whether it is a double date such as
/// `11 February 1731/2`, whose year is the first one. It has the weekday before it too, if one is
/// written. Whether a calendar has the date is not tested.
#[derive(Clone, Copy, Debug, PartialEq, Eq)]
pub struct WrittenDate {
    pub year: u16,
    pub month: u8,
    pub day: u8,
    pub is_double: bool,
    pub weekday: Option<Weekday>,
}

/// A day of a month, in any year.
#[derive(Clone, Copy, Debug, PartialEq, Eq)]
pub struct MonthDay {
    pub month: u8,
    pub day: u8,
}

impl fmt::Display for MonthDay {
    ghost output = { λ x. Some (spec.month_day_words x) };

    fn fmt<W: fmt::Write>(&self, f: &mut fmt::Formatter<W>) -> fmt::Result {
        write!(f, "{} {}", self.day, month_name(self.month))
    }
}

/// Why a text is not a written date.
#[derive(Clone, Copy, Debug, PartialEq, Eq)]
pub enum DateFault {
    /// The text has none of the forms of a date.
    Malformed,
    /// After the `/` come the last digits of the year that follows, one digit or more.
    LaterYear,
    /// A year is 0 to 10000.
    Year,
    /// A month is 1 to 12.
    Month,
    /// A day is 1 to 31.
    Day,
    /// The text is empty or says that there is no date, such as `n.d.`.
    NoDate,
    /// It is a month, a year, a range, a bound or a set.
    NotOneDay,
    /// More is said of the day than which it is: `about`, `?`, `[ ]`, `O.S.` or `N.S.`.
    Qualifier,
    /// A year of one or two digits has its zeros, such as `0045`.
    ShortYear,
    /// A digit of the year is open, as in `173-` and `173X`, or a year of three digits is in doubt
    /// or in brackets, as in `173?`.
    OpenYear,
    /// `11/2/1731` may be 11 February or 2 November.
    DayOrMonth,
    /// In `3/13 Feb. 1675` the day or the year of both calendars is not sure.
    BothCalendars,
    /// In `3/14 June 1675` the first date and the second one are not one day.
    TwoDays {
        old: MonthDay,
        /// The Gregorian date of the day whose Julian date is the first one.
        new: MonthDay,
        /// The second date.
        written: MonthDay,
    },
    /// `3/13 June 1675 O.S.` names one calendar for the dates of both.
    NamedCalendar,
    /// The text names a feast.
    Feast,
    /// A number is Roman.
    RomanNumeral,
    /// The text names a part of a time, such as `early` or `winter`, and it is open of which one.
    OpenPart,
}

/// Returns the parts before and after the first such character.
pub fn parts_at(text: &str, separator: char) -> Option<(&str, &str)>
    requires { separator < 128 }
    ensures { option_map (λ x. (x.0.now, x.1.now)) result ≡ spec.parts_at separator text.now }
{
    text.split_once(separator)
}

/// Returns whether each byte is a digit.
fn are_digits(part: &[u8]) -> bool
    ensures { result ≡ all_ascii_digits part.now }
{
    for byte in part {
        if !byte.is_ascii_digit() {
            return false;
        }
    }
    true
}

/// Returns the number that a text is, of 1 to 9 digits, if it is one. Zeros may come before it.
pub fn number_of(part: &str) -> Option<u32>
    ensures value { result ≡ spec.number_of part.now }
    ensures small { IfSome result (λ n. n < 10 ^ 9) }
{
    if part.is_empty() || part.len() > 9 || !are_digits(part.as_bytes()) {
        return None;
    }
    part.parse::<u32>().ok()
}

/// The seven weekdays.
const WEEKDAYS: [Weekday; 7] = [
    Weekday::Sunday,
    Weekday::Monday,
    Weekday::Tuesday,
    Weekday::Wednesday,
    Weekday::Thursday,
    Weekday::Friday,
    Weekday::Saturday,
];

/// Returns whether a weekday has the name, whose letters may be capital or small.
fn has_name(name: &str, weekday: Weekday) -> bool
    ensures { result ≡ spec.has_name name.now weekday }
{
    weekday.name().eq_ignore_ascii_case(name)
}

/// Returns the first weekday, of these, that has the name.
fn first_named(weekdays: &[Weekday], name: &str) -> Option<Weekday>
    ensures { result ≡ find (spec.has_name name.now) weekdays.now }
{
    weekdays
        .iter()
        .copied()
        .find(|weekday| has_name(name, *weekday))
}

/// Returns the weekday of an English name. Its letters may be capital or small.
#[tactic(auto, using(crate::proofs::WeekdayFacts::weekday_found))]
pub fn weekday_named(name: &str) -> Option<Weekday>
    ensures { result ≡ spec.weekday_named name.now }
{
    first_named(&WEEKDAYS, name)
}
