//! A date in words.
ghost use Rattle.std.specs.Prelude.{◌≡◌, Some, pos};
ghost use Rattle.osn_territory.specs.Dating.{years_text};
ghost use Rattle.osn_territory.specs.Dual.{year_text};
ghost use Rattle.osn_written.specs.DateInWords as spec;

use crate::any_date::{AnyDate, Extent, PartialDate, Reckoning, Year};
use osn_days::{Day, Weekday, month_name};
use osn_territory::{DatedDay, DatedYears, Label};
use std::fmt;

/// Returns the zeros that bring a year to four digits.
fn zeros_before(year: u16) -> &'static str
    ensures { result.now ≡ spec.zeros_before year }
{
    if year < 10 {
        "000"
    } else if year < 100 {
        "00"
    } else if year < 1000 {
        "0"
    } else {
        ""
    }
}

/// Returns the years of a dated day that is in the year. Which day it is makes no difference to
/// them.
#[tactic(auto, unfolding(osn_territory::specs::Dating::years_text))]
fn years(year: Year) -> DatedYears
    ensures { years_text result.0 ≡ year_text (pos year.first) (pos (spec.last_year year)) }
{
    let first = i32::from(year.first);
    DatedYears(DatedDay {
        day: Day::FIRST,
        label: Label {
            year: first,
            month: 1,
            day: 1,
        },
        january_year: if year.is_double { first + 1 } else { first },
    })
}

/// A year in words.
#[derive(Clone, Copy)]
struct YearInWords(Year);

impl fmt::Display for YearInWords {
    ghost output = { λ x. Some (spec.words_of_year x.0) };

    #[tactic(auto, unfolding(crate::specs::DateInWords::words_of_year))]
    fn fmt<W: fmt::Write>(&self, f: &mut fmt::Formatter<W>) -> fmt::Result {
        write!(f, "{}{}", zeros_before(self.0.first), years(self.0))
    }
}

/// A day, a month or a year in words.
#[derive(Clone, Copy)]
struct SimpleInWords(PartialDate);

impl fmt::Display for SimpleInWords {
    ghost output = { λ x. Some (spec.words_of_date x.0) };

    #[tactic(auto, unfolding(crate::specs::DateInWords::words_of_date))]
    fn fmt<W: fmt::Write>(&self, f: &mut fmt::Formatter<W>) -> fmt::Result {
        match self.0 {
            PartialDate::Day { year, month, day } => {
                write!(f, "{day} {} {}", month_name(month), YearInWords(year))
            }
            PartialDate::Month { year, month } => {
                write!(f, "{} {}", month_name(month), YearInWords(year))
            }
            PartialDate::Year(year) => write!(f, "{}", YearInWords(year)),
        }
    }
}

/// A date, a range or a bound in words.
#[derive(Clone, Copy)]
struct ExtentInWords(Extent);

impl fmt::Display for ExtentInWords {
    ghost output = { λ x. Some (spec.words_of_extent x.0) };

    #[tactic(auto, unfolding(crate::specs::DateInWords::words_of_extent))]
    fn fmt<W: fmt::Write>(&self, f: &mut fmt::Formatter<W>) -> fmt::Result {
        match self.0 {
            Extent::On(date) => write!(f, "{}", SimpleInWords(date)),
            Extent::FromTo(first, last) => {
                write!(f, "{} to {}", SimpleInWords(first), SimpleInWords(last))
            }
            Extent::DaysOfYear { first, last, year } => {
                write!(f, "{first} to {}", SimpleInWords(last.in_year(year)))
            }
            Extent::Before(date) => write!(f, "before {}", SimpleInWords(date)),
            Extent::NotAfter(date) => write!(f, "not after {}", SimpleInWords(date)),
            Extent::After(date) => write!(f, "after {}", SimpleInWords(date)),
            Extent::NotBefore(date) => write!(f, "not before {}", SimpleInWords(date)),
            Extent::Part(portion, date) => {
                write!(f, "{} {}", portion.words(), SimpleInWords(date))
            }
            Extent::Feast { feast, year } => write!(f, "{} {}", feast.name(), YearInWords(year)),
        }
    }
}

/// A weekday before a date, if one is named.
#[derive(Clone, Copy)]
struct WeekdayBefore(Option<Weekday>);

impl fmt::Display for WeekdayBefore {
    ghost output = { λ x. Some (spec.weekday_before x.0) };

    #[tactic(auto, unfolding(crate::specs::DateInWords::weekday_before))]
    fn fmt<W: fmt::Write>(&self, f: &mut fmt::Formatter<W>) -> fmt::Result {
        match self.0 {
            None => Ok(()),
            Some(weekday) => write!(f, "{} ", weekday.name()),
        }
    }
}

/// Returns the calendar after a date, if one is named.
fn calendar_after(reckoning: Option<Reckoning>) -> &'static str
    ensures { result.now ≡ spec.calendar_after reckoning }
{
    match reckoning {
        None => "",
        Some(Reckoning::OldStyle) => " O.S.",
        Some(Reckoning::NewStyle) => " N.S.",
    }
}

/// Returns a word if something is said, and nothing otherwise.
fn optional_word(applies: bool, word: &'static str) -> &'static str
    ensures { result.now ≡ spec.optional_word applies word.now }
{
    if applies { word } else { "" }
}

/// Writes a date in words, with its signs: `[about Friday 11 February 1731/2 O.S.?]`,
/// `February 1731/2 to 1735`, `not after 1640`. A year below 1000 has zeros before it, such as
/// `0045`, since a shorter number is not read as a year, or is read as one that may lack a digit. A
/// month that is not 1 to 12 is written as 12. `is_writable` returns whether the words of a date
/// are read back.
#[derive(Clone, Copy, Debug, PartialEq, Eq)]
pub struct DateInWords(pub AnyDate);

impl fmt::Display for DateInWords {
    ghost output = { λ x. Some (spec.words_of x.0) };

    #[tactic(auto, unfolding(crate::specs::DateInWords::words_of))]
    fn fmt<W: fmt::Write>(&self, f: &mut fmt::Formatter<W>) -> fmt::Result {
        let date = self.0;
        write!(
            f,
            "{}{}{}{}{}{}{}",
            optional_word(date.is_supplied, "["),
            optional_word(date.is_approximate, "about "),
            WeekdayBefore(date.weekday),
            ExtentInWords(date.extent),
            calendar_after(date.reckoning),
            optional_word(date.is_uncertain, "?"),
            optional_word(date.is_supplied, "]")
        )
    }
}
