//! Days and dates in English words.
ghost use Rattle.std.specs.Prelude.{◌≡◌, ◌++◌, OnOk, string_bytes};
ghost use Rattle.osn_pages.specs.Words as spec;

use osn_days::{Calendar, Day, date_of, month_name};
use osn_territory::DatedDay;
use std::alloc::AllocError;
use std::fmt;
use std::fmt::Write;

/// The date of a day in a calendar, such as `22 February 1732`.
#[derive(Clone, Copy, Debug, PartialEq, Eq)]
pub struct DayInCalendar {
    pub calendar: Calendar,
    pub day: Day,
}

impl fmt::Display for DayInCalendar {
    ghost use Rattle.std.specs.Prelude.{Some};
    ghost use Rattle.osn_pages.specs.Words.{calendar_words};

    ghost output = { λ x. Some (calendar_words x.calendar x.day) };

    #[tactic(auto, unfolding(crate::specs::Words::calendar_words))]
    fn fmt<W: fmt::Write>(&self, f: &mut fmt::Formatter<W>) -> fmt::Result {
        let date = date_of(self.calendar, self.day);
        write!(f, "{} {} {}", date.day, month_name(date.month), date.year)
    }
}

/// A day by its weekday and as it is dated, such as `Friday 11 February 1731/2`.
#[derive(Clone, Copy, Debug, PartialEq, Eq)]
pub struct NamedDay(pub DatedDay);

impl fmt::Display for NamedDay {
    ghost use Rattle.std.specs.Prelude.{Some};
    ghost use Rattle.osn_pages.specs.Words.{named_day};

    ghost output = { λ x. Some (named_day x.0) };

    #[tactic(auto, unfolding(crate::specs::Words::named_day))]
    fn fmt<W: fmt::Write>(&self, f: &mut fmt::Formatter<W>) -> fmt::Result {
        let day = self.0;
        write!(f, "{} {}", day.day.weekday().name(), day)
    }
}

/// A day by its weekday, its date and its number, such as
/// `Thursday 14 September 1752 (day 639797)`.
#[derive(Clone, Copy, Debug, PartialEq, Eq)]
pub struct NumberedDay(pub DatedDay);

impl fmt::Display for NumberedDay {
    ghost use Rattle.std.specs.Prelude.{Some};
    ghost use Rattle.osn_pages.specs.Words.{numbered_day};

    ghost output = { λ x. Some (numbered_day x.0) };

    #[tactic(auto, unfolding(crate::specs::Words::numbered_day))]
    fn fmt<W: fmt::Write>(&self, f: &mut fmt::Formatter<W>) -> fmt::Result {
        let named = NamedDay(self.0);
        let number = self.0.day.number();
        write!(f, "{named} (day {number})")
    }
}

/// From which day to which a year ran.
#[derive(Clone, Copy, Debug, PartialEq, Eq)]
pub struct YearEnds {
    /// The year as the territory counted it.
    pub year: u32,
    /// Its first day.
    pub first: DatedDay,
    /// Its last day.
    pub last: DatedDay,
}

impl fmt::Display for YearEnds {
    ghost use Rattle.std.specs.Prelude.{Some};
    ghost use Rattle.osn_pages.specs.Words.{year_ends};

    ghost output = { λ x. Some (year_ends x.year x.first x.last) };

    #[tactic(auto, unfolding(crate::specs::Words::year_ends))]
    fn fmt<W: fmt::Write>(&self, f: &mut fmt::Formatter<W>) -> fmt::Result {
        let first = NumberedDay(self.first);
        let last = NumberedDay(self.last);
        write!(f, "the year {} ran there from {first} to {last}", self.year)
    }
}

/// The day before a change, and the day of the change.
#[derive(Clone, Copy, Debug, PartialEq, Eq)]
pub struct DaysAtChange {
    /// The day before.
    pub before: DatedDay,
    /// The day of the change.
    pub change: DatedDay,
}

impl fmt::Display for DaysAtChange {
    ghost use Rattle.std.specs.Prelude.{Some};
    ghost use Rattle.osn_pages.specs.Words.{days_at_change};

    ghost output = { λ x. Some (days_at_change x.before x.change) };

    #[tactic(auto, unfolding(crate::specs::Words::days_at_change))]
    fn fmt<W: fmt::Write>(&self, f: &mut fmt::Formatter<W>) -> fmt::Result {
        let before = NamedDay(self.before);
        let change = NumberedDay(self.change);
        write!(f, "{before} was followed by {change}")
    }
}

/// Appends that no day had a year.
///
/// # Errors
///
/// If memory runs out, and in no other case.
#[tactic(auto, unfolding(crate::specs::Words::empty_year_line))]
pub fn push_empty_year(out: &mut String, year: u32) -> Result<(), AllocError>
    ensures { OnOk result (string_bytes out.new
        ≡ string_bytes out.old ++ spec.empty_year_line year) }
{
    writeln!(out, "the place had no day of the year {year}")
}
