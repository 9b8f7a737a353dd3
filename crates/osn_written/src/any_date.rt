//! What a date that people write may be, once its text is read.
ghost use Rattle.std.specs.Prelude.{◌≡◌};
ghost use Rattle.osn_written.specs.AnyDate as spec;

use crate::feast::Feast;
use crate::portion::Portion;
use crate::written_date::MonthDay;
use osn_days::Weekday;

/// A year as it is written. For a double year, such as `1731/2`, it is the first one.
#[derive(Clone, Copy, Debug, PartialEq, Eq)]
pub struct Year {
    pub first: u16,
    /// Whether the year that follows is written too.
    pub is_double: bool,
    /// Whether it is written with three digits and no zero before them, such as `173`, so that it
    /// may lack its last one.
    pub has_three_digits: bool,
}

/// A day, a month or a year. Whether a calendar has the day is not tested.
#[derive(Clone, Copy, Debug, PartialEq, Eq)]
pub enum PartialDate {
    Day { year: Year, month: u8, day: u8 },
    Month { year: Year, month: u8 },
    Year(Year),
}

/// From when to when a date may be.
#[derive(Clone, Copy, Debug, PartialEq, Eq)]
pub enum Extent {
    On(PartialDate),
    FromTo(PartialDate, PartialDate),
    /// From a day to another one, with one year written for both, such as `18-26 March 1675`. If
    /// the place began a year between them, the last day is of the next year.
    DaysOfYear {
        first: MonthDay,
        last: MonthDay,
        year: Year,
    },
    Before(PartialDate),
    NotAfter(PartialDate),
    After(PartialDate),
    NotBefore(PartialDate),
    /// In a part of a month or a year, such as the first third of it.
    Part(Portion, PartialDate),
    /// On the day of a feast in a year, as the place counted it.
    Feast {
        feast: Feast,
        year: Year,
    },
}

impl MonthDay {
    /// Returns the day of a year.
    pub fn in_year(self, year: Year) -> PartialDate
        ensures { result ≡ spec.in_year self year }
    {
        PartialDate::Day {
            year,
            month: self.month,
            day: self.day,
        }
    }
}

impl PartialDate {
    /// Returns whether the year is written with three digits and no zero before them.
    fn has_year_of_three_digits(self) -> bool
        ensures { result ≡ spec.has_year_of_three_digits self }
    {
        match self {
            PartialDate::Day { year, .. } | PartialDate::Month { year, .. } =>
                year.has_three_digits,
            PartialDate::Year(year) => year.has_three_digits,
        }
    }
}

impl Extent {
    /// Returns whether a year of it is written with three digits and no zero before them.
    pub fn has_year_of_three_digits(self) -> bool
        ensures { result ≡ spec.has_three_digits self }
    {
        match self {
            Extent::FromTo(first, last) => {
                first.has_year_of_three_digits() || last.has_year_of_three_digits()
            }
            Extent::On(date)
            | Extent::Before(date)
            | Extent::NotAfter(date)
            | Extent::After(date)
            | Extent::NotBefore(date)
            | Extent::Part(_, date) => date.has_year_of_three_digits(),
            Extent::DaysOfYear { year, .. } | Extent::Feast { year, .. } => {
                year.has_three_digits
            }
        }
    }
}

/// By which calendar a date is written, if it says so.
#[derive(Clone, Copy, Debug, PartialEq, Eq)]
pub enum Reckoning {
    OldStyle,
    NewStyle,
}

/// A date with all that is written of it.
#[derive(Clone, Copy, Debug, PartialEq, Eq)]
pub struct AnyDate {
    pub extent: Extent,
    pub weekday: Option<Weekday>,
    pub reckoning: Option<Reckoning>,
    /// Whether it is about then, as in `c. 1731`.
    pub is_approximate: bool,
    /// Whether it is in doubt, as in `1731?`.
    pub is_uncertain: bool,
    /// Whether an editor supplied it, as in `[1731]`.
    pub is_supplied: bool,
}
