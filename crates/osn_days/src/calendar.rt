//! The three calendars with their words, and the dates of days by them, both ways.
ghost use Rattle.std.specs.Prelude.{◌≡◌};
ghost use Rattle.std.specs.Option.{option_to_list};
ghost use Rattle.osn_days.specs.Rules.{newest_rules};
ghost use Rattle.osn_days.specs.Line.{IsYearNumber};
ghost use Rattle.osn_days.specs.Chain as chain;
ghost use Rattle.osn_days.specs.CalendarWords as words;

use crate::date::Date;
use crate::day::Day;
use crate::keyword::Keyword;
use crate::{gregorian, julian, swedish};

/// A calendar on the line of days. Its years begin on 1 January.
#[derive(Clone, Copy, Debug, PartialEq, Eq, Hash)]
pub enum Calendar {
    Julian,
    Gregorian,
    /// The Julian calendar without 29 February 1700, and so a day ahead of it, until a 30 February
    /// 1712 brought it back.
    Swedish,
}

impl Keyword for Calendar {
    ghost word_of = { words.calendar_word };

    ghost meaning = { words.calendar_named };

    fn word(self) -> &'static str {
        match self {
            Calendar::Julian => "julian",
            Calendar::Gregorian => "gregorian",
            Calendar::Swedish => "swedish",
        }
    }

    fn from_word(word: &str) -> Option<Calendar> {
        match word {
            "julian" => Some(Calendar::Julian),
            "gregorian" => Some(Calendar::Gregorian),
            "swedish" => Some(Calendar::Swedish),
            _ => None,
        }
    }
}

/// Returns the date of a day in a calendar: in the Gregorian by *Calendrical Calculations*, chapter
/// 2, in the Julian by chapter 3. Its year is from 1 to 9999.
pub fn date_of(calendar: Calendar, day: Day) -> Date
    ensures value { result ≡ chain.date_of calendar day }
    ensures year { IsYearNumber newest_rules result.year }
{
    match calendar {
        Calendar::Julian => julian::date_of(day),
        Calendar::Gregorian => gregorian::date_of(day),
        Calendar::Swedish => swedish::date_of(day),
    }
}

/// Returns the one day that has the date, or `None` if no day of the line has it.
pub fn day_of(calendar: Calendar, date: Date) -> Option<Day>
    ensures { option_to_list result ≡ chain.days_with_date newest_rules calendar date }
{
    match calendar {
        Calendar::Julian => julian::day_of(date),
        Calendar::Gregorian => gregorian::day_of(date),
        Calendar::Swedish => swedish::day_of(date),
    }
}
