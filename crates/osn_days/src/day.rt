//! The days of the line by their numbers, with the ends of the line.
ghost use Rattle.std.specs.Prelude.{◌≡◌, ◌↔◌, ℕ, pos, ◌+ℤ◌, IsSome, IfSome};
ghost use Rattle.osn_days.specs.Rules.{newest_rules};
ghost use Rattle.osn_days.specs.Line.{IsDay, IsOnLine, weekday, julian_day};
ghost use Rattle.osn_days.specs.Weekday.{weekday_numbered};

use crate::weekday::Weekday;
use std::marker::Model;

/// The number of the last day of the line, 31 December 9999 Gregorian. That of the first is 1.
pub const HIGH: u32 = 3_652_059;

/// The Julian day number of the day before the first.
const JULIAN_DAY_OFFSET: u32 = 1_721_425;

/// A day of the line, numbered as the fixed dates (Rata Die) in chapter 1 of *Calendrical
/// Calculations*. Day 1 is Monday 1 January of year 1 Gregorian, which is 3 January of year 1
/// Julian.
#[derive(Clone, Copy, Debug, PartialEq, Eq, PartialOrd, Ord, Hash)]
pub struct Day {
    number: u32,
}

impl Model for Day {
    ghost use Rattle.std.specs.Prelude.{ℕ};
    ghost use Rattle.osn_days.specs.Rules.{newest_rules};
    ghost use Rattle.osn_days.specs.Line.{IsDay};

    ghost Value = { ℕ };

    ghost view = { λ d. d.number };

    ghost invariant = { λ d. IsDay newest_rules d.number };

    ghost inverse = { λ n. record { number = n } };
}

impl Day {
    /// The first day of the line.
    pub const FIRST: Day = Day { number: 1 };

    /// The last day of the line.
    pub const LAST: Day = Day { number: HIGH };

    /// Returns the day of that number, or `None` off the line.
    pub fn new(number: i64) -> Option<Day>
        ensures on_line { IsSome result ↔ IsOnLine newest_rules number }
        ensures value { IfSome result (λ d. pos d ≡ number) }
    {
        if number < 1 || number > i64::from(HIGH) {
            return None;
        }
        Some(Day::on_line(number))
    }

    /// Returns the day of that number, for callers who know that it is on the line: `new` is the
    /// test.
    pub fn on_line(number: i64) -> Day
        requires { IsOnLine newest_rules number }
        ensures { pos result ≡ number }
    {
        Day {
            number: number as u32,
        }
    }

    /// Returns the number, from 1.
    pub fn number(self) -> u32
        ensures value { result ≡ self }
        ensures on_line { IsDay newest_rules result }
    {
        self.number
    }

    /// Returns the Julian day number of astronomers, at noon of the day: *Calendrical
    /// Calculations*, chapter 1.
    pub fn julian_day_number(self) -> u32
        ensures { result ≡ julian_day self }
    {
        self.number + JULIAN_DAY_OFFSET
    }

    /// Returns the day of the week.
    #[tactic(auto, unfolding(crate::specs::Weekday::weekday_numbered))]
    pub fn weekday(self) -> Weekday
        ensures { result ≡ weekday_numbered (weekday self) }
    {
        match self.number % 7 {
            0 => Weekday::Sunday,
            1 => Weekday::Monday,
            2 => Weekday::Tuesday,
            3 => Weekday::Wednesday,
            4 => Weekday::Thursday,
            5 => Weekday::Friday,
            _ => Weekday::Saturday,
        }
    }

    /// Returns the day that many days later, or earlier for a negative number, or `None` if that is
    /// off the line.
    pub fn plus(self, days: i32) -> Option<Day>
        ensures on_line { IsSome result ↔ IsOnLine newest_rules (pos self +ℤ days) }
        ensures value { IfSome result (λ d. pos d ≡ pos self +ℤ days) }
    {
        Day::new(i64::from(self.number) + i64::from(days))
    }
}

/// The law of the constants: they are the ends of the line. Nothing calls it.
fn ends() -> (Day, Day)
    ensures first { result.0 ≡ 1 }
    ensures last { result.1 ≡ newest_rules.high }
{
    (Day::FIRST, Day::LAST)
}
