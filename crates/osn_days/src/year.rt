//! The years counted from 1 January by their numbers, with the first and the last.
ghost use Rattle.std.specs.Prelude.{◌≡◌, ◌↔◌, pos, IsSome, IfSome};
ghost use Rattle.osn_days.specs.Rules.{newest_rules};
ghost use Rattle.osn_days.specs.Line.{IsYear, IsYearNumber};

use std::marker::Model;

/// A year counted from 1 January, from 1 to 9999: the years that have figures.
#[derive(Clone, Copy, Debug, PartialEq, Eq, PartialOrd, Ord, Hash)]
pub struct Year {
    number: u32,
}

impl Model for Year {
    ghost use Rattle.std.specs.Prelude.{ℕ};
    ghost use Rattle.osn_days.specs.Rules.{newest_rules};
    ghost use Rattle.osn_days.specs.Line.{IsYear};

    ghost Value = { ℕ };

    ghost view = { λ y. y.number };

    ghost invariant = { λ y. IsYear newest_rules y.number };

    ghost inverse = { λ n. record { number = n } };
}

impl Year {
    /// The first year.
    pub const FIRST: Year = Year { number: 1 };

    /// The last year, whose 31 December Gregorian is the last day of the line.
    pub const LAST: Year = Year { number: 9_999 };

    /// Returns the year of that number, or `None` outside the range.
    pub fn new(number: i64) -> Option<Year>
        ensures in_range { IsSome result ↔ IsYearNumber newest_rules number }
        ensures value { IfSome result (λ y. pos y ≡ number) }
    {
        if number < 1 || number > i64::from(Year::LAST.number) {
            return None;
        }
        Some(Year::in_range(number))
    }

    /// Returns the year of that number, for callers who know that it is in the range: `new` is the
    /// test.
    pub fn in_range(number: i64) -> Year
        requires { IsYearNumber newest_rules number }
        ensures { pos result ≡ number }
    {
        Year {
            number: number as u32,
        }
    }

    /// Returns the number, from 1.
    pub fn number(self) -> u32
        ensures value { result ≡ self }
        ensures in_range { IsYear newest_rules result }
    {
        self.number
    }
}

/// The law of the constants: they are the ends of the range. Nothing calls it.
fn ends() -> (Year, Year)
    ensures first { result.0 ≡ 1 }
    ensures last { result.1 ≡ newest_rules.last_year }
{
    (Year::FIRST, Year::LAST)
}
