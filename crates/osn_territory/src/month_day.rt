//! The months and days that a calendar has in some year.
ghost use Rattle.std.specs.Prelude.{◌≡◌};
ghost use Rattle.std.specs.List.{list_any};
ghost use Rattle.osn_days.specs.Rules.{newest_rules};
ghost use Rattle.osn_territory.specs.MonthDay as spec;

use crate::period::Period;
use osn_days::{Calendar, Date, day_of};

/// A leap year of each calendar, which in Sweden had a 30 February too. A month and day that a
/// calendar has in any year it has in this one.
const FULLEST_YEAR: i32 = 1712;

/// Returns whether the calendar has the month and day in some year of the line.
fn has_month_day(calendar: Calendar, month: u8, day: u8) -> bool
    ensures { result ≡ spec.has_month_day newest_rules calendar month day }
{
    let date = Date {
        year: FULLEST_YEAR,
        month,
        day,
    };
    day_of(calendar, date).is_some()
}

/// Returns whether some period uses a calendar that has the month and day in some year of the line.
pub(crate) fn some_has_month_day(periods: &[Period], month: u8, day: u8) -> bool
    ensures { result ≡ list_any
        (λ q. spec.has_month_day newest_rules q.regime.calendar month day) periods.now }
{
    periods
        .iter()
        .any(|period| has_month_day(period.regime.calendar, month, day))
}
