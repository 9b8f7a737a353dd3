//! The Gregorian calendar, which is `jiff`'s, with the count of the days between two of its dates.
ghost use Rattle.std.specs.Prelude.{◌≡◌, ◌↔◌, pos, IsSome, IfSome};
ghost use Rattle.std.specs.Option.{option_to_list};
ghost use Rattle.osn_days.specs.Rules.{newest_rules};
ghost use Rattle.osn_days.specs.Line.{IsYearNumber};
ghost use Rattle.osn_days.specs.Chain as chain;
ghost use Rattle.jiff_core.specs.Calendar.{IsDate};
ghost use Rattle.jiff_core.specs.Date.{IsYmd};
ghost use Rattle.osn_days.specs.declared.calendar.Calendar.TheVariants.{Gregorian};

use crate::date::Date;
use crate::day::Day;
use jiff::civil;

/// How many days the day before day 1 lies after 1 January of the year -9999, from which `jiff`'s
/// plain dates count.
const DAYS_BEFORE: u32 = 3_652_424;

/// Returns the date of a day.
pub fn date_of(day: Day) -> Date
    ensures value { result ≡ chain.date_of Gregorian day }
    ensures year { IsYearNumber newest_rules result.year }
{
    let date = jiff_core::civil::Date::from_days_since_min(day.number() + DAYS_BEFORE);
    Date {
        year: i32::from(date.year),
        month: date.month,
        day: date.day,
    }
}

/// Returns the date as `jiff` makes it, or `None` if the calendar lacks it or `jiff` its year.
fn civil_date(date: Date) -> Option<civil::Date>
    ensures value { IfSome result (IsYmd date.year (pos date.month) (pos date.day)) }
    ensures exists { IsSome result ↔ IsDate date.year (pos date.month) (pos date.day) }
{
    let year = i16::try_from(date.year).ok()?;
    let month = i8::try_from(date.month).ok()?;
    let day = i8::try_from(date.day).ok()?;
    civil::Date::new(year, month, day).ok()
}

/// Returns the one day that has the date, or `None` if no day of the line has it.
pub fn day_of(date: Date) -> Option<Day>
    ensures { option_to_list result ≡ chain.days_with_date newest_rules Gregorian date }
{
    let days = civil_date(date)?.to_plain().days_since_min();
    Day::new(i64::from(days) - i64::from(DAYS_BEFORE))
}
