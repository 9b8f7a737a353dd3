//! Two dates that are not one day, such as `3/14 June 1675`.
ghost use Rattle.std.specs.Prelude.{◌≡◌, ◌≤◌};
ghost use Rattle.std.specs.Option.{option_to_list};
ghost use Rattle.osn_days.specs.Rules.{newest_rules};
ghost use Rattle.osn_grammar.specs.TwoDays as spec;

use osn_days::{Calendar, Date, date_of, day_of};
use osn_written::{DateFault, MonthDay};

/// Returns the date in another calendar of the day that has a date in its own, if it is on the line
/// of days.
pub fn date_in_other(own: Calendar, other: Calendar, year: i32, date: MonthDay) -> Option<Date>
    ensures { option_to_list result ≡ spec.dates_in_other newest_rules own other year date }
{
    let date = Date {
        year,
        month: date.month,
        day: date.day,
    };
    match day_of(own, date) {
        Some(day) => Some(date_of(other, day)),
        None => None,
    }
}

/// Returns the Julian year of the first of two dates, by the Gregorian year of the second one.
fn julian_year(year: u16, old: MonthDay, written: MonthDay) -> i32
    ensures { result ≡ spec.julian_year year old written }
{
    if written.month < old.month {
        i32::from(year) - 1
    } else {
        i32::from(year)
    }
}

/// Returns whether a date is of the day of a month.
fn is_same(written: MonthDay, date: Date) -> bool
    ensures { result ≡ spec.is_same written date }
{
    date.month == written.month && date.day == written.day
}

/// Returns why two dates, of which the second one is of this Gregorian year, are not one day.
pub fn two_days(year: u16, old: MonthDay, written: MonthDay) -> DateFault
    ensures { result ≡ spec.two_days newest_rules year old written }
{
    let year = julian_year(year, old, written);
    match date_in_other(Calendar::Julian, Calendar::Gregorian, year, old) {
        Some(date) if !is_same(written, date) => DateFault::TwoDays {
            old,
            new: MonthDay {
                month: date.month,
                day: date.day,
            },
            written,
        },
        _ => DateFault::BothCalendars,
    }
}
