//! The Swedish calendar by the Julian. From 1 March 1700 to 29 February 1712 it is a day ahead. The
//! date of a day is that of the next day in the Julian calendar. Then comes 30 February 1712, and
//! the two agree again.
ghost use Rattle.std.specs.Prelude.{◌≡◌};
ghost use Rattle.std.specs.Option.{option_to_list};
ghost use Rattle.osn_days.specs.Rules.{newest_rules};
ghost use Rattle.osn_days.specs.Line.{IsYearNumber};
ghost use Rattle.osn_days.specs.Chain as chain;
ghost use Rattle.osn_days.specs.declared.calendar.Calendar.TheVariants.{Swedish};

use crate::date::Date;
use crate::day::Day;
use crate::julian;

/// The day of 1 March 1700, which is 29 February in the Julian calendar.
const MARCH_1_1700: u32 = 620_617;

/// The day of 30 February 1712, which is 29 February in the Julian calendar.
const FEBRUARY_30_1712: u32 = 625_000;

/// Returns the date of a day.
pub fn date_of(day: Day) -> Date
    ensures value { result ≡ chain.date_of Swedish day }
    ensures year { IsYearNumber newest_rules result.year }
{
    let number = day.number();
    if number == FEBRUARY_30_1712 {
        return Date {
            year: 1712,
            month: 2,
            day: 30,
        };
    }
    if number >= MARCH_1_1700 && number < FEBRUARY_30_1712 {
        return julian::date_of(Day::on_line(i64::from(number + 1)));
    }
    julian::date_of(day)
}

/// Returns the one day that has the date, or `None` if no day of the line has it.
pub fn day_of(date: Date) -> Option<Day>
    ensures { option_to_list result ≡ chain.days_with_date newest_rules Swedish date }
{
    if date.year == 1712 && date.month == 2 && date.day == 30 {
        return Some(Day::on_line(i64::from(FEBRUARY_30_1712)));
    }
    let day = julian::day_of(date)?;
    let number = day.number();
    if number == MARCH_1_1700 {
        return None;
    }
    if number > MARCH_1_1700 && number <= FEBRUARY_30_1712 {
        return Some(Day::on_line(i64::from(number - 1)));
    }
    Some(day)
}
