//! The Julian calendar by division, in years that begin on 1 March, so that a leap day comes last.
//! January and February are the months 13 and 14 of the year before. Four years have 1461 days.
//! From March and from August five months have 31, 30, 31, 30 and 31 days, 153 in all. So the days
//! of the months before one are 153 fifths of a day for each, and 2 fifths, without the fraction.
ghost use Rattle.std.specs.Prelude.{◌≡◌, pos};
ghost use Rattle.std.specs.Option.{option_to_list};
ghost use Rattle.osn_days.specs.Rules.{newest_rules};
ghost use Rattle.osn_days.specs.Line.{IsYearNumber};
ghost use Rattle.osn_days.specs.Chain as chain;
ghost use Rattle.osn_days.specs.declared.calendar.Calendar.TheVariants.{Julian};

use crate::date::Date;
use crate::day::Day;
use crate::year::Year;

/// The days of four years.
const FOUR_YEARS: u32 = 1_461;

/// The days of five months from March or from August.
const FIVE_MONTHS: u32 = 153;

/// The days from 1 March of year 0 to the day before day 1.
const DAYS_BEFORE: u32 = 308;

/// Returns the date of a day.
pub fn date_of(day: Day) -> Date
    ensures value { result ≡ chain.date_of Julian day }
    ensures year { IsYearNumber newest_rules result.year }
{
    // Four times the days since 1 March of year 0, and 3 more, so that of four years from March on
    // the last is the longest.
    let quarters = 4 * (day.number() + DAYS_BEFORE) - 1;
    let year = quarters / FOUR_YEARS;
    let fifths = 5 * (quarters % FOUR_YEARS / 4) + 2;
    let month = fifths / FIVE_MONTHS + 3;
    let day = (fifths % FIVE_MONTHS / 5 + 1) as u8;
    if month > 12 {
        Date {
            year: year as i32 + 1,
            month: (month - 12) as u8,
            day,
        }
    } else {
        Date {
            year: year as i32,
            month: month as u8,
            day,
        }
    }
}

/// Returns the one day that has the date, or `None` if no day of the line has it.
pub fn day_of(date: Date) -> Option<Day>
    ensures { option_to_list result ≡ chain.days_with_date newest_rules Julian date }
{
    let year = Year::new(i64::from(date.year))?;
    if date.month < 1 || date.month > 12 {
        return None;
    }
    if date.day < 1 || date.day > month_length(year, date.month) {
        return None;
    }
    let (year, month) = if date.month > 2 {
        (year.number(), u32::from(date.month))
    } else {
        (year.number() - 1, u32::from(date.month) + 12)
    };
    let days_of_months = (FIVE_MONTHS * (month - 3) + 2) / 5;
    let days = FOUR_YEARS * year / 4 + days_of_months + u32::from(date.day);
    Day::new(i64::from(days) - i64::from(DAYS_BEFORE))
}

fn month_length(year: Year, month: u8) -> u8
    ensures { result ≡ chain.month_length Julian (pos year) month }
{
    match month {
        2 => { if year.number() % 4 == 0 { 29 } else { 28 } }
        4 | 6 | 9 | 11 => 30,
        _ => 31,
    }
}
