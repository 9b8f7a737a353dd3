//! A day by both calendars, such as `3/13 June 1675`: its Julian date and its Gregorian one.
ghost use Rattle.std.specs.Prelude.{◌≡◌, ◌≤◌};
ghost use Rattle.std.specs.Option.{option_to_list};
ghost use Rattle.osn_days.specs.Rules.{newest_rules};
ghost use Rattle.osn_territory.specs.Style as style;
ghost use Rattle.osn_grammar.specs.BothCalendars as spec;

use crate::date_pairs::{TwoDates, WrittenYears, dates_in};
use crate::named_calendars::are_named;
use crate::simple::{YearNumbers, one, year_of};
use crate::token::Token;
use crate::two_days::{date_in_other, two_days};
use osn_days::{Calendar, Date};
use osn_written::{DateFault, MonthDay, PartialDate, Reckoning, Year};

/// A date of the day, and by which calendar it is.
#[derive(Clone, Copy)]
pub struct ReckonedDay {
    pub date: PartialDate,
    pub reckoning: Reckoning,
}

/// Returns whether a day is from 1 January to 24 March, so that two years may be written for it.
fn is_early(date: MonthDay) -> bool
    ensures { result ≡ style.is_before_25_march date.month date.day }
{
    date.month < 3 || date.month == 3 && date.day < 25
}

/// Returns the later year of a double one.
fn later_of(year: Year) -> Year
    requires { year.first ≤ 10000 }
    ensures { result ≡ spec.later_of year }
{
    Year {
        first: year.first + 1,
        is_double: false,
        has_three_digits: year.has_three_digits,
    }
}

/// Returns the Gregorian year of two dates with one year, if it is sure: it is double if a date is
/// from 1 January to 24 March, and otherwise it is not.
fn shared_year(is_early: bool, years: YearNumbers) -> Option<Year>
    ensures { result ≡ spec.shared_year is_early years }
{
    match year_of(years) {
        Ok(year) if is_early && year.is_double => Some(later_of(year)),
        Ok(year) if !is_early && !year.is_double => Some(year),
        _ => None,
    }
}

/// Returns the Gregorian year of two dates, if it is sure.
fn gregorian_year(dates: TwoDates) -> Option<Year>
    ensures { result ≡ spec.gregorian_year dates }
{
    match dates.years {
        WrittenYears::Shared(years) => {
            shared_year(is_early(dates.old) || is_early(dates.new), years)
        }
        WrittenYears::Each(_, last) => year_of(one(last)).ok(),
    }
}

/// Returns the Julian date of a Gregorian one, if it is on the line of days.
fn julian_date(year: u16, date: MonthDay) -> Option<Date>
    ensures { option_to_list result ≡ spec.julian_dates newest_rules year date }
{
    date_in_other(Calendar::Gregorian, Calendar::Julian, i32::from(year), date)
}

/// Returns whether a year that is written for a Julian date is its year, or the one before if it is
/// from 1 January to 24 March.
fn has_year(date: Date, old: MonthDay, years: WrittenYears) -> bool
    ensures { result ≡ spec.has_year date old years }
{
    match years {
        WrittenYears::Shared(_) => true,
        WrittenYears::Each(first, _) => {
            let year = i64::from(date.year);
            let written = i64::from(first.value);
            year == written || is_early(old) && year == written + 1
        }
    }
}

/// Returns whether a Julian date is the first one of two.
fn is_old(date: Date, dates: TwoDates) -> bool
    ensures { result ≡ spec.is_old dates date }
{
    date.month == dates.old.month
        && date.day == dates.old.day
        && has_year(date, dates.old, dates.years)
}

/// Returns whether two dates are those of one day, if the second one is of this year.
fn are_one_day(year: Year, dates: TwoDates) -> bool
    ensures { result ≡ spec.are_one_day newest_rules year dates }
{
    match julian_date(year.first, dates.new) {
        Some(date) => is_old(date, dates),
        None => false,
    }
}

/// Returns a day of a year by one of the calendars.
fn reckoned_day(year: Year, day: MonthDay, reckoning: Reckoning) -> ReckonedDay
    ensures { result ≡ spec.reckoned_day year day reckoning }
{
    ReckonedDay {
        date: PartialDate::Day {
            year,
            month: day.month,
            day: day.day,
        },
        reckoning,
    }
}

/// Returns the first of two dates by the old calendar, if they are one day both in this year and in
/// the next one: in either of them the place may have begun to count it.
fn in_own_year(dates: TwoDates, year: Year) -> Result<ReckonedDay, DateFault>
    requires { year.first ≤ 10000 }
    ensures { result ≡ spec.in_own_year newest_rules dates year }
{
    let is_own = are_one_day(year, dates);
    let is_next = are_one_day(later_of(year), dates);
    if is_own && is_next {
        Ok(reckoned_day(year, dates.old, Reckoning::OldStyle))
    } else if is_own || is_next {
        Err(DateFault::BothCalendars)
    } else {
        Err(two_days(year.first, dates.old, dates.new))
    }
}

/// Returns whether two dates are of one year, and the first one is from 1 January to 24 March.
fn are_of_one_year(dates: TwoDates) -> bool
    ensures { result ≡ spec.are_of_one_year dates }
{
    is_early(dates.old) && dates.old.month <= dates.new.month
}

/// Returns the first of two dates by the old calendar, in the place's own year: `16/26 Febr. 1690`.
fn day_of_own_year(dates: TwoDates) -> Result<ReckonedDay, DateFault>
    ensures { result ≡ spec.day_of_own_year newest_rules dates dates.years }
{
    match dates.years {
        WrittenYears::Shared(years) => match year_of(years) {
            Ok(year) if are_of_one_year(dates) && !year.is_double => in_own_year(dates, year),
            _ => Err(DateFault::BothCalendars),
        },
        WrittenYears::Each(_, _) => Err(DateFault::BothCalendars),
    }
}

/// Returns the date of two dates, if they are those of one day: the Gregorian one, or the Julian
/// one if its year is the place's own.
fn day_of_both(dates: TwoDates) -> Result<ReckonedDay, DateFault>
    ensures { result ≡ spec.day_of_both newest_rules dates }
{
    match gregorian_year(dates) {
        Some(year) if are_one_day(year, dates) => {
            Ok(reckoned_day(year, dates.new, Reckoning::NewStyle))
        }
        Some(year) => Err(two_days(year.first, dates.old, dates.new)),
        None => day_of_own_year(dates),
    }
}

/// Returns the date of the day that parts are by both calendars, or why it is not sure. Parts of
/// another form are `Malformed`. The parts `time_tokens` are those that say which day is meant.
pub fn day_by_both(tokens: &[Token], time_tokens: &[Token]) -> Result<ReckonedDay, DateFault>
    ensures { result ≡ spec.day_by_both newest_rules tokens.now time_tokens.now }
{
    match dates_in(tokens, time_tokens) {
        Some(dates) => day_of_both(dates),
        None => Err(DateFault::Malformed),
    }
}

/// Returns the date of the day that parts are by both calendars, each of which is named beside its
/// date: `3 June O.S./13 June N.S. 1675`.
pub fn named_day(tokens: &[Token], time_tokens: &[Token]) -> Result<ReckonedDay, DateFault>
    ensures { result ≡ spec.named_day newest_rules tokens.now time_tokens.now }
{
    if are_named(tokens) {
        day_by_both(tokens, time_tokens)
    } else {
        Err(DateFault::Malformed)
    }
}
