//! The two dates of a day by both calendars, as parts write them: `3/13 June 1675`.
ghost use Rattle.std.specs.Prelude.{◌≡◌};
ghost use Rattle.osn_grammar.specs.BothCalendars as spec;

use crate::forms::year_numbers;
use crate::simple::{YearNumbers, is_long};
use crate::token::Numeral;
use crate::token::Token::{self, Month, Number, Round, Slash, Weekday};
use osn_written::MonthDay;

/// The years that are written with two dates.
#[derive(Clone, Copy)]
pub enum WrittenYears {
    /// One for both of them, which may be a double year.
    Shared(YearNumbers),
    /// One for each of them.
    Each(Numeral, Numeral),
}

/// Two dates with a `/` between them.
#[derive(Clone, Copy)]
pub struct TwoDates {
    pub old: MonthDay,
    pub new: MonthDay,
    pub years: WrittenYears,
}

/// Returns a day of a month, if a number of one or two digits is 1 to 31.
fn month_day(month: u8, day: Numeral) -> Option<MonthDay>
    ensures { result ≡ spec.month_day month day }
{
    if is_long(day) || day.value < 1 || day.value > 31 {
        None
    } else {
        Some(MonthDay {
            month,
            day: day.value as u8,
        })
    }
}

/// Returns the day of a month that a number and the name of a month are, if they are one.
fn day_and_month(day: Token, month: Token) -> Option<MonthDay>
    ensures { result ≡ spec.day_and_month day month }
{
    match (day, month) {
        (Number(day), Month(month)) => month_day(month, day),
        _ => None,
    }
}

/// Returns two dates of these days and years.
fn two_dates(
    old: Option<MonthDay>,
    new: Option<MonthDay>,
    years: Option<WrittenYears>,
) -> Option<TwoDates>
    ensures { result ≡ spec.two_dates old new years }
{
    Some(TwoDates {
        old: old?,
        new: new?,
        years: years?,
    })
}

/// Returns the one year of two dates that parts are, if they are a year.
fn shared_by_both(years: &[Token]) -> Option<WrittenYears>
    ensures { result ≡ spec.shared_by_both years.now }
{
    Some(WrittenYears::Shared(year_numbers(years)?))
}

/// Returns the two dates of parts that are two days and then their month: `3/13 June 1675`.
fn before_their_month(tokens: &[Token]) -> Option<TwoDates>
    ensures { result ≡ spec.before_their_month tokens.now }
{
    match tokens {
        [old, Slash, new, month, years @ ..] => two_dates(
            day_and_month(*old, *month),
            day_and_month(*new, *month),
            shared_by_both(years),
        ),
        _ => None,
    }
}

/// Returns the two dates of parts that are a month and then its two days: `June 3/13, 1675`.
fn after_their_month(tokens: &[Token]) -> Option<TwoDates>
    ensures { result ≡ spec.after_their_month tokens.now }
{
    match tokens {
        [month, old, Slash, new, years @ ..] => two_dates(
            day_and_month(*old, *month),
            day_and_month(*new, *month),
            shared_by_both(years),
        ),
        _ => None,
    }
}

/// Returns the two dates of parts that are two days with their months: `28 May/7 June 1675`.
fn with_months(tokens: &[Token]) -> Option<TwoDates>
    ensures { result ≡ spec.with_months tokens.now }
{
    match tokens {
        [old, month, Slash, new, other, years @ ..] => two_dates(
            day_and_month(*old, *month),
            day_and_month(*new, *other),
            shared_by_both(years),
        ),
        _ => None,
    }
}

/// Returns the two dates of parts that are two months with their days: `Sept. 24/Oct. 4, 1657`.
fn with_days(tokens: &[Token]) -> Option<TwoDates>
    ensures { result ≡ spec.with_days tokens.now }
{
    match tokens {
        [month, old, Slash, other, new, years @ ..] => two_dates(
            day_and_month(*old, *month),
            day_and_month(*new, *other),
            shared_by_both(years),
        ),
        _ => None,
    }
}

/// Returns the years of two dates that parts are, if each one is a number.
fn year_of_each(first: Token, last: Token) -> Option<WrittenYears>
    ensures { result ≡ spec.year_of_each first last }
{
    match (first, last) {
        (Number(first), Number(last)) => Some(WrittenYears::Each(first, last)),
        _ => None,
    }
}

/// Returns the two dates of parts that are two days with their years:
/// `27 Dec. 1675/6 Jan. 1676`.
fn with_years(tokens: &[Token]) -> Option<TwoDates>
    ensures { result ≡ spec.with_years tokens.now }
{
    match tokens {
        [old, month, first, Slash, new, other, last] => two_dates(
            day_and_month(*old, *month),
            day_and_month(*new, *other),
            year_of_each(*first, *last),
        ),
        _ => None,
    }
}

/// Returns the two dates of parts that are two months with their days and years:
/// `Dec. 27, 1675/Jan. 6, 1676`.
fn with_days_and_years(tokens: &[Token]) -> Option<TwoDates>
    ensures { result ≡ spec.with_days_and_years tokens.now }
{
    match tokens {
        [month, old, first, Slash, other, new, last] => two_dates(
            day_and_month(*old, *month),
            day_and_month(*new, *other),
            year_of_each(*first, *last),
        ),
        _ => None,
    }
}

/// Returns the first of two.
fn or_dates(first: Option<TwoDates>, other: Option<TwoDates>) -> Option<TwoDates>
    ensures { result ≡ spec.or_dates first other }
{
    match first {
        Some(dates) => Some(dates),
        None => other,
    }
}

/// Returns whether parts begin with a number before one in round brackets, after a weekday or a
/// month or after nothing.
fn begin_round(tokens: &[Token]) -> bool
    ensures { result ≡ spec.begin_round tokens.now }
{
    match tokens {
        [Number(_), Round, ..] => true,
        [Month(_), Number(_), Round, ..] => true,
        [Weekday(_), Number(_), Round, ..] => true,
        _ => false,
    }
}

/// Returns the two dates of parts that are two numbers beside their month: `3 (13) June 1675`.
fn beside(tokens: &[Token]) -> Option<TwoDates>
    ensures { result ≡ spec.beside tokens.now }
{
    match tokens {
        [Month(month), old, new, years @ ..] => two_dates(
            day_and_month(*old, Month(*month)),
            day_and_month(*new, Month(*month)),
            shared_by_both(years),
        ),
        [old, new, month, years @ ..] => two_dates(
            day_and_month(*old, *month),
            day_and_month(*new, *month),
            shared_by_both(years),
        ),
        _ => None,
    }
}

/// Returns two dates, if the second one is in round brackets.
fn if_round(tokens: &[Token], dates: Option<TwoDates>) -> Option<TwoDates>
    ensures { result ≡ spec.if_round tokens.now dates }
{
    match dates {
        Some(dates) if begin_round(tokens) => Some(dates),
        _ => None,
    }
}

/// Returns the two dates that parts are, each with its month.
fn months_between(tokens: &[Token]) -> Option<TwoDates>
    ensures { result ≡ spec.months_between tokens.now }
{
    or_dates(
        or_dates(with_months(tokens), with_years(tokens)),
        or_dates(with_days(tokens), with_days_and_years(tokens)),
    )
}

/// Returns the two dates that parts are, if they are two with a `/` between them.
fn slashed_dates(tokens: &[Token]) -> Option<TwoDates>
    ensures { result ≡ spec.slashed_dates tokens.now }
{
    or_dates(
        or_dates(before_their_month(tokens), after_their_month(tokens)),
        months_between(tokens),
    )
}

/// Returns the two dates that parts are, if they are two with a `/` between them or with the second
/// one in round brackets. The parts `time_tokens` are those that say which day is meant.
pub fn dates_in(tokens: &[Token], time_tokens: &[Token]) -> Option<TwoDates>
    ensures { result ≡ spec.dates_in tokens.now time_tokens.now }
{
    or_dates(
        slashed_dates(time_tokens),
        if_round(tokens, beside(time_tokens)),
    )
}
