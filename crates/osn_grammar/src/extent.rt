//! From when to when a date may be: one date, a range of two, or a bound.
ghost use Rattle.std.specs.Prelude.{◌≡◌, []};
ghost use Rattle.osn_grammar.specs.Extent as spec;

use crate::forms::{date_in_digits, partial_date};
use crate::simple::{day_in, is_long, month_in};
use crate::text_reading::DateOrder;
use crate::token::Numeral;
use crate::token::Token::{
    self, After, And, Before, Between, By, Dash, Dot, Earlier, From, Later, Month, No, Not, Number,
    Open, Or, Slash, Than, To, ToThe,
};
use osn_written::{DateFault, Extent, MonthDay, PartialDate, Year};

/// By which parts the two dates of a range are joined.
#[derive(Clone, Copy)]
enum Joining {
    /// By `to`, `or`, `au`, a dash or a `/`.
    Any,
    /// By `to`, `au` or a dash, after `from`.
    To,
    /// By `and`, after `between`.
    And,
}

/// What the first date of a range says on its own.
#[derive(Clone, Copy)]
enum Beginning {
    Day(u32),
    DayOfMonth { month: u32, day: u32 },
    Month(u8),
    /// A date that lacks nothing, or none.
    Whole,
}

/// Returns a day, or a whole date for a number that can only be a year.
fn lone_day(day: Numeral) -> Beginning
    ensures { result ≡ spec.lone_day day }
{
    if is_long(day) {
        Beginning::Whole
    } else {
        Beginning::Day(day.value)
    }
}

/// Returns a day of a month, or a whole date for a number that can only be a year.
fn day_of_month(month: u32, day: Numeral) -> Beginning
    ensures { result ≡ spec.day_of_month month day }
{
    if is_long(day) {
        Beginning::Whole
    } else {
        Beginning::DayOfMonth {
            month,
            day: day.value,
        }
    }
}

/// Returns what the first date of a range says on its own.
fn beginning_of(tokens: &[Token]) -> Beginning
    ensures { result ≡ spec.beginning_of tokens.now }
{
    match tokens {
        [Number(d)] => lone_day(*d),
        [Number(d), Month(m)] => day_of_month(u32::from(*m), *d),
        [Month(m), Number(d)] => day_of_month(u32::from(*m), *d),
        [Number(d), Dot, Number(m)] if !is_long(*m) => day_of_month(m.value, *d),
        [Month(m)] => Beginning::Month(*m),
        _ => Beginning::Whole,
    }
}

/// Returns the first date of a range, which gets what it lacks from the last one.
fn first_date(
    whole: Result<PartialDate, DateFault>,
    beginning: Beginning,
    last: PartialDate,
) -> Result<PartialDate, DateFault>
    ensures { result ≡ spec.first_date whole beginning last }
{
    match (beginning, last) {
        (Beginning::Day(day), PartialDate::Day { year, month, .. }) => {
            day_in(year, u32::from(month), day)
        }
        (Beginning::DayOfMonth { month, day }, PartialDate::Day { year, .. }) => {
            day_in(year, month, day)
        }
        (Beginning::Month(month), PartialDate::Month { year, .. }) => {
            month_in(year, u32::from(month))
        }
        _ => whole,
    }
}

/// Returns the range of two days of which the last one alone has a year.
fn days_of_year(first: PartialDate, year: Year, last: MonthDay) -> Extent
    ensures { result ≡ spec.days_of_year first year last }
{
    match first {
        PartialDate::Day { month, day, .. } => Extent::DaysOfYear {
            first: MonthDay { month, day },
            last,
            year,
        },
        _ => Extent::FromTo(first, last.in_year(year)),
    }
}

/// Returns the range of two dates, of which the first one began so. A day that gets its year from
/// the last date is a day of that year.
fn from_to(beginning: Beginning, first: PartialDate, last: PartialDate) -> Extent
    ensures { result ≡ spec.from_to beginning first last }
{
    match (beginning, last) {
        (Beginning::Day(_) | Beginning::DayOfMonth { .. }, PartialDate::Day { year, month, day }) =>
            days_of_year(first, year, MonthDay { month, day }),
        _ => Extent::FromTo(first, last),
    }
}

/// Returns whether the first date of a range has no form, on its own or as a beginning.
fn has_no_form(whole: Result<PartialDate, DateFault>, beginning: Beginning) -> bool
    ensures { result ≡ spec.has_no_form whole beginning }
{
    matches!(
        (whole, beginning),
        (Err(DateFault::Malformed), Beginning::Whole)
    )
}

/// Returns the range of two dates.
fn range(order: DateOrder, first: &[Token], last: &[Token]) -> Result<Extent, DateFault>
    ensures { result ≡ spec.range order first.now last.now }
{
    let whole = partial_date(order, first);
    let beginning = beginning_of(first);
    if has_no_form(whole, beginning) {
        return Err(DateFault::Malformed);
    }
    let last = partial_date(order, last)?;
    let first = first_date(whole, beginning, last)?;
    Ok(from_to(beginning, first, last))
}

/// Returns whether parts are an open end.
fn is_open(tokens: &[Token]) -> bool
    ensures { result ≡ spec.is_open tokens.now }
{
    matches!(tokens, [Open])
}

/// Returns a date that is the last possible one.
fn not_after(order: DateOrder, last: &[Token]) -> Result<Extent, DateFault>
    ensures { result ≡ spec.not_after order last.now }
{
    Ok(Extent::NotAfter(partial_date(order, last)?))
}

/// Returns a date that is the first possible one.
fn not_before(order: DateOrder, first: &[Token]) -> Result<Extent, DateFault>
    ensures { result ≡ spec.not_before order first.now }
{
    Ok(Extent::NotBefore(partial_date(order, first)?))
}

/// Returns the range of two dates in digits.
fn range_in_digits(first: &[Token], last: &[Token]) -> Result<Extent, DateFault>
    ensures { result ≡ spec.range_in_digits first.now last.now }
{
    let first = date_in_digits(first)?;
    Ok(Extent::FromTo(first, date_in_digits(last)?))
}

/// Returns whether there are no parts.
fn is_nothing(tokens: &[Token]) -> bool
    ensures { result ≡ spec.is_nothing tokens.now }
{
    matches!(tokens, [])
}

/// Returns a bound, unless its year may lack a digit.
fn unless_short(bound: Extent) -> Result<Extent, DateFault>
    ensures { result ≡ spec.unless_short bound }
{
    if bound.has_year_of_three_digits() {
        Err(DateFault::OpenYear)
    } else {
        Ok(bound)
    }
}

/// Returns a date in digits with nothing before its `/`: the last possible one.
fn nothing_before(last: &[Token]) -> Result<Extent, DateFault>
    ensures { result ≡ spec.nothing_before last.now }
{
    unless_short(Extent::NotAfter(date_in_digits(last)?))
}

/// Returns a date in digits with nothing after its `/`: the first possible one.
fn nothing_after(first: &[Token]) -> Result<Extent, DateFault>
    ensures { result ≡ spec.nothing_after first.now }
{
    unless_short(Extent::NotBefore(date_in_digits(first)?))
}

/// Returns the range of two dates with a `/` between them. Either end may be open.
fn slashed_range(order: DateOrder, first: &[Token], last: &[Token]) -> Result<Extent, DateFault>
    ensures { result ≡ spec.slashed_range order first.now last.now }
{
    if is_open(first) {
        not_after(order, last)
    } else if is_open(last) {
        not_before(order, first)
    } else if is_nothing(first) {
        nothing_before(last)
    } else if is_nothing(last) {
        nothing_after(first)
    } else {
        range_in_digits(first, last)
    }
}

/// Returns whether parts are a year alone.
fn is_whole_year(first: &[Token]) -> bool
    ensures { result ≡ spec.is_whole_year first.now }
{
    match first {
        [Number(y)] | [Number(y), Slash, Number(_)] => is_long(*y),
        _ => false,
    }
}

/// Returns whether parts begin with a number that a dash before it makes a part of the year's date,
/// as in `1698-07-25 - 1699` and `1640-05/1641`.
fn begins_short(last: &[Token]) -> bool
    ensures { result ≡ spec.begins_short last.now }
{
    match last {
        [Number(m), Dash, ..] | [Number(m), Slash, Number(_)] => !is_long(*m),
        _ => false,
    }
}

/// Returns whether a year is the next one after that of a day from January to March.
fn is_next_after(month: u8, year: Numeral, later: Numeral) -> bool
    ensures { result ≡ spec.is_next_after month year later }
{
    month <= 3
        && later.digits == 4
        && is_long(year)
        && year.value <= 10000
        && later.value == year.value + 1
}

/// Returns whether parts are the year after that of a day from January to March.
fn is_year_after(month: u8, year: Numeral, last: &[Token]) -> bool
    ensures { result ≡ spec.is_year_after month year last.now }
{
    match last {
        [Number(later)] => is_next_after(month, year, *later),
        _ => false,
    }
}

/// Returns whether a day and what is after the dash have a double year: `11 Feb. 1699-1700`.
fn is_double_year(first: &[Token], last: &[Token]) -> bool
    ensures { result ≡ spec.is_double_year first.now last.now }
{
    match first {
        [Number(_), Month(m), Number(y)] => is_year_after(*m, *y, last),
        [Month(m), Number(_), Number(y)] => is_year_after(*m, *y, last),
        _ => false,
    }
}

/// Returns the range of two dates with a dash between them.
fn dashed_range(order: DateOrder, first: &[Token], last: &[Token]) -> Result<Extent, DateFault>
    ensures { result ≡ spec.dashed_range order first.now last.now }
{
    if is_whole_year(first) && begins_short(last) || is_double_year(first, last) {
        return Err(DateFault::Malformed);
    }
    range(order, first, last)
}

/// Returns the range that a part joins, if it is one that joins.
fn join_dates(
    order: DateOrder,
    joining: Joining,
    first: &[Token],
    token: Token,
    last: &[Token],
) -> Result<Extent, DateFault>
    ensures { result ≡ spec.join_dates order joining first.now token last.now }
{
    match (joining, token) {
        (Joining::Any, Slash) => slashed_range(order, first, last),
        (Joining::Any | Joining::To, Dash) => dashed_range(order, first, last),
        (Joining::Any, To | Or | ToThe) => range(order, first, last),
        (Joining::To, To | ToThe) => range(order, first, last),
        (Joining::And, And) => range(order, first, last),
        _ => Err(DateFault::Malformed),
    }
}

/// Returns the first of two readings that succeeds, or else the first fault other than `Malformed`.
fn first_read(
    first: Result<Extent, DateFault>,
    other: Result<Extent, DateFault>,
) -> Result<Extent, DateFault>
    ensures { result ≡ spec.first_read first other }
{
    match (first, other) {
        (Ok(extent), _) => Ok(extent),
        (Err(_), Ok(extent)) => Ok(extent),
        (Err(DateFault::Malformed), Err(fault)) => Err(fault),
        (Err(fault), Err(_)) => Err(fault),
    }
}

/// Returns the range that parts are, at the first part that joins two dates.
fn range_in(order: DateOrder, joining: Joining, tokens: &[Token]) -> Result<Extent, DateFault>
    ensures { result ≡ spec.range_after order joining [] tokens.now }
{
    let mut read = Err(DateFault::Malformed);
    let mut place = tokens.len();
    while place > 0 {
        place -= 1;
        let last = &tokens[place + 1..];
        read = first_read(
            join_dates(order, joining, &tokens[..place], tokens[place], last),
            read,
        );
    }
    read
}

/// Returns a reading, or else this fault.
fn or_fault(fault: DateFault, read: Result<Extent, DateFault>) -> Result<Extent, DateFault>
    ensures { result ≡ spec.or_fault fault read }
{
    match read {
        Ok(extent) => Ok(extent),
        Err(_) => Err(fault),
    }
}

/// Returns one date, or a range of two.
#[tactic(auto, unfolding(crate::specs::Extent::date_or_range))]
fn date_or_range(order: DateOrder, tokens: &[Token]) -> Result<Extent, DateFault>
    ensures { result ≡ spec.date_or_range order tokens.now }
{
    match partial_date(order, tokens) {
        Ok(date) => Ok(Extent::On(date)),
        Err(DateFault::Malformed) => range_in(order, Joining::Any, tokens),
        Err(DateFault::LaterYear) => {
            or_fault(DateFault::LaterYear, range_in(order, Joining::Any, tokens))
        }
        Err(fault) => Err(fault),
    }
}

/// Returns the range that parts are after `from`, or the dates from one on.
fn range_or_first(order: DateOrder, dates: &[Token]) -> Result<Extent, DateFault>
    ensures { result ≡ spec.range_or_first order dates.now }
{
    first_read(
        range_in(order, Joining::To, dates),
        not_before(order, dates),
    )
}

/// Returns from when to when parts say that a date may be.
pub fn extent_of(order: DateOrder, tokens: &[Token]) -> Result<Extent, DateFault>
    ensures { result ≡ spec.extent_of order tokens.now }
{
    match tokens {
        [Before, date @ ..] => Ok(Extent::Before(partial_date(order, date)?)),
        [Earlier, Than, date @ ..] => Ok(Extent::Before(partial_date(order, date)?)),
        [After, date @ ..] => Ok(Extent::After(partial_date(order, date)?)),
        [Later, Than, date @ ..] => Ok(Extent::After(partial_date(order, date)?)),
        [Not, Before, date @ ..] => not_before(order, date),
        [Not | No, Earlier, Than, date @ ..] => not_before(order, date),
        [Not, After, date @ ..] => not_after(order, date),
        [Not | No, Later, Than, date @ ..] => not_after(order, date),
        [Or, Before, date @ ..] => not_after(order, date),
        [Or, After, date @ ..] => not_before(order, date),
        [By | To, date @ ..] => not_after(order, date),
        [Between, dates @ ..] => range_in(order, Joining::And, dates),
        [From, dates @ ..] => range_or_first(order, dates),
        _ => date_or_range(order, tokens),
    }
}
