//! Simple dates: a day, a month or a year, by the forms in which they are written.
ghost use Rattle.std.specs.Prelude.{◌≡◌, ◌+◌, ◌%◌, ◌^◌, ◌==◌, ◌<◌, ◌≤◌, IfOk};
ghost use Rattle.osn_grammar.specs.Simple as spec;

use crate::order::{is_month, order_of};
use crate::text_reading::DateOrder;
use crate::token::Numeral;
use osn_written::{DateFault, PartialDate, Year};

/// The numbers of a year: its own, and the one after a `/`.
#[derive(Clone, Copy)]
pub struct YearNumbers {
    first: Numeral,
    later: Option<Numeral>,
}

/// Returns a year of one number.
pub fn one(first: Numeral) -> YearNumbers
    ensures { result ≡ spec.one first }
{
    YearNumbers { first, later: None }
}

/// Returns a year of two numbers.
pub fn two(first: Numeral, later: Numeral) -> YearNumbers
    ensures { result ≡ spec.two first later }
{
    YearNumbers {
        first,
        later: Some(later),
    }
}

/// Returns whether a number can only be a year: it has three digits or more.
pub fn is_long(number: Numeral) -> bool
    ensures { result ≡ spec.is_long number }
{
    number.digits >= 3
}

/// Returns whether a year has three digits and no zero before them, so that it may lack its last
/// one.
pub fn lacks_digit(year: Numeral) -> bool
    ensures { result ≡ spec.lacks_digit year }
{
    year.digits == 3 && year.value >= 100
}

/// Returns whether `later` is the last `digits` digits of the year that follows.
pub fn ends_next_year(year: u32, later: u32, digits: u32) -> bool
    requires { year ≤ 10000 }
    ensures { result ≡ (later == (year + 1) % 10 ^ digits) }
{
    later == (year + 1) % 10u32.pow(digits.min(5))
}

/// Returns whether the number after the `/` belongs there, if there is one.
fn has_its_later_year(years: YearNumbers) -> bool
    requires { years.first.value ≤ 10000 }
    ensures { result ≡ spec.has_its_later_year years }
{
    match years.later {
        None => true,
        Some(later) => { ends_next_year(years.first.value, later.value, u32::from(later.digits)) }
    }
}

/// Returns the year of these numbers.
pub fn year_of(years: YearNumbers) -> Result<Year, DateFault>
    ensures value { result ≡ spec.year_of years }
    ensures small { IfOk result (λ year. year.first ≤ 10000) }
{
    if !is_long(years.first) {
        return Err(DateFault::ShortYear);
    }
    if years.first.value > 10000 {
        return Err(DateFault::Year);
    }
    if !has_its_later_year(years) {
        return Err(DateFault::LaterYear);
    }
    Ok(Year {
        first: years.first.value as u16,
        is_double: years.later.is_some(),
        has_three_digits: lacks_digit(years.first),
    })
}

/// Returns the month of a number in a year.
pub fn month_in(year: Year, month: u32) -> Result<PartialDate, DateFault>
    ensures { result ≡ spec.month_in year month }
{
    if !is_month(month) {
        return Err(DateFault::Month);
    }
    Ok(PartialDate::Month {
        year,
        month: month as u8,
    })
}

/// Returns the day of these numbers in a year.
pub fn day_in(year: Year, month: u32, day: u32) -> Result<PartialDate, DateFault>
    ensures { result ≡ spec.day_in year month day }
{
    if !is_month(month) {
        return Err(DateFault::Month);
    }
    if day < 1 || day > 31 {
        return Err(DateFault::Day);
    }
    Ok(PartialDate::Day {
        year,
        month: month as u8,
        day: day as u8,
    })
}

/// Returns the date that is a year.
pub fn whole_year(years: YearNumbers) -> Result<PartialDate, DateFault>
    ensures { result ≡ spec.whole_year years }
{
    Ok(PartialDate::Year(year_of(years)?))
}

/// Returns the date that is a month.
pub fn month_of(years: YearNumbers, month: u32) -> Result<PartialDate, DateFault>
    ensures { result ≡ spec.month_of years month }
{
    month_in(year_of(years)?, month)
}

/// Returns the date that is a day.
fn day_of(years: YearNumbers, month: u32, day: u32) -> Result<PartialDate, DateFault>
    ensures { result ≡ spec.day_of years month day }
{
    day_in(year_of(years)?, month, day)
}

/// Returns the day of a number in a month of a year, if it has one or two digits.
pub fn day_of_month(years: YearNumbers, month: u8, day: Numeral) -> Result<PartialDate, DateFault>
    ensures { result ≡ spec.day_of_month years month day }
{
    if is_long(day) {
        Err(DateFault::Malformed)
    } else {
        day_of(years, u32::from(month), day.value)
    }
}

/// Returns the month of a number in digits, if it has one or two of them.
pub fn month_in_digits(years: YearNumbers, month: Numeral) -> Result<PartialDate, DateFault>
    ensures { result ≡ spec.month_in_digits years month }
{
    if is_long(month) {
        Err(DateFault::Malformed)
    } else {
        month_of(years, month.value)
    }
}

/// Returns the day of two numbers in digits, if each has one or two of them.
pub fn day_in_digits(
    years: YearNumbers,
    month: Numeral,
    day: Numeral,
) -> Result<PartialDate, DateFault>
    ensures { result ≡ spec.day_in_digits years month day }
{
    if is_long(month) || is_long(day) {
        Err(DateFault::Malformed)
    } else {
        day_of(years, month.value, day.value)
    }
}

/// Returns the date of three numbers that ends with its year.
fn by_order(
    order: DateOrder,
    first: Numeral,
    second: Numeral,
    year: Numeral,
) -> Result<PartialDate, DateFault>
    ensures { result ≡ spec.by_order order first second year }
{
    match order {
        DateOrder::Unknown => Err(DateFault::DayOrMonth),
        DateOrder::DayMonth => day_in_digits(one(year), second, first),
        DateOrder::MonthDay => day_in_digits(one(year), first, second),
    }
}

/// Returns the date of three numbers, which begins with its year or ends with it.
pub fn in_order(
    order: DateOrder,
    first: Numeral,
    second: Numeral,
    third: Numeral,
) -> Result<PartialDate, DateFault>
    ensures { result ≡ spec.in_order order first second third }
{
    if is_long(third) && !is_long(first) {
        by_order(order, first, second, third)
    } else {
        day_in_digits(one(first), second, third)
    }
}

/// Returns the date of three numbers with dashes, slashes or blanks between them.
pub fn three_numbers(
    order: DateOrder,
    first: Numeral,
    second: Numeral,
    third: Numeral,
) -> Result<PartialDate, DateFault>
    ensures { result ≡ spec.three_numbers order first second third }
{
    in_order(
        order_of(order, first.value, second.value),
        first,
        second,
        third,
    )
}

/// Returns the date of two numbers with a `/` between them and a year after them.
pub fn year_last(
    order: DateOrder,
    first: Numeral,
    second: Numeral,
    year: Numeral,
) -> Result<PartialDate, DateFault>
    ensures { result ≡ spec.year_last order first second year }
{
    if is_long(year) && !is_long(first) {
        three_numbers(order, first, second, year)
    } else {
        Err(DateFault::Malformed)
    }
}

/// Returns the date of a month's name between two numbers, of which one is the year.
pub fn around_month(first: Numeral, month: u8, last: Numeral) -> Result<PartialDate, DateFault>
    ensures { result ≡ spec.around_month first month last }
{
    if is_long(first) {
        day_of_month(one(first), month, last)
    } else {
        day_of_month(one(last), month, first)
    }
}

/// Returns the month of a year, if the month has two digits.
pub fn year_and_month(year: Numeral, month: Numeral) -> Result<PartialDate, DateFault>
    ensures { result ≡ spec.year_and_month year month }
{
    if month.digits == 2 {
        month_of(one(year), month.value)
    } else {
        Err(DateFault::Malformed)
    }
}

/// Returns the date of a year and the name of a month after it.
pub fn year_and_name(year: Numeral, month: u8) -> Result<PartialDate, DateFault>
    ensures { result ≡ spec.year_and_name year month }
{
    if is_long(year) {
        month_of(one(year), u32::from(month))
    } else {
        Err(DateFault::Malformed)
    }
}

/// Returns the date of two numbers with a `/` between them: a month and its year, or a double year.
pub fn month_or_double_year(first: Numeral, second: Numeral) -> Result<PartialDate, DateFault>
    ensures { result ≡ spec.month_or_double_year first second }
{
    if !is_long(first) && is_long(second) {
        month_of(one(second), first.value)
    } else {
        whole_year(two(first, second))
    }
}

/// Returns the date of a year, a day and the name of a month after them.
pub fn year_and_day(year: Numeral, day: Numeral, month: u8) -> Result<PartialDate, DateFault>
    ensures { result ≡ spec.year_and_day year day month }
{
    if is_long(year) {
        day_of_month(one(year), month, day)
    } else {
        Err(DateFault::Malformed)
    }
}

/// Returns the date of two numbers with a `/` between them before a month: they are a double year,
/// or two days.
pub fn double_year_or_days(
    first: Numeral,
    second: Numeral,
    month: u8,
    day: Numeral,
) -> Result<PartialDate, DateFault>
    ensures { result ≡ spec.double_year_or_days first second month day }
{
    if is_long(first) {
        day_of_month(two(first, second), month, day)
    } else {
        Err(DateFault::BothCalendars)
    }
}
