//! What the arguments of a command ask for, if none of them is wrong.
ghost use Rattle.std.specs.Prelude.{◌≡◌, true, IfOk, OnErr};
ghost use Rattle.osn_invocation.specs.Invocation.{page_request};
ghost use Rattle.osn_written.specs.WrittenDate.{number_of as number_in};
ghost use Rattle.osn_page_commands.specs.DayNumber.{day_by_number as day_in};
ghost use Rattle.osn_page_commands.specs.MonthWord.{month_takes_memory};
ghost use Rattle.osn_page_commands.specs.PageRequest as spec;

use crate::day_number::{day_by_julian, day_by_number, is_julian_word};
use crate::month_word::month_of_word;
use crate::read_request::topic_of_date;
use osn_days::{Calendar, Day, Keyword, Weekday, Year};
use osn_grammar::{DateOrder, parse_day};
use osn_invocation::PageRequest;
use osn_pages::{Page, day_of_written};
use osn_report::Misuse;
use osn_written::{DateFault, WrittenDate, number_of};
use std::alloc::{AllocError, Global};

/// How the answer to a question about a territory is printed, and how the command ends.
#[derive(Clone, Copy, Debug, PartialEq, Eq)]
pub(crate) struct Form {
    /// Whether a date that means no day ends the command as a refusal does.
    pub(crate) is_strict: bool,
    /// Whether the answer is a line of JSON.
    pub(crate) is_json: bool,
}

/// How each line of an input is read as a date, and printed.
#[derive(Clone, Copy, Debug, PartialEq, Eq)]
pub(crate) struct LineRules {
    /// How a date of three numbers is read.
    pub(crate) order: DateOrder,
    /// The weekday that is given beside each date, if any.
    pub(crate) weekday: Option<Weekday>,
    pub(crate) form: Form,
}

/// The subject of a page.
#[derive(Clone, Copy, Debug, PartialEq, Eq)]
pub(crate) enum Topic {
    /// A year of a territory, as an almanac.
    Almanac(u32),
    /// A year as a territory counted it.
    Year {
        year: Year,
        /// Whether the answers are lines of JSON.
        is_json: bool,
    },
    /// What this page says about a territory.
    Territory {
        page: Page,
        form: Form,
    },
    /// Which days a set of dates means, by its text.
    Set {
        /// The weekday that is given beside it, if any.
        weekday: Option<Weekday>,
        form: Form,
    },
    /// Which days each of several dates means, a date a line.
    Dates(LineRules),
    /// All territories.
    Territories {
        /// Whether the answer is a line of JSON.
        is_json: bool,
    },
}

/// Returns the date of one day that a text contains.
fn date_of_word(alloc: Global, text: &str) -> Result<Result<WrittenDate, Misuse>, AllocError>
    ensures { IfOk result (λ date. date ≡ spec.date_of_word text.now) }
{
    match parse_day(alloc, text)? {
        Ok(date) => Ok(Ok(date)),
        Err(fault) => Ok(Err(Misuse::Date(fault))),
    }
}

/// Returns the day of a date in a calendar.
fn day_of_date(calendar: Calendar, date: WrittenDate) -> Result<Day, Misuse>
    ensures { result ≡ spec.day_of_date calendar date }
{
    if date.is_double {
        return Err(Misuse::DoubleDate);
    }
    day_of_written(calendar, date).ok_or(Misuse::NoSuchDate(calendar))
}

/// A day, and the weekday that is named beside it, if any.
pub(crate) type DayAndWeekday = (Day, Option<Weekday>);

/// Returns the day of a number, which names no weekday.
fn without_weekday(day: Result<Day, Misuse>) -> Result<DayAndWeekday, Misuse>
    ensures { result ≡ spec.without_weekday day }
{
    Ok((day?, None))
}

/// Returns a misuse as `convert` reports it, which asks which number is meant.
fn on_conversion(misuse: Misuse) -> Misuse
    ensures { result ≡ spec.on_conversion misuse }
{
    match misuse {
        Misuse::WhichDayNumber(number) => Misuse::WhichConversion(number),
        _ => misuse,
    }
}

/// Returns the day of a text that is a number.
fn conversion_by_number(text: &str) -> Result<DayAndWeekday, Misuse>
    ensures { result ≡ spec.conversion_by_number (day_in text.now) }
{
    match day_by_number(text) {
        Some(Ok(day)) => Ok((day, None)),
        Some(Err(misuse)) => Err(on_conversion(misuse)),
        None => Err(Misuse::DayNumber),
    }
}

/// Returns the day of a date that was asked for in a calendar, and the weekday that it names, if
/// any.
fn day_and_weekday(
    calendar: Calendar,
    date: Result<WrittenDate, Misuse>,
) -> Result<DayAndWeekday, Misuse>
    ensures { result ≡ spec.day_and_weekday calendar date }
{
    let date = date?;
    Ok((day_of_date(calendar, date)?, date.weekday))
}

/// Returns the day of a date in the calendar of a word, of a number after the word `day`, or of a
/// Julian day number after the word `jdn`. Returns also the weekday that the date names, if any.
pub(crate) fn conversion_of_words(
    alloc: Global,
    word: &str,
    text: &str,
) -> Result<Result<DayAndWeekday, Misuse>, AllocError>
    ensures { IfOk result (λ day. day ≡ spec.conversion_of_words word.now text.now) }
{
    if word == "day" {
        return Ok(conversion_by_number(text));
    }
    if is_julian_word(word) {
        return Ok(without_weekday(day_by_julian(text)));
    }
    match Calendar::from_word(word) {
        Some(calendar) => Ok(day_and_weekday(calendar, date_of_word(alloc, text)?)),
        None => Ok(Err(Misuse::Calendar)),
    }
}

/// Returns the page on the day of a Gregorian date that was asked for.
fn page_of_date(date: Result<WrittenDate, Misuse>) -> Result<Page, Misuse>
    ensures { result ≡ spec.page_of_date date }
{
    page_of_day(day_and_weekday(Calendar::Gregorian, date))
}

/// Returns the page on a day, with the weekday that its date names, if any.
fn page_of_day(day: Result<DayAndWeekday, Misuse>) -> Result<Page, Misuse>
    ensures { result ≡ spec.page_of_day day }
{
    let (day, weekday) = day?;
    Ok(Page::OfDay { day, weekday })
}

/// Returns the page on the day of a number, or of a Gregorian date.
fn day_page_of(alloc: Global, text: &str) -> Result<Result<Page, Misuse>, AllocError>
    ensures value { IfOk result (λ page. page ≡ spec.day_page_of (day_in text.now) text.now) }
    ensures memory { OnErr result (spec.day_takes_memory (day_in text.now) ≡ true) }
{
    match day_by_number(text) {
        Some(day) => Ok(page_of_day(without_weekday(day))),
        None => Ok(page_of_date(date_of_word(alloc, text)?)),
    }
}

/// Returns a year as a territory counts it.
fn year_of_word(text: &str) -> Result<u16, Misuse>
    ensures { result ≡ spec.year_of_word text.now }
{
    match number_of(text) {
        Some(year) if year <= 10_000 => Ok(year as u16),
        _ => Err(Misuse::Date(DateFault::Year)),
    }
}

/// Returns the page on a month.
fn month_page_of(alloc: Global, year: &str, month: &str) -> Result<Result<Page, Misuse>, AllocError>
    ensures value { IfOk result (λ page. page ≡ spec.month_page_of year.now month.now) }
    ensures memory { OnErr result (month_takes_memory (number_in month.now) ≡ true) }
{
    let year = match year_of_word(year) {
        Ok(year) => year,
        Err(misuse) => return Ok(Err(misuse)),
    };
    match month_of_word(alloc, month)? {
        Ok(month) => Ok(Ok(Page::Month { year, month })),
        Err(misuse) => Ok(Err(misuse)),
    }
}

/// Returns the year that a number is, if the year has figures.
fn year_numbered(number: Option<u32>) -> Result<Year, Misuse>
    ensures { result ≡ spec.year_numbered number }
{
    match number {
        Some(number) => Year::new(i64::from(number)).ok_or(Misuse::Year),
        None => Err(Misuse::Year),
    }
}

/// Returns the page on a year.
fn year_topic_of(year: &str, is_json: bool) -> Result<Topic, Misuse>
    ensures { result ≡ spec.year_topic_of year.now is_json }
{
    Ok(Topic::Year {
        year: year_numbered(number_of(year))?,
        is_json,
    })
}

/// Returns a page on a territory, as what is asked for.
pub(crate) fn territory_topic(page: Result<Page, Misuse>, form: Form) -> Result<Topic, Misuse>
    ensures { result ≡ spec.territory_topic page form }
{
    Ok(Topic::Territory { page: page?, form })
}

/// Returns the form of an answer.
fn form_of(is_strict: bool, is_json: bool) -> Form
    ensures { result ≡ spec.form_of is_strict is_json }
{
    Form { is_strict, is_json }
}

/// Returns the subject of the page that the arguments ask for.
pub(crate) fn topic_of_words(
    alloc: Global,
    words: PageRequest<'_>,
) -> Result<Result<Topic, Misuse>, AllocError>
    ensures value { IfOk result (λ topic. topic ≡ spec.topic_of_words (page_request words.entry)) }
    ensures memory { OnErr result (spec.takes_memory (page_request words.entry) ≡ true) }
{
    match words {
        PageRequest::Almanac { year, .. } => Ok(Ok(Topic::Almanac(year))),
        PageRequest::Read {
            date,
            weekday,
            order,
            strict,
            json,
            ..
        } => topic_of_date(alloc, date, weekday, order, form_of(strict, json)),
        PageRequest::Day { date, json, .. } => {
            Ok(territory_topic(day_page_of(alloc, date)?, form_of(false, json)))
        }
        PageRequest::Month {
            year,
            month,
            json,
            ..
        } => Ok(territory_topic(month_page_of(alloc, year, month)?, form_of(false, json))),
        PageRequest::Year { year, json, .. } => Ok(year_topic_of(year, json)),
        PageRequest::Territory { code: None, json } => Ok(Ok(Topic::Territories { is_json: json })),
        PageRequest::Territory {
            code: Some(_),
            json,
        } => Ok(territory_topic(Ok(Page::Periods), form_of(false, json))),
    }
}
