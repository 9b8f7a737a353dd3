//! What the words of `read` ask for: the page on a date, or on the dates of an input.
ghost use Rattle.std.specs.Prelude.{◌≡◌, option_map, IfOk};
ghost use Rattle.osn_page_commands.specs.PageRequest as spec;

use crate::order::order_of_word;
use crate::page_request::{Form, LineRules, Topic, territory_topic};
use osn_days::Weekday;
use osn_grammar::{TextReading, read_date};
use osn_pages::Page;
use osn_report::Misuse;
use osn_written::{AnyDate, DateFault, weekday_named};
use std::alloc::{AllocError, Global};

/// Returns the date that was read from a text, which must contain one that is not a set.
pub(crate) fn any_date_or_misuse(date: Result<TextReading, DateFault>) -> Result<AnyDate, Misuse>
    ensures { result ≡ spec.any_date_or_misuse date }
{
    match date {
        Ok(TextReading::Date(date)) => Ok(date),
        Ok(TextReading::Set) => Err(Misuse::Date(DateFault::NotOneDay)),
        Ok(TextReading::NoDate) => Err(Misuse::Date(DateFault::NoDate)),
        Err(DateFault::DayOrMonth) => Err(Misuse::OpenOrder),
        Err(fault) => Err(Misuse::Date(fault)),
    }
}

/// Returns the weekday of a name, if there is a name.
fn weekday_of_word(name: Option<&str>) -> Result<Option<Weekday>, Misuse>
    ensures { result ≡ spec.weekday_of_word (option_map (λ name. name.now) name.entry) }
{
    match name {
        None => Ok(None),
        Some(name) => Ok(Some(weekday_named(name).ok_or(Misuse::Weekday)?)),
    }
}

/// Returns the weekday that is given beside a date, unless the date names another one.
fn weekday_beside(
    date_weekday: Option<Weekday>,
    weekday: Option<Weekday>,
) -> Result<Option<Weekday>, Misuse>
    ensures { result ≡ spec.weekday_beside date_weekday weekday }
{
    match (date_weekday, weekday) {
        (Some(date_weekday), Some(weekday)) if date_weekday.name() != weekday.name() => {
            Err(Misuse::OtherWeekday(date_weekday))
        }
        _ => Ok(weekday),
    }
}

/// Returns the reading of a date that was asked for, by the weekday of that name, if there is a
/// name.
fn reading_of(date: Result<AnyDate, Misuse>, name: Option<&str>) -> Result<Page, Misuse>
    ensures { result ≡ spec.reading_of date (option_map (λ name. name.now) name.entry) }
{
    let date = date?;
    let weekday = weekday_of_word(name)?;
    Ok(Page::Reading {
        date,
        weekday: weekday_beside(date.weekday, weekday)?,
    })
}

/// Returns the reading of a date, by the weekday that is given beside it, if any.
pub(crate) fn reading_beside(
    date: Result<AnyDate, Misuse>,
    weekday: Option<Weekday>,
) -> Result<Page, Misuse>
    ensures { result ≡ spec.reading_beside date weekday }
{
    let date = date?;
    Ok(Page::Reading {
        date,
        weekday: weekday_beside(date.weekday, weekday)?,
    })
}

/// Returns the page on a set of dates, by the weekday of that name, if there is a name.
fn topic_of_set(name: Option<&str>, form: Form) -> Result<Topic, Misuse>
    ensures { result ≡ spec.topic_of_set (option_map (λ name. name.now) name.entry) form }
{
    Ok(Topic::Set {
        weekday: weekday_of_word(name)?,
        form,
    })
}

/// Returns the page on what was read from a text, by the weekday of that name, if there is a name.
fn topic_of_read(
    date: Result<TextReading, DateFault>,
    name: Option<&str>,
    form: Form,
) -> Result<Topic, Misuse>
    ensures { result
        ≡ spec.topic_of_read date (option_map (λ name. name.now) name.entry) form }
{
    match date {
        Ok(TextReading::Set) => topic_of_set(name, form),
        _ => territory_topic(reading_of(any_date_or_misuse(date), name), form),
    }
}

/// Returns the reading of a date that was asked for, by the word of the order of its numbers and by
/// the weekday of that name, if there are any.
fn topic_of_reading(
    alloc: Global,
    text: &str,
    weekday: Option<&str>,
    order: Option<&str>,
    form: Form,
) -> Result<Result<Topic, Misuse>, AllocError>
    ensures { IfOk result (λ topic. topic ≡ spec.topic_of_reading text.now
        (option_map (λ name. name.now) weekday.entry) (option_map (λ word. word.now) order.entry)
        form) }
{
    match order_of_word(order) {
        Ok(order) => {
            let date = read_date(alloc, text, order)?;
            Ok(topic_of_read(date, weekday, form))
        }
        Err(misuse) => Ok(Err(misuse)),
    }
}

/// Returns the readings of the dates of an input, a date a line, by the same words.
fn topic_of_lines(weekday: Option<&str>, order: Option<&str>, form: Form) -> Result<Topic, Misuse>
    ensures { result ≡ spec.topic_of_lines (option_map (λ name. name.now) weekday.entry)
        (option_map (λ word. word.now) order.entry) form }
{
    Ok(Topic::Dates(LineRules {
        order: order_of_word(order)?,
        weekday: weekday_of_word(weekday)?,
        form,
    }))
}

/// Returns the reading of a date, or the readings of the lines of the input for `-`.
pub(crate) fn topic_of_date(
    alloc: Global,
    text: &str,
    weekday: Option<&str>,
    order: Option<&str>,
    form: Form,
) -> Result<Result<Topic, Misuse>, AllocError>
    ensures { IfOk result (λ topic. topic ≡ spec.topic_of_date text.now
        (option_map (λ name. name.now) weekday.entry) (option_map (λ word. word.now) order.entry)
        form) }
{
    if text == "-" {
        return Ok(topic_of_lines(weekday, order, form));
    }
    topic_of_reading(alloc, text, weekday, order, form)
}
