//! The line on standard error about a text that is almost a date.
ghost use Rattle.std.specs.Prelude.{◌≡◌, ◌++◌, IfOk, OnOk, option_map, string_bytes};
ghost use Rattle.std.specs.Char.{is_ascii_digit};
ghost use Rattle.std.specs.List.{list_any};
ghost use Rattle.osn_grammar.specs.Reading.{read_date as read_in};
ghost use Rattle.osn_written.specs.WrittenDate.{parts_at as parts_in};
ghost use Rattle.osn_page_commands.specs.DateAdvice as spec;

use crate::month_word::month_in_date;
use osn_grammar::{DateOrder, TextReading, parse_day, read_date};
use osn_lines::EscapedText;
use osn_written::{AnyDate, DateFault, Extent, MonthDay, PartialDate, number_of, parts_at};
use std::alloc::{AllocError, Global};

/// Returns whether a text with a year after it is a day.
fn lacks_year(alloc: Global, text: &str) -> Result<bool, AllocError>
    ensures { IfOk result (λ lacks. lacks ≡ spec.lacks_year text.now) }
{
    let dated = format!(in alloc; "{text} 1752")?;
    Ok(parse_day(alloc, dated.as_str())?.is_ok())
}

/// Returns whether a text is a date, by some order of its numbers.
fn is_dated(read: Result<TextReading, DateFault>) -> bool
    ensures { result ≡ spec.is_dated read }
{
    matches!(read, Ok(_) | Err(DateFault::DayOrMonth))
}

/// Returns the first of two parts of a text, if it is a date and a colon is in the other.
fn dated_part<'a>(
    alloc: Global,
    parts: Option<(&'a str, &'a str)>,
) -> Result<Option<&'a str>, AllocError>
    ensures { IfOk result (λ date. option_map (λ date. date.now) date
        ≡ spec.dated_part (option_map (λ x. (x.0.now, x.1.now)) parts.entry)) }
{
    match parts {
        Some((date, time)) if parts_at(time, ':').is_some() => {
            if is_dated(read_date(alloc, date, DateOrder::Unknown)?) {
                Ok(Some(date))
            } else {
                Ok(None)
            }
        }
        _ => Ok(None),
    }
}

/// Returns the date before a time: up to a space, or to the letter T.
fn date_before_time<'a>(alloc: Global, text: &'a str) -> Result<Option<&'a str>, AllocError>
    ensures { IfOk result (λ date.
        option_map (λ date. date.now) date ≡ spec.date_before_time text.now) }
{
    match dated_part(alloc, parts_at(text, ' '))? {
        Some(date) => Ok(Some(date)),
        None => dated_part(alloc, parts_at(text, 'T')),
    }
}

/// Returns whether a digit is in a text.
fn has_digit(text: &str) -> bool
    ensures { result ≡ list_any is_ascii_digit text.now }
{
    text.as_bytes().iter().any(|byte| byte.is_ascii_digit())
}

/// Appends the line on a text without a number.
fn push_number_help(lines: &mut String, text: &str) -> Result<(), AllocError>
    ensures { OnOk result
        (string_bytes lines.new ≡ string_bytes lines.old ++ spec.number_help text.now) }
{
    if has_digit(text) {
        Ok(())
    } else {
        lines.push_str("help: a date has at least a year, such as 1731\n")
    }
}

/// Appends the line on a time behind a date, or else on a text without a number.
fn push_time_help(lines: &mut String, alloc: Global, text: &str) -> Result<(), AllocError>
    ensures { OnOk result (string_bytes lines.new ≡ string_bytes lines.old
        ++ spec.time_or_number (spec.date_before_time text.now) text.now) }
{
    match date_before_time(alloc, text)? {
        Some(date) => writeln!(lines, "help: leave out the time: {}", EscapedText(date)),
        None => push_number_help(lines, text),
    }
}

/// Appends the line on a text that is not a date: its year is missing, it has a time, or it has no
/// number.
pub(crate) fn push_form_help(
    lines: &mut String,
    alloc: Global,
    text: &str,
) -> Result<(), AllocError>
    ensures { OnOk result
        (string_bytes lines.new ≡ string_bytes lines.old ++ spec.form_help text.now) }
{
    if lacks_year(alloc, text)? {
        writeln!(
            lines,
            "help: if the year is missing, write it too, as in {} 1752",
            EscapedText(text)
        )
    } else {
        push_time_help(lines, alloc, text)
    }
}

/// Returns the day and month of a date of one day.
fn day_of_read(read: Result<TextReading, DateFault>) -> Option<MonthDay>
    ensures { result ≡ spec.day_of_read read }
{
    match read {
        Ok(
            TextReading::Date(
                AnyDate {
                    extent: Extent::On(PartialDate::Day { month, day, .. }),
                    ..
                },
            ),
        ) => Some(MonthDay { month, day }),
        _ => None,
    }
}

/// Returns the day and month of a text by an order of its numbers.
fn day_by(alloc: Global, text: &str, order: DateOrder) -> Result<Option<MonthDay>, AllocError>
    ensures { IfOk result (λ day. day ≡ spec.day_of_read (read_in order text.now)) }
{
    Ok(day_of_read(read_date(alloc, text, order)?))
}

/// Appends the line on the days of a text by both orders of its numbers, if it has one.
pub(crate) fn push_order_help(
    lines: &mut String,
    alloc: Global,
    text: &str,
) -> Result<(), AllocError>
    ensures { OnOk result
        (string_bytes lines.new ≡ string_bytes lines.old ++ spec.order_help text.now) }
{
    let first = day_by(alloc, text, DateOrder::DayMonth)?;
    let later = day_by(alloc, text, DateOrder::MonthDay)?;
    match (first, later) {
        (Some(first), Some(later)) => writeln!(
            lines,
            "help: with the day first it is {first}, with the month first {later}"
        ),
        (Some(first), None) => writeln!(
            lines,
            "help: with the day first it is {first}: write the month by its name"
        ),
        (None, Some(later)) => writeln!(
            lines,
            "help: with the month first it is {later}: write the month by its name"
        ),
        (None, None) => Ok(()),
    }
}

/// Returns whether a text is a number with this count of digits.
fn has_digits(text: &str, digits: usize) -> bool
    ensures { result ≡ spec.has_digits text.now digits }
{
    text.len() == digits && number_of(text).is_some()
}

/// Returns whether a text is a year of four digits, a hyphen and two digits.
fn is_short_range(parts: Option<(&str, &str)>) -> bool
    ensures { result
        ≡ spec.is_short_range (option_map (λ x. (x.0.now, x.1.now)) parts.entry) }
{
    match parts {
        Some((first, later)) => has_digits(first, 4) && has_digits(later, 2),
        None => false,
    }
}

/// Appends the line on a text that has no month from 1 to 12.
pub(crate) fn push_month_help(
    lines: &mut String,
    alloc: Global,
    text: &str,
) -> Result<(), AllocError>
    ensures { OnOk result
        (string_bytes lines.new ≡ string_bytes lines.old ++ spec.month_help text.now) }
{
    if is_short_range(parts_at(text, '-')) {
        lines.push_str(
            "help: in a range of years write the later year in full, such as 1640-1645\n",
        )
    } else {
        push_order_help(lines, alloc, text)
    }
}

/// Appends the line on a month in the place of a year, if a word is one.
fn push_swapped_help(lines: &mut String, alloc: Global, text: &str) -> Result<(), AllocError>
    ensures { OnOk result
        (string_bytes lines.new ≡ string_bytes lines.old ++ spec.swapped_help text.now) }
{
    if month_in_date(alloc, text)?.is_some() {
        writeln!(
            lines,
            "help: write the year before the month {}",
            EscapedText(text)
        )
    } else {
        Ok(())
    }
}

/// Appends the line on two years with a slash between, or on a month, in the place of one year.
pub(crate) fn push_year_help(
    lines: &mut String,
    alloc: Global,
    text: &str,
) -> Result<(), AllocError>
    ensures { OnOk result (string_bytes lines.new
        ≡ string_bytes lines.old ++ spec.year_help (parts_in 47 text.now) text.now) }
{
    match parts_at(text, '/') {
        None => push_swapped_help(lines, alloc, text),
        Some((first, _)) if number_of(first).is_some() => {
            writeln!(
                lines,
                "help: write the first of the two years alone: {first}"
            )
        }
        Some(_) => Ok(()),
    }
}

/// Appends the line on a date whose text is empty.
pub(crate) fn push_empty_help(lines: &mut String, text: &str) -> Result<(), AllocError>
    ensures { OnOk result
        (string_bytes lines.new ≡ string_bytes lines.old ++ spec.empty_help text.now) }
{
    if text.is_empty() {
        lines.push_str("help: the argument of the date is empty\n")
    } else {
        Ok(())
    }
}
