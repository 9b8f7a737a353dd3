//! Reports on standard error an argument that is wrong, and what may be meant.
ghost use Rattle.std.specs.Prelude.{◌≡◌, ◌++◌, find, map, IfOk, OnOk, option_map, string_bytes};
ghost use Rattle.osn_lines.specs.Streams.{output_of};
ghost use Rattle.osn_lines.specs.Near.{is_near as is_name_near};
ghost use Rattle.osn_page_commands.specs.DateHint as spec;
ghost use Rattle.osn_page_commands.specs.Pieces.{pieces};

use crate::date_advice::{
    push_empty_help, push_form_help, push_month_help, push_order_help, push_year_help,
};
use crate::month_word::month_in_date;
use osn_grammar::parse_day;
use osn_lines::{EscapedText, Sink, is_near};
use osn_report::{Misuse, Status, misuse_line, report_line};
use osn_written::{DateFault, parts_at};
use std::alloc::{AllocError, Global};

/// The names that are suggested.
const NAMES: [&str; 19] = [
    "January",
    "February",
    "March",
    "April",
    "May",
    "June",
    "July",
    "August",
    "September",
    "October",
    "November",
    "December",
    "Sunday",
    "Monday",
    "Tuesday",
    "Wednesday",
    "Thursday",
    "Friday",
    "Saturday",
];

/// The words that name a calendar, or the number of a day.
const CALENDARS: [&str; 5] = ["gregorian", "julian", "swedish", "day", "jdn"];

/// The words that name an order.
const ORDERS: [&str; 2] = ["dmy", "mdy"];

/// The words that name a separator.
const SEPARATORS: [&str; 3] = ["comma", "semicolon", "tab"];

/// Returns whether a date may have the word as its month or its weekday.
fn is_date_word(alloc: Global, word: &str) -> Result<bool, AllocError>
    ensures { IfOk result (λ is. is ≡ spec.is_date_word word.now) }
{
    if month_in_date(alloc, word)?.is_some() {
        return Ok(true);
    }
    let text = format!(in alloc; "{word} 1 January 2000")?;
    Ok(parse_day(alloc, text.as_str())?.is_ok())
}

/// Returns the first of these names that is near a word, and no further than `most`.
fn first_near(
    alloc: Global,
    most: usize,
    word: &str,
    names: &[&'static str],
) -> Result<Option<&'static str>, AllocError>
    ensures { IfOk result (λ found. option_map (λ name. name.now) found
        ≡ find (is_name_near most word.now) (map (λ name. name.now) names.now)) }
{
    for name in names {
        if is_near(alloc, most, word, name)? {
            return Ok(Some(name));
        }
    }
    Ok(None)
}

/// Returns the first name that is near a word, and no further than `most`.
fn first_name(alloc: Global, most: usize, word: &str) -> Result<Option<&'static str>, AllocError>
    ensures { IfOk result (λ found. option_map (λ name. name.now) found
        ≡ find (is_name_near most word.now) spec.date_names) }
{
    first_near(alloc, most, word, &NAMES)
}

/// Returns the nearest name of a word that no date has, if one is near.
#[tactic(auto, unfolding(crate::specs::DateHint::nearest_name))]
fn nearest_name(alloc: Global, word: &str) -> Result<Option<&'static str>, AllocError>
    ensures { IfOk result (λ found.
        option_map (λ name. name.now) found ≡ spec.nearest_name word.now) }
{
    if is_date_word(alloc, word)? {
        return Ok(None);
    }
    match first_name(alloc, 1, word)? {
        Some(name) => Ok(Some(name)),
        None => first_name(alloc, 2, word),
    }
}

/// Returns the first word of a text that has a nearest name, with that name.
fn first_hint<'a>(
    alloc: Global,
    text: &'a str,
) -> Result<Option<(&'a str, &'static str)>, AllocError>
    ensures { IfOk result (λ hint. option_map (λ x. (x.0.now, x.1.now)) hint
        ≡ spec.first_hint (pieces 32 text.now)) }
{
    let mut rest = text;
    while let Some((word, further)) = parts_at(rest, ' ') {
        match nearest_name(alloc, word)? {
            Some(name) => return Ok(Some((word, name))),
            None => rest = further,
        }
    }
    match nearest_name(alloc, rest)? {
        Some(name) => Ok(Some((rest, name))),
        None => Ok(None),
    }
}

/// Appends the line on the first word of a text that has a nearest name, if one has.
fn push_name_help(lines: &mut String, alloc: Global, text: &str) -> Result<(), AllocError>
    ensures { OnOk result (string_bytes lines.new
        ≡ string_bytes lines.old ++ spec.name_help text.now) }
{
    match first_hint(alloc, text)? {
        Some((word, name)) => writeln!(lines, "help: {}: did you mean {name}?", EscapedText(word)),
        None => Ok(()),
    }
}

/// Returns the first of these names that is near a word: one step away, or else two.
fn nearest_other(
    alloc: Global,
    word: &str,
    names: &[&'static str],
) -> Result<Option<&'static str>, AllocError>
    ensures { IfOk result (λ found. option_map (λ name. name.now) found
        ≡ spec.nearest_other (map (λ name. name.now) names.now) word.now) }
{
    match first_near(alloc, 1, word, names)? {
        Some(name) => Ok(Some(name)),
        None => first_near(alloc, 2, word, names),
    }
}

/// Returns the nearest of these names, if one is near a word.
fn nearest_of(
    alloc: Global,
    word: &str,
    names: &[&'static str],
) -> Result<Option<&'static str>, AllocError>
    ensures { IfOk result (λ found. option_map (λ name. name.now) found
        ≡ spec.nearest_of (map (λ name. name.now) names.now) word.now) }
{
    match first_near(alloc, 0, word, names)? {
        Some(name) => Ok(Some(name)),
        None => nearest_other(alloc, word, names),
    }
}

/// Appends the line on a word that is not one of these, if one of them is near.
fn push_word_help(
    lines: &mut String,
    alloc: Global,
    names: &[&'static str],
    word: &str,
) -> Result<(), AllocError>
    ensures { OnOk result (string_bytes lines.new ≡ string_bytes lines.old
        ++ spec.word_help (map (λ name. name.now) names.now) word.now) }
{
    match nearest_of(alloc, word, names)? {
        Some(name) => writeln!(lines, "help: {}: did you mean {name}?", EscapedText(word)),
        None => Ok(()),
    }
}

/// Appends the line on the first word of a text that has a nearest name, or else on what is missing
/// or too much in it.
fn push_date_help(lines: &mut String, alloc: Global, text: &str) -> Result<(), AllocError>
    ensures { OnOk result (string_bytes lines.new
        ≡ string_bytes lines.old ++ spec.date_help text.now) }
{
    match first_hint(alloc, text)? {
        Some((word, name)) => writeln!(lines, "help: {}: did you mean {name}?", EscapedText(word)),
        None => push_form_help(lines, alloc, text),
    }
}

/// Appends the line on what may be meant, if there is one.
fn push_help(
    lines: &mut String,
    alloc: Global,
    misuse: Misuse,
    argument: &str,
) -> Result<(), AllocError>
    ensures { OnOk result (string_bytes lines.new
        ≡ string_bytes lines.old ++ spec.misuse_help misuse argument.now) }
{
    match misuse {
        Misuse::Date(DateFault::Malformed | DateFault::ShortYear) => {
            push_date_help(lines, alloc, argument)
        }
        Misuse::Weekday | Misuse::Month => push_name_help(lines, alloc, argument),
        Misuse::Date(DateFault::Month) => push_month_help(lines, alloc, argument),
        Misuse::Date(DateFault::DayOrMonth) | Misuse::OpenOrder => {
            push_order_help(lines, alloc, argument)
        }
        Misuse::Date(DateFault::Year) => push_year_help(lines, alloc, argument),
        Misuse::Date(DateFault::NoDate) => push_empty_help(lines, argument),
        Misuse::Calendar => push_word_help(lines, alloc, &CALENDARS, argument),
        Misuse::Order => push_word_help(lines, alloc, &ORDERS, argument),
        Misuse::Separator => push_word_help(lines, alloc, &SEPARATORS, argument),
        _ => Ok(()),
    }
}

/// Returns the line on a word, as it was typed, and the one on what may be meant.
pub(crate) fn misuse_lines(
    alloc: Global,
    misuse: Misuse,
    argument: &str,
) -> Result<String, AllocError>
    ensures { IfOk result (λ lines. string_bytes lines ≡ spec.misuse_lines misuse argument.now) }
{
    let mut lines = misuse_line(alloc, misuse, argument)?;
    push_help(&mut lines, alloc, misuse, argument)?;
    Ok(lines)
}

/// Reports on standard error what an argument must be, and what may be meant by it as it was typed.
/// Returns the status.
pub(crate) fn report_word<E: Sink>(
    alloc: Global,
    errors: &mut E,
    misuse: Misuse,
    argument: &str,
) -> Status
    ensures { spec.ReportsWord
        (output_of E.contents E.has_failed E.holds_back errors.old errors.new) misuse argument.now
        result }
{
    report_line(
        errors,
        Status::Misused,
        misuse_lines(alloc, misuse, argument),
    )
}
