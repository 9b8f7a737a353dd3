//! What may be meant by a fault of a text of territories, or what to do about it.
ghost use Rattle.std.specs.Prelude.{◌≡◌, ◌++◌, map, IfOk, OnOk, option_map, string_bytes};
ghost use Rattle.osn_register_text.specs.Nearest.{nearest_of as nearest_name};
ghost use Rattle.osn_register_text.specs.FaultHelp as spec;

use crate::fault::{KeyFault, Reason, TextFault, ValueFault};
use crate::key::{Key, Part};
use crate::nearest::nearest_of;
use osn_lines::EscapedText;
use std::alloc::{AllocError, Global};
use std::fmt::Write;

/// The keys of a territory.
const TERRITORY_KEYS: [&str; 8] = [
    "name", "calendar", "style", "rule", "source", "note", "changes", "easters",
];

/// The keys of a change.
const CHANGE_KEYS: [&str; 6] = ["from", "calendar", "style", "rule", "source", "note"];

/// The keys of a listed Easter.
const EASTER_KEYS: [&str; 4] = ["year", "date", "source", "note"];

/// The keys by which a day may be.
const DAY_KEYS: [&str; 4] = ["gregorian", "julian", "swedish", "day"];

/// The words that name a calendar.
const CALENDARS: [&str; 3] = ["julian", "gregorian", "swedish"];

/// The words that name a style.
const STYLES: [&str; 6] = [
    "january",
    "annunciation",
    "nativity",
    "september",
    "pisan",
    "easter",
];

/// The words that name a rule of Easter.
const RULES: [&str; 2] = ["julian", "gregorian"];

/// Appends the line on a word that is not one of these names, if one of them is near.
fn push_word_help(
    lines: &mut String,
    alloc: Global,
    names: &[&'static str],
    word: &str,
) -> Result<(), AllocError>
    ensures { OnOk result (string_bytes lines.new ≡ string_bytes lines.old
        ++ spec.word_help (map (λ name. name.now) names.now) word.now) }
{
    match nearest_of(alloc, word, names)? {
        Some(name) => writeln!(lines, "help: {}: did you mean {name}?", EscapedText(word)),
        None => Ok(()),
    }
}

/// Returns the nearest of the keys by which a day may be, if one is near a word.
fn nearest_day_key(alloc: Global, word: &str) -> Result<Option<&'static str>, AllocError>
    ensures { IfOk result (λ found.
        option_map (λ name. name.now) found ≡ nearest_name spec.day_keys word.now) }
{
    nearest_of(alloc, word, &DAY_KEYS)
}

/// Appends the line on a key that no day has: the nearest key, or else all of them.
fn push_day_help(lines: &mut String, alloc: Global, word: &str) -> Result<(), AllocError>
    ensures { OnOk result (string_bytes lines.new
        ≡ string_bytes lines.old ++ spec.day_help word.now) }
{
    match nearest_day_key(alloc, word)? {
        Some(name) => writeln!(lines, "help: {}: did you mean {name}?", EscapedText(word)),
        None => writeln!(
            lines,
            "help: {}: a day has one key: gregorian, julian, swedish or day",
            EscapedText(word)
        ),
    }
}

/// Appends the line on a key that a table may not have, if one that it may have is near.
fn push_key_help(
    lines: &mut String,
    alloc: Global,
    part: Part,
    name: &str,
) -> Result<(), AllocError>
    ensures { OnOk result (string_bytes lines.new
        ≡ string_bytes lines.old ++ spec.word_help (spec.key_names part) name.now) }
{
    match part {
        Part::Territory => push_word_help(lines, alloc, &TERRITORY_KEYS, name),
        Part::Change(_) => push_word_help(lines, alloc, &CHANGE_KEYS, name),
        Part::Easter(_) => push_word_help(lines, alloc, &EASTER_KEYS, name),
    }
}

/// Appends the line on a word that is not one of a key's words, if one of them is near.
fn push_value_words_help(
    lines: &mut String,
    alloc: Global,
    key: Key,
    word: &str,
) -> Result<(), AllocError>
    ensures { OnOk result (string_bytes lines.new
        ≡ string_bytes lines.old ++ spec.value_words_help key word.now) }
{
    match key {
        Key::Calendar => push_word_help(lines, alloc, &CALENDARS, word),
        Key::Style => push_word_help(lines, alloc, &STYLES, word),
        Key::Rule => push_word_help(lines, alloc, &RULES, word),
        _ => Ok(()),
    }
}

/// Appends the line on what is not a table, in the place of a territory.
fn push_territory_help(lines: &mut String, code: &str) -> Result<(), AllocError>
    ensures { OnOk result (string_bytes lines.new
        ≡ string_bytes lines.old ++ spec.territory_help code.now) }
{
    if Part::Territory.has_key(code) {
        writeln!(
            lines,
            "help: {code} is a key of a territory: write it below the line of a code, such as [GB]"
        )
    } else {
        writeln!(
            lines,
            "help: {}: write each territory as a table: [GB], for example, and its keys below",
            EscapedText(code)
        )
    }
}

/// Appends the line on what is not a list of changes, or not a change in one.
fn push_changes_help(lines: &mut String, code: &str) -> Result<(), AllocError>
    ensures { OnOk result (string_bytes lines.new
        ≡ string_bytes lines.old ++ spec.changes_help code.now) }
{
    writeln!(
        lines,
        "help: write [[{}.changes]] above the keys of each change",
        EscapedText(code)
    )
}

/// Appends the line on what is not a list of Easters, or not an Easter in one.
fn push_easters_help(lines: &mut String, code: &str) -> Result<(), AllocError>
    ensures { OnOk result (string_bytes lines.new
        ≡ string_bytes lines.old ++ spec.easters_help code.now) }
{
    writeln!(
        lines,
        "help: write [[{}.easters]] above the keys of each listed Easter",
        EscapedText(code)
    )
}

/// Appends the line on what is not a table of a text.
fn push_table_help(lines: &mut String, code: &str, part: Part) -> Result<(), AllocError>
    ensures { OnOk result (string_bytes lines.new
        ≡ string_bytes lines.old ++ spec.table_help code.now part) }
{
    match part {
        Part::Territory => push_territory_help(lines, code),
        Part::Change(_) => push_changes_help(lines, code),
        Part::Easter(_) => push_easters_help(lines, code),
    }
}

/// Appends the line on a value that has another form than its key requires, if there is one.
fn push_form_help(lines: &mut String, code: &str, key: Key) -> Result<(), AllocError>
    ensures { OnOk result (string_bytes lines.new
        ≡ string_bytes lines.old ++ spec.form_help code.now key) }
{
    match key {
        Key::Changes => push_changes_help(lines, code),
        Key::Easters => push_easters_help(lines, code),
        _ => Ok(()),
    }
}

/// Appends the line on what is wrong with the value at a key, if there is one.
fn push_value_help(
    lines: &mut String,
    alloc: Global,
    code: &str,
    key: Key,
    fault: &ValueFault,
) -> Result<(), AllocError>
    ensures { OnOk result (string_bytes lines.new
        ≡ string_bytes lines.old ++ spec.value_help code.now key fault.now) }
{
    match fault {
        ValueFault::Form => push_form_help(lines, code, key),
        ValueFault::UnknownWord(word) => push_value_words_help(lines, alloc, key, word.as_str()),
        ValueFault::UnknownDayKey(name) => push_day_help(lines, alloc, name.as_str()),
        _ => Ok(()),
    }
}

/// Appends the line on what is wrong with a table, if there is one.
fn push_reason_help(
    lines: &mut String,
    alloc: Global,
    code: &str,
    part: Part,
    reason: &Reason,
) -> Result<(), AllocError>
    ensures { OnOk result (string_bytes lines.new
        ≡ string_bytes lines.old ++ spec.reason_help code.now part reason.now) }
{
    match reason {
        Reason::NotTable => push_table_help(lines, code, part),
        Reason::UnknownKey(name) => push_key_help(lines, alloc, part, name.as_str()),
        Reason::Value(key, fault) => push_value_help(lines, alloc, code, *key, fault),
        _ => Ok(()),
    }
}

/// Returns the line below the message of a fault of a table, as `fault_help` does.
///
/// # Errors
///
/// Returns `AllocError` if memory runs out.
pub fn key_fault_help(alloc: Global, fault: &KeyFault) -> Result<String, AllocError>
    ensures { IfOk result (λ help. string_bytes help ≡ spec.key_fault_help fault.now) }
{
    let mut lines = String::new(alloc);
    push_reason_help(
        &mut lines,
        alloc,
        fault.code.as_str(),
        fault.part,
        &fault.reason,
    )?;
    Ok(lines)
}

/// Returns the line below the message of a fault: the nearest name that is allowed, or what to do.
/// It ends in a line feed. It is an empty text if the message has all that there is to say.
///
/// # Errors
///
/// Returns `AllocError` if memory runs out.
pub fn fault_help(alloc: Global, fault: &TextFault) -> Result<String, AllocError>
    ensures { IfOk result (λ help. string_bytes help ≡ spec.fault_help fault.now) }
{
    match fault {
        TextFault::Key(fault) => key_fault_help(alloc, fault),
        _ => Ok(String::new(alloc)),
    }
}
