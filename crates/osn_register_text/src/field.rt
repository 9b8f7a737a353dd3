//! What a table of a text has at its keys.
ghost use Rattle.std.specs.Prelude.{◌≡◌, MatchResult, Ok, option_map, option_copied};
ghost use Rattle.toml.specs.View.{items_view, table_view, view};
ghost use Rattle.osn_register_text.specs.Field as spec;
ghost use Rattle.osn_register_text.specs.Inside.{Fails, Gives, place_of};

use crate::fault::{Reason, TextFault, ValueFault};
use crate::key::{Key, Part};
use crate::place::Place;
use osn_computus::Rule;
use osn_days::{Calendar, Keyword};
use osn_register::{Source, Text};
use osn_territory::{Regime, Style};
use toml::{Table, Value};

/// Returns the first key that a table may not have.
fn unknown_key(part: Part, table: &Table) -> Option<&str>
    ensures { option_map (λ name. name.now) result ≡ spec.unknown_key part (table_view table.now) }
{
    for name in table.keys() {
        if !part.has_key(name.as_str()) {
            return Some(name.as_str());
        }
    }
    None
}

/// Returns the table of a value, if it has only keys that it may have.
pub(crate) fn table_of<'a>(at: Place<'_>, value: &'a Value) -> Result<&'a Table, TextFault>
    ensures { MatchResult result
        (λ table. spec.table_of (place_of at.entry) (view value.now) ≡ Ok (table_view table.now))
        (λ e. Fails e (spec.table_of (place_of at.entry) (view value.now))) }
{
    let Some(table) = value.as_table() else {
        return Err(at.fault(Reason::NotTable));
    };
    match unknown_key(at.part, table) {
        None => Ok(table),
        Some(name) => Err(at.fault(Reason::UnknownKey(Text::from_str(at.alloc, name)?))),
    }
}

/// Returns the value at a key.
fn value_at<'a>(table: &'a Table, key: Key) -> Option<&'a Value>
    ensures { option_map (λ v. view v.now) result ≡ spec.value_at key (table_view table.now) }
{
    table.get(key.name())
}

/// Returns the value at a required key.
pub(crate) fn required_value<'a>(
    at: Place<'_>,
    table: &'a Table,
    key: Key,
) -> Result<&'a Value, TextFault>
    ensures { MatchResult result
        (λ v. spec.required_value (place_of at.entry) key (table_view table.now) ≡ Ok (view v.now))
        (λ e. Fails e (spec.required_value (place_of at.entry) key (table_view table.now))) }
{
    match value_at(table, key) {
        Some(value) => Ok(value),
        None => Err(at.fault_at(key, ValueFault::Missing)),
    }
}

fn text_in<'a>(at: Place<'_>, key: Key, value: &'a Value) -> Result<&'a str, TextFault>
    ensures { MatchResult result
        (λ s. spec.text_in (place_of at.entry) key (view value.now) ≡ Ok s.now)
        (λ e. Fails e (spec.text_in (place_of at.entry) key (view value.now))) }
{
    match value.as_str() {
        Some(text) => Ok(text),
        None => Err(at.fault_at(key, ValueFault::Form)),
    }
}

/// Returns the text at a key.
pub(crate) fn text_at<'a>(at: Place<'_>, table: &'a Table, key: Key) -> Result<&'a str, TextFault>
    ensures { MatchResult result
        (λ s. spec.text_at (place_of at.entry) key (table_view table.now) ≡ Ok s.now)
        (λ e. Fails e (spec.text_at (place_of at.entry) key (table_view table.now))) }
{
    text_in(at, key, required_value(at, table, key)?)
}

/// Returns the whole number at a key.
pub(crate) fn whole_at(at: Place<'_>, table: &Table, key: Key) -> Result<i64, TextFault>
    ensures { Gives result (spec.whole_at (place_of at.entry) key (table_view table.now)) }
{
    match required_value(at, table, key)?.as_integer() {
        Some(number) => Ok(number),
        None => Err(at.fault_at(key, ValueFault::Form)),
    }
}

/// Returns the note, an optional text.
pub(crate) fn note_of<'a>(at: Place<'_>, table: &'a Table) -> Result<Option<&'a str>, TextFault>
    ensures { MatchResult result
        (λ note. spec.note_of (place_of at.entry) (table_view table.now) ≡ Ok (option_copied note))
        (λ e. Fails e (spec.note_of (place_of at.entry) (table_view table.now))) }
{
    match value_at(table, Key::Note) {
        None => Ok(None),
        Some(value) => Ok(Some(text_in(at, Key::Note, value)?)),
    }
}

/// Returns the source, which is optional.
pub(crate) fn source_at(at: Place<'_>, table: &Table) -> Result<Option<Source>, TextFault>
    ensures { Gives result (spec.source_at (place_of at.entry) (table_view table.now)) }
{
    let Some(value) = value_at(table, Key::Source) else {
        return Ok(None);
    };
    let text = text_in(at, Key::Source, value)?;
    if !Source::is_source(text) {
        return Err(at.fault_at(Key::Source, ValueFault::Form));
    }
    Ok(Some(Source::from_str(at.alloc, text)?))
}

/// Returns the list at a key, or an empty one if the key is left out.
pub(crate) fn items_at<'a>(
    at: Place<'_>,
    table: &'a Table,
    key: Key,
) -> Result<&'a [Value], TextFault>
    ensures { MatchResult result
        (λ values. spec.items_at (place_of at.entry) key (table_view table.now)
        ≡ Ok (items_view values.now))
        (λ e. Fails e (spec.items_at (place_of at.entry) key (table_view table.now))) }
{
    let Some(value) = value_at(table, key) else {
        return Ok(&[]);
    };
    match value.as_array() {
        Some(values) => Ok(values.as_slice()),
        None => Err(at.fault_at(key, ValueFault::Form)),
    }
}

/// Returns what a word means.
fn meaning_in<W: Keyword>(at: Place<'_>, key: Key, value: &Value) -> Result<W, TextFault>
    ensures { Gives result (spec.meaning_in (place_of at.entry) key W.meaning (view value.now)) }
{
    let word = text_in(at, key, value)?;
    match W::from_word(word) {
        Some(meaning) => Ok(meaning),
        None => {
            let word = Text::from_str(at.alloc, word)?;
            Err(at.fault_at(key, ValueFault::UnknownWord(word)))
        }
    }
}

/// Returns what the word at a key means, or what held before if the key is left out.
fn word_at<W: Keyword + Copy>(
    at: Place<'_>,
    table: &Table,
    key: Key,
    before: Option<W>,
) -> Result<W, TextFault>
    ensures { Gives result
        (spec.word_at (place_of at.entry) key W.meaning before (table_view table.now)) }
{
    if let Some(value) = value_at(table, key) {
        return meaning_in(at, key, value);
    }
    match before {
        Some(meaning) => Ok(meaning),
        None => Err(at.fault_at(key, ValueFault::Missing)),
    }
}

/// Returns the calendar of a table, or that of the regime before if the table names none.
fn calendar_at(at: Place<'_>, table: &Table, before: Option<Regime>) -> Result<Calendar, TextFault>
    ensures { Gives result (spec.calendar_at (place_of at.entry) before (table_view table.now)) }
{
    word_at(
        at,
        table,
        Key::Calendar,
        before.map(|regime| regime.calendar),
    )
}

/// Returns the style of a table, or that of the regime before if the table names none.
fn style_at(at: Place<'_>, table: &Table, before: Option<Regime>) -> Result<Style, TextFault>
    ensures { Gives result (spec.style_at (place_of at.entry) before (table_view table.now)) }
{
    word_at(at, table, Key::Style, before.map(|regime| regime.style))
}

/// Returns the rule of Easter of a table, or that of the regime before if the table names none.
fn rule_at(at: Place<'_>, table: &Table, before: Option<Regime>) -> Result<Rule, TextFault>
    ensures { Gives result (spec.rule_at (place_of at.entry) before (table_view table.now)) }
{
    word_at(at, table, Key::Rule, before.map(|regime| regime.rule))
}

/// Returns the regime of a table: what it says of one, and otherwise what held before.
#[tactic(auto, unfolding(crate::specs::Field::regime_of))]
pub(crate) fn regime_of(
    at: Place<'_>,
    table: &Table,
    before: Option<Regime>,
) -> Result<Regime, TextFault>
    ensures { Gives result (spec.regime_of (place_of at.entry) before (table_view table.now)) }
{
    let calendar = calendar_at(at, table, before)?;
    let style = style_at(at, table, before)?;
    let rule = rule_at(at, table, before)?;
    Ok(Regime {
        calendar,
        style,
        rule,
    })
}
