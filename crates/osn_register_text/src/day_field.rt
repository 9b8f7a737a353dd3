//! The days of a text: a date of a calendar, or a day of the line by its number.
ghost use Rattle.std.specs.Prelude.{◌≡◌, pos, option_map};
ghost use Rattle.toml.specs.View.{table_view, view};
ghost use Rattle.osn_register_text.specs.DayField as spec;
ghost use Rattle.osn_register_text.specs.Inside.{Gives, place_of};

use crate::fault::{TextFault, ValueFault};
use crate::field::required_value;
use crate::key::Key;
use crate::place::Place;
use osn_days::{Calendar, Date, Keyword, day_of};
use osn_register::Text;
use osn_written::{number_of, parts_at};
use toml::{Table, Value};

/// Returns a year of three digits or more.
fn year_of(part: &str) -> Option<i32>
    ensures { result ≡ option_map pos (spec.year_of part.now) }
{
    if part.len() < 3 {
        return None;
    }
    Some(number_of(part)? as i32)
}

/// Returns a month or a day of one or two digits.
fn short_number_of(part: &str) -> Option<u8>
    ensures { result ≡ spec.short_number_of part.now }
{
    if part.len() > 2 {
        return None;
    }
    Some(number_of(part)? as u8)
}

/// Returns the date of these parts.
fn date_of_parts(year: &str, month: &str, day: &str) -> Option<Date>
    ensures { result ≡ spec.date_of_parts year.now month.now day.now }
{
    let year = year_of(year)?;
    let month = short_number_of(month)?;
    let day = short_number_of(day)?;
    Some(Date { year, month, day })
}

/// Returns a date such as `1752-09-14`. Whether a calendar has it is not tested.
fn date_of(text: &str) -> Option<Date>
    ensures { result ≡ spec.date_of text.now }
{
    let (year, rest) = parts_at(text, '-')?;
    let (month, day) = parts_at(rest, '-')?;
    date_of_parts(year, month, day)
}

/// Returns the day that has the date in a calendar.
fn day_with(calendar: Calendar, date: Date) -> Option<i64>
    ensures { result ≡ spec.day_with calendar date }
{
    Some(i64::from(day_of(calendar, date)?.number()))
}

/// Returns the day of a date's text in a calendar.
fn day_of_text(calendar: Calendar, text: &str) -> Result<i64, ValueFault>
    ensures { result ≡ spec.day_of_text calendar text.now }
{
    let Some(date) = date_of(text) else {
        return Err(ValueFault::Form);
    };
    day_with(calendar, date).ok_or(ValueFault::NoSuchDate(calendar))
}

/// Returns the day of a date in a calendar.
fn day_in_calendar(calendar: Calendar, value: &Value) -> Result<i64, ValueFault>
    ensures { result ≡ spec.day_in_calendar calendar (view value.now) }
{
    match value.as_str() {
        Some(text) => day_of_text(calendar, text),
        None if value.is_datetime() => Err(ValueFault::Unquoted),
        None => Err(ValueFault::Form),
    }
}

/// Returns the day of a member: a calendar with a date, or `day` with a day number.
fn day_of_member(name: &str, value: &Value) -> Result<i64, ValueFault>
    ensures { result ≡ spec.day_of_member name.now (view value.now) }
{
    if name == "day" {
        return value.as_integer().ok_or(ValueFault::Form);
    }
    match Calendar::from_word(name) {
        Some(calendar) => day_in_calendar(calendar, value),
        None => Err(ValueFault::Form),
    }
}

/// Returns the only member of a table.
fn only_member(table: &Table) -> Option<(&str, &Value)>
    ensures { option_map (λ m. (m.0.now, view m.1.now)) result
        ≡ spec.only_member (table_view table.now) }
{
    match table.first_key_value() {
        Some((name, value)) if table.len() == 1 => Some((name.as_str(), value)),
        _ => None,
    }
}

/// Returns the day of a table of one member.
fn day_in(value: &Value) -> Result<i64, ValueFault>
    ensures { result ≡ spec.day_in (view value.now) }
{
    let Some((name, value)) = value.as_table().and_then(only_member) else {
        return Err(ValueFault::Form);
    };
    day_of_member(name, value)
}

/// Returns whether a day may be by this key.
fn is_day_key(name: &str) -> bool
    ensures { result ≡ spec.is_day_key name.now }
{
    name == "day" || Calendar::from_word(name).is_some()
}

/// Returns the key of a table of one member, if no day is by it.
fn unknown_day_key(value: &Value) -> Option<&str>
    ensures { option_map (λ name. name.now) result ≡ spec.unknown_day_key (view value.now) }
{
    let (name, _) = value.as_table().and_then(only_member)?;
    if is_day_key(name) { None } else { Some(name) }
}

/// Returns the day of a value at a key.
fn day_of_value(at: Place<'_>, key: Key, value: &Value) -> Result<i64, TextFault>
    ensures { Gives result
        (spec.with_place (place_of at.entry) key (spec.day_in (view value.now))) }
{
    match day_in(value) {
        Ok(day) => Ok(day),
        Err(fault) => Err(at.fault_at(key, fault)),
    }
}

/// Returns the day at a key.
pub(crate) fn day_at(at: Place<'_>, table: &Table, key: Key) -> Result<i64, TextFault>
    ensures { Gives result (spec.day_at (place_of at.entry) key (table_view table.now)) }
{
    let value = required_value(at, table, key)?;
    match unknown_day_key(value) {
        None => day_of_value(at, key, value),
        Some(name) => {
            let name = Text::from_str(at.alloc, name)?;
            Err(at.fault_at(key, ValueFault::UnknownDayKey(name)))
        }
    }
}
