//! What the fields of a row say: the date and the weekday.
ghost use Rattle.std.specs.Prelude.{◌≡◌, option_map, IfOk};
ghost use Rattle.osn_letters.specs.RowFields as spec;

use osn_days::Weekday;
use osn_grammar::{DateOrder, TextReading, members_of, read_date};
use osn_written::{AnyDate, DateFault, weekday_named};
use std::alloc::{AllocError, Global};
use std::str;

/// Returns bytes without the white space of ASCII around them.
pub(crate) fn trimmed(bytes: &[u8]) -> &[u8]
    ensures { result.now ≡ spec.trimmed bytes.now }
{
    bytes.trim_ascii()
}

/// Returns the text that a field has without the white space around it, if it is a text.
pub(crate) fn text_in_field(bytes: &[u8]) -> Option<&str>
    ensures { option_map (λ s. s.now) result ≡ spec.text_in_field bytes.now }
{
    str::from_utf8(trimmed(bytes)).ok()
}

/// Returns whether a field is a text.
pub(crate) fn is_text(bytes: &[u8]) -> bool
    ensures { result ≡ spec.is_text bytes.now }
{
    text_in_field(bytes).is_some()
}

/// Returns what a field says of a date, or why it says nothing of one.
pub(crate) fn date_of_field(
    alloc: Global,
    order: DateOrder,
    field: &[u8],
) -> Result<Result<TextReading, DateFault>, AllocError>
    ensures { IfOk result (λ date. date ≡ spec.date_of_field order field.now) }
{
    match text_in_field(field) {
        Some(text) => read_date(alloc, text, order),
        None => Ok(Err(DateFault::Malformed)),
    }
}

/// Returns the dates of the set that a field says.
pub(crate) fn members_in(alloc: Global, field: &[u8]) -> Result<Vec<AnyDate>, AllocError>
    ensures { IfOk result (λ members. members.items ≡ spec.members_in field.now) }
{
    match text_in_field(field) {
        Some(text) => members_of(alloc, text),
        None => Ok(Vec::new(alloc)),
    }
}

/// Returns the weekday of a field, which may be missing.
pub(crate) fn weekday_in(weekday_field: Option<&[u8]>) -> Option<Weekday>
    ensures { result ≡ spec.weekday_in (option_map (λ w. w.now) weekday_field.entry) }
{
    weekday_named(text_in_field(weekday_field?)?)
}

/// Returns whether the field is not empty and is not the name of a weekday.
pub(crate) fn is_malformed_weekday(weekday_field: Option<&[u8]>) -> bool
    ensures { result ≡ spec.is_malformed_weekday (option_map (λ w. w.now) weekday_field.entry) }
{
    match weekday_field {
        Some(name) => !trimmed(name).is_empty() && weekday_in(weekday_field).is_none(),
        None => false,
    }
}
