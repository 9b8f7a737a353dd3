//! The fault of a text that is not TOML.
ghost use Rattle.std.specs.Prelude.{◌≡◌};
ghost use Rattle.toml.specs.Errors.{IsWithin};
ghost use Rattle.osn_register_text.specs.Lines as spec;

use crate::fault::{TextFault, TomlFault};
use osn_register::Text;
use std::alloc::Global;
use toml::de::Error;

/// Returns the line of the place after these bytes, counted from 1.
fn line_after(before: &[u8]) -> usize
    ensures { result ≡ spec.line_after before.now }
{
    before.iter().filter(|byte| **byte == b'\n').count() + 1
}

/// Returns whether a character of a text begins with the byte.
fn begins_character(byte: u8) -> bool
    ensures { result ≡ spec.begins_character byte }
{
    byte < 0x80 || byte >= 0xC0
}

/// Returns the column of the place after these bytes, counted from 1. A column is a character.
fn column_after(before: &[u8]) -> usize
    ensures { result ≡ spec.column_after before.now }
{
    before
        .iter()
        .rev()
        .take_while(|byte| **byte != b'\n')
        .filter(|byte| begins_character(**byte))
        .count()
        + 1
}

/// Returns the place where the text is not TOML, or `NoMemory`.
pub(crate) fn toml_fault(alloc: Global, text: &str, error: &Error) -> TextFault
    requires { IsWithin text.now error.now }
    ensures { spec.IsFaultBy text.now error.now result }
{
    let Some(span) = error.span() else {
        return TextFault::NoMemory;
    };
    let before = &text.as_bytes()[..span.start];
    match Text::from_str(alloc, error.message()) {
        Ok(message) => TextFault::Toml(TomlFault {
            line: line_after(before),
            column: column_after(before),
            message,
        }),
        Err(_) => TextFault::NoMemory,
    }
}
