//! What separates the fields of a record.
ghost use Rattle.std.specs.Prelude.{◌≡◌};
ghost use Rattle.osn_letters.specs.Separators as spec;
ghost use Rattle.osn_letters.specs.RecordsInside.{action_of};

use crate::parser_state::Effect;

/// What separates the fields of a record.
#[derive(Clone, Copy, Debug, PartialEq, Eq)]
pub enum Separator {
    Comma,
    Semicolon,
    Tab,
}

impl Separator {
    /// Returns its byte.
    pub(crate) fn byte(self) -> u8
        ensures { result ≡ spec.separator_byte self }
    {
        match self {
            Separator::Comma => b',',
            Separator::Semicolon => b';',
            Separator::Tab => b'\t',
        }
    }

    /// Returns the separator that a byte is, if it is one.
    fn of(byte: u8) -> Option<Separator>
        ensures { result ≡ spec.separator_of byte }
    {
        match byte {
            b',' => Some(Separator::Comma),
            b';' => Some(Separator::Semicolon),
            b'\t' => Some(Separator::Tab),
            _ => None,
        }
    }
}

/// Returns the separator that was found, or the comma if there is no such separator.
pub(crate) fn or_comma(separator: Option<Separator>) -> Separator
    ensures { result ≡ spec.or_comma separator }
{
    separator.unwrap_or(Separator::Comma)
}

/// Returns the separator by which a byte is read: the one that was found. If there is none yet, it
/// is the byte itself, or the comma if the byte is not a separator.
pub(crate) fn separator_at(separator: Option<Separator>, byte: u8) -> Separator
    ensures { result ≡ spec.separator_at separator byte }
{
    or_comma(separator.or(Separator::of(byte)))
}

/// Returns the separator that is found after a byte with this effect on the current record.
pub(crate) fn separator_after(
    separator: Option<Separator>,
    byte: u8,
    effect: Effect,
) -> Option<Separator>
    ensures { result ≡ spec.separator_after separator byte (action_of effect) }
{
    match (separator, effect) {
        (None, Effect::EndField) => Separator::of(byte),
        (None, Effect::EndRecord) => Some(Separator::Comma),
        _ => separator,
    }
}
