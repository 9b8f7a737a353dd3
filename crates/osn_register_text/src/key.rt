//! The tables of a text, which keys each may have, and what a key requires.
ghost use Rattle.std.specs.Prelude.{◌≡◌, Some};
ghost use Rattle.osn_register_text.specs.Key as spec;

use std::fmt;

/// A table of a text. Changes and Easters are counted from 1 in their territory.
#[derive(Clone, Copy, Debug, PartialEq, Eq)]
pub enum Part {
    /// The territory itself.
    Territory,
    /// One of its changes.
    Change(usize),
    /// One of its listed Easters.
    Easter(usize),
}

/// A key of a territory, a change or a listed Easter.
#[derive(Clone, Copy, Debug, PartialEq, Eq)]
pub enum Key {
    Name,
    Calendar,
    Style,
    Rule,
    Source,
    Note,
    Changes,
    Easters,
    From,
    Year,
    Date,
}

impl Key {
    /// Returns the key's name in a text.
    pub fn name(self) -> &'static str
        ensures { result.now ≡ spec.key_name self }
    {
        match self {
            Key::Name => "name",
            Key::Calendar => "calendar",
            Key::Style => "style",
            Key::Rule => "rule",
            Key::Source => "source",
            Key::Note => "note",
            Key::Changes => "changes",
            Key::Easters => "easters",
            Key::From => "from",
            Key::Year => "year",
            Key::Date => "date",
        }
    }

    /// Returns what is written at the key.
    pub(crate) fn allowed_text(self) -> &'static str
        ensures { result.now ≡ spec.allowed_at self }
    {
        match self {
            Key::Name | Key::Note => "write a text",
            Key::Calendar => "write julian, gregorian or swedish",
            Key::Style => "write january, annunciation, nativity, september, pisan or easter",
            Key::Rule => "write julian or gregorian",
            Key::Source => "write a text of 1 to 1,000 bytes, with no control character",
            Key::Changes | Key::Easters => "write a list of tables",
            Key::From | Key::Date => {
                "write { gregorian = \"1752-09-14\" }, with julian or swedish in its place, or \
{ day = 639797 }"
            }
            Key::Year => "write a whole number",
        }
    }
}

impl Part {
    /// Returns whether the table may have a key of this name.
    pub(crate) fn has_key(self, name: &str) -> bool
        ensures { result ≡ spec.is_key_of self name.now }
    {
        match self {
            Part::Territory => matches!(
                name,
                "name" | "calendar" | "style" | "rule" | "source" | "note" | "changes" | "easters"
            ),
            Part::Change(_) => matches!(
                name,
                "from" | "calendar" | "style" | "rule" | "source" | "note"
            ),
            Part::Easter(_) => matches!(name, "year" | "date" | "source" | "note"),
        }
    }

    /// Returns which keys the table may have, in words.
    pub(crate) fn keys_text(self) -> &'static str
        ensures { result.now ≡ spec.keys_text self }
    {
        match self {
            Part::Territory => {
                "a territory has name, calendar, style, rule, source, note, changes and easters"
            }
            Part::Change(_) => "a change has from, calendar, style, rule, source and note",
            Part::Easter(_) => "a listed Easter has year, date, source and note",
        }
    }
}

/// Writes the path from a territory to the table, such as `.changes.2`.
impl fmt::Display for Part {
    ghost output = { λ x. Some (spec.part_text x) };

    fn fmt<W: fmt::Write>(&self, f: &mut fmt::Formatter<W>) -> fmt::Result {
        match self {
            Part::Territory => Ok(()),
            Part::Change(number) => write!(f, ".changes.{number}"),
            Part::Easter(number) => write!(f, ".easters.{number}"),
        }
    }
}
