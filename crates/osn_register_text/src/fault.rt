//! Why a text doesn't describe territories, and where in it.
ghost use Rattle.std.specs.Prelude.{Some};

use crate::key::{Key, Part};
use osn_days::{Calendar, Keyword};
use osn_lines::EscapedText;
use osn_register::{Refusal, Text};
use osn_request::refusal_message;
use std::alloc::AllocError;
use std::fmt;

/// What is wrong with the value at a key.
#[derive(Debug, Drop)]
pub enum ValueFault {
    /// It is missing, and it is required.
    Missing,
    /// It has another form than the key requires.
    Form,
    /// It is this word, which is not one of the key's words.
    UnknownWord(Text),
    /// It is a day by this key, which is neither `day` nor a calendar.
    UnknownDayKey(Text),
    /// It is a date without quotes.
    Unquoted,
    /// The calendar has no such date, or the date is off the line of days.
    NoSuchDate(Calendar),
}

/// What is wrong with a table.
#[derive(Debug, Drop)]
pub enum Reason {
    /// It is not a table.
    NotTable,
    /// It has this key, which it may not have.
    UnknownKey(Text),
    /// The value at a key is wrong.
    Value(Key, ValueFault),
    /// It is the key of an edition, and its value is not the number of an edition.
    NotEdition,
    /// It is a change that isn't later than the change before it.
    NotLater,
    /// The register refuses its edit.
    Refused(Refusal),
}

/// What is wrong with the text, and where: at a territory, a change or a listed Easter.
#[derive(Debug, Drop)]
pub struct KeyFault {
    /// The code of the territory, or `edition`.
    pub code: Text,
    /// The table.
    pub part: Part,
    /// What is wrong with it.
    pub reason: Reason,
}

/// The place where a text is not TOML, and why. Lines and columns are counted from 1.
#[derive(Debug, Drop)]
pub struct TomlFault {
    pub line: usize,
    pub column: usize,
    pub message: Text,
}

/// Why a text doesn't describe territories.
#[derive(Debug, Drop)]
pub enum TextFault {
    /// It is not TOML.
    Toml(TomlFault),
    /// It is TOML, and doesn't describe territories.
    Key(KeyFault),
    /// A growth of memory was refused.
    NoMemory,
}

impl From<AllocError> for TextFault {
    ghost use Rattle.std.specs.Prelude.{◌≡◌};
    ghost use Rattle.osn_register_text.specs.declared.fault.TextFault.TheVariants.{NoMemory};

    ghost from_gives = { λ _ e. e ≡ NoMemory };

    fn from(_: AllocError) -> TextFault {
        TextFault::NoMemory
    }
}

/// What is wrong with the value at a key, and what is allowed there.
#[derive(Clone, Copy)]
struct ValueText<'a> {
    key: Key,
    fault: &'a ValueFault,
}

impl<'a> fmt::Display for ValueText<'a> {
    ghost use Rattle.osn_register_text.specs.Words.{value_text};

    ghost output = { λ x. Some (value_text x.key x.fault.now) };

    fn fmt<W: fmt::Write>(&self, f: &mut fmt::Formatter<W>) -> fmt::Result {
        let allowed_text = self.key.allowed_text();
        match self.fault {
            ValueFault::Missing => write!(f, "missing: {allowed_text}"),
            ValueFault::Form => f.write_str(allowed_text),
            ValueFault::UnknownDayKey(_) => f.write_str(allowed_text),
            ValueFault::UnknownWord(word) => {
                write!(
                    f,
                    "\"{}\" is not a {}: {allowed_text}",
                    EscapedText(word.as_str()),
                    self.key.name()
                )
            }
            ValueFault::Unquoted => {
                f.write_str("put the date in quotes, such as { gregorian = \"1752-09-14\" }")
            }
            ValueFault::NoSuchDate(calendar) => {
                write!(f, "no such day in the {} calendar", calendar.word())
            }
        }
    }
}

/// The rest of the path to what is wrong with a table, and what is wrong.
#[derive(Clone, Copy)]
struct ReasonText<'a> {
    part: Part,
    reason: &'a Reason,
}

impl<'a> fmt::Display for ReasonText<'a> {
    ghost use Rattle.osn_register_text.specs.Words.{reason_text};

    ghost output = { λ x. Some (reason_text x.part x.reason.now) };

    fn fmt<W: fmt::Write>(&self, f: &mut fmt::Formatter<W>) -> fmt::Result {
        match self.reason {
            Reason::NotTable => f.write_str(": write a table"),
            Reason::UnknownKey(name) => {
                write!(
                    f,
                    ".{}: unknown key: {}",
                    EscapedText(name.as_str()),
                    self.part.keys_text()
                )
            }
            Reason::Value(key, fault) => {
                let text = ValueText { key: *key, fault };
                write!(f, ".{}: {text}", key.name())
            }
            Reason::NotEdition => f.write_str(
                ": write the number of the edition that the text was made from, such as 3",
            ),
            Reason::NotLater => f.write_str(": not later than the change before it"),
            Reason::Refused(refusal) => {
                let message = refusal_message(*refusal);
                write!(f, ": {} {}: {message}", refusal.number(), refusal.name())
            }
        }
    }
}

impl fmt::Display for KeyFault {
    ghost use Rattle.osn_register_text.specs.Words.{key_fault_text};

    ghost output = { λ x. Some (key_fault_text x) };

    fn fmt<W: fmt::Write>(&self, f: &mut fmt::Formatter<W>) -> fmt::Result {
        let part = self.part;
        let reason = ReasonText {
            part,
            reason: &self.reason,
        };
        write!(f, "{}{part}{reason}", EscapedText(self.code.as_str()))
    }
}

impl fmt::Display for TomlFault {
    ghost use Rattle.osn_register_text.specs.Words.{toml_fault_text};

    ghost output = { λ x. Some (toml_fault_text x) };

    fn fmt<W: fmt::Write>(&self, f: &mut fmt::Formatter<W>) -> fmt::Result {
        let message = self.message.as_str();
        write!(f, "line {}, column {}: {message}", self.line, self.column)
    }
}

impl fmt::Display for TextFault {
    ghost use Rattle.osn_register_text.specs.Words.{text_fault_text};

    ghost output = { λ x. Some (text_fault_text x) };

    fn fmt<W: fmt::Write>(&self, f: &mut fmt::Formatter<W>) -> fmt::Result {
        match self {
            TextFault::Toml(fault) => write!(f, "{fault}"),
            TextFault::Key(fault) => write!(f, "{fault}"),
            TextFault::NoMemory => f.write_str("memory ran out"),
        }
    }
}

impl std::error::Error for TextFault {}
