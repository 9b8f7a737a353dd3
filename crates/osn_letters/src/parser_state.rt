//! How a byte of CSV is read.
ghost use Rattle.std.specs.Prelude.{◌≡◌, IfSome};
ghost use Rattle.csv.specs.Machine as machine;
ghost use Rattle.osn_letters.specs.Records as spec;
ghost use Rattle.osn_letters.specs.RecordsInside.{state_of, action_of};
ghost use Rattle.osn_letters.specs.Runs as runs;
ghost use Rattle.osn_letters.specs.Separators.{config_by};

use crate::separator::{Separator, separator_at};

/// The state of a reading of CSV.
#[derive(Clone, Copy, PartialEq, Eq)]
pub(crate) enum ParserState {
    /// Before a record.
    StartRecord,
    /// Before a field of a record.
    StartField,
    /// In a field without quotes.
    InField,
    /// In a field, between its quotes.
    InQuoted,
    /// After a quote that ends a field or is the first of two.
    AfterQuote,
    /// After a carriage return that ended a record.
    AfterReturn,
}

/// What a byte does to the current record.
#[derive(Clone, Copy, PartialEq, Eq)]
pub(crate) enum Effect {
    /// Nothing.
    Skip,
    /// It joins the current field.
    Copy,
    /// It ends the current field.
    EndField,
    /// It ends the current field and the record.
    EndRecord,
}

/// The state of the reading after a byte, and what the byte does.
#[derive(Clone, Copy)]
pub(crate) struct Step {
    pub(crate) state: ParserState,
    pub(crate) effect: Effect,
}

fn to(state: ParserState, effect: Effect) -> Step
    ensures state { result.state ≡ state }
    ensures effect { result.effect ≡ effect }
{
    Step { state, effect }
}

/// Returns how a byte is read in a field without quotes.
fn in_field(separator: Separator, byte: u8) -> Step
    ensures { (state_of result.state, action_of result.effect)
        ≡ machine.in_field (config_by separator) byte }
{
    if byte == separator.byte() {
        return to(ParserState::StartField, Effect::EndField);
    }
    match byte {
        b'\r' => to(ParserState::AfterReturn, Effect::EndRecord),
        b'\n' => to(ParserState::StartRecord, Effect::EndRecord),
        _ => to(ParserState::InField, Effect::Copy),
    }
}

/// Returns how a byte is read before a field.
fn start_field(separator: Separator, byte: u8) -> Step
    ensures { (state_of result.state, action_of result.effect)
        ≡ machine.start_field (config_by separator) byte }
{
    match byte {
        b'"' => to(ParserState::InQuoted, Effect::Skip),
        _ => in_field(separator, byte),
    }
}

/// Returns how a byte is read before a record.
fn start_record(separator: Separator, byte: u8) -> Step
    ensures { (state_of result.state, action_of result.effect)
        ≡ machine.start_record (config_by separator) byte }
{
    match byte {
        b'\r' | b'\n' => to(ParserState::StartRecord, Effect::Skip),
        _ => start_field(separator, byte),
    }
}

impl ParserState {
    /// Returns how the next byte is read, given the separator that was found.
    #[tactic(auto, unfolding(crate::specs::Records::read_byte))]
    pub(crate) fn read_byte(self, separator: Option<Separator>, byte: u8) -> Step
        ensures { (state_of result.state, action_of result.effect)
            ≡ spec.read_byte separator (state_of self) byte }
    {
        let current = separator_at(separator, byte);
        match self {
            ParserState::StartRecord | ParserState::AfterReturn => start_record(current, byte),
            ParserState::StartField => start_field(current, byte),
            ParserState::InField => in_field(current, byte),
            ParserState::InQuoted if byte == b'"' => to(ParserState::AfterQuote, Effect::Skip),
            ParserState::InQuoted => to(ParserState::InQuoted, Effect::Copy),
            ParserState::AfterQuote if byte == b'"' => to(ParserState::InQuoted, Effect::Copy),
            ParserState::AfterQuote => in_field(current, byte),
        }
    }

    /// Returns the byte that ends a run of bytes which only join the current field. A line end ends
    /// such a run too. If there is no current field, there is no such run.
    pub(crate) fn run_end(self, separator: Separator) -> Option<u8>
        ensures { IfSome result (runs.EndsRun separator (state_of self)) }
    {
        match self {
            ParserState::InField => Some(separator.byte()),
            ParserState::InQuoted => Some(b'"'),
            _ => None,
        }
    }

    /// Returns whether a quote is open.
    pub(crate) fn is_open(self) -> bool
        ensures { result ≡ spec.is_open (state_of self) }
    {
        self == ParserState::InQuoted
    }

    /// Returns whether it is between two records.
    pub(crate) fn is_between(self) -> bool
        ensures { result ≡ spec.is_between (state_of self) }
    {
        self == ParserState::StartRecord || self == ParserState::AfterReturn
    }
}
