//! The records of a text of CSV, as its bytes come.
ghost use Rattle.std.specs.Prelude.{◌≡◌, ◌+◌, ◌-◌, ◌++◌, ◌<◌, ◌≤◌, ◌^◌, ◌∷◌, [], false, IfOk};
ghost use Rattle.std.specs.Prelude.{IfErr, OnOk};
ghost use Rattle.std.specs.Prelude.{if◌then◌else◌, ◌==◌, ◌||◌, length, take, true};
ghost use Rattle.std.specs.List.{list_all};
ghost use Rattle.csv.specs.Machine.{carriage_return, fields_after, field_after};
ghost use Rattle.csv.specs.Records.{fields_of, partial_of};
ghost use Rattle.osn_letters.specs.Records as spec;
ghost use Rattle.osn_letters.specs.RecordsInside as inside;
ghost use Rattle.osn_letters.specs.RecordsInside.{state_of, action_of, reading_of};
ghost use Rattle.osn_letters.specs.Runs as runs;
ghost use Rattle.osn_letters.specs.Separators as separators;

use crate::fault::LettersFault;
use crate::parser_state::{Effect, ParserState, Step};
use crate::record_flaw::RecordFlaw;
use crate::separator::{Separator, or_comma, separator_after};
use csv::ByteRecord;
use std::alloc::{AllocError, Global};

/// The most bytes that a record may have in the text, without its line end.
const LONGEST_RECORD: usize = 65_536;

/// The most bytes that a record may have in the text if the records after a longer one are read
/// too.
const LONGEST_KEPT: usize = 16_777_216;

/// Returns how many bytes there are before the first that is `end` or ends a line, but no more than
/// `most`.
fn run_len(bytes: &[u8], end: u8, most: usize) -> usize
    ensures within { result ≤ length bytes.now }
    ensures most { result ≤ most }
    ensures joins { list_all (runs.joins end) (take result bytes.now) ≡ true }
{
    let most = most.min(bytes.len());
    for index in 0..most {
        let byte = bytes[index];
        if byte == end || byte == b'\r' || byte == b'\n' {
            return index;
        }
    }
    most
}

/// A record that ended: the line on which it begins, and its flaw, if it has one.
#[derive(Clone, Copy)]
pub(crate) struct EndedRecord {
    pub(crate) line: u64,
    pub(crate) flaw: Option<RecordFlaw>,
}

/// The state of the reading of a text, and what was read of the current record. Records that have a
/// flaw may be read too.
#[derive(Drop)]
pub(crate) struct RecordParser {
    pub(crate) keeps_going: bool,
    pub(crate) state: ParserState,
    pub(crate) separator: Option<Separator>,
    pub(crate) fields: ByteRecord,
    pub(crate) field: Vec<u8>,
    pub(crate) size: usize,
    pub(crate) line: u64,
    pub(crate) returned: bool,
    pub(crate) first_line: u64,
    pub(crate) has_stray: bool,
}

impl RecordParser {
    /// Returns the state at the beginning of a text, with the separator that was named, if any.
    pub(crate) fn new(alloc: Global, keeps_going: bool, named: Option<Separator>) -> RecordParser
        ensures reading { reading_of result ≡ spec.at_start keeps_going named }
        ensures partial { partial_of result.fields ≡ [] }
    {
        RecordParser {
            keeps_going,
            state: ParserState::StartRecord,
            separator: named,
            fields: ByteRecord::new(alloc),
            field: Vec::new(alloc),
            size: 0,
            line: 1,
            returned: false,
            first_line: 1,
            has_stray: false,
        }
    }

    /// Ends the current field.
    fn end_field(&mut self) -> Result<(), AllocError>
        requires { partial_of self.old.fields ≡ [] }
        ensures fields { OnOk result
            (fields_of self.new.fields ≡ fields_of self.old.fields ++ self.old.field.items ∷ []) }
        ensures partial { OnOk result (partial_of self.new.fields ≡ []) }
        ensures field { OnOk result (self.new.field.items ≡ []) }
        ensures state { self.new.state ≡ self.old.state }
        ensures separator { self.new.separator ≡ self.old.separator }
        ensures size { self.new.size ≡ self.old.size }
        ensures line { self.new.line ≡ self.old.line }
        ensures returned { self.new.returned ≡ self.old.returned }
        ensures first_line { self.new.first_line ≡ self.old.first_line }
        ensures keeps_going { self.new.keeps_going ≡ self.old.keeps_going }
        ensures has_stray { self.new.has_stray ≡ self.old.has_stray }
    {
        self.fields.push_field(&self.field)?;
        self.field.clear();
        Ok(())
    }

    /// Does to the current record what a byte does.
    fn apply(&mut self, effect: Effect, byte: u8) -> Result<(), AllocError>
        requires { partial_of self.old.fields ≡ [] }
        ensures fields { OnOk result (fields_of self.new.fields ≡ fields_after
            (action_of effect) (fields_of self.old.fields) self.old.field.items) }
        ensures partial { OnOk result (partial_of self.new.fields ≡ []) }
        ensures field { OnOk result (self.new.field.items
            ≡ field_after (action_of effect) byte self.old.field.items) }
        ensures state { self.new.state ≡ self.old.state }
        ensures separator { self.new.separator ≡ self.old.separator }
        ensures size { self.new.size ≡ self.old.size }
        ensures line { self.new.line ≡ self.old.line }
        ensures returned { self.new.returned ≡ self.old.returned }
        ensures first_line { self.new.first_line ≡ self.old.first_line }
        ensures keeps_going { self.new.keeps_going ≡ self.old.keeps_going }
        ensures has_stray { self.new.has_stray ≡ self.old.has_stray }
    {
        match effect {
            Effect::Skip => Ok(()),
            Effect::Copy => Ok(self.field.push(byte)?),
            Effect::EndField | Effect::EndRecord => self.end_field(),
        }
    }

    /// Returns the most bytes that the current record may have.
    fn most_bytes(&self) -> usize
        ensures { result ≡ spec.most_bytes self.now.keeps_going }
    {
        if self.keeps_going {
            LONGEST_KEPT
        } else {
            LONGEST_RECORD
        }
    }

    /// Returns whether the current record has no room for a byte that leads to a state.
    fn is_full(&self, state: ParserState) -> bool
        ensures { result ≡ spec.is_full (reading_of self.now) (state_of state) }
    {
        !state.is_between() && self.size >= self.most_bytes()
    }

    /// Returns whether a byte ends a line.
    fn ends_line(&self, byte: u8) -> bool
        ensures { result ≡ spec.ends_line self.now.returned byte }
    {
        byte == b'\r' || (byte == b'\n' && !self.returned)
    }

    /// Returns whether a byte that leads to that state is a text after a closing quote.
    fn is_stray(&self, state: ParserState) -> bool
        ensures { result ≡ spec.is_stray (state_of self.now.state) (state_of state) }
    {
        self.state == ParserState::AfterQuote && state == ParserState::InField
    }

    /// Returns whether the current record is not read because of a flaw.
    fn is_refused(&self, has_flaw: bool) -> bool
        ensures { result ≡ spec.is_refused (reading_of self.now) has_flaw }
    {
        has_flaw && !self.keeps_going
    }

    /// Returns whether the current record has a text after a closing quote, or a byte is one.
    fn has_stray_with(&self, is_stray: bool) -> bool
        ensures { result ≡ self.now.has_stray || is_stray }
    {
        self.has_stray || is_stray
    }

    /// Returns the flaw of the current record, if it ends here and has one.
    fn flaw(&self) -> Option<RecordFlaw>
        ensures { result ≡ spec.flaw_of (reading_of self.now) }
    {
        if self.state.is_open() {
            Some(RecordFlaw::OpenQuote)
        } else if self.size > LONGEST_RECORD {
            Some(RecordFlaw::TooLong)
        } else if self.has_stray {
            Some(RecordFlaw::TextAfterQuote)
        } else {
            None
        }
    }

    /// Returns the current record, if it ends here.
    fn ended_record(&self) -> EndedRecord
        ensures line { result.line ≡ self.now.first_line }
        ensures flaw { result.flaw ≡ spec.flaw_of (reading_of self.now) }
    {
        EndedRecord {
            line: self.first_line,
            flaw: self.flaw(),
        }
    }

    /// Counts a byte that leads to a state.
    fn advance(&mut self, state: ParserState, byte: u8)
        requires line { self.old.line + 1 < 2 ^ 64 }
        requires room { spec.is_full (reading_of self.old) (state_of state) ≡ false }
        ensures state { self.new.state ≡ state }
        ensures line { self.new.line ≡ spec.next_line self.old.returned self.old.line byte }
        ensures returned { self.new.returned ≡ (byte == carriage_return) }
        ensures size { self.new.size
            ≡ (if spec.is_between (state_of state) then 0 else self.old.size + 1) }
        ensures first_line { self.new.first_line ≡ (if spec.is_between (state_of state) then
            spec.next_line self.old.returned self.old.line byte else self.old.first_line) }
        ensures separator { self.new.separator ≡ self.old.separator }
        ensures fields { self.new.fields ≡ self.old.fields }
        ensures field { self.new.field ≡ self.old.field }
        ensures keeps_going { self.new.keeps_going ≡ self.old.keeps_going }
        ensures has_stray { self.new.has_stray ≡ self.old.has_stray }
    {
        if self.ends_line(byte) {
            self.line += 1;
        }
        self.returned = byte == b'\r';
        self.state = state;
        if state.is_between() {
            self.size = 0;
            self.first_line = self.line;
        } else {
            self.size += 1;
        }
    }

    /// Returns how many bytes at the beginning of these are known to join the current field, and to
    /// do nothing else.
    fn count_joining(&self, bytes: &[u8]) -> usize
        ensures within { result ≤ length bytes.now }
        ensures room { result ≤ spec.most_bytes self.now.keeps_going - self.now.size }
        ensures joins { runs.JoinField (reading_of self.now) (take result bytes.now) }
    {
        let (Some(separator), false) = (self.separator, self.returned) else {
            return 0;
        };
        let Some(end) = self.state.run_end(separator) else {
            return 0;
        };
        let room = self.most_bytes().saturating_sub(self.size);
        run_len(bytes, end, room)
    }

    /// Takes a run of bytes that only join the current field. Returns how many there are at the
    /// beginning of these bytes.
    ///
    /// # Errors
    ///
    /// If memory runs out, and in no other case.
    #[inline]
    pub(crate) fn take_run(&mut self, bytes: &[u8]) -> Result<usize, AllocError>
        ensures within { IfOk result (λ len. len ≤ length bytes.now) }
        ensures line { self.new.line ≡ self.old.line }
        ensures partial { partial_of self.new.fields ≡ partial_of self.old.fields }
        ensures takes { IfOk result (λ len.
            inside.TakesRun self.old self.new (take len bytes.now)) }
    {
        let len = self.count_joining(bytes);
        self.field.extend_from_slice(&bytes[..len])?;
        self.size += len;
        Ok(len)
    }

    /// Returns what separates the fields of the current record.
    pub(crate) fn separator(&self) -> Separator
        ensures { result ≡ separators.or_comma self.now.separator }
    {
        or_comma(self.separator)
    }

    /// Takes the next byte. If the byte ends a record, returns where that record begins, and its
    /// flaw. The parser contains that record until it is cleared.
    ///
    /// # Errors
    ///
    /// `TooLong` if the current record has no room for the byte. Otherwise `TextAfterQuote` if the
    /// byte is a text after a closing quote, and records that have a flaw are not read. And
    /// `NoMemory`.
    #[inline]
    pub(crate) fn take(&mut self, byte: u8) -> Result<Option<EndedRecord>, LettersFault>
        requires partial { partial_of self.old.fields ≡ [] }
        requires line { self.old.line + 1 < 2 ^ 64 }
        ensures partial { OnOk result (partial_of self.new.fields ≡ []) }
        ensures line { OnOk result
            (self.new.line ≡ spec.next_line self.old.returned self.old.line byte) }
        ensures takes { IfOk result (inside.Takes self.old self.new byte) }
        ensures fault { IfErr result (inside.RefusesByte self.old byte) }
    {
        let Step { state, effect } = self.state.read_byte(self.separator, byte);
        if self.is_full(state) {
            return Err(LettersFault::TooLong {
                line: self.first_line,
            });
        }
        let is_stray = self.is_stray(state);
        if self.is_refused(is_stray) {
            return Err(LettersFault::TextAfterQuote {
                line: self.first_line,
            });
        }
        let ended = self.ended_record();
        self.apply(effect, byte)?;
        self.advance(state, byte);
        self.separator = separator_after(self.separator, byte, effect);
        if effect == Effect::EndRecord {
            self.has_stray = false;
            return Ok(Some(ended));
        }
        self.has_stray = self.has_stray_with(is_stray);
        Ok(None)
    }

    /// Forgets the record that ended.
    pub(crate) fn clear(&mut self)
        ensures reading { reading_of self.new ≡ inside.cleared (reading_of self.old) }
        ensures partial { partial_of self.new.fields ≡ [] }
    {
        self.fields.clear();
    }

    /// Ends the text. If this ends a record, returns where that record begins, and its flaw. The
    /// parser then contains that record.
    ///
    /// # Errors
    ///
    /// `OpenQuote` if a quote is still open, and records that have a flaw are not read. And
    /// `NoMemory`.
    pub(crate) fn finish(&mut self) -> Result<Option<EndedRecord>, LettersFault>
        requires partial { partial_of self.old.fields ≡ [] }
        ensures ends { IfOk result (λ ended. spec.last_record (reading_of self.old)
            ≡ inside.records_given self.new ended) }
        ensures partial { OnOk result (partial_of self.new.fields ≡ []) }
        ensures fault { IfErr result (inside.RefusesEnd self.old) }
    {
        if self.state.is_between() {
            return Ok(None);
        }
        if self.is_refused(self.state.is_open()) {
            return Err(LettersFault::OpenQuote {
                line: self.first_line,
            });
        }
        let ended = self.ended_record();
        self.end_field()?;
        Ok(Some(ended))
    }
}
