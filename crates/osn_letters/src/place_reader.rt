//! The reading of a table of places.
ghost use Rattle.std.specs.Prelude.{ℕ, List, ◌≡◌, ◌≢◌, ◌+◌, ◌<◌, ◌≤◌, ◌^◌, ◌∷◌, []};
ghost use Rattle.std.specs.Prelude.{length, true, false};
ghost use Rattle.std.specs.Prelude.{Ok, Err, None, Some, IfOk, IfErr, IfSome, OnOk, MatchResult};
ghost use Rattle.std.specs.Io.KnownBytes.{IsAtEnd};
ghost use Rattle.csv.specs.Reading.{strip_bom};
ghost use Rattle.csv.specs.Records.{partial_of};
ghost use Rattle.osn_letters.specs.Faults.{EndsStream};
ghost use Rattle.osn_letters.specs.Places as spec;
ghost use Rattle.osn_letters.specs.PlacesFaults.{is_of_table, is_read_fault};
ghost use Rattle.osn_letters.specs.PlacesInside as inside;
ghost use Rattle.osn_letters.specs.Records.{at_start, records_from};
ghost use Rattle.osn_letters.specs.RecordsInside.{reading_of};
ghost use Rattle.osn_letters.specs.declared.places_fault.PlacesFault.TheVariants.{NoMemory};

use crate::columns::field_at;
use crate::parser::RecordParser;
use crate::place_columns::{PlaceColumns, find_place_columns};
use crate::places::Places;
use crate::places_fault::PlacesFault;
use crate::row_field::text_in_field;
use osn_lines::{Source, read_all};
use std::alloc::Global;

/// The records that come, and the entries that were made of them.
#[derive(Drop)]
pub(crate) struct PlaceReader {
    pub(crate) alloc: Global,
    pub(crate) parser: RecordParser,
    pub(crate) columns: Option<PlaceColumns>,
    pub(crate) places: Places,
}

impl PlaceReader {
    /// Returns the state at the beginning of a text.
    fn new(alloc: Global) -> PlaceReader
        ensures partial { partial_of result.parser.fields ≡ [] }
        ensures line { result.parser.line ≡ 1 }
        ensures entries { (text : List ℕ) → inside.found_from result text
            ≡ spec.entries_of [] (records_from (at_start false None) text) }
    {
        PlaceReader {
            alloc,
            parser: RecordParser::new(alloc, false, None),
            columns: None,
            places: Places::new(alloc),
        }
    }

    /// Takes the header, which is in the parser.
    fn take_header(&mut self, line: u64) -> Result<(), PlacesFault>
        requires { self.old.columns ≡ None }
        ensures takes { OnOk result (inside.TakesRecord self.old self.new line) }
        ensures refuses { IfErr result (inside.RefusesRecord self.old line) }
        ensures parser { self.new.parser ≡ self.old.parser }
    {
        self.columns = Some(find_place_columns(self.alloc, &self.parser.fields, line)?);
        Ok(())
    }

    /// Takes a record after the header, which is in the parser.
    fn take_row(&mut self, columns: PlaceColumns, line: u64) -> Result<(), PlacesFault>
        requires { self.old.columns ≡ Some columns }
        ensures takes { OnOk result (inside.TakesRecord self.old self.new line) }
        ensures refuses { IfErr result (inside.RefusesRecord self.old line) }
        ensures parser { self.new.parser ≡ self.old.parser }
    {
        let row = &self.parser.fields;
        if row.len() != columns.width {
            return Err(PlacesFault::BadRecord {
                line,
                fields: row.len(),
                width: columns.width,
            });
        }
        let place = text_in_field(field_at(row, columns.place));
        let code = text_in_field(field_at(row, columns.code));
        let (Some(place), Some(code)) = (place, code) else {
            return Err(PlacesFault::NotUtf8 { line });
        };
        let code = code.to_ascii_uppercase(self.alloc)?;
        self.places.take(self.alloc, line, place, &code)
    }

    /// Takes the record that is in the parser.
    fn take_record(&mut self, line: u64) -> Result<(), PlacesFault>
        ensures takes { OnOk result (inside.TakesRecord self.old self.new line) }
        ensures refuses { IfErr result (inside.RefusesRecord self.old line) }
        ensures parser { self.new.parser ≡ self.old.parser }
    {
        match self.columns {
            None => self.take_header(line),
            Some(columns) => self.take_row(columns, line),
        }
    }

    /// Takes the next byte.
    fn take_byte(&mut self, byte: u8) -> Result<(), PlacesFault>
        requires partial { partial_of self.old.parser.fields ≡ [] }
        requires line { self.old.parser.line + 1 < 2 ^ 64 }
        ensures partial { OnOk result (partial_of self.new.parser.fields ≡ []) }
        ensures line { OnOk result (self.new.parser.line ≤ self.old.parser.line + 1) }
        ensures takes { OnOk result ((more : List ℕ) → inside.found_from self.old (byte ∷ more)
            ≡ inside.found_from self.new more) }
        ensures refuses { IfErr result (λ fault. (more : List ℕ)
            → inside.RefusesBytes self.old (byte ∷ more) fault) }
    {
        if let Some(ended) = self.parser.take(byte)? {
            self.take_record(ended.line)?;
            self.parser.clear();
        }
        Ok(())
    }

    /// Takes all bytes of the text.
    fn take_all(&mut self, bytes: &[u8]) -> Result<(), PlacesFault>
        requires partial { partial_of self.old.parser.fields ≡ [] }
        requires line { self.old.parser.line ≡ 1 }
        ensures partial { OnOk result (partial_of self.new.parser.fields ≡ []) }
        ensures takes { OnOk result
            (inside.found_from self.old bytes.now ≡ inside.found_from self.new []) }
        ensures refuses { IfErr result (inside.RefusesBytes self.old bytes.now) }
    {
        for byte in bytes {
            self.take_byte(*byte)?;
        }
        Ok(())
    }

    /// Takes the record that the end of the text ends, if any.
    fn take_last(&mut self) -> Result<(), PlacesFault>
        requires { partial_of self.old.parser.fields ≡ [] }
        ensures takes { OnOk result
            (inside.found_from self.old [] ≡ inside.found_by self.new []) }
        ensures refuses { IfErr result (inside.RefusesBytes self.old []) }
    {
        if let Some(ended) = self.parser.finish()? {
            self.take_record(ended.line)?;
        }
        Ok(())
    }

    /// Returns the entries of the text, which is at its end.
    fn finish(mut self) -> Result<Places, PlacesFault>
        requires { partial_of self.parser.fields ≡ [] }
        ensures value { IfOk result (λ places. inside.found_from self [] ≡ Ok places) }
        ensures refuses { IfErr result (inside.RefusesBytes self []) }
    {
        self.take_last()?;
        match self.columns {
            Some(_) => Ok(self.places),
            None => Err(PlacesFault::NoHeader),
        }
    }
}

/// Returns a text without the byte order mark that it may begin with.
fn unmarked(text: &[u8]) -> &[u8]
    ensures { result.now ≡ strip_bom text.now }
{
    match text.strip_prefix(&[0xef, 0xbb, 0xbf]) {
        Some(rest) => rest,
        None => text,
    }
}

/// Returns the places of a text.
fn places_in(alloc: Global, text: &[u8]) -> Result<Places, PlacesFault>
    ensures value { IfOk result (λ places. spec.places_in text.now ≡ Ok places) }
    ensures fault { IfErr result
        (λ fault. (fault ≢ NoMemory) → spec.places_in text.now ≡ Err fault) }
    ensures unread { IfErr result (λ fault. is_read_fault fault ≡ false) }
{
    let mut reader = PlaceReader::new(alloc);
    reader.take_all(unmarked(text))?;
    reader.finish()
}

/// Reads a table of places in CSV to its end: the code of the territory for each name that a table
/// of letters gives a place. Its header has the columns `place` and `code`; other columns are
/// ignored. White space of ASCII around a place and a code is removed. The fields are separated by
/// the first comma, semicolon or tab of the header that is not in quotes, or by commas if there is
/// none. A byte order mark at the beginning is ignored. A place may be listed twice with the same
/// code.
///
/// # Errors
///
/// The fault of the first record that has one. `NoHeader` if the table has no record. `LacksColumn`
/// if the header lacks the column `place` or, otherwise, `code`. `BadRecord` if a record has
/// another number of fields than the header. Otherwise `NotUtf8` if its place or its code is not
/// UTF-8. Otherwise `TwoCodes` if a record before it has another code for its place. `TooLong` if a
/// record has more than 65,536 bytes. `OpenQuote` if a quote of a record is open at the end of the
/// table. `TextAfterQuote` if a record has a text after a closing quote. `ReadFault` if the source
/// failed or gave no end within 4,294,967,295 reads. And `NoMemory`.
pub fn read_places<R: Source>(alloc: Global, source: &mut R) -> Result<Places, PlacesFault>
    ensures value { IfOk result (λ places. IfSome (R.remaining source.old)
        (λ text. spec.places_in text ≡ Ok places)) }
    ensures fault { IfErr result (λ fault. IfSome (R.remaining source.old)
        (λ text. is_of_table fault ≡ true → spec.places_in text ≡ Err fault)) }
    // All was read, unless the source failed or memory ran out.
    ensures end { MatchResult result (λ _. IsAtEnd (R.remaining source.new))
        (λ fault. is_of_table fault ≡ true → IsAtEnd (R.remaining source.new)) }
    // On a read fault, the source failed or gave no end in 4,294,967,295 reads.
    ensures source { MatchResult result (λ _. R.has_failed source.new ≡ R.has_failed source.old)
        (λ f. EndsStream (is_read_fault f) (R.has_failed source.old) (R.has_failed source.new)
        (IfSome (R.remaining source.old) (λ text. 4294967295 ≤ length text))) }
{
    let text = read_all(alloc, source)?;
    places_in(alloc, &text)
}
