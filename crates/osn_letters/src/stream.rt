//! Letters from a source to a sink.
ghost use Rattle.std.specs.Prelude.{◌≡◌, ◌+◌, ◌≤◌, ◌<◌, ◌^◌, [], length, true, false, IfErr};
ghost use Rattle.std.specs.Prelude.{IfOk, IfSome, OnOk, MatchResult};
ghost use Rattle.std.specs.Io.KnownBytes.{IsAtEnd};
ghost use Rattle.osn_days.specs.Rules.{newest_rules};
ghost use Rattle.osn_letters.specs.Faults.{EndsStream, is_of_stream, is_read_fault, is_write_fault};
ghost use Rattle.osn_letters.specs.LettersInside as inside;
ghost use Rattle.osn_letters.specs.RowRemarks.{IsTallyOf};
ghost use Rattle.osn_letters.specs.TableLaws.{AreTableLaws};
ghost use Rattle.osn_letters.specs.Table as spec;
ghost use Rattle.osn_letters.specs.WriterInside.{waiting};

use crate::csv_text::RowWriter;
use crate::fault::LettersFault;
use crate::letters::Letters;
use crate::settings::TableSettings;
use crate::tally::Tally;
use osn_lines::{Progress, Sink, Source, read_buffer, write_all};
use osn_register::Register;
use std::alloc::Global;

/// Returns whether it is known what waits of what was taken: it is not if memory ran out.
fn is_known(outcome: &Result<(), LettersFault>) -> bool
    ensures { result ≡ inside.is_known outcome.now }
{
    match outcome {
        Ok(()) => true,
        Err(fault) => fault.is_of_table(),
    }
}

/// Writes the text that waits after the bytes were taken, so that nothing waits afterwards. If
/// memory ran out, it is not known what waits, and nothing is written.
fn write_out<W: Sink>(
    alloc: Global,
    sink: &mut W,
    out: &mut RowWriter,
    outcome: Result<(), LettersFault>,
) -> Result<(), LettersFault>
    requires inner { IfErr outcome (λ f. is_of_stream f ≡ false) }
    ensures all { OnOk result (inside.WritesAll (W.contents sink.old) (W.contents sink.new)
        out.old out.new outcome) }
    ensures passed { OnOk result (W.holds_back sink.new ≡ false) }
    ensures early { IfErr result (λ f. (w : spec.Written) → inside.Waits (waiting out.old) outcome w
        → spec.EndsEarly (W.contents sink.old) (W.contents sink.new) w f) }
    ensures sink { MatchResult result (λ _. W.has_failed sink.new ≡ W.has_failed sink.old)
        (λ f. EndsStream (is_write_fault f) (W.has_failed sink.old) (W.has_failed sink.new)
        ((w : spec.Written) → inside.Waits (waiting out.old) outcome w → spec.IsLong w)) }
    ensures unread { IfErr result (λ f. is_read_fault f ≡ false) }
{
    if !is_known(&outcome) {
        return outcome;
    }
    let Ok(text) = out.take_text(alloc) else {
        return Err(LettersFault::NoMemory);
    };
    match write_all(sink, &text) {
        Ok(()) => outcome,
        Err(_) => Err(LettersFault::WriteFault),
    }
}

/// Takes the next bytes, and writes what they add to the table.
fn take_and_write<W: Sink>(
    letters: &mut Letters<'_>,
    sink: &mut W,
    piece: &[u8],
) -> Result<(), LettersFault>
    requires ready { inside.IsReady letters.old }
    requires line { letters.old.parser.line + length piece.now < 2 ^ 64 }
    requires empty { waiting letters.old.table.out ≡ [] }
    ensures ready { OnOk result (inside.IsReady letters.new) }
    ensures line { OnOk result
        (letters.new.parser.line ≤ letters.old.parser.line + length piece.now) }
    ensures empty { OnOk result (waiting letters.new.table.out ≡ []) }
    ensures passes { OnOk result (inside.PassesBytes (W.contents sink.old) (W.contents sink.new)
        letters.old letters.new piece.now) }
    ensures counts { OnOk result (inside.CountsBytes letters.old letters.new piece.now) }
    ensures early { IfErr result (inside.EndsBytes (W.contents sink.old) (W.contents sink.new)
        letters.old piece.now) }
    ensures sound { OnOk result (W.has_failed sink.new ≡ W.has_failed sink.old) }
    ensures reason { IfErr result (inside.SinkEnds (W.has_failed sink.old)
        (W.has_failed sink.new) letters.old piece.now) }
    ensures unread { IfErr result (λ f. is_read_fault f ≡ false) }
{
    let outcome = letters.take_piece(piece);
    write_out(letters.table.alloc, sink, &mut letters.table.out, outcome)
}

/// Ends the text, writes what that adds to the table, and takes the tally of the rows out.
fn finish_and_write<W: Sink>(letters: &mut Letters<'_>, sink: &mut W) -> Result<Tally, LettersFault>
    requires ready { inside.IsReady letters.old }
    requires line { letters.old.parser.line + 1 < 2 ^ 64 }
    requires empty { waiting letters.old.table.out ≡ [] }
    ensures whole { OnOk result (spec.IsWhole (W.contents sink.old) (W.contents sink.new)
        (inside.text_from letters.old [])) }
    ensures tally { IfOk result (λ tally. inside.tally_from letters.old [] ≡ tally) }
    ensures passed { OnOk result (W.holds_back sink.new ≡ false) }
    ensures early { IfErr result (spec.EndsEarly (W.contents sink.old) (W.contents sink.new)
        (inside.text_from letters.old [])) }
    ensures sound { OnOk result (W.has_failed sink.new ≡ W.has_failed sink.old) }
    ensures reason { IfErr result (λ f. EndsStream (is_write_fault f) (W.has_failed sink.old)
        (W.has_failed sink.new) (spec.IsLong (inside.text_from letters.old []))) }
    ensures unread { IfErr result (λ f. is_read_fault f ≡ false) }
{
    let outcome = letters.finish();
    match write_out(letters.table.alloc, sink, &mut letters.table.out, outcome) {
        Ok(()) => Ok(letters.table.take_tally()),
        Err(fault) => Err(fault),
    }
}

/// Writes a table of letters in CSV from one in CSV. The header has twelve names after its own.
/// Each record has the twelve fields of `row_fields` after its own, by the register of that
/// edition. The settings name the columns of the places, of the dates or their parts, and of the
/// weekdays. The fields are separated by what the settings name. If they name nothing, the
/// separator is the first comma, semicolon or tab of the header that is not in quotes, or the comma
/// if there is none. The table is written with the same separator. A byte order mark at the
/// beginning is ignored.
///
/// What a read gives is written before the next read. In addition to the register and a map of its
/// codes and names, memory contains one read of at most 65,536 bytes, what is written of them, and
/// at most 65,536 bytes of a record that hasn't ended yet, or 16,777,216 if the settings keep
/// going. `progress` counts each read that gave bytes.
///
/// If the settings keep going, a record that would be a fault as below has a row too, unless it has
/// more than 16,777,216 bytes: its fields that the header names, no day and one remark, and then
/// its further fields.
///
/// If the whole table was written, the tally of its rows is returned.
///
/// A table may be cut between its records and written in parts, each after the same header: the
/// rows of each part, one after another, are those of the whole.
///
/// # Errors
///
/// `NoHeader` if the table has no record. `HasColumn` if the header has one of the twelve names
/// already. `LacksColumn` if it lacks a column that is required. `BadRecord` if a record has
/// another number of fields than the header. `TooLong` if a record has more than 65,536 bytes.
/// `OpenQuote` if a quote of a record is open at the end of the table. `TextAfterQuote` if a record
/// has a text after a closing quote. All that was before such a fault was written.
///
/// `ReadFault` if the source failed or gave no end within 4,294,967,295 reads. `WriteFault` if the
/// sink failed or did not take a text within as many writes. And `NoMemory`. If one of these ended
/// the table, a beginning of it was written.
#[tactic(auto, using(crate::proofs::PartFacts::table_laws))]
pub fn write_letters<R: Source, W: Sink, P: Progress>(
    alloc: Global,
    register: &Register,
    edition: usize,
    settings: TableSettings<'_>,
    source: &mut R,
    sink: &mut W,
    progress: &mut P,
) -> Result<Tally, LettersFault>
    ensures whole { OnOk result (IfSome (R.remaining source.old) (λ text.
        spec.IsWhole (W.contents sink.old) (W.contents sink.new)
        (spec.letters_written
        (spec.basis newest_rules register.now.territories edition settings.entry) text))) }
    ensures early { IfErr result (λ fault. IfSome (R.remaining source.old) (λ text.
        spec.EndsEarly (W.contents sink.old) (W.contents sink.new)
        (spec.letters_written
        (spec.basis newest_rules register.now.territories edition settings.entry) text) fault)) }
    ensures tally { IfOk result (λ tally. IfSome (R.remaining source.old) (λ text. IsTallyOf
        (spec.basis newest_rules register.now.territories edition settings.entry) text tally)) }
    // All was read, and nothing is held back.
    ensures end { OnOk result
        (IsAtEnd (R.remaining source.new) × (W.holds_back sink.new ≡ false)) }

    // On a read fault, the source failed or gave no end in 4,294,967,295 reads, and all that was
    // read was written. On a write fault, the sink failed, or the table has as many bytes.
    ensures source { MatchResult result (λ _. R.has_failed source.new ≡ R.has_failed source.old)
        (λ f. EndsStream (is_read_fault f) (R.has_failed source.old) (R.has_failed source.new)
        (IfSome (R.remaining source.old) (λ text. 4294967295 ≤ length text))
        × (is_read_fault f ≡ true → spec.EndsRead (R.remaining source.old)
        (R.remaining source.new) (W.contents sink.old) (W.contents sink.new)
        (spec.letters_written
        (spec.basis newest_rules register.now.territories edition settings.entry)))) }
    ensures sink { MatchResult result (λ _. W.has_failed sink.new ≡ W.has_failed sink.old)
        (λ f. EndsStream (is_write_fault f) (W.has_failed sink.old) (W.has_failed sink.new)
        (IfSome (R.remaining source.old) (λ text. spec.IsLong (spec.letters_written
        (spec.basis newest_rules register.now.territories edition settings.entry) text)))) }

    // As laws: the records of a text are those that the kit reads, if no record has a fault. And a
    // table may be cut between its records and written in parts, each after the header.
    ensures laws { AreTableLaws }
{
    let Ok(mut buffer) = read_buffer(alloc) else {
        return Err(LettersFault::NoMemory);
    };
    let Ok(mut letters) = Letters::new(alloc, register, edition, settings) else {
        return Err(LettersFault::NoMemory);
    };
    for _call in 0..u32::MAX {
        let Ok(read) = source.read(&mut buffer) else {
            return Err(LettersFault::ReadFault);
        };
        if read == 0 {
            return finish_and_write(&mut letters, sink);
        }
        progress.count(read);
        take_and_write(&mut letters, sink, &buffer[..read])?;
    }
    Err(LettersFault::ReadFault)
}
