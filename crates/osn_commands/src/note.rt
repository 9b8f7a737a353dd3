//! The note on standard error beside a plan: what a publish of its edits refuses, or does first.
ghost use Rattle.osn_lines.specs.Streams.{output_of};
ghost use Rattle.osn_commands.specs.Edition.{edition_refusal};
ghost use Rattle.osn_commands.specs.Note as spec;
ghost use Rattle.osn_commands.specs.declared.note.Note.{Note};

use crate::edition::make_edition;
use crate::plan_words::{anew_line, new_line, not_kept_line, pending_line, refused_edits_line};
use crate::publish_edits::needs_sources;
use osn_core::Object;
use osn_lines::Sink;
use osn_register::{Edit, Refusal};
use osn_report::{Status, report_line, report_no_memory};
use osn_request::Version;
use osn_serve_commands::check_version_to_keep;
use std::alloc::Global;

/// The note beside a plan.
#[derive(Clone, Copy)]
pub(crate) enum Note {
    /// Nothing.
    Nothing,
    /// This many edits are pending.
    Pending(usize),
    /// The journal is not there.
    New,
    /// A publish refuses the edits.
    Refused(Refusal),
    /// A publish rewrites the journal of this version.
    Anew(Version),
    /// A publish refuses a journal of this version.
    NotKept(Version),
}

/// Returns the note that a publish refuses these edits, or else another note.
fn refusal_or(object: &mut Object, edits: Vec<Edit>, other: Note) -> Note
    ensures { spec.IsNoteOf (spec.refusal_or (edition_refusal object.old edits.items) other)
        result }
{
    match make_edition(object, edits) {
        Ok(_) => other,
        Err(refusal) => Note::Refused(refusal),
    }
}

/// Returns the note on edits, if there are some, that a publish refuses them, or else another note.
fn edits_or(object: &mut Object, edits: Vec<Edit>, other: Note) -> Note
    ensures { spec.IsNoteOf (spec.edits_or object.old edits.items other) result }
{
    if edits.is_empty() {
        return other;
    }
    refusal_or(object, edits, other)
}

/// Returns the note on edits for a journal of this version.
fn version_note(version: Version, object: &mut Object, edits: Vec<Edit>) -> Note
    ensures { spec.IsNoteOf (spec.version_note version object.old edits.items) result }
{
    if needs_sources(version, &edits) {
        return refusal_or(object, edits, Note::Anew(version));
    }
    match check_version_to_keep(version) {
        Ok(()) => edits_or(object, edits, Note::Nothing),
        Err(_) => Note::NotKept(version),
    }
}

/// Returns the note on edits for the journal of this version that makes an object, and is there or
/// not.
pub(crate) fn note_of(
    is_there: bool,
    version: Version,
    object: &mut Object,
    edits: Vec<Edit>,
) -> Note
    ensures { spec.IsNoteOf (spec.note_of is_there version object.old edits.items) result }
{
    let pending = object.pending().len();
    if pending > 0 {
        return Note::Pending(pending);
    }
    if is_there {
        version_note(version, object, edits)
    } else {
        edits_or(object, edits, Note::New)
    }
}

/// Reports on standard error that a publish refuses edits, or that memory ran out. Returns the
/// status.
fn report_refused<E: Sink>(alloc: Global, errors: &mut E, refusal: Refusal) -> Status
    ensures { spec.ReportsRefused refusal
        (output_of E.contents E.has_failed E.holds_back errors.old errors.new) result }
{
    match refusal {
        Refusal::NoMemory => report_no_memory(errors),
        _ => report_line(errors, Status::Done, refused_edits_line(alloc, refusal)),
    }
}

/// Writes a note on the journal of this path to standard error. Returns the status.
pub(crate) fn report_note<E: Sink>(alloc: Global, errors: &mut E, path: &str, note: Note) -> Status
    // For any note that was expected.
    ensures { (expected : Note) → spec.IsNoteOf expected note
        → spec.ReportsNote (spec.note_line path.now expected)
        (output_of E.contents E.has_failed E.holds_back errors.old errors.new) result }
{
    match note {
        Note::Nothing => Status::Done,
        Note::Pending(edits) => report_line(errors, Status::Done, pending_line(alloc, edits)),
        Note::New => report_line(errors, Status::Done, new_line(alloc, path)),
        Note::Refused(refusal) => report_refused(alloc, errors, refusal),
        Note::Anew(version) => report_line(errors, Status::Done, anew_line(alloc, version)),
        Note::NotKept(version) => {
            report_line(errors, Status::Done, not_kept_line(alloc, path, version))
        }
    }
}
