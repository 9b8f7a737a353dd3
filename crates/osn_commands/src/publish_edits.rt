//! The edits of a plan, published in the journal that is kept: appended as an edition, or with a
//! journal that must be rewritten.
ghost use Rattle.std.specs.Prelude.{◌≡◌, ◌^◌, ◌<◌, ℕ, List, [], Option, IfErr, IfOk, OnErr, OnOk};
ghost use Rattle.std.specs.Prelude.{None, option_map, string_bytes};
ghost use Rattle.std.specs.List.{All};
ghost use Rattle.osn_core.specs.Sequential.{HasLawfulSource};
ghost use Rattle.osn_files.specs.JournalText.{journal_text};
ghost use Rattle.osn_journal.specs.KeptJournal.{file_of};
ghost use Rattle.osn_lines.specs.Streams.{output_of};
ghost use Rattle.osn_register.specs.declared.edit.Edit.{Edit};
ghost use Rattle.osn_commands.specs.Edition.{IsNoMemoryOr, edition_refusal, needs_sources};
ghost use Rattle.osn_commands.specs.Edition.{with_batch};
ghost use Rattle.osn_commands.specs.Publish as spec;
ghost use Rattle.osn_commands.specs.PublishInside as inside;

use crate::edition::{Edition, WholeEdition, edition_of, whole_edition_of, write_edition};
use crate::plan_words::{not_kept_line, push_standing};
use osn_core::Object;
use osn_files::{CountedPrefix, give_source};
use osn_folder::KeptFile;
use osn_lines::{Sink, write_all};
use osn_register::{Edit, Refusal, Register};
use osn_register_text::plan_page;
use osn_report::{CommandFault, Status, print, report, report_at, report_line, write_line};
use osn_request::Version;
use osn_serve_commands::{LoadedJournal, check_version_to_keep, cut_text_of};
use std::alloc::{AllocError, Global};

/// Returns the lines of a plan without edits, and the line that there is nothing to change.
pub(crate) fn no_change_text(
    alloc: Global,
    object: &Object,
    target: &Register,
) -> Result<String, AllocError>
    ensures { IfOk result (λ text.
        string_bytes text ≡ spec.no_change_text object.now target.now) }
{
    let mut text = plan_page(alloc, object.register(), target, &[])?;
    push_standing(&mut text, object.batches().len())?;
    Ok(text)
}

/// Prints the text of an edition that is in the journal. If the output failed, standard error
/// reports that, and the publish is done all the same.
pub(crate) fn print_report<W: Sink, E: Sink>(text: &str, output: &mut W, errors: &mut E) -> Status
    ensures { spec.PrintsReport text.now
        (output_of W.contents W.has_failed W.holds_back output.old output.new)
        (output_of E.contents E.has_failed E.holds_back errors.old errors.new) result }
{
    match write_all(output, text.as_bytes()) {
        Ok(()) => Status::Done,
        Err(_) => {
            write_line(
                errors,
                "oldstyle: the edition is in the journal, but its report could not be printed\n",
            );
            Status::Done
        }
    }
}

/// Writes an edition to the file of this path, and prints its text.
fn publish_edition<K: KeptFile, W: Sink, E: Sink>(
    alloc: Global,
    path: &str,
    part: CountedPrefix,
    keeper: &mut K,
    edition: &Edition,
    output: &mut W,
    errors: &mut E,
) -> Status
    requires { part.lines < 2 ^ 63 }
    // For whatever a source gave of which the part counts, and any edits that the lines are of.
    ensures { (input : Option (List ℕ)) → inside.IsPartOf part input
        → (edits : List Edit) → inside.AreLinesOf part edits edition.now.lines.items
        → spec.WritesEdition (inside.CanStay K.cut_back_may_fail) path.now
        (file_of K.contents K.synced K.fault keeper.old)
        (file_of K.contents K.synced K.fault keeper.new) input edits
        (string_bytes edition.now.text)
        (output_of W.contents W.has_failed W.holds_back output.old output.new)
        (output_of E.contents E.has_failed E.holds_back errors.old errors.new) result }
{
    match write_edition(alloc, part, keeper, &edition.lines, errors) {
        Ok(()) => print_report(edition.text.as_str(), output, errors),
        Err(fault) => report_at(alloc, errors, path, fault),
    }
}

/// Appends the edits of a plan as an edition to the journal of this path, if there are any.
fn append_edits<K: KeptFile, W: Sink, E: Sink>(
    alloc: Global,
    path: &str,
    part: CountedPrefix,
    keeper: &mut K,
    object: &mut Object,
    target: &Register,
    edits: Vec<Edit>,
    output: &mut W,
    errors: &mut E,
) -> Status
    requires { part.lines < 2 ^ 63 }
    // For whatever a source gave of which the part counts.
    ensures { (input : Option (List ℕ)) → inside.IsPartOf part input
        → spec.AppendsEdits (inside.CanStay K.cut_back_may_fail) path.now object.old target.now
        (file_of K.contents K.synced K.fault keeper.old)
        (file_of K.contents K.synced K.fault keeper.new) input edits.items
        (output_of W.contents W.has_failed W.holds_back output.old output.new)
        (output_of E.contents E.has_failed E.holds_back errors.old errors.new) result }
{
    if edits.is_empty() {
        return print(no_change_text(alloc, object, target), output, errors);
    }
    match edition_of(alloc, path, part, object, target, edits) {
        Ok(edition) => publish_edition(alloc, path, part, keeper, &edition, output, errors),
        Err(refusal) => report(alloc, errors, CommandFault::Refused(refusal)),
    }
}

/// A journal of a version that has no sources, and an edition that needs them.
#[derive(Drop)]
pub struct NeedsRewrite {
    /// What the file of the journal contains.
    pub bytes: Vec<u8>,
    /// The edition, and the rewritten journal.
    pub edition: WholeEdition,
    /// The text on the last line, if that was not finished.
    pub cut: Option<String>,
}

/// Returns whether an edit gives a source, and a journal of this version has none.
pub(crate) fn needs_sources(version: Version, edits: &[Edit]) -> bool
    ensures { result ≡ needs_sources version edits.now }
{
    !version.has_sources() && give_source(edits)
}

/// Returns the edits of a plan as the next edition of the journal of this path, which must be
/// rewritten.
///
/// # Errors
///
/// The first refusal that applies, or `NoMemory`.
fn older_edition(
    alloc: Global,
    path: &str,
    journal: LoadedJournal,
    target: &Register,
    edits: Vec<Edit>,
) -> Result<NeedsRewrite, Refusal>
    requires few { journal.part.lines < 2 ^ 63 }
    requires pending { journal.object.pending ≡ [] }
    ensures bytes { IfOk result (λ older. older.bytes.items ≡ journal.bytes.items) }
    ensures cut { IfOk result (λ older. inside.IsCutOf journal.part
        (option_map string_bytes older.cut)) }
    ensures lawful { OnOk result (edition_refusal journal.object edits.items ≡ None) }
    ensures sources { OnOk result (All HasLawfulSource edits.items) }
    ensures journal { IfOk result (λ older. string_bytes older.edition.journal
        ≡ journal_text (with_batch journal.object edits.items)) }
    ensures text { IfOk result (λ older. string_bytes older.edition.text
        ≡ spec.published_text path.now journal.object target.now edits.items) }
    ensures refused { IfErr result (IsNoMemoryOr (edition_refusal journal.object edits.items)) }
{
    let LoadedJournal {
        bytes,
        part,
        mut object,
        ..
    } = journal;
    let cut = cut_text_of(alloc, part)?;
    let edition = whole_edition_of(alloc, path, &mut object, target, edits)?;
    Ok(NeedsRewrite {
        bytes,
        edition,
        cut,
    })
}

/// Publishes the edits of a plan in the journal of this path, with nothing pending.
///
/// # Errors
///
/// The rewritten journal, if an edit gives a source that its version lacks.
pub(crate) fn publish_edits<K: KeptFile, W: Sink, E: Sink>(
    alloc: Global,
    path: &str,
    keeper: &mut K,
    journal: LoadedJournal,
    target: &Register,
    edits: Vec<Edit>,
    output: &mut W,
    errors: &mut E,
) -> Result<Status, NeedsRewrite>
    requires few { journal.part.lines < 2 ^ 63 }
    requires pending { journal.object.pending ≡ [] }
    // For whatever a source gave of which the part counts.
    ensures ok { IfOk result (λ status. (input : Option (List ℕ))
        → inside.IsPartOf journal.part input
        → spec.PublishesEdits (needs_sources journal.version edits.items)
        (inside.CanStay K.cut_back_may_fail) path.now journal.version journal.object target.now
        (file_of K.contents K.synced K.fault keeper.old)
        (file_of K.contents K.synced K.fault keeper.new) input edits.items
        (output_of W.contents W.has_failed W.holds_back output.old output.new)
        (output_of E.contents E.has_failed E.holds_back errors.old errors.new) status) }
    ensures older { IfErr result (λ older. inside.IsOlderOf path.now journal.bytes.items
        journal.part journal.version journal.object target.now edits.items older.bytes.items
        (string_bytes older.edition.journal)
        (string_bytes older.edition.text) (option_map string_bytes older.cut)) }
    ensures quiet { OnErr result ((keeper.new ≡ keeper.old) × (output.new ≡ output.old)
        × (errors.new ≡ errors.old)) }
{
    if needs_sources(journal.version, &edits) {
        return match older_edition(alloc, path, journal, target, edits) {
            Ok(older) => Err(older),
            Err(refusal) => Ok(report(alloc, errors, CommandFault::Refused(refusal))),
        };
    }
    let LoadedJournal {
        part,
        version,
        mut object,
        ..
    } = journal;
    match check_version_to_keep(version) {
        Ok(()) => Ok(append_edits(
            alloc,
            path,
            part,
            keeper,
            &mut object,
            target,
            edits,
            output,
            errors,
        )),
        Err(_) => {
            let lines = not_kept_line(alloc, path, version);
            Ok(report_line(errors, Status::Refused, lines))
        }
    }
}
