//! The command `publish`: the edits of a plan, as one edition of a journal that is kept.
ghost use Rattle.std.specs.Prelude.{◌≡◌, ◌^◌, ◌<◌, ℕ, List, [], Option, IfErr, IfOk, OnErr};
ghost use Rattle.std.specs.Prelude.{None, option_map, string_bytes};
ghost use Rattle.osn_journal.specs.KeptJournal.{file_of};
ghost use Rattle.osn_lines.specs.Streams.{input_of, output_of};
ghost use Rattle.osn_commands.specs.Edition.{IsEachEditionLoaded};
ghost use Rattle.osn_commands.specs.Publish as spec;
ghost use Rattle.osn_commands.specs.PublishInside as inside;
ghost use Rattle.osn_commands.specs.Since.{hindering_edition, request_of};

use crate::plan_fault::report_plan_fault;
use crate::plan_words::pending_line;
use crate::publish_edits::{NeedsRewrite, publish_edits};
use crate::since::{PublishRequest, behind_lines, hindering_edition, later_lines, later_than};
use osn_folder::KeptFile;
use osn_lines::{Sink, Source};
use osn_register::{Edit, Limits, Register};
use osn_register_text::plan;
use osn_report::{Status, report_at, report_line};
use osn_serve_commands::{LoadedJournal, read_journal_to_keep};
use std::alloc::Global;

/// Publishes the edits of a plan, unless they change again what editions after that of the text
/// changed, and the request does not allow that.
///
/// # Errors
///
/// The rewritten journal, if an edit gives a source that its version lacks.
fn publish_unless_behind<K: KeptFile, W: Sink, E: Sink>(
    alloc: Global,
    keeper: &mut K,
    journal: LoadedJournal,
    request: PublishRequest<'_>,
    target: &Register,
    edits: Vec<Edit>,
    output: &mut W,
    errors: &mut E,
) -> Result<Status, NeedsRewrite>
    requires few { journal.part.lines < 2 ^ 63 }
    requires pending { journal.object.pending ≡ [] }
    // For whatever a source gave of which the part counts.
    ensures ok { IfOk result (λ status. (input : Option (List ℕ))
        → inside.IsPartOf journal.part input
        → spec.PublishesUnlessBehind
        (hindering_edition (request_of request.entry) journal.object.batches edits.items)
        (inside.CanStay K.cut_back_may_fail) (request_of request.entry) journal.version
        journal.object
        target.now
        (file_of K.contents K.synced K.fault keeper.old)
        (file_of K.contents K.synced K.fault keeper.new) input edits.items
        (output_of W.contents W.has_failed W.holds_back output.old output.new)
        (output_of E.contents E.has_failed E.holds_back errors.old errors.new) status) }
    ensures older { IfErr result (λ older.
        (hindering_edition (request_of request.entry) journal.object.batches edits.items ≡ None)
        × inside.IsOlderOf request.entry.journal.now journal.bytes.items journal.part
        journal.version
        journal.object target.now edits.items older.bytes.items (string_bytes older.edition.journal)
        (string_bytes older.edition.text) (option_map string_bytes older.cut)) }
    ensures quiet { OnErr result ((keeper.new ≡ keeper.old) × (output.new ≡ output.old)
        × (errors.new ≡ errors.old)) }
{
    match hindering_edition(request, journal.object.batches(), &edits) {
        Some(edition) => {
            let lines = behind_lines(alloc, request, edition, &journal.object);
            Ok(report_line(errors, Status::Refused, lines))
        }
        None => publish_edits(
            alloc,
            request.journal,
            keeper,
            journal,
            target,
            edits,
            output,
            errors,
        ),
    }
}

/// Publishes the edits that change the published register of a journal into the target register,
/// unless edits are pending, or the text is of an edition that the journal lacks.
///
/// # Errors
///
/// The rewritten journal, if an edit gives a source that its version lacks.
fn publish_held<K: KeptFile, W: Sink, E: Sink>(
    alloc: Global,
    keeper: &mut K,
    journal: LoadedJournal,
    request: PublishRequest<'_>,
    target: &Register,
    output: &mut W,
    errors: &mut E,
) -> Result<Status, NeedsRewrite>
    requires { journal.part.lines < 2 ^ 63 }
    // For whatever a source gave of which the part counts.
    ensures ok { IfOk result (λ status. (input : Option (List ℕ))
        → inside.IsPartOf journal.part input
        → spec.PublishesUnlessPending (inside.CanStay K.cut_back_may_fail) journal.version
        journal.object
        journal.object.pending (request_of request.entry) target.now
        (file_of K.contents K.synced K.fault keeper.old)
        (file_of K.contents K.synced K.fault keeper.new) input
        (output_of W.contents W.has_failed W.holds_back output.old output.new)
        (output_of E.contents E.has_failed E.holds_back errors.old errors.new) status) }
    ensures older { IfErr result (λ older. inside.IsOlderPlan (request_of request.entry)
        journal.bytes.items journal.part journal.version journal.object target.now older.bytes.items
        (string_bytes older.edition.journal)
        (string_bytes older.edition.text) (option_map string_bytes older.cut)) }
    ensures quiet { OnErr result ((keeper.new ≡ keeper.old) × (output.new ≡ output.old)
        × (errors.new ≡ errors.old)) }
{
    if !journal.object.pending().is_empty() {
        let line = pending_line(alloc, journal.object.pending().len());
        return Ok(report_line(errors, Status::Refused, line));
    }
    let editions = journal.object.batches().len();
    if let Some(edition) = later_than(request.edition, editions) {
        let lines = later_lines(alloc, request.text, request.journal, edition, editions);
        return Ok(report_line(errors, Status::Refused, lines));
    }
    match plan(alloc, journal.object.register(), target) {
        Ok(edits) => {
            publish_unless_behind(
                alloc, keeper, journal, request, target, edits, output, errors,
            )
        }
        Err(fault) => Ok(report_plan_fault(alloc, errors, request.text, &fault)),
    }
}

/// Runs the command `publish`: makes one edition of the journal, under these limits, of the edits
/// that change what it published into the target register. The request names the paths of the
/// journal and of the text that says the register, and the edition that the text was made from. The
/// source gives the bytes of the journal's file.
///
/// What the edits do is printed once all their lines are in the file with that of their publish,
/// and on the disk. They are appended together. If nothing is to change, the file is left as it is.
///
/// If the file contains no object, or one with pending edits, or an edit is refused, the file is
/// left as it is. A journal of the first version is left as it is too. The same is true of a
/// journal whose editions after that of the text changed what the edits change, unless the request
/// allows that. If the file can't be changed, it is cut back to what it contained. Standard error
/// reports why, and the status says so.
///
/// # Errors
///
/// The rewritten journal, if an edit gives a source and the file is of a version that has none.
/// Nothing was changed or printed then.
#[tactic(auto, using(crate::proofs::EditionLaw::each_edition_loaded))]
pub fn publish_command<K: KeptFile, J: Source, W: Sink, E: Sink>(
    alloc: Global,
    limits: Limits,
    keeper: &mut K,
    journal: &mut J,
    request: PublishRequest<'_>,
    target: &Register,
    output: &mut W,
    errors: &mut E,
) -> Result<Status, NeedsRewrite>
    ensures ended { IfOk result (spec.EndsPublish (inside.CanStay K.cut_back_may_fail) limits
        (request_of request.entry) target.now
        (file_of K.contents K.synced K.fault keeper.old)
        (file_of K.contents K.synced K.fault keeper.new)
        (input_of J.remaining J.has_failed journal.old journal.new)
        (output_of W.contents W.has_failed W.holds_back output.old output.new)
        (output_of E.contents E.has_failed E.holds_back errors.old errors.new)) }
    ensures older { IfErr result (λ older. spec.IsRewriteNeeded limits (request_of request.entry)
        target.now (J.remaining journal.old) older.bytes.items (string_bytes older.edition.journal)
        (string_bytes older.edition.text) (option_map string_bytes older.cut)) }
    ensures quiet { OnErr result ((keeper.new ≡ keeper.old) × (output.new ≡ output.old)
        × (errors.new ≡ errors.old)) }
    // as a law: what the file contains after an edition is loaded as the object with that edition
    ensures loads { IsEachEditionLoaded }
{
    match read_journal_to_keep(alloc, limits, journal) {
        Ok(loaded_journal) => publish_held(
            alloc,
            keeper,
            loaded_journal,
            request,
            target,
            output,
            errors,
        ),
        Err(fault) => Ok(report_at(alloc, errors, request.journal, fault)),
    }
}
