//! The command `plan`: the edits that change what a journal published into what a text says.
ghost use Rattle.std.specs.Prelude.{◌≡◌, length, IfErr, IfOk, string_bytes};
ghost use Rattle.osn_lines.specs.Streams.{input_of, output_of};
ghost use Rattle.osn_report.specs.Journal.{Begins, BeginsNot};
ghost use Rattle.osn_serve_commands.specs.Serve.{input_if};
ghost use Rattle.osn_commands.specs.Note.{ReportsNote};
ghost use Rattle.osn_commands.specs.Plan as spec;
ghost use Rattle.osn_commands.specs.Since.{later_than};

use crate::note::{note_of, report_note};
use crate::plan_fault::report_plan_fault;
use crate::plan_words::push_plan_end;
use crate::since::{PublishRequest, behind, behind_lines, later_lines, later_than};
use crate::text_file::{read_register_text, report_text_file};
use osn_core::Object;
use osn_files::{FileFault, load_with_version};
use osn_lines::{Sink, Source};
use osn_register::{Edit, Limits, Register};
use osn_register_text::{plan, plan_page};
use osn_report::{CommandFault, Status, print, report_at, report_line};
use osn_request::Version;
use std::alloc::{AllocError, Global};

/// How a plan ended.
#[derive(Clone, Copy, Debug, PartialEq, Eq)]
pub struct PlanEnd {
    /// The status. If it is `Done`, all was printed.
    pub status: Status,
    /// Whether the plan has edits.
    pub has_edits: bool,
}

/// Returns the lines of a plan, which would be the next edition of the object.
fn plan_text(
    alloc: Global,
    object: &Object,
    target: &Register,
    edits: &[Edit],
) -> Result<String, AllocError>
    ensures { IfOk result (λ text.
        string_bytes text ≡ spec.plan_text object.now target.now edits.now) }
{
    let mut text = plan_page(alloc, object.register(), target, edits)?;
    push_plan_end(&mut text, edits.len(), object.batches().len() + 1)?;
    Ok(text)
}

/// Reports on standard error that a later edition changed what the text of a plan changes, or else
/// writes a note on its edits for the journal of this version. Returns the status.
fn report_edits<E: Sink>(
    alloc: Global,
    request: PublishRequest<'_>,
    is_there: bool,
    version: Version,
    object: &mut Object,
    edits: Vec<Edit>,
    errors: &mut E,
) -> Status
    ensures { ReportsNote (spec.edits_line request.entry.journal.now request.entry.text.now is_there
        version object.old request.entry.edition edits.items)
        (output_of E.contents E.has_failed E.holds_back errors.old errors.new) result }
{
    match behind(request.edition, object.batches(), &edits) {
        Some(edition) => {
            let lines = behind_lines(alloc, request, edition, object);
            report_line(errors, Status::Done, lines)
        }
        None => {
            let note = note_of(is_there, version, object, edits);
            report_note(alloc, errors, request.journal, note)
        }
    }
}

/// Prints a plan, and then reports on its edits if all was printed.
fn print_edits<W: Sink, E: Sink>(
    alloc: Global,
    request: PublishRequest<'_>,
    is_there: bool,
    version: Version,
    object: &mut Object,
    target: &Register,
    edits: Vec<Edit>,
    output: &mut W,
    errors: &mut E,
) -> Status
    ensures { spec.PrintsNoted (spec.plan_text object.old target.now edits.items)
        (spec.edits_line request.entry.journal.now request.entry.text.now is_there version
        object.old request.entry.edition edits.items)
        (output_of W.contents W.has_failed W.holds_back output.old output.new)
        (output_of E.contents E.has_failed E.holds_back errors.old errors.new) result }
{
    match print(plan_text(alloc, object, target, &edits), output, errors) {
        Status::Done => report_edits(alloc, request, is_there, version, object, edits, errors),
        failed => failed,
    }
}

/// Prints the plan from what an object has published to the register that the text says, unless the
/// text is of an edition that the object lacks.
fn print_plan<W: Sink, E: Sink>(
    alloc: Global,
    request: PublishRequest<'_>,
    is_there: bool,
    version: Version,
    object: &mut Object,
    target: &Register,
    output: &mut W,
    errors: &mut E,
) -> PlanEnd
    ensures { spec.PrintsUnlessLater
        (later_than request.entry.edition (length object.old.batches))
        object.old request.entry.journal.now request.entry.text.now target.now
        (spec.edits_line request.entry.journal.now request.entry.text.now is_there version
        object.old request.entry.edition)
        (output_of W.contents W.has_failed W.holds_back output.old output.new)
        (output_of E.contents E.has_failed E.holds_back errors.old errors.new) result }
{
    let editions = object.batches().len();
    if let Some(edition) = later_than(request.edition, editions) {
        let lines = later_lines(alloc, request.text, request.journal, edition, editions);
        return PlanEnd {
            status: report_line(errors, Status::Refused, lines),
            has_edits: false,
        };
    }
    match plan(alloc, object.register(), target) {
        Ok(edits) => {
            let has_edits = !edits.is_empty();
            let status = print_edits(
                alloc, request, is_there, version, object, target, edits, output, errors,
            );
            PlanEnd { status, has_edits }
        }
        Err(fault) => PlanEnd {
            status: report_plan_fault(alloc, errors, request.text, &fault),
            has_edits: false,
        },
    }
}

/// Prints the plan from what an object has published to what the text of a path says.
fn plan_text_file<T: Source, W: Sink, E: Sink>(
    alloc: Global,
    limits: Limits,
    path: &str,
    is_there: bool,
    version: Version,
    object: &mut Object,
    text_path: &str,
    text: &mut T,
    output: &mut W,
    errors: &mut E,
) -> PlanEnd
    ensures { spec.PrintsPlanOf limits object.old path.now text_path.now
        (input_of T.remaining T.has_failed text.old text.new)
        (spec.edits_line path.now text_path.now is_there version object.old)
        (output_of W.contents W.has_failed W.holds_back output.old output.new)
        (output_of E.contents E.has_failed E.holds_back errors.old errors.new) result }
{
    match read_register_text(alloc, limits, text) {
        Ok(register_text) => {
            let request = PublishRequest {
                journal: path,
                text: text_path,
                edition: register_text.edition,
                onto_newest: false,
            };
            let target = &register_text.register;
            print_plan(
                alloc, request, is_there, version, object, target, output, errors,
            )
        }
        Err(fault) => PlanEnd {
            status: report_text_file(alloc, errors, text_path, &fault),
            has_edits: false,
        },
    }
}

/// Returns the object of the journal, if there is one, and its version. Otherwise it is an empty
/// object under these limits.
fn planned_journal<J: Source>(
    alloc: Global,
    limits: Limits,
    journal: &mut Option<J>,
) -> Result<(Object, Version), FileFault>
    ensures object { IfOk result (λ read.
        Begins limits (input_if J.remaining J.has_failed journal.old journal.new) read.0) }
    ensures version { IfOk result (λ read. spec.IsOfVersionIf
        (input_if J.remaining J.has_failed journal.old journal.new) read.1) }
    ensures err { IfErr result
        (BeginsNot limits (input_if J.remaining J.has_failed journal.old journal.new)) }
{
    match journal {
        Some(source) => load_with_version(alloc, limits, source),
        None => Ok((Object::new(alloc, limits), Version::newest())),
    }
}

/// Runs the command `plan`: prints the edits that change what the journal of a path published into
/// what the text of a path says, under these limits. If there is no journal, it has published
/// nothing. Both files are read whole before anything is printed, the journal first.
///
/// After the plan standard error reports what a publish of the edits would refuse, or do first. If
/// no plan is printed, standard error reports why, and the status says so.
pub fn plan_command<J: Source, T: Source, W: Sink, E: Sink>(
    alloc: Global,
    limits: Limits,
    path: &str,
    journal: &mut Option<J>,
    text_path: &str,
    text: &mut T,
    output: &mut W,
    errors: &mut E,
) -> PlanEnd
    ensures { spec.PrintsPlan limits path.now
        (input_if J.remaining J.has_failed journal.old journal.new) text_path.now
        (input_of T.remaining T.has_failed text.old text.new)
        (output_of W.contents W.has_failed W.holds_back output.old output.new)
        (output_of E.contents E.has_failed E.holds_back errors.old errors.new) result }
{
    let is_there = journal.is_some();
    match planned_journal(alloc, limits, journal) {
        Ok((mut object, version)) => plan_text_file(
            alloc,
            limits,
            path,
            is_there,
            version,
            &mut object,
            text_path,
            text,
            output,
            errors,
        ),
        Err(fault) => PlanEnd {
            status: report_at(alloc, errors, path, CommandFault::File(fault)),
            has_edits: false,
        },
    }
}
