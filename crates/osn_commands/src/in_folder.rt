//! The commands `text` and `plan` over the files of a folder, opened by their paths first.
ghost use Rattle.std.specs.Prelude.{◌≡◌, ◌≢◌, ◌&&◌, ◌∷◌, [], IfErr, IfOk, OnErr, option_map, true};
ghost use Rattle.osn_folder.specs.Folder.{CannotOpen, IsCauseAt, MayFail};
ghost use Rattle.osn_folder.specs.declared.fault.OpenFailed.{OpenFailed};
ghost use Rattle.osn_lines.specs.Streams.{output_of};
ghost use Rattle.osn_report.specs.Folders.{ReadsOne, folders_of};
ghost use Rattle.osn_serve_commands.specs.Serve.{input_if};
ghost use Rattle.osn_commands.specs.InFolder as spec;
ghost use Rattle.osn_commands.specs.Text.{PrintsText};

use crate::hindrance_cause::report_hindrance;
use crate::plan::{PlanEnd, plan_command};
use crate::text::text_command;
use osn_core::edition_of_word;
use osn_folder::{Folder, OpenFailed, open_file};
use osn_lines::Sink;
use osn_page_commands::report_edition_word;
use osn_register::Limits;
use osn_report::{Status, report_open_failure};
use std::alloc::Global;

/// Opens the journal of a path, and prints its edition of a number, or the newest one.
fn numbered_text_in_folder<D: Folder, W: Sink, E: Sink>(
    alloc: Global,
    limits: Limits,
    folder: &mut D,
    journal: &str,
    number: Option<u32>,
    code: Option<&str>,
    output: &mut W,
    errors: &mut E,
) -> Result<Status, OpenFailed>
    ensures ok { IfOk result (λ status. ReadsOne journal.now (MayFail D.File.has_failed)
        (folders_of D.known folder.old folder.new)
        (λ file. PrintsText limits journal.now file number
        (option_map (λ code. code.now) code.entry)
        (output_of W.contents W.has_failed W.holds_back output.old output.new)
        (output_of E.contents E.has_failed E.holds_back errors.old errors.new) status)) }
    ensures err { OnErr result (CannotOpen (journal.now ∷ [])
        (D.known folder.old) (D.known folder.new)
        × (output.new ≡ output.old) × (errors.new ≡ errors.old)) }
    ensures cause { IfErr result (IsCauseAt (D.known folder.old) journal.now) }
{
    let mut file = open_file(folder, journal)?;
    Ok(text_command(
        alloc, limits, journal, &mut file, number, code, output, errors,
    ))
}

/// Opens the journal of a path, and does what `text_command` does for the edition that a word
/// names, or the newest one. If the word is not a number, standard error says so, and no file is
/// opened.
///
/// # Errors
///
/// Why the journal could not be opened. Nothing was written then.
pub fn text_in_folder<D: Folder, W: Sink, E: Sink>(
    alloc: Global,
    limits: Limits,
    folder: &mut D,
    journal: &str,
    edition: Option<&str>,
    code: Option<&str>,
    output: &mut W,
    errors: &mut E,
) -> Result<Status, OpenFailed>
    ensures ok { IfOk result (spec.RunsText limits journal.now
        (option_map (λ word. word.now) edition.entry) (option_map (λ code. code.now) code.entry)
        (MayFail D.File.has_failed) (folders_of D.known folder.old folder.new)
        (output_of W.contents W.has_failed W.holds_back output.old output.new)
        (output_of E.contents E.has_failed E.holds_back errors.old errors.new)) }
    ensures err { OnErr result (CannotOpen (journal.now ∷ [])
        (D.known folder.old) (D.known folder.new)
        × (output.new ≡ output.old) × (errors.new ≡ errors.old)) }
    ensures cause { IfErr result (IsCauseAt (D.known folder.old) journal.now) }
{
    match edition_of_word(edition) {
        Ok(number) => numbered_text_in_folder(
            alloc, limits, folder, journal, number, code, output, errors,
        ),
        Err(typed) => Ok(report_edition_word(alloc, errors, typed)),
    }
}

/// Opens the journal of a path, if one is there.
///
/// # Errors
///
/// Why a journal that is there could not be opened.
fn open_if_there<D: Folder>(folder: &mut D, journal: &str) -> Result<Option<D::File>, OpenFailed>
    ensures ok { IfOk result (λ file. spec.IsOpened journal.now
        (option_map D.File.remaining file) (D.known folder.old) (D.known folder.new)) }
    ensures err { OnErr result (CannotOpen (journal.now ∷ [])
        (D.known folder.old) (D.known folder.new)) }
    ensures cause { IfErr result (IsCauseAt (D.known folder.old) journal.now) }
    ensures there { IfErr result (λ cause. cause ≢ OpenFailed.NotFound) }
{
    match open_file(folder, journal) {
        Ok(file) => Ok(Some(file)),
        Err(OpenFailed::NotFound) => Ok(None),
        Err(cause) => Err(cause),
    }
}

/// Opens the text of a path, and does what `plan_command` does for a journal of its path, which is
/// there or not.
fn plan_by<D: Folder, W: Sink, E: Sink>(
    alloc: Global,
    limits: Limits,
    folder: &mut D,
    path: &str,
    journal: &mut Option<D::File>,
    text: &str,
    output: &mut W,
    errors: &mut E,
) -> PlanEnd
    ensures { spec.PrintsPlanBy limits path.now
        (input_if D.File.remaining D.File.has_failed journal.old journal.new) text.now
        (MayFail D.File.has_failed) (folders_of D.known folder.old folder.new)
        (output_of W.contents W.has_failed W.holds_back output.old output.new)
        (output_of E.contents E.has_failed E.holds_back errors.old errors.new) result }
{
    match open_file(folder, text) {
        Ok(mut file) => plan_command(
            alloc, limits, path, journal, text, &mut file, output, errors,
        ),
        Err(cause) => PlanEnd {
            status: report_open_failure(alloc, errors, text, cause),
            has_edits: false,
        },
    }
}

/// Returns the status of a plan for which edits are a refusal, and which has some.
fn refused(status: Status) -> Status
    ensures { result ≡ spec.refused_if true status }
{
    match status {
        Status::Done => Status::Refused,
        other => other,
    }
}

/// Returns the status after all was printed, which is a refusal if the plan has edits and `strict`
/// is true.
fn strict_status(strict: bool, has_edits: bool, status: Status) -> Status
    ensures { result ≡ spec.refused_if (strict && has_edits) status }
{
    if strict && has_edits {
        return refused(status);
    }
    status
}

/// Reports, after a plan that was printed, why the journal could not be kept. Returns the status
/// after all of it.
fn report_end<D: Folder, E: Sink>(
    alloc: Global,
    folder: &mut D,
    journal: &str,
    is_there: bool,
    strict: bool,
    end: PlanEnd,
    errors: &mut E,
) -> Status
    ensures { spec.ReportsHindranceAfter end.status (strict && end.has_edits) journal.now is_there
        (D.known folder.old) (D.known folder.new)
        (output_of E.contents E.has_failed E.holds_back errors.old errors.new) result }
{
    match end.status {
        Status::Done => {
            let status = report_hindrance(alloc, folder, journal, is_there, errors);
            strict_status(strict, end.has_edits, status)
        }
        failed => failed,
    }
}

/// Opens the journal of a path, if one is there, and then a text, and does what `plan_command`
/// does. If the text could not be opened, standard error reports why, with its path. After a plan
/// it reports why the journal could not be kept, as far as that is found out without making one. If
/// `strict` is true, a plan with edits is a refusal, which the status alone says.
///
/// # Errors
///
/// Why a journal that is there could not be opened. Nothing was written then.
pub fn plan_in_folder<D: Folder, W: Sink, E: Sink>(
    alloc: Global,
    limits: Limits,
    folder: &mut D,
    journal: &str,
    text: &str,
    strict: bool,
    output: &mut W,
    errors: &mut E,
) -> Result<Status, OpenFailed>
    ensures ok { IfOk result (spec.PlansInFolder limits journal.now text.now strict
        (MayFail D.File.has_failed) (folders_of D.known folder.old folder.new)
        (output_of W.contents W.has_failed W.holds_back output.old output.new)
        (output_of E.contents E.has_failed E.holds_back errors.old errors.new)) }
    ensures err { OnErr result (CannotOpen (journal.now ∷ [])
        (D.known folder.old) (D.known folder.new)
        × (output.new ≡ output.old) × (errors.new ≡ errors.old)) }
    ensures cause { IfErr result (IsCauseAt (D.known folder.old) journal.now) }
    ensures there { IfErr result (λ cause. cause ≢ OpenFailed.NotFound) }
{
    let mut file = open_if_there(folder, journal)?;
    let is_there = file.is_some();
    let end = plan_by(
        alloc, limits, folder, journal, &mut file, text, output, errors,
    );
    Ok(report_end(alloc, folder, journal, is_there, strict, end, errors))
}
