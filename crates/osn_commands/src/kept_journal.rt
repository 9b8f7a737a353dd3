//! The command `publish` over the files of a folder: the text is read first, and then the file of
//! the journal is kept.
ghost use Rattle.std.specs.Prelude.{◌≡◌, ◌∷◌, [], IfErr, IfOk, OnErr, option_map, string_bytes};
ghost use Rattle.osn_folder.specs.Folder.{CannotOpen, IsCauseAt, MayFail};
ghost use Rattle.osn_lines.specs.Streams.{output_of};
ghost use Rattle.osn_report.specs.Folders.{folders_of};
ghost use Rattle.osn_commands.specs.PublishFolder as spec;
ghost use Rattle.osn_commands.specs.PublishInside.{CanStay};
ghost use Rattle.osn_commands.specs.Since.{request_of};

use crate::edition::WholeEdition;
use crate::hindrance_cause::{cause_of, unkept_line};
use crate::publish::publish_command;
use crate::publish_edits::print_report;
use crate::since::PublishRequest;
use crate::text_file::{read_register_text, report_text_file};
use osn_folder::{Folder, OpenFailed, open_file};
use osn_lines::Sink;
use osn_register::{Limits, Register};
use osn_report::{Status, report_line};
use osn_serve_commands::{report_cut, save_anew};
use std::alloc::Global;

/// Saves the whole journal of an edition in the file of a path, which must still contain these
/// bytes, and prints its text.
fn save_edition<D: Folder, W: Sink, E: Sink>(
    alloc: Global,
    folder: &mut D,
    path: &str,
    content: &[u8],
    edition: &WholeEdition,
    cut: &Option<String>,
    output: &mut W,
    errors: &mut E,
) -> Status
    ensures { spec.SavesEdition path.now content.now (string_bytes edition.now.journal)
        (string_bytes edition.now.text) (option_map string_bytes cut.now)
        (folders_of D.known folder.old folder.new)
        (output_of W.contents W.has_failed W.holds_back output.old output.new)
        (output_of E.contents E.has_failed E.holds_back errors.old errors.new) result }
{
    let journal = edition.journal.as_str();
    match save_anew(alloc, folder, path, content, journal, errors) {
        Ok(()) => {
            report_cut(errors, cut);
            print_report(edition.text.as_str(), output, errors)
        }
        Err(status) => status,
    }
}

/// Keeps the file of the journal, and does what `publish_command` does with what the text says. A
/// journal that must be rewritten is rewritten then.
fn keep_and_publish<D: Folder, W: Sink, E: Sink>(
    alloc: Global,
    limits: Limits,
    folder: &mut D,
    request: PublishRequest<'_>,
    target: &Register,
    output: &mut W,
    errors: &mut E,
) -> Status
    ensures { spec.KeepsAndPublishes limits (request_of request.entry) target.now
        (MayFail D.File.has_failed) (CanStay D.Keeper.cut_back_may_fail)
        (folders_of D.known folder.old folder.new)
        (output_of W.contents W.has_failed W.holds_back output.old output.new)
        (output_of E.contents E.has_failed E.holds_back errors.old errors.new) result }
{
    let path = request.journal;
    let (mut keeper, mut journal) = match folder.keep(path) {
        Ok(file) => file,
        Err(fault) => {
            let cause = cause_of(folder, path, fault);
            return report_line(errors, Status::ReadFault, unkept_line(alloc, path, cause));
        }
    };
    let publish_result = publish_command(
        alloc,
        limits,
        &mut keeper,
        &mut journal,
        request,
        target,
        output,
        errors,
    );
    // The source that reads the file has its lock too.
    drop(journal);
    folder.release(path, keeper);
    match publish_result {
        Ok(status) => status,
        Err(older) => save_edition(
            alloc,
            folder,
            path,
            &older.bytes,
            &older.edition,
            &older.cut,
            output,
            errors,
        ),
    }
}

/// Reads the text of a path, keeps the file of the journal's path, and does what `publish_command`
/// does. If the text says no register, the journal is not touched, and standard error reports why.
/// If the journal can't be kept, for example because another run keeps it, that is reported
/// immediately.
///
/// If there is no file at the journal's path, an empty one is made first, which stays if there is
/// no edition. If an edit gives a source, and the journal is empty or of a version that has none,
/// it is rewritten with the edition, whole or not at all.
///
/// # Errors
///
/// Why the text could not be opened. Nothing was written then.
pub fn publish_in_folder<D: Folder, W: Sink, E: Sink>(
    alloc: Global,
    limits: Limits,
    folder: &mut D,
    journal: &str,
    text: &str,
    onto_newest: bool,
    output: &mut W,
    errors: &mut E,
) -> Result<Status, OpenFailed>
    ensures ok { IfOk result (spec.PublishesInFolder limits journal.now text.now onto_newest
        (MayFail D.File.has_failed) (CanStay D.Keeper.cut_back_may_fail)
        (folders_of D.known folder.old folder.new)
        (output_of W.contents W.has_failed W.holds_back output.old output.new)
        (output_of E.contents E.has_failed E.holds_back errors.old errors.new)) }
    ensures err { OnErr result (CannotOpen (text.now ∷ [])
        (D.known folder.old) (D.known folder.new)
        × (output.new ≡ output.old) × (errors.new ≡ errors.old)) }
    ensures cause { IfErr result (IsCauseAt (D.known folder.old) text.now) }
{
    let mut file = open_file(folder, text)?;
    match read_register_text(alloc, limits, &mut file) {
        Ok(register_text) => {
            let request = PublishRequest {
                journal,
                text,
                edition: register_text.edition,
                onto_newest,
            };
            let target = &register_text.register;
            Ok(keep_and_publish(alloc, limits, folder, request, target, output, errors))
        }
        Err(fault) => Ok(report_text_file(alloc, errors, text, &fault)),
    }
}
