//! The command `serve` over the files of a folder, if no journal is kept: the file that the journal
//! is saved to is locked first.
ghost use Rattle.std.specs.Prelude.{◌≡◌, [], IfErr, IfOk, option_map, unwrap_or};
ghost use Rattle.osn_folder.specs.Folder.{MayFail, path_if};
ghost use Rattle.osn_lines.specs.Streams.{input_of, output_of};
ghost use Rattle.osn_report.specs.Failure.{IsNotRead};
ghost use Rattle.osn_report.specs.Folders.{folders_of};
ghost use Rattle.osn_serve_commands.specs.InFolder as spec;
ghost use Rattle.osn_serve_commands.specs.SaveInside.{ReplacesRead};
ghost use Rattle.osn_serve_commands.specs.Serve.{input_if};

use crate::saved_file::{LockedFile, finish, lock_if};
use crate::serve::serve_command;
use crate::target::{bytes_of, is_left_beside, report_target, target_if};
use osn_folder::{Folder, open_if, open_named};
use osn_lines::{Bytes, Sink, Source, read_all, write_all};
use osn_register::Limits;
use osn_report::{CommandFault, Failure, Status, report_at};
use osn_service::ServeRules;
use std::alloc::{AllocError, Global};

/// Returns the line on editions that were published and not saved.
fn unsaved_line(alloc: Global, editions: usize) -> Result<String, AllocError> {
    if editions == 1 {
        return String::from_str(
            alloc,
            "oldstyle: 1 edition was not saved: --save or --keep would have kept it\n",
        );
    }
    format!(in alloc;
        "oldstyle: {editions} editions were not saved: --save or --keep would have kept them\n"
    )
}

/// Shows on a terminal, if there is one, how many editions were published and not saved, if any.
fn report_lost_editions<T: Sink + Drop>(
    alloc: Global,
    terminal: Option<T>,
    saves: bool,
    editions: usize,
) {
    if saves || editions == 0 {
        return;
    }
    if let (Some(mut terminal), Ok(line)) = (terminal, unsaved_line(alloc, editions)) {
        let _ = write_all(&mut terminal, line.as_bytes());
    }
}

/// Answers the request lines from the journal, if any, and saves the journal that results.
fn serve_opened<D: Folder, J: Source, R: Source, W: Sink, E: Sink, T: Sink + Drop>(
    alloc: Global,
    limits: Limits,
    folder: &mut D,
    path: &str,
    journal: &mut Option<J>,
    loaded_bytes: Option<&[u8]>,
    beside: bool,
    locked_file: Option<LockedFile<'_, D::Lock>>,
    rules: ServeRules,
    input: &mut R,
    output: &mut W,
    errors: &mut E,
    terminal: Option<T>,
) -> Status
    ensures { spec.EndsServing limits path.now
        (option_map (λ file. file.path.now) locked_file.entry)
        rules
        (input_if J.remaining J.has_failed journal.old journal.new)
        (option_map (λ bytes. bytes.now) loaded_bytes.entry) beside
        (D.known folder.old) (D.known folder.new)
        (input_of R.remaining R.has_failed input.old input.new)
        (output_of W.contents W.has_failed W.holds_back output.old output.new)
        (output_of E.contents E.has_failed E.holds_back errors.old errors.new) result }
{
    let saves = locked_file.is_some();
    let serve_result = serve_command(
        alloc, limits, path, journal, rules, saves, input, output, errors,
    );
    report_lost_editions(alloc, terminal, saves, serve_result.editions);
    finish(
        alloc,
        folder,
        serve_result,
        locked_file,
        loaded_bytes,
        beside,
        errors,
    )
}

/// Runs a service whose journal is saved to the file that it is loaded from. The file must still
/// contain what was loaded.
fn serve_replacing<D: Folder, J: Source, R: Source, W: Sink, E: Sink, T: Sink + Drop>(
    alloc: Global,
    limits: Limits,
    folder: &mut D,
    path: &str,
    journal: &mut J,
    locked_file: Option<LockedFile<'_, D::Lock>>,
    rules: ServeRules,
    input: &mut R,
    output: &mut W,
    errors: &mut E,
    terminal: Option<T>,
) -> Status
    ensures { ReplacesRead limits path.now (option_map (λ file. file.path.now) locked_file.entry)
        rules
        (input_of J.remaining J.has_failed journal.old journal.new)
        (D.known folder.old) (D.known folder.new)
        (input_of R.remaining R.has_failed input.old input.new)
        (output_of W.contents W.has_failed W.holds_back output.old output.new)
        (output_of E.contents E.has_failed E.holds_back errors.old errors.new) result }
{
    let content = match read_all(alloc, journal) {
        Ok(content) => content,
        Err(fault) => return report_at(alloc, errors, path, CommandFault::from(fault)),
    };
    serve_opened(
        alloc,
        limits,
        folder,
        path,
        &mut Some(Bytes::new(&content)),
        Some(&content),
        false,
        locked_file,
        rules,
        input,
        output,
        errors,
        terminal,
    )
}

/// Returns the path that a journal is both loaded from and saved to, if there is one.
fn replaced_path<'a>(journal: Option<&'a str>, save: Option<&str>) -> Option<&'a str>
    ensures { option_map (λ path. path.now) result
        ≡ spec.replaced_path (option_map (λ path. path.now) journal.entry)
        (option_map (λ path. path.now) save.entry) }
{
    match (journal, save) {
        (Some(journal), Some(save)) if journal == save => Some(journal),
        _ => None,
    }
}

/// Returns an optional path, or an empty one if it is not given.
fn path_or_none<'a>(path: Option<&'a str>) -> &'a str
    ensures { result.now ≡ unwrap_or (option_map (λ path. path.now) path.entry) [] }
{
    match path {
        Some(path) => path,
        None => "",
    }
}

/// Opens the journal, if any, answers the request lines, and saves the journal that results. The
/// file that it replaces is locked before the journal is opened, until it is replaced.
///
/// If the journal is loaded from another path, or from none, a journal at the path of the save is
/// left beside the new one. Any other contents of a file there are refused before a line is
/// answered.
pub(crate) fn serve<'a, D: Folder, R: Source, W: Sink, E: Sink, T: Sink + Drop>(
    alloc: Global,
    limits: Limits,
    folder: &mut D,
    journal: Option<&'a str>,
    save: Option<&'a str>,
    rules: ServeRules,
    input: &mut R,
    output: &mut W,
    errors: &mut E,
    terminal: Option<T>,
) -> Result<Status, Failure<'a>>
    ensures ok { IfOk result (spec.EndsService limits
        (option_map (λ path. path.now) journal.entry) (option_map (λ path. path.now) save.entry)
        rules (MayFail D.File.has_failed)
        (folders_of D.known folder.old folder.new)
        (input_of R.remaining R.has_failed input.old input.new)
        (output_of W.contents W.has_failed W.holds_back output.old output.new)
        (output_of E.contents E.has_failed E.holds_back errors.old errors.new)) }
    ensures err { IfErr result (λ failure. IsNotRead
        (path_if (option_map (λ path. path.now) journal.entry))
        (folders_of D.known folder.old folder.new) failure.path.now failure.fault
        × (output.new ≡ output.old) × (errors.new ≡ errors.old)) }
{
    let locked_file = match lock_if(folder, save) {
        Ok(locked_file) => locked_file,
        Err(fault) => {
            let path = path_or_none(save);
            return Ok(report_at(alloc, errors, path, CommandFault::Keep(fault)));
        }
    };
    match replaced_path(journal, save) {
        Some(path) => {
            let mut file = open_named(folder, path)?;
            Ok(serve_replacing(
                alloc,
                limits,
                folder,
                path_or_none(journal),
                &mut file,
                locked_file,
                rules,
                input,
                output,
                errors,
                terminal,
            ))
        }
        None => {
            let mut source = open_if(folder, journal)?;
            let target = match target_if(alloc, limits, folder, save) {
                Ok(target) => target,
                Err(fault) => return Ok(report_target(alloc, errors, path_or_none(save), fault)),
            };
            Ok(serve_opened(
                alloc,
                limits,
                folder,
                path_or_none(journal),
                &mut source,
                bytes_of(target),
                is_left_beside(target),
                locked_file,
                rules,
                input,
                output,
                errors,
                terminal,
            ))
        }
    }
}
