//! The command `serve` over the files of a folder, by its options.
ghost use Rattle.std.specs.Prelude.{◌≡◌, IfErr, IfOk};
ghost use Rattle.osn_folder.specs.Folder.{MayFail};
ghost use Rattle.osn_invocation.specs.Invocation.{service_model};
ghost use Rattle.osn_lines.specs.Streams.{input_of, output_of};
ghost use Rattle.osn_report.specs.Failure.{IsNotRead};
ghost use Rattle.osn_report.specs.Folders.{folders_of};
ghost use Rattle.osn_serve_commands.specs.InFolder.{EndsFollowing, EndsKeeping, EndsUpgrading};
ghost use Rattle.osn_serve_commands.specs.InFolder.{RunsMode, opened_by};
ghost use Rattle.osn_serve_commands.specs.Mode.{mode_of_options};

use crate::follow::follow_command;
use crate::keep::keep_command;
use crate::mode::{Mode, mode_of};
use crate::save::serve;
use crate::upgrade::upgrade_file;
use osn_folder::Folder;
use osn_invocation::ServeOptions;
use osn_journal::Feed;
use osn_lines::{Sink, Source};
use osn_register::Limits;
use osn_report::{CommandFault, Failure, Status, report, report_at};
use osn_service::ServeRules;
use std::alloc::Global;

/// Opens the files that are read, answers the request lines as `serve_command`, `keep_command` or
/// `follow_command` does, and keeps or saves the journal. If the journal is neither kept nor saved,
/// a terminal, if there is one, shows how many editions were published.
///
/// # Errors
///
/// Why the journal could not be opened. Nothing was read or written then.
pub fn serve_in_folder<'a, D: Folder, R: Source, W: Sink, E: Sink, T: Sink + Drop>(
    alloc: Global,
    limits: Limits,
    folder: &mut D,
    options: ServeOptions<'a>,
    input: &mut R,
    output: &mut W,
    errors: &mut E,
    terminal: Option<T>,
) -> Result<Status, Failure<'a>>
    ensures ok { IfOk result (RunsMode limits (mode_of_options options.entry)
        (service_model options.entry) (MayFail D.File.has_failed)
        (folders_of D.known folder.old folder.new)
        (input_of R.remaining R.has_failed input.old input.new)
        (output_of W.contents W.has_failed W.holds_back output.old output.new)
        (output_of E.contents E.has_failed E.holds_back errors.old errors.new)) }
    ensures err { IfErr result (λ failure. IsNotRead (opened_by (mode_of_options options.entry))
        (folders_of D.known folder.old folder.new) failure.path.now failure.fault
        × (output.new ≡ output.old) × (errors.new ≡ errors.old)) }
{
    let mode = match mode_of(options) {
        Ok(mode) => mode,
        Err(fault) => return Ok(report(alloc, errors, fault)),
    };
    let rules = ServeRules {
        readers: options.readers,
        read_only: options.read_only,
        takes_sources: true,
        stop_at_refusal: options.stop_at_refusal,
        explains: options.explains,
        strict_members: options.strict_members,
    };
    match mode {
        Mode::Load { journal, save } => serve(
            alloc, limits, folder, journal, save, rules, input, output, errors, terminal,
        ),
        Mode::Keep(path) => Ok(keep(alloc, limits, folder, path, rules, input, output, errors)),
        Mode::Upgrade(path) => {
            Ok(upgrade_and_keep(alloc, limits, folder, path, rules, input, output, errors))
        }
        Mode::Follow(path) => {
            Ok(follow_file(alloc, limits, folder, path, rules, input, output, errors))
        }
    }
}

/// Follows the file of a path, and answers the request lines from what it contains.
fn follow_file<D: Folder, R: Source, W: Sink, E: Sink>(
    alloc: Global,
    limits: Limits,
    folder: &mut D,
    path: &str,
    rules: ServeRules,
    input: &mut R,
    output: &mut W,
    errors: &mut E,
) -> Status
    ensures { EndsFollowing limits path.now rules
        (folders_of D.known folder.old folder.new)
        (output_of W.contents W.has_failed W.holds_back output.old output.new)
        (output_of E.contents E.has_failed E.holds_back errors.old errors.new) result }
{
    match folder.follow(alloc, path) {
        Ok(file) => {
            let mut arrivals = Feed::new(input, file);
            follow_command(alloc, limits, path, rules, &mut arrivals, output, errors)
        }
        Err(_) => report(alloc, errors, CommandFault::NoMemory),
    }
}

/// Rewrites the file of a path, if its version has no sources, and keeps it then.
fn upgrade_and_keep<D: Folder, R: Source, W: Sink, E: Sink>(
    alloc: Global,
    limits: Limits,
    folder: &mut D,
    path: &str,
    rules: ServeRules,
    input: &mut R,
    output: &mut W,
    errors: &mut E,
) -> Status
    ensures { EndsUpgrading limits path.now rules (MayFail D.File.has_failed)
        (folders_of D.known folder.old folder.new)
        (input_of R.remaining R.has_failed input.old input.new)
        (output_of W.contents W.has_failed W.holds_back output.old output.new)
        (output_of E.contents E.has_failed E.holds_back errors.old errors.new) result }
{
    match upgrade_file(alloc, limits, folder, path, errors) {
        Ok(()) => keep(alloc, limits, folder, path, rules, input, output, errors),
        Err(status) => status,
    }
}

/// Keeps the file of a path, answers the request lines from what it contains, and appends each
/// change.
fn keep<D: Folder, R: Source, W: Sink, E: Sink>(
    alloc: Global,
    limits: Limits,
    folder: &mut D,
    path: &str,
    rules: ServeRules,
    input: &mut R,
    output: &mut W,
    errors: &mut E,
) -> Status
    ensures { EndsKeeping limits path.now rules (MayFail D.File.has_failed)
        (folders_of D.known folder.old folder.new)
        (input_of R.remaining R.has_failed input.old input.new)
        (output_of W.contents W.has_failed W.holds_back output.old output.new)
        (output_of E.contents E.has_failed E.holds_back errors.old errors.new) result }
{
    match folder.keep(path) {
        Ok((mut keeper, mut journal)) => {
            let status = keep_command(
                alloc,
                limits,
                path,
                &mut keeper,
                &mut journal,
                rules,
                input,
                output,
                errors,
            );
            folder.release(path, keeper);
            status
        }
        Err(fault) => report_at(alloc, errors, path, CommandFault::Keep(fault)),
    }
}
