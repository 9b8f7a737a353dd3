//! The program: the arguments are read, files are opened, and the command is called.
ghost use Rattle.std.specs.Prelude.{◌≡◌, map, [], Ok, Err, IfErr, IfOk, option_map, unwrap_or};
ghost use Rattle.std.specs.Prelude.{string_bytes, true};
ghost use Rattle.std.specs.Result.{is_ok};
ghost use Rattle.osn_folder.specs.Folder.{MayFail};
ghost use Rattle.osn_folder.specs.declared.fault.OpenFailed.{OpenFailed};
ghost use Rattle.osn_invocation.specs.Invocation.{command_model, model_of};
ghost use Rattle.osn_lines.specs.Streams.{input_of, output_of};
ghost use Rattle.osn_report.specs.Folders.{folders_of};
ghost use Rattle.osn_report.specs.Printing.{PrintsOrReports};
ghost use Rattle.osn_report.specs.declared.fault.CommandFault.{CommandFault};
ghost use Rattle.osn_commands.specs.PublishInside.{CanStay};
ghost use Rattle.osn_commands.specs.Run.{Fails, Runs, RunsArguments, RunsInvocation, RunsWords};

use crate::check::check_in_folder;
use crate::completion_script::completions_command;
use crate::diff_folder::diff_in_folder;
use crate::display::show;
use crate::help::help_on;
use crate::in_folder::{plan_in_folder, text_in_folder};
use crate::journal::with_journal;
use crate::kept_journal::publish_in_folder;
use crate::letters_table::table_in_folder;
use crate::limits::limits_of_words;
use osn_file_commands::{audit_in_folder, desk_in_folder, replay_in_folder};
use osn_folder::{Folder, OpenFailed};
use osn_invocation::{CommandWords, Invocation, parse_arguments};
use osn_lines::{Sink, Source};
use osn_page_commands::{convert_command, editions_in_folder, page_in_folder};
use osn_register::Limits;
use osn_report::{
    CommandFault, Failure, Status, print_or_report, report_at, report_misuse, report_no_memory,
};
use osn_serve_commands::serve_in_folder;
use std::convert::AsStr;
use std::sync::Wait;
use std::thread::Threads;

/// Does what the arguments of a command line ask for, of which the first is the program's name, and
/// returns how that ended. Files that are read are opened before the command begins, in the order
/// of the arguments. The journal is saved only if the service ended well.
///
/// If the arguments leave out the file of the journal, and there is a default for it, they mean the
/// same as with that file. So do arguments that name it by the option `--journal`.
///
/// A terminal, if there is one, shows how far a long audit or table of letters is. For a service
/// that neither saves nor keeps a journal it shows how many editions were published.
pub fn run<F, D: Folder, S: AsStr, R: Source, W: Sink, E: Sink, T: Sink + Drop>(
    rt: &F,
    folder: &mut D,
    args: &[S],
    default_journal: Option<&str>,
    input: &mut R,
    output: &mut W,
    errors: &mut E,
    terminal: Option<T>,
) -> Status
where
    F: Threads + Wait + AllocGlobal,
    ensures { RunsArguments (option_map (λ path. path.now) default_journal.entry)
        (map S.text args.now) (MayFail D.File.has_failed)
        (CanStay D.Keeper.cut_back_may_fail)
        (folders_of D.known folder.old folder.new)
        (input_of R.remaining R.has_failed input.old input.new)
        (output_of W.contents W.has_failed W.holds_back output.old output.new)
        (output_of E.contents E.has_failed E.holds_back errors.old errors.new) result }
{
    match with_journal(rt.alloc(), args, default_journal) {
        Ok(words) => run_words(rt, folder, args, &words, input, output, errors, terminal),
        Err(_) => report_no_memory(errors),
    }
}

/// Does what words ask for that have the file of the journal, if their command begins with it. A
/// mistake in them gets the help for the words as they were typed.
fn run_words<F, D: Folder, S: AsStr, R: Source, W: Sink, E: Sink, T: Sink + Drop>(
    rt: &F,
    folder: &mut D,
    arguments: &[S],
    words: &[&str],
    input: &mut R,
    output: &mut W,
    errors: &mut E,
    terminal: Option<T>,
) -> Status
where
    F: Threads + Wait + AllocGlobal,
    ensures { RunsWords (map S.text arguments.now) (map (λ word. word.now) words.now)
        (MayFail D.File.has_failed)
        (CanStay D.Keeper.cut_back_may_fail)
        (folders_of D.known folder.old folder.new)
        (input_of R.remaining R.has_failed input.old input.new)
        (output_of W.contents W.has_failed W.holds_back output.old output.new)
        (output_of E.contents E.has_failed E.holds_back errors.old errors.new) result }
{
    let alloc = rt.alloc();
    match parse_arguments(alloc, words) {
        Ok(invocation) => run_invocation(rt, folder, invocation, input, output, errors, terminal),
        Err(error) => {
            let help = help_on(&error, arguments);
            show(alloc, &error, help, output, errors)
        }
    }
}

/// Returns a word as it was typed, or an empty text if it was not.
fn as_typed<'a>(word: Option<&'a str>) -> &'a str
    ensures { result.now ≡ unwrap_or (option_map (λ word. word.now) word.entry) [] }
{
    match word {
        Some(word) => word,
        None => "",
    }
}

/// Does what was asked for, under the limits that were asked for.
fn run_invocation<F, D: Folder, R: Source, W: Sink, E: Sink, T: Sink + Drop>(
    rt: &F,
    folder: &mut D,
    invocation: Invocation,
    input: &mut R,
    output: &mut W,
    errors: &mut E,
    terminal: Option<T>,
) -> Status
where
    F: Threads + Wait + AllocGlobal,
    ensures { RunsInvocation (model_of invocation.entry) (MayFail D.File.has_failed)
        (CanStay D.Keeper.cut_back_may_fail)
        (folders_of D.known folder.old folder.new)
        (input_of R.remaining R.has_failed input.old input.new)
        (output_of W.contents W.has_failed W.holds_back output.old output.new)
        (output_of E.contents E.has_failed E.holds_back errors.old errors.new) result }
{
    let alloc = rt.alloc();
    let limits = match limits_of_words(invocation.limits) {
        Ok(limits) => limits,
        Err(misuse) => {
            let word = as_typed(invocation.limits);
            return report_misuse(alloc, errors, misuse, word);
        }
    };
    let command = invocation.command;
    match execute(rt, limits, folder, command, input, output, errors, terminal) {
        Ok(status) => status,
        Err(failure) => report_at(alloc, errors, failure.path, failure.fault),
    }
}

/// Prints the text of a command, if there is one.
fn print_result<'a, W: Sink, E: Sink>(
    text: Result<String, Failure<'a>>,
    output: &mut W,
    errors: &mut E,
) -> Result<Status, Failure<'a>>
    ensures ok { IfOk result (λ status. (is_ok text.entry ≡ true)
        × IfOk text.entry (λ text. PrintsOrReports (string_bytes text)
        (output_of W.contents W.has_failed W.holds_back output.old output.new)
        (output_of E.contents E.has_failed E.holds_back errors.old errors.new) status)) }
    ensures err { IfErr result (λ failure. (text.entry ≡ Err failure)
        × (output.new ≡ output.old) × (errors.new ≡ errors.old)) }
{
    match text {
        Ok(text) => Ok(print_or_report(Ok(text), output, errors)),
        Err(failure) => Err(failure),
    }
}

/// Returns what a command did, or why its file of this path could not be opened.
fn result_at<'a>(path: &'a str, outcome: Result<Status, OpenFailed>) -> Result<Status, Failure<'a>>
    ensures ok { IfOk result (λ status. outcome ≡ Ok status) }
    ensures err { IfErr result (λ failure. (cause : OpenFailed) × (outcome ≡ Err cause)
        × (failure.path.now ≡ path.now) × (failure.fault ≡ CommandFault.NotOpened cause)) }
{
    match outcome {
        Ok(status) => Ok(status),
        Err(cause) => Err(Failure {
            path,
            fault: CommandFault::NotOpened(cause),
        }),
    }
}

/// Opens the files that are read, and calls the command. If it failed, nothing was reported yet,
/// and nothing was printed.
fn execute<'a, F, D: Folder, R: Source, W: Sink, E: Sink, T: Sink + Drop>(
    rt: &F,
    limits: Limits,
    folder: &mut D,
    command: CommandWords<'a>,
    input: &mut R,
    output: &mut W,
    errors: &mut E,
    terminal: Option<T>,
) -> Result<Status, Failure<'a>>
where
    F: Threads + Wait + AllocGlobal,
    ensures ok { IfOk result (Runs limits (command_model command.entry) (MayFail D.File.has_failed)
        (CanStay D.Keeper.cut_back_may_fail)
        (folders_of D.known folder.old folder.new)
        (input_of R.remaining R.has_failed input.old input.new)
        (output_of W.contents W.has_failed W.holds_back output.old output.new)
        (output_of E.contents E.has_failed E.holds_back errors.old errors.new)) }
    ensures err { IfErr result (λ failure. Fails limits (command_model command.entry)
        (MayFail D.File.has_failed) (folders_of D.known folder.old folder.new)
        failure.path.now failure.fault
        × (output.new ≡ output.old) × (errors.new ≡ errors.old)) }
{
    let alloc = rt.alloc();
    match command {
        CommandWords::Serve(options) => serve_in_folder(
            alloc, limits, folder, options, input, output, errors, terminal,
        ),
        CommandWords::Replay { readers, schedule } => {
            let text = replay_in_folder(alloc, limits, folder, readers, schedule);
            print_result(text, output, errors)
        }
        CommandWords::Desk { script, questions } => {
            let text = desk_in_folder(rt, limits, folder, script, questions);
            print_result(text, output, errors)
        }
        CommandWords::Page {
            journal,
            edition,
            page,
        } => page_in_folder(
            alloc, limits, folder, journal, edition, page, input, output, errors,
        ),
        CommandWords::Audit {
            journal,
            transcript,
        } => {
            let text = audit_in_folder(alloc, limits, folder, journal, transcript, terminal);
            print_result(text, output, errors)
        }
        CommandWords::Letters {
            journal,
            table,
            options,
        } => {
            let status = table_in_folder(
                alloc, limits, folder, journal, table, options, input, output, errors, terminal,
            );
            result_at(journal, status)
        }
        CommandWords::Editions { journal } => {
            let status = editions_in_folder(alloc, limits, folder, journal, output, errors);
            result_at(journal, status)
        }
        CommandWords::Diff { journal, from, to } => {
            let status = diff_in_folder(alloc, limits, folder, journal, from, to, output, errors);
            result_at(journal, status)
        }
        CommandWords::Text {
            journal,
            edition,
            code,
        } => {
            let status = text_in_folder(
                alloc, limits, folder, journal, edition, code, output, errors,
            );
            result_at(journal, status)
        }
        CommandWords::Check { text } => {
            let status = check_in_folder(alloc, limits, folder, text, output, errors);
            result_at(text, status)
        }
        CommandWords::Plan {
            journal,
            text,
            strict,
        } => {
            let status = plan_in_folder(
                alloc, limits, folder, journal, text, strict, output, errors,
            );
            result_at(journal, status)
        }
        CommandWords::Publish {
            journal,
            text,
            onto_newest,
        } => {
            let status = publish_in_folder(
                alloc,
                limits,
                folder,
                journal,
                text,
                onto_newest,
                output,
                errors,
            );
            result_at(text, status)
        }
        CommandWords::Convert { calendar, date } => {
            Ok(convert_command(alloc, calendar, date, output, errors))
        }
        CommandWords::Completions { shell } => {
            Ok(completions_command(alloc, shell, output, errors))
        }
    }
}
