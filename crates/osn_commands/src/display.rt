//! What is shown in place of a command.
ghost use Rattle.std.specs.Prelude.{◌≡◌, ◌++◌, IfOk, string_bytes};
ghost use Rattle.std.specs.IoError.{error_kind};
ghost use Rattle.clap.specs.Words.{kind_of};
ghost use Rattle.osn_commands.specs.Run.{ShowsOrEnds};
ghost use Rattle.osn_lines.specs.Streams.{output_of};
ghost use Rattle.osn_report.specs.Messages.{ReportsNoWords};

use clap::Error;
use clap::error::ErrorKind;
use osn_lines::{EscapedLines, Sink};
use osn_report::{Status, print, report_no_memory, write_line};
use std::alloc::{AllocError, Global};
use std::io;

/// Returns what is wrong with the arguments, followed by the help.
fn with_help(escaped: String, help: &str) -> Result<String, AllocError>
    ensures { IfOk result (λ text. string_bytes text ≡ string_bytes escaped ++ help.now) }
{
    let mut text = escaped;
    text.push_str(help)?;
    Ok(text)
}

/// Shows help or the version if they were asked for, or else what is wrong with the arguments, with
/// this help after it.
pub(crate) fn show<W: Sink, E: Sink>(
    alloc: Global,
    error: &Error,
    help: &str,
    output: &mut W,
    errors: &mut E,
) -> Status
    ensures { ShowsOrEnds (kind_of error.now) help.now
        (output_of W.contents W.has_failed W.holds_back output.old output.new)
        (output_of E.contents E.has_failed E.holds_back errors.old errors.new) result }
{
    let kind = error.kind();
    if kind == ErrorKind::OutOfMemory {
        return report_no_memory(errors);
    }
    let Ok(text) = format!(in alloc; "{error}") else {
        return report_no_memory(errors);
    };
    match kind {
        ErrorKind::DisplayHelp | ErrorKind::DisplayVersion => { print(Ok(text), output, errors) }
        _ => {
            let Ok(escaped) = format!(in alloc; "{}", EscapedLines(text.as_str())) else {
                return report_no_memory(errors);
            };
            let Ok(text) = with_help(escaped, help) else {
                return report_no_memory(errors);
            };
            write_line(errors, text.as_str());
            Status::Misused
        }
    }
}

/// Reports on standard error that the arguments could not be read: because memory ran out, or
/// because one of them is not UTF-8.
pub fn report_no_words<E: Sink>(why: &io::Error, errors: &mut E) -> Status
    ensures { ReportsNoWords (output_of E.contents E.has_failed E.holds_back errors.old errors.new)
        (error_kind why.now) result }
{
    if why.kind() == io::ErrorKind::OutOfMemory {
        return report_no_memory(errors);
    }
    write_line(errors, "error: an argument is not UTF-8\n");
    Status::Misused
}
