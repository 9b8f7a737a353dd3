//! The command `completions`.
ghost use Rattle.osn_commands.specs.Completions.{PrintsCompletions};
ghost use Rattle.osn_lines.specs.Streams.{output_of};

use osn_invocation::{completions, shell_named};
use osn_lines::Sink;
use osn_report::{Misuse, Status, print, report_misuse};
use std::alloc::Global;

/// Runs the command `completions`: prints the text by which the shell of this word completes the
/// arguments.
///
/// If the word names no shell, a line on standard error reports that, and the status says so.
pub(crate) fn completions_command<W: Sink, E: Sink>(
    alloc: Global,
    shell: &str,
    output: &mut W,
    errors: &mut E,
) -> Status
    ensures { PrintsCompletions shell.now
        (output_of W.contents W.has_failed W.holds_back output.old output.new)
        (output_of E.contents E.has_failed E.holds_back errors.old errors.new) result }
{
    match shell_named(shell) {
        Some(shell) => print(completions(alloc, shell), output, errors),
        None => report_misuse(alloc, errors, Misuse::Shell, shell),
    }
}
