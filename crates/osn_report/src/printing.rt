//! Prints a text that a command made.
ghost use Rattle.std.specs.Prelude.{◌≡◌, ℕ, List, IfOk, string_bytes};
ghost use Rattle.osn_lines.specs.Streams.{output_of};
ghost use Rattle.osn_report.specs.Printing.{Prints, PrintsIfMade, PrintsOrReports};

use crate::fault_report::{report_no_memory, report_write_fault};
use crate::status::Status;
use osn_lines::{Sink, write_all};
use std::alloc::AllocError;

/// Writes a text whole. If the output failed, the status is `Unwritten`, and nothing is written to
/// standard error: `end_output` does that at the end of the program.
pub fn print_text<W: Sink, E: Sink>(text: &str, output: &mut W, errors: &mut E) -> Status
    ensures { Prints text.now
        (output_of W.contents W.has_failed W.holds_back output.old output.new)
        (output_of E.contents E.has_failed E.holds_back errors.old errors.new) result }
{
    match write_all(output, text.as_bytes()) {
        Ok(()) => Status::Done,
        Err(_) => Status::Unwritten,
    }
}

/// Writes a text whole as `print_text` does, or reports on standard error that there was no memory
/// for it.
pub fn print<W: Sink, E: Sink>(
    text: Result<String, AllocError>,
    output: &mut W,
    errors: &mut E,
) -> Status
    // For any text that was made.
    ensures { (expected : List ℕ) → IfOk text (λ text. string_bytes text ≡ expected)
        → PrintsIfMade expected
        (output_of W.contents W.has_failed W.holds_back output.old output.new)
        (output_of E.contents E.has_failed E.holds_back errors.old errors.new) result }
{
    match text {
        Ok(text) => print_text(text.as_str(), output, errors),
        Err(_) => report_no_memory(errors),
    }
}

/// Writes a text whole as `print` does, but reports on standard error as soon as the output failed.
pub fn print_or_report<W: Sink, E: Sink>(
    text: Result<String, AllocError>,
    output: &mut W,
    errors: &mut E,
) -> Status
    // For any text that was made.
    ensures { (expected : List ℕ) → IfOk text (λ text. string_bytes text ≡ expected)
        → PrintsOrReports expected
        (output_of W.contents W.has_failed W.holds_back output.old output.new)
        (output_of E.contents E.has_failed E.holds_back errors.old errors.new) result }
{
    let Ok(text) = text else {
        return report_no_memory(errors);
    };
    match write_all(output, text.as_bytes()) {
        Ok(()) => Status::Done,
        Err(_) => report_write_fault(errors),
    }
}
