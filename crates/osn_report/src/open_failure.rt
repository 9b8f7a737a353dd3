//! Reports on standard error, by its path, a file that could not be opened or read.
ghost use Rattle.std.specs.Prelude.{◌≡◌, IfOk, string_bytes};
ghost use Rattle.osn_lines.specs.Streams.{output_of};
ghost use Rattle.osn_report.specs.Messages.{ReportsIfMade};
ghost use Rattle.osn_report.specs.OpenFailure as spec;

use crate::fault_report::report_line;
use crate::status::Status;
use osn_folder::OpenFailed;
use osn_lines::{EscapedText, Sink};
use std::alloc::{AllocError, Global};

/// Returns the text on why a file could not be opened.
pub(crate) fn cause_text(cause: OpenFailed) -> &'static str
    ensures { result.now ≡ spec.cause_text cause }
{
    match cause {
        OpenFailed::NotFound => "no such file",
        OpenFailed::NoFolder => "no such folder",
        OpenFailed::PermissionDenied => "permission denied",
        OpenFailed::IsDirectory => "is a directory",
        OpenFailed::Other => "read fault",
    }
}

/// Returns the line on a file of this path.
fn open_failure_line(alloc: Global, path: &str, cause: OpenFailed) -> Result<String, AllocError>
    ensures { IfOk result (λ line. string_bytes line ≡ spec.open_failure_line path.now cause) }
{
    let cause = cause_text(cause);
    format!(in alloc; "oldstyle: {}: {cause}\n", EscapedText(path))
}

/// Reports on standard error why the file of this path could not be opened. Returns the status.
pub fn report_open_failure<E: Sink>(
    alloc: Global,
    errors: &mut E,
    path: &str,
    cause: OpenFailed,
) -> Status
    ensures { ReportsIfMade (output_of E.contents E.has_failed E.holds_back errors.old errors.new)
        Status.ReadFault (spec.open_failure_line path.now cause) result }
{
    report_line(
        errors,
        Status::ReadFault,
        open_failure_line(alloc, path, cause),
    )
}
