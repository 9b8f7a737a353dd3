//! Standard output, and how a failure to write to it is reported.
ghost use Rattle.std.specs.Prelude.{◌≡◌};
ghost use Rattle.std.specs.IoError.{error_kind};
ghost use Rattle.osn_lines.specs.Streams.{output_of};
ghost use Rattle.osn_report.specs.Output as spec;

use crate::fault_report::report_text;
use crate::status::Status;
use osn_lines::{Sink, WriteFailed};
use std::io;
use std::io::{ErrorKind, Write};

/// Why a write failed.
#[derive(Clone, Copy, Debug, PartialEq, Eq)]
pub enum WriteCause {
    /// Nobody reads what is written any more: the other end of a pipe is closed.
    Closed,
    /// No space is left on the device, or within the user's quota.
    NoSpace,
    /// Any other cause.
    Other,
}

/// A writer as a sink that notes why a write of it failed. A call fails if the writer returns an
/// error, or if it takes none of some bytes.
#[derive(Debug, Drop)]
pub struct StandardOutput<T> {
    inner: T,
    /// Why the last call that failed did so.
    cause: Option<WriteCause>,
}

impl<T> StandardOutput<T> {
    ghost use Rattle.std.specs.Prelude.{None};
    ghost use Rattle.osn_report.specs.Output.{inner_of, cause_of};

    /// Returns a sink that hasn't failed.
    pub fn new(inner: T) -> StandardOutput<T>
        ensures inner { inner_of result ≡ inner }
        ensures cause { cause_of result ≡ None }
    {
        StandardOutput { inner, cause: None }
    }

    /// Returns why the last call that failed did so, or `None` if none has.
    pub fn cause(&self) -> Option<WriteCause>
        ensures { result ≡ cause_of self.now }
    {
        self.cause
    }
}

impl<T: Write> Sink for StandardOutput<T> {
    ghost use Rattle.std.specs.Prelude.{is_some};
    ghost use Rattle.osn_report.specs.Output.{inner_of, cause_of};

    ghost contents = { λ p. T.contents (inner_of p) };

    ghost has_failed = { λ p. is_some (cause_of p) };

    fn write(&mut self, bytes: &[u8]) -> Result<usize, WriteFailed> {
        match self.inner.write(bytes) {
            Ok(n) if n > 0 || bytes.is_empty() => Ok(n),
            Ok(_) => {
                self.cause = Some(WriteCause::Other);
                Err(WriteFailed)
            }
            Err(error) => {
                self.cause = Some(cause_of(&error));
                Err(WriteFailed)
            }
        }
    }

    fn flush(&mut self) -> Result<(), WriteFailed> {
        match self.inner.flush() {
            Ok(()) => Ok(()),
            Err(error) => {
                self.cause = Some(cause_of(&error));
                Err(WriteFailed)
            }
        }
    }

    fn failed(&self) -> bool {
        self.cause.is_some()
    }
}

/// Returns the cause that an error of a writer has.
fn cause_of(error: &io::Error) -> WriteCause
    ensures { result ≡ spec.cause_of_kind (error_kind error.now) }
{
    match error.kind() {
        ErrorKind::BrokenPipe => WriteCause::Closed,
        ErrorKind::StorageFull | ErrorKind::QuotaExceeded => WriteCause::NoSpace,
        _ => WriteCause::Other,
    }
}

/// Reports on standard error that not all could be printed, unless the other end of a pipe is
/// closed.
fn end_unwritten<E: Sink>(errors: &mut E, cause: WriteCause) -> Status
    ensures { spec.EndsUnwritten cause
        (output_of E.contents E.has_failed E.holds_back errors.old errors.new) result }
{
    match cause {
        WriteCause::Closed => Status::Done,
        WriteCause::NoSpace => report_text(
            errors,
            Status::WriteFault,
            "oldstyle: standard output: no space left on the device\n",
        ),
        WriteCause::Other => report_text(
            errors,
            Status::WriteFault,
            "oldstyle: standard output: write fault\n",
        ),
    }
}

/// Adds the cause, if it is known, to a write fault that was reported on standard error.
fn note_cause<E: Sink>(errors: &mut E, cause: Option<WriteCause>) -> Status
    ensures { spec.NotesCause cause
        (output_of E.contents E.has_failed E.holds_back errors.old errors.new) result }
{
    match cause {
        Some(WriteCause::Closed) => report_text(
            errors,
            Status::WriteFault,
            "note: standard output: nobody reads it any more\n",
        ),
        Some(WriteCause::NoSpace) => report_text(
            errors,
            Status::WriteFault,
            "note: standard output: no space left on the device\n",
        ),
        Some(WriteCause::Other) | None => Status::WriteFault,
    }
}

/// Ends a command that had this status, given why standard output failed, if it did. Returns the
/// status of the program. If the text of a command could not be printed, that is reported with the
/// cause, unless the other end of a pipe is closed, since all other work was done then. If a write
/// fault was reported before, a note adds the cause.
pub fn end_output<E: Sink>(errors: &mut E, status: Status, cause: Option<WriteCause>) -> Status
    ensures { spec.EndsOutput status cause
        (output_of E.contents E.has_failed E.holds_back errors.old errors.new) result }
{
    match status {
        Status::Unwritten => end_unwritten(errors, cause.unwrap_or(WriteCause::Other)),
        Status::WriteFault => note_cause(errors, cause),
        Status::Done | Status::Refused | Status::Misused | Status::ReadFault | Status::NoMemory =>
            status,
    }
}
