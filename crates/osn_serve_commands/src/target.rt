//! What is at the path that a journal will be saved to, before a line is answered.
ghost use Rattle.std.specs.Prelude.{◌≡◌, [], IfErr, IfOk, Some, None, option_map, string_bytes};
ghost use Rattle.osn_folder.specs.Crash.{LeavesAllSafe};
ghost use Rattle.osn_folder.specs.Folder.{Changes};
ghost use Rattle.osn_lines.specs.Streams.{output_of};
ghost use Rattle.osn_serve_commands.specs.InFolder as in_folder;
ghost use Rattle.osn_serve_commands.specs.SaveTarget as spec;

use osn_files::{FileFault, load_journal};
use osn_folder::{ChangeCause, Folder, OpenFailed};
use osn_lines::{Bytes, EscapedText, ReadAllFault, Sink, read_all};
use osn_register::Limits;
use osn_report::{CommandFault, Status, report_at, report_line, report_no_memory};
use std::alloc::{AllocError, Global};

/// What a journal will be saved over.
#[derive(Clone, Copy, Debug, PartialEq, Eq)]
pub enum SaveTarget {
    /// Nothing, or what is not a file, such as a pipe.
    NoFile,
    /// A file without a byte.
    Empty,
    /// A journal, which will be left beside the new one.
    Journal,
}

/// Why a journal can't be saved over what is there.
#[derive(Clone, Copy, Debug, PartialEq, Eq)]
pub enum TargetFault {
    /// It contains something that is not a journal under the limits.
    NoJournal,
    /// It can't be opened, for this cause, so that it isn't known whether a file is there.
    NotOpened(ChangeCause),
    /// It could not be read.
    NotRead,
    /// Memory ran out.
    NoMemory,
}

impl From<ReadAllFault> for TargetFault {
    ghost from_gives = { λ fault value. value ≡ spec.by_read fault };

    fn from(fault: ReadAllFault) -> TargetFault {
        match fault {
            ReadAllFault::NoMemory => TargetFault::NoMemory,
            ReadAllFault::ReadFault => TargetFault::NotRead,
        }
    }
}

impl From<FileFault> for TargetFault {
    ghost from_gives = { λ fault value. value ≡ spec.by_load fault };

    fn from(fault: FileFault) -> TargetFault {
        match fault {
            FileFault::BadLine { .. } => TargetFault::NoJournal,
            FileFault::ReadFault => TargetFault::NotRead,
            FileFault::NoMemory => TargetFault::NoMemory,
        }
    }
}

/// Returns why no journal is saved at a path that can't be opened.
fn cause_of(cause: OpenFailed) -> ChangeCause
    ensures { result ≡ spec.cause_of cause }
{
    match cause {
        OpenFailed::NoFolder => ChangeCause::NoFolder,
        OpenFailed::PermissionDenied => ChangeCause::PermissionDenied,
        OpenFailed::NotFound | OpenFailed::IsDirectory | OpenFailed::Other => ChangeCause::Other,
    }
}

/// Returns what is at a path that a journal will be saved to.
///
/// # Errors
///
/// `NoJournal` if a file contains something that makes no journal under these limits, `NotOpened`
/// if nothing can be opened there, `NotRead` if the file can't be read, `NoMemory` if memory ran
/// out.
pub fn save_target<D: Folder>(
    alloc: Global,
    limits: Limits,
    folder: &mut D,
    path: &str,
) -> Result<SaveTarget, TargetFault>
    ensures ok { IfOk result (spec.IsTarget limits path.now
        (D.known folder.old) (D.known folder.new)) }
    ensures err { IfErr result (spec.IsNoTarget limits path.now
        (D.known folder.old) (D.known folder.new)) }
    ensures crash { Changes LeavesAllSafe (D.known folder.old) (D.known folder.new) }
{
    if folder.is_stream(path) {
        return Ok(SaveTarget::NoFile);
    }
    match folder.open(path) {
        Ok(mut file) => {
            let content = read_all(alloc, &mut file)?;
            target_of(alloc, limits, &content)
        }
        Err(OpenFailed::NotFound) => Ok(SaveTarget::NoFile),
        Err(cause) => Err(TargetFault::NotOpened(cause_of(cause))),
    }
}

/// Returns what is at the path that the journal is saved to, if it is saved.
pub(crate) fn target_if<D: Folder>(
    alloc: Global,
    limits: Limits,
    folder: &mut D,
    path: Option<&str>,
) -> Result<SaveTarget, TargetFault>
    ensures ok { IfOk result (in_folder.FindsTarget limits
        (option_map (λ path. path.now) path.entry) (D.known folder.old) (D.known folder.new)) }
    ensures err { IfErr result (in_folder.FindsNoTarget limits
        (option_map (λ path. path.now) path.entry) (D.known folder.old) (D.known folder.new)) }
    ensures crash { Changes LeavesAllSafe (D.known folder.old) (D.known folder.new) }
{
    match path {
        Some(path) => save_target(alloc, limits, folder, path),
        None => Ok(SaveTarget::NoFile),
    }
}

/// Returns what a file with these bytes is.
fn target_of(alloc: Global, limits: Limits, content: &[u8]) -> Result<SaveTarget, TargetFault>
    ensures ok { IfOk result (spec.HoldsTarget limits content.now) }
    ensures err { IfErr result (spec.HoldsNoTarget limits content.now) }
{
    if content.is_empty() {
        return Ok(SaveTarget::Empty);
    }
    let _journal = load_journal(alloc, limits, &mut Bytes::new(content))?;
    Ok(SaveTarget::Journal)
}

/// Returns the report on a path that no journal is saved to.
fn target_text(alloc: Global, path: &str, why: &str) -> Result<String, AllocError>
    ensures { IfOk result (λ text. string_bytes text ≡ spec.target_text path.now why.now) }
{
    format!(in alloc;
        "oldstyle: write fault\nhelp: {} {why}: name another file for --save\n",
        EscapedText(path)
    )
}

/// Reports on standard error why no journal is saved to this path. Returns the status.
pub fn report_target<E: Sink>(
    alloc: Global,
    errors: &mut E,
    path: &str,
    fault: TargetFault,
) -> Status
    ensures { spec.ReportsTarget path.now
        (output_of E.contents E.has_failed E.holds_back errors.old errors.new) fault result }
{
    match fault {
        TargetFault::NoJournal => {
            let text = target_text(alloc, path, "is not a journal, and is left as it is");
            report_line(errors, Status::WriteFault, text)
        }
        TargetFault::NotOpened(cause) => {
            report_at(alloc, errors, path, CommandFault::NotSaved(cause))
        }
        TargetFault::NotRead => {
            let text = target_text(alloc, path, "can't be read, and is left as it is");
            report_line(errors, Status::WriteFault, text)
        }
        TargetFault::NoMemory => report_no_memory(errors),
    }
}

/// Returns whether what is found is left beside the journal that is saved.
pub(crate) fn is_left_beside(target: SaveTarget) -> bool
    ensures { result ≡ in_folder.is_left_beside target }
{
    match target {
        SaveTarget::Journal => true,
        SaveTarget::NoFile | SaveTarget::Empty => false,
    }
}

/// Returns the bytes that a file which a journal is saved over must still contain, if it is not a
/// journal itself.
pub(crate) fn bytes_of(target: SaveTarget) -> Option<&'static [u8]>
    ensures { option_map (λ bytes. bytes.now) result ≡ in_folder.bytes_of target }
{
    match target {
        SaveTarget::Empty => Some(&[]),
        SaveTarget::NoFile | SaveTarget::Journal => None,
    }
}
