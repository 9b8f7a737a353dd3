//! Why the file of a journal is not kept, as far as that is found out by opening files.
ghost use Rattle.std.specs.Prelude.{◌≡◌, IfOk, option_map, string_bytes};
ghost use Rattle.osn_folder.specs.Folder.{Changes, Opens, path_if};
ghost use Rattle.osn_lines.specs.Streams.{output_of};
ghost use Rattle.osn_commands.specs.HindranceCause as spec;

use osn_folder::{Folder, KeepFault, OpenFailed};
use osn_lines::{EscapedText, Sink};
use osn_report::{Status, report_line};
use std::alloc::{AllocError, Global};
use std::path::Path;

/// Why the file of a journal is not kept.
#[derive(Clone, Copy)]
pub(crate) enum KeepCause {
    /// Another run of the program keeps it.
    Held,
    /// It is not a file, such as a folder or a pipe.
    NoFile,
    /// It may not be read.
    Denied,
    /// It can't be opened or read, for any other cause.
    NotRead,
    /// It can be read, but not opened for writing, for this cause.
    NotWritten(OpenFailed),
    /// It is not there, and neither is its folder.
    NoFolder,
    /// It is not there, and can't be made, for this cause.
    NotMade(OpenFailed),
}

/// Returns a folder that has a name: the folder of a bare name has none.
fn if_named(folder: &str) -> Option<&str>
    ensures { option_map (λ folder. folder.now) result ≡ spec.if_named folder.now }
{
    if folder.is_empty() {
        return None;
    }
    Some(folder)
}

/// Returns the folder that a path names before its last part, if it names one.
fn folder_of(path: &str) -> Option<&str>
    ensures { option_map (λ folder. folder.now) result ≡ spec.folder_of path.now }
{
    match Path::new(path).parent() {
        Some(parent) => if_named(parent.to_string_lossy()),
        None => None,
    }
}

/// Returns whether the folder that a path names is not there.
fn lacks_folder<D: Folder>(folder: &mut D, path: &str) -> bool
    ensures { Changes (Opens (path_if (spec.folder_of path.now)))
        (D.known folder.old) (D.known folder.new) }
{
    let Some(named) = folder_of(path) else {
        return false;
    };
    match folder.open(named) {
        Err(OpenFailed::NotFound) => true,
        _ => false,
    }
}

/// Returns why a file that no other run has is not kept. The system said why when it was opened.
fn cause_at<D: Folder>(folder: &mut D, path: &str, failure: OpenFailed) -> KeepCause
    ensures { spec.FindsCause path.now failure (D.known folder.old) (D.known folder.new) result }
{
    if folder.is_stream(path) {
        return KeepCause::NoFile;
    }
    match folder.open(path) {
        Ok(_) => KeepCause::NotWritten(failure),
        Err(OpenFailed::PermissionDenied) => KeepCause::Denied,
        Err(OpenFailed::NotFound) => {
            if lacks_folder(folder, path) {
                KeepCause::NoFolder
            } else {
                KeepCause::NotMade(failure)
            }
        }
        Err(_) => KeepCause::NotRead,
    }
}

/// Returns why a file is not kept, by the fault of keeping it.
pub(crate) fn cause_of<D: Folder>(folder: &mut D, path: &str, fault: KeepFault) -> KeepCause
    ensures { spec.IsCauseOf path.now (D.known folder.old) (D.known folder.new) fault result }
{
    match fault {
        KeepFault::Held => KeepCause::Held,
        KeepFault::NotOpened(failure) => cause_at(folder, path, failure),
    }
}

/// Returns why the file of a journal would not be kept, as far as that is found out without making
/// one. It is there or not.
fn hindrance<D: Folder>(folder: &mut D, path: &str, is_there: bool) -> Option<KeepCause>
    ensures { spec.FindsHindrance path.now is_there
        (D.known folder.old) (D.known folder.new) result }
{
    if !is_there {
        return if lacks_folder(folder, path) {
            Some(KeepCause::NoFolder)
        } else {
            None
        };
    }
    match folder.keep(path) {
        Ok((kept, journal)) => {
            // The source that reads the file has its lock too.
            drop(journal);
            folder.release(path, kept);
            None
        }
        Err(fault) => Some(cause_of(folder, path, fault)),
    }
}

/// Returns the words on why a file that can be read was not opened to be written to.
fn write_words(cause: OpenFailed) -> &'static str
    ensures { result.now ≡ spec.write_words cause }
{
    match cause {
        OpenFailed::PermissionDenied => "permission denied: publish writes to it",
        _ => "it can't be opened for writing and locked, as on a read-only disk or without memory",
    }
}

/// Returns the words on why a file was not made in its folder.
fn make_words(cause: OpenFailed) -> &'static str
    ensures { result.now ≡ spec.make_words cause }
{
    match cause {
        OpenFailed::PermissionDenied => "permission denied: publish creates it in its folder",
        OpenFailed::NotFound => "no such file: it may be a link that leads nowhere",
        _ => "it can't be created and locked, as on a read-only disk or without memory",
    }
}

/// Returns the words on why a file whose folder is there is not kept.
fn cause_words(cause: KeepCause) -> &'static str
    ensures { result.now ≡ spec.cause_words cause }
{
    match cause {
        KeepCause::Held => "another run of the program keeps that journal",
        KeepCause::NoFile => "it is a folder or a pipe, not a file",
        KeepCause::Denied => "permission denied",
        KeepCause::NotRead => "read fault",
        KeepCause::NotWritten(why) => write_words(why),
        KeepCause::NoFolder => "there is no such folder",
        KeepCause::NotMade(why) => make_words(why),
    }
}

/// Returns the line on a path whose folder is not there.
#[tactic(auto, unfolding(crate::specs::HindranceCause::no_folder_line))]
fn no_folder_line(alloc: Global, path: &str, folder: &str) -> Result<String, AllocError>
    ensures { IfOk result (λ line. string_bytes line
        ≡ spec.no_folder_line path.now folder.now) }
{
    let path = EscapedText(path);
    let folder = EscapedText(folder);
    format!(in alloc; "oldstyle: {path}: there is no folder {folder}: make it first\n")
}

/// Returns the line on why the file of this path is not kept.
pub(crate) fn unkept_line(alloc: Global, path: &str, cause: KeepCause) -> Result<String, AllocError>
    ensures { IfOk result (λ line. string_bytes line ≡ spec.unkept_line path.now cause) }
{
    match (cause, folder_of(path)) {
        (KeepCause::NoFolder, Some(folder)) => no_folder_line(alloc, path, folder),
        _ => {
            let words = cause_words(cause);
            format!(in alloc; "oldstyle: {}: {words}\n", EscapedText(path))
        }
    }
}

/// Reports on standard error why the file of a journal would not be kept, as far as that is found
/// out without making one. It is there or not. Returns the status.
pub(crate) fn report_hindrance<D: Folder, E: Sink>(
    alloc: Global,
    folder: &mut D,
    path: &str,
    is_there: bool,
    errors: &mut E,
) -> Status
    ensures { spec.ReportsHindrance path.now is_there (D.known folder.old) (D.known folder.new)
        (output_of E.contents E.has_failed E.holds_back errors.old errors.new) result }
{
    match hindrance(folder, path, is_there) {
        Some(cause) => report_line(errors, Status::Done, unkept_line(alloc, path, cause)),
        None => Status::Done,
    }
}
