//! The file that a journal is saved to: its lock, and how the journal goes there.
ghost use Rattle.std.specs.Prelude.{◌≡◌, None, option_map};
ghost use Rattle.std.specs.Prelude.{IfErr, IfOk, IfSome, string_bytes};
ghost use Rattle.osn_lines.specs.Streams.{output_of};
ghost use Rattle.osn_serve_commands.specs.Save.{CannotLockIf, FinishesSave, LocksIf};
ghost use Rattle.osn_serve_commands.specs.Save.{ReportsUnsaved, beside_line, changed_line};

use crate::serve::ServeResult;
use osn_folder::{Folder, KeepFault, SaveFault, save_beside, save_file};
use osn_lines::{EscapedText, Sink};
use osn_report::{CommandFault, Status, report_at, report_line, report_no_memory, write_line};
use std::alloc::{AllocError, Global};

/// A file that a journal will be saved to, and its lock.
#[derive(Drop)]
pub(crate) struct LockedFile<'a, L> {
    pub(crate) path: &'a str,
    pub(crate) lock: L,
}

/// Locks the file that the journal is saved to, if there is one.
pub(crate) fn lock_if<'a, D: Folder>(
    folder: &mut D,
    path: Option<&'a str>,
) -> Result<Option<LockedFile<'a, D::Lock>>, KeepFault>
    ensures path { IfOk result (λ locked_file. option_map (λ file. file.path.now) locked_file
        ≡ option_map (λ path. path.now) path.entry) }
    ensures ok { IfOk result
        (λ locked_file. LocksIf (option_map (λ file. file.path.now) locked_file)
        (D.known folder.old) (D.known folder.new)) }
    ensures err { IfErr result (λ fault.
        CannotLockIf (option_map (λ path. path.now) path.entry) fault
        (D.known folder.old) (D.known folder.new)) }
{
    match path {
        Some(path) => {
            let lock = folder.lock_to_save(path)?;
            Ok(Some(LockedFile { path, lock }))
        }
        None => Ok(None),
    }
}

/// Returns the line on a file that is not what it was, and on the one that has the journal.
fn changed_file_line(alloc: Global, unfinished_path: &str) -> Result<String, AllocError>
    ensures { IfOk result (λ text. string_bytes text ≡ changed_line unfinished_path.now) }
{
    format!(in alloc;
        "oldstyle: the file was changed meanwhile, and is left as it is: the journal is in {}\n",
        EscapedText(unfinished_path)
    )
}

/// Returns the line on a journal that was there, and on the path that it is at now.
fn beside_line(alloc: Global, path: &str, backup: &str) -> Result<String, AllocError>
    ensures { IfOk result (λ text. string_bytes text ≡ beside_line path.now backup.now) }
{
    format!(in alloc;
        "note: {} contained another journal, which is now {}\n",
        EscapedText(path),
        EscapedText(backup)
    )
}

/// Reports on standard error why it isn't sure that the journal is saved in the file of this path.
/// Returns the status.
pub(crate) fn report_unsaved<E: Sink>(
    alloc: Global,
    errors: &mut E,
    path: &str,
    fault: SaveFault,
) -> Status
    ensures { ReportsUnsaved path.now
        (output_of E.contents E.has_failed E.holds_back errors.old errors.new) fault result }
{
    match fault {
        SaveFault::NoMemory => report_no_memory(errors),
        SaveFault::WriteFault(cause) => {
            report_at(alloc, errors, path, CommandFault::NotSaved(cause))
        }
        SaveFault::NotSynced => {
            write_line(
                errors,
                "oldstyle: the journal is saved, but may not be on the disk yet\n",
            );
            Status::WriteFault
        }
        SaveFault::Changed(unfinished_path) => {
            let line = changed_file_line(alloc, unfinished_path.as_str());
            report_line(errors, Status::WriteFault, line)
        }
    }
}

/// Saves a journal at a path: in place of another one, which is left beside it, if that is asked
/// for; or else in place of a file that must still contain what was loaded, if that is given.
/// Standard error names the path of a journal that is left, or reports why this could not be done.
fn save_journal<D: Folder, E: Sink>(
    alloc: Global,
    folder: &mut D,
    file: LockedFile<'_, D::Lock>,
    loaded_bytes: Option<&[u8]>,
    beside: bool,
    text: &str,
    errors: &mut E,
) -> Status
    ensures { FinishesSave beside (option_map (λ bytes. bytes.now) loaded_bytes.entry)
        file.entry.path.now text.now (D.known folder.old) (D.known folder.new)
        (output_of E.contents E.has_failed E.holds_back errors.old errors.new) result }
{
    if beside {
        return match save_beside(folder, alloc, file.lock, file.path, text) {
            Ok(backup) => {
                let line = beside_line(alloc, file.path, backup.as_str());
                report_line(errors, Status::Done, line)
            }
            Err(fault) => report_unsaved(alloc, errors, file.path, fault),
        };
    }
    match save_file(folder, alloc, file.lock, file.path, loaded_bytes, text) {
        Ok(()) => Status::Done,
        Err(fault) => report_unsaved(alloc, errors, file.path, fault),
    }
}

/// Saves the journal that the service returned, if any, or reports on standard error why it could
/// not. A journal that it replaces is left beside it, if that is asked for. Otherwise the file that
/// it replaces must still contain what was loaded, if that is given.
pub(crate) fn finish<D: Folder, E: Sink>(
    alloc: Global,
    folder: &mut D,
    serve_result: ServeResult,
    locked_file: Option<LockedFile<'_, D::Lock>>,
    loaded_bytes: Option<&[u8]>,
    beside: bool,
    errors: &mut E,
) -> Status
    ensures none { serve_result.journal ≡ None
        → (result ≡ serve_result.status) × (errors.new ≡ errors.old) × (folder.new ≡ folder.old) }
    ensures saved { IfSome locked_file.entry (λ file. IfSome serve_result.journal (λ text.
        FinishesSave beside (option_map (λ bytes. bytes.now) loaded_bytes.entry) file.path.now
        (string_bytes text) (D.known folder.old) (D.known folder.new)
        (output_of E.contents E.has_failed E.holds_back errors.old errors.new) result)) }
{
    let (Some(file), Some(journal)) = (locked_file, serve_result.journal) else {
        return serve_result.status;
    };
    save_journal(
        alloc,
        folder,
        file,
        loaded_bytes,
        beside,
        journal.as_str(),
        errors,
    )
}
