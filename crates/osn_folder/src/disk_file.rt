//! The files of the disk that are kept.
ghost use Rattle.std.specs.Prelude.{◌≡◌, None, IfOk, IfSome, false};
ghost use Rattle.osn_lines.specs.Plain.{failed_of};

use crate::cause::{cause_of_kind, change_cause, make_cause, open_cause};
use crate::disk_lock::{is_at, lock};
use crate::disk_names::{has_nothing, sync_name};
use crate::fault::{ChangeFailed, KeepFault, KeptFileFault, OpenFailed};
use crate::kept_file::KeptFile;
use osn_lines::Plain;
use std::fs::{File, OpenOptions};
use std::io::Write;
use std::rt::Files;
use std::{fs, io};

/// A file of the disk that is kept, and is locked.
#[derive(Drop)]
pub struct DiskFile<'a, R> {
    files: &'a R,
    /// The path that it was opened by.
    path: String,
    file: File,
    /// How many bytes it held and was given.
    length: u64,
    /// Why the last change that failed did so.
    fault: Option<KeptFileFault>,
}

impl<R: Files> DiskFile<'_, R> {
    ghost use Rattle.osn_folder.specs.KeptFile.{fault_after};

    /// Fails if a change has failed before: nothing is sure of the file after that.
    fn check(&self) -> Result<(), KeptFileFault> {
        match self.fault {
            Some(fault) => Err(fault),
            None => Ok(()),
        }
    }

    /// Checks that nobody else has cut the file or added to it.
    fn check_length(&self) -> Result<(), KeptFileFault> {
        match self.file.metadata() {
            Ok(metadata) if metadata.len() == self.length => Ok(()),
            Ok(_) => Err(KeptFileFault::Replaced),
            Err(error) => Err(KeptFileFault::ChangeFailed(change_cause(&error))),
        }
    }

    /// Checks that the path still names the file.
    fn check_path(&self) -> Result<(), KeptFileFault> {
        match is_at(self.files, self.path.as_str(), &self.file) {
            Ok(true) => Ok(()),
            Ok(false) => Err(KeptFileFault::Replaced),
            Err(error) => Err(KeptFileFault::ChangeFailed(change_cause(&error))),
        }
    }

    fn append_bytes(&mut self, bytes: &[u8]) -> Result<(), KeptFileFault>
        ensures { self.new.fault ≡ self.old.fault }
    {
        self.check()?;
        change_result(self.file.write_all(bytes))?;
        self.length = self.length.saturating_add(bytes.len() as u64);
        Ok(())
    }

    fn cut_bytes(&mut self, length: u64) -> Result<(), KeptFileFault>
        ensures { self.new.fault ≡ self.old.fault }
    {
        self.check()?;
        self.check_length()?;
        let new_length = length.min(self.length);
        change_result(self.file.set_len(new_length))?;
        self.length = new_length;
        Ok(())
    }

    fn sync_bytes(&mut self) -> Result<(), KeptFileFault>
        ensures { self.new.fault ≡ self.old.fault }
    {
        self.check()?;
        change_result(self.file.sync_all())?;
        self.check_length()?;
        self.check_path()
    }

    /// Cuts the file to its first bytes, if it has them.
    fn shorten(&self, length: u64) -> Result<(), ChangeFailed> {
        match self.file.metadata() {
            Ok(metadata) if metadata.len() >= length => {
                self.file.set_len(length).map_err(|_| ChangeFailed)
            }
            _ => Err(ChangeFailed),
        }
    }

    /// Notes the fault of a change that failed.
    fn remember(&mut self, change: Result<(), KeptFileFault>) -> Result<(), KeptFileFault>
        ensures same { result ≡ change }
        ensures fault { self.new.fault ≡ fault_after change self.old.fault }
    {
        if let Err(fault) = change {
            self.fault = Some(fault);
        }
        change
    }
}

impl<R: Files> KeptFile for DiskFile<'_, R> {
    ghost contents = { λ _. None };

    ghost synced = { λ _. None };

    ghost fault = { λ f. f.fault };

    fn append(&mut self, bytes: &[u8]) -> Result<(), KeptFileFault> {
        let change = self.append_bytes(bytes);
        self.remember(change)
    }

    fn cut(&mut self, length: u64) -> Result<(), KeptFileFault> {
        let change = self.cut_bytes(length);
        self.remember(change)
    }

    fn cut_back(&mut self, length: u64) -> Result<(), ChangeFailed> {
        if matches!(self.fault, Some(KeptFileFault::Replaced)) {
            return Err(ChangeFailed);
        }
        let new_length = length.min(self.length);
        self.shorten(new_length)?;
        self.length = new_length;
        Ok(())
    }

    fn sync(&mut self) -> Result<(), KeptFileFault> {
        let change = self.sync_bytes();
        self.remember(change)
    }
}

/// Returns the result of a change of the file.
fn change_result(change: io::Result<()>) -> Result<(), KeptFileFault> {
    match change {
        Ok(()) => Ok(()),
        Err(error) => Err(KeptFileFault::ChangeFailed(change_cause(&error))),
    }
}

/// Opens a file to be kept, or makes it, and returns what reads it from its first byte on. One that
/// was made and can't be kept is removed again, if it is empty and nobody else has it.
pub(crate) fn keep_file<'a, R: Files<File = File> + AllocGlobal>(
    files: &'a R,
    path: &str,
) -> Result<(DiskFile<'a, R>, Plain<File>), KeepFault>
    ensures { IfOk result (λ kept. (kept.0.fault ≡ None) × (failed_of kept.1 ≡ false)) }
{
    let is_new = has_no_file(files, path)?;
    open_locked(files, path, is_new)
}

/// Returns whether nothing is at a path. What is there must be a file, which a link that leads
/// nowhere is not.
fn has_no_file(files: &impl Files, path: &str) -> Result<bool, KeepFault> {
    match fs::metadata(files, path) {
        Ok(metadata) if metadata.is_file() => Ok(false),
        Ok(metadata) => Err(KeepFault::NotOpened(cause_of_kind(&metadata))),
        Err(error) => match has_nothing(files, path) {
            Ok(true) => Ok(true),
            Ok(false) => Err(KeepFault::NotOpened(open_cause(&error))),
            Err(error) => Err(KeepFault::NotOpened(open_cause(&error))),
        },
    }
}

/// Opens a file and locks it.
fn open_locked<'a, R: Files<File = File> + AllocGlobal>(
    files: &'a R,
    path: &str,
    is_new: bool,
) -> Result<(DiskFile<'a, R>, Plain<File>), KeepFault>
    ensures { IfOk result (λ kept. (kept.0.fault ≡ None) × (failed_of kept.1 ≡ false)) }
{
    let open_result = OpenOptions::new()
        .read(true)
        .append(true)
        .create(true)
        .open(files, path);
    let file = match open_result {
        Ok(file) => file,
        Err(error) => return Err(KeepFault::NotOpened(make_cause(&error))),
    };
    match settle(files, path, &file) {
        Ok(settled_file) => Ok(kept_file(files, file, settled_file)),
        Err(fault) => {
            if is_new && matches!(fault, KeepFault::NotOpened(_)) {
                remove_made(files, path, &file);
            }
            Err(fault)
        }
    }
}

/// What is found out about a file before it is kept.
#[derive(Drop)]
struct SettledFile {
    /// The path that it was opened by.
    path: String,
    /// How many bytes it contains.
    length: u64,
    /// What reads it.
    source: Plain<File>,
}

/// Locks a file, and finds out what must be known before it is kept.
fn settle<R: Files<File = File> + AllocGlobal>(
    files: &R,
    path: &str,
    file: &File,
) -> Result<SettledFile, KeepFault>
    ensures { IfOk result (λ settled_file. failed_of settled_file.source ≡ false) }
{
    lock(file)?;
    match settle_locked(files, path, file) {
        Ok(Some(settled_file)) => Ok(settled_file),
        Ok(None) => Err(KeepFault::NotOpened(OpenFailed::Other)),
        Err(error) => Err(KeepFault::NotOpened(open_cause(&error))),
    }
}

/// Returns what is found out about a file that was locked, if it is the one at its path, and no
/// other was put there meanwhile. What it contains and its name are on the disk then, since the run
/// that wrote it may have ended before that.
fn settle_locked<R: Files<File = File> + AllocGlobal>(
    files: &R,
    path: &str,
    file: &File,
) -> io::Result<Option<SettledFile>>
    ensures { IfOk result (λ found. IfSome found (λ settled_file.
        failed_of settled_file.source ≡ false)) }
{
    let metadata = file.metadata()?;
    if !metadata.is_file() || !is_at(files, path, file)? {
        return Ok(None);
    }
    file.sync_all()?;
    sync_name(files, path)?;
    Ok(Some(SettledFile {
        path: String::from_str(files.alloc(), path)?,
        length: metadata.len(),
        source: Plain::new(file.try_clone()?),
    }))
}

/// Removes a file that was made, if it is the one at its path and is empty.
fn remove_made(files: &impl Files, path: &str, file: &File) {
    let is_empty = file.metadata().is_ok_and(|metadata| metadata.len() == 0);
    if is_empty && matches!(is_at(files, path, file), Ok(true)) {
        let _ = fs::remove_file(files, path);
    }
}

/// Returns a file that was settled, and what reads it.
fn kept_file<'a, R: Files<File = File>>(
    files: &'a R,
    file: File,
    settled_file: SettledFile,
) -> (DiskFile<'a, R>, Plain<File>)
    ensures fault { result.0.fault ≡ None }
    ensures source { result.1 ≡ settled_file.source }
{
    let keeper = DiskFile {
        files,
        path: settled_file.path,
        file,
        length: settled_file.length,
        fault: None,
    };
    (keeper, settled_file.source)
}
