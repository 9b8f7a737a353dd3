//! The locks of files of the disk, and what is done under one to save a text.

use crate::cause::open_cause;
use crate::disk_names::{has_nothing, is_same};
use crate::fault::{ChangeFailed, KeepFault, MoveFault};
use std::fs::{File, OpenOptions, TryLockError};
use std::io::ErrorKind;
use std::os::unix::fs::FileExt;
use std::rt::Files;
use std::{fs, io};

/// The bytes that are compared at a time.
const PIECE: usize = 8_192;

/// The lock of a file, or of a path at which no file was.
#[derive(Drop)]
pub struct DiskLock {
    /// The file that is locked, if one was there.
    file: Option<File>,
}

/// Locks an open file.
pub(crate) fn lock(file: &File) -> Result<(), KeepFault> {
    match file.try_lock() {
        Ok(()) => Ok(()),
        Err(TryLockError::WouldBlock) => Err(KeepFault::Held),
        Err(TryLockError::Error(error)) => Err(KeepFault::NotOpened(open_cause(&error))),
    }
}

/// Locks the file of a path, through links, to save a text to it later.
pub(crate) fn lock_file<R: Files<File = File>>(
    files: &R,
    path: &str,
) -> Result<DiskLock, KeepFault> {
    match fs::metadata(files, path) {
        Ok(metadata) if metadata.is_file() => lock_found(files, path),
        Ok(_) => Ok(DiskLock { file: None }),
        Err(error) => match has_nothing(files, path) {
            Ok(true) => Ok(DiskLock { file: None }),
            Ok(false) => Err(KeepFault::NotOpened(open_cause(&error))),
            Err(error) => Err(KeepFault::NotOpened(open_cause(&error))),
        },
    }
}

/// Locks a file that is there, if it is still at its path then.
fn lock_found<R: Files<File = File>>(files: &R, path: &str) -> Result<DiskLock, KeepFault> {
    let file = match open_to_lock(files, path) {
        Ok(file) => file,
        Err(error) => return Err(KeepFault::NotOpened(open_cause(&error))),
    };
    lock(&file)?;
    match is_at(files, path, &file) {
        Ok(true) => Ok(DiskLock { file: Some(file) }),
        Ok(false) => Err(KeepFault::Held),
        Err(error) => Err(KeepFault::NotOpened(open_cause(&error))),
    }
}

/// Opens a file to lock it, and to be read. Some systems lock only what may be written.
fn open_to_lock<R: Files<File = File>>(files: &R, path: &str) -> io::Result<File> {
    match OpenOptions::new().read(true).append(true).open(files, path) {
        Ok(file) => Ok(file),
        Err(_) => fs::open(files, path),
    }
}

/// Returns whether a path, through links, still names an open file.
pub(crate) fn is_at(files: &impl Files, path: &str, file: &File) -> io::Result<bool> {
    match fs::metadata(files, path) {
        Ok(metadata) => is_same(file, &metadata),
        Err(error) if error.kind() == ErrorKind::NotFound => Ok(false),
        Err(error) => Err(error),
    }
}

/// Returns whether the file that is locked contains exactly these bytes. It does not if there was
/// no file.
pub(crate) fn holds_bytes(lock: &DiskLock, bytes: &[u8]) -> Result<bool, ChangeFailed> {
    match &lock.file {
        None => Ok(false),
        Some(file) => match has_bytes(file, bytes) {
            Ok(same) => Ok(same),
            Err(_) => Err(ChangeFailed),
        },
    }
}

/// Returns whether a file contains exactly these bytes, piece by piece.
fn has_bytes(file: &File, bytes: &[u8]) -> io::Result<bool> {
    let mut buffer = [0u8; PIECE];
    let mut rest = bytes;
    let mut offset = 0u64;
    for _call in 0..u64::MAX {
        let count = file.read_at(&mut buffer, offset)?;
        if count == 0 {
            return Ok(rest.is_empty());
        }
        match rest.strip_prefix(&buffer[..count]) {
            Some(after) => rest = after,
            None => return Ok(false),
        }
        offset = offset.saturating_add(count as u64);
    }
    Ok(false)
}

/// Puts a file at a place that still names the file that is locked, or still nothing.
pub(crate) fn move_locked(
    files: &impl Files,
    lock: DiskLock,
    from: &str,
    place: &str,
) -> Result<(), MoveFault> {
    match &lock.file {
        Some(file) => move_over(files, file, from, place),
        None => move_to_nothing(files, from, place),
    }
}

/// Puts a file in place of another, if that is still there.
fn move_over(files: &impl Files, file: &File, from: &str, place: &str) -> Result<(), MoveFault> {
    match is_at(files, place, file) {
        Ok(true) => rename(files, from, place),
        Ok(false) => Err(MoveFault::Changed),
        Err(_) => Err(MoveFault::Failed),
    }
}

fn rename(files: &impl Files, from: &str, place: &str) -> Result<(), MoveFault> {
    match fs::rename(files, from, place) {
        Ok(()) => Ok(()),
        Err(_) => Err(MoveFault::Failed),
    }
}

/// Puts a file at a path at which nothing is. A second name of the file is made there, which
/// replaces nothing, and the first is removed. A file system that has no second names gets the file
/// moved, after a look that nothing is there.
fn move_to_nothing(files: &impl Files, from: &str, place: &str) -> Result<(), MoveFault> {
    match fs::hard_link(files, from, place) {
        Ok(()) => {
            let _ = fs::remove_file(files, from);
            Ok(())
        }
        Err(error) if error.kind() == ErrorKind::AlreadyExists => Err(MoveFault::Changed),
        Err(_) => match has_nothing(files, place) {
            Ok(true) => rename(files, from, place),
            Ok(false) => Err(MoveFault::Changed),
            Err(_) => Err(MoveFault::Failed),
        },
    }
}
