//! Which file of the disk is at a path.

use crate::cause::change_cause;
use crate::fault::{ChangeCause, SaveFault};
use std::alloc::{AllocError, Global};
use std::fs::{File, Metadata, OpenOptions};
use std::io::{ErrorKind, Write};
use std::os::unix::fs::MetadataExt;
use std::rt::Files;
use std::{fs, io};

/// How many names are tried for a file beside a place.
pub(crate) const MOST_NAMES: u32 = 1_000;

/// Returns whether nothing is at a path, not even a link.
pub(crate) fn has_nothing(files: &impl Files, path: &str) -> io::Result<bool> {
    match fs::symlink_metadata(files, path) {
        Ok(_) => Ok(false),
        Err(error) if error.kind() == ErrorKind::NotFound => Ok(true),
        Err(error) => Err(error),
    }
}

/// Returns whether an open file is this one.
pub(crate) fn is_same(file: &File, metadata: &Metadata) -> io::Result<bool> {
    let open_metadata = file.metadata()?;
    Ok(open_metadata.dev() == metadata.dev() && open_metadata.ino() == metadata.ino())
}

/// Makes sure that the names in the folder of a file are on the disk.
pub(crate) fn sync_name<R: Files<File = File> + AllocGlobal>(
    files: &R,
    path: &str,
) -> io::Result<()> {
    let place = fs::canonicalize(files, path)?;
    match place.parent() {
        Some(folder) => fs::open(files, folder)?.sync_all(),
        None => Ok(()),
    }
}

/// Returns the name of a file beside a place, by which of the names it is, from 1 on.
fn name_beside(alloc: Global, place: &str, number: u32) -> Result<String, AllocError> {
    if number == 1 {
        format!(in alloc; "{place}.unfinished")
    } else {
        format!(in alloc; "{place}.unfinished-{number}")
    }
}

/// Writes a text to a new file beside a place, with the permissions of the file at the place, and
/// waits until it is on the disk. Returns its path.
pub(crate) fn write_new<R: Files<File = File>>(
    files: &R,
    alloc: Global,
    place: &str,
    text: &str,
) -> Result<String, SaveFault> {
    for index in 0..MOST_NAMES {
        let path = name_beside(alloc, place, index + 1)?;
        let file = OpenOptions::new()
            .write(true)
            .create_new(true)
            .open(files, path.as_str());
        match file {
            Ok(file) => {
                write_made(files, file, path.as_str(), place, text)?;
                return Ok(path);
            }
            Err(error) if error.kind() == ErrorKind::AlreadyExists => {}
            Err(error) => return Err(SaveFault::WriteFault(change_cause(&error))),
        }
    }
    Err(SaveFault::WriteFault(ChangeCause::Other))
}

/// Writes a text to a file that was made, which is removed again if that fails.
fn write_made(
    files: &impl Files,
    file: File,
    path: &str,
    place: &str,
    text: &str,
) -> Result<(), SaveFault> {
    match write_synced(files, file, place, text) {
        Ok(()) => Ok(()),
        Err(error) => {
            let _ = fs::remove_file(files, path);
            Err(SaveFault::WriteFault(change_cause(&error)))
        }
    }
}

/// Writes a file, with the permissions of another one if there is one, and waits until it is on the
/// disk.
fn write_synced(files: &impl Files, mut file: File, other: &str, text: &str) -> io::Result<()> {
    match fs::metadata(files, other) {
        Ok(old) => file.set_permissions(old.permissions())?,
        Err(error) if error.kind() == ErrorKind::NotFound => {}
        Err(error) => return Err(error),
    }
    file.write_all(text.as_bytes())?;
    file.sync_all()
}
