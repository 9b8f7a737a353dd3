//! How a file of the disk is left at a second path, beside the place that another file takes.

use crate::cause::change_cause;
use crate::disk_names::{MOST_NAMES, sync_name};
use crate::fault::{ChangeCause, SaveFault};
use std::alloc::Global;
use std::fs::{File, OpenOptions};
use std::io::ErrorKind;
use std::rt::Files;
use std::{fs, io};

/// Leaves the file at a place at a new path beside it too, and waits until it is on the disk there.
/// Returns the path.
pub(crate) fn back_up<R: Files<File = File> + AllocGlobal>(
    files: &R,
    alloc: Global,
    place: &str,
) -> Result<String, SaveFault> {
    for index in 0..MOST_NAMES {
        let number = index + 1;
        let path = format!(in alloc; "{place}.~{number}~")?;
        match name_again(files, place, path.as_str()) {
            Ok(()) => {
                sync_made(files, path.as_str())?;
                return Ok(path);
            }
            Err(error) if error.kind() == ErrorKind::AlreadyExists => {}
            Err(error) => return Err(SaveFault::WriteFault(change_cause(&error))),
        }
    }
    Err(SaveFault::WriteFault(ChangeCause::Other))
}

/// Gives a file a second name, at which nothing is. A file system that has no second names gets a
/// copy of the file.
fn name_again(files: &impl Files<File = File>, place: &str, path: &str) -> io::Result<()> {
    match fs::hard_link(files, place, path) {
        Ok(()) => Ok(()),
        Err(error) if error.kind() == ErrorKind::AlreadyExists => Err(error),
        Err(_) => copy_new(files, place, path),
    }
}

/// Copies a file, with its permissions, to a path at which nothing is.
fn copy_new(files: &impl Files<File = File>, place: &str, path: &str) -> io::Result<()> {
    OpenOptions::new()
        .write(true)
        .create_new(true)
        .open(files, path)?;
    match fs::copy(files, place, path) {
        Ok(_) => Ok(()),
        Err(error) => {
            let _ = fs::remove_file(files, path);
            Err(error)
        }
    }
}

/// Waits until a file that was made, and its name, are on the disk. It is removed again if that
/// fails.
fn sync_made<R: Files<File = File> + AllocGlobal>(files: &R, path: &str) -> Result<(), SaveFault> {
    match sync_file(files, path) {
        Ok(()) => Ok(()),
        Err(error) => {
            let _ = fs::remove_file(files, path);
            Err(SaveFault::WriteFault(change_cause(&error)))
        }
    }
}

fn sync_file<R: Files<File = File> + AllocGlobal>(files: &R, path: &str) -> io::Result<()> {
    fs::open(files, path)?.sync_all()?;
    sync_name(files, path)
}
