//! The files of the disk.
ghost use Rattle.std.specs.Prelude.{None};

use crate::cause::{change_cause, open_cause};
use crate::disk_backup::back_up;
use crate::disk_file::{DiskFile, keep_file};
use crate::disk_lock::{DiskLock, holds_bytes, lock_file, move_locked};
use crate::disk_names::{sync_name, write_new};
use crate::fault::{ChangeFailed, KeepFault, MoveFault, OpenFailed, SaveFault};
use crate::folder::Folder;
use crate::followed_disk_file::FollowedDiskFile;
use osn_lines::Plain;
use std::alloc::{AllocError, Global};
use std::fs::File;
use std::io::ErrorKind;
use std::rt::Files;
use std::{fs, io};

/// The files of the system. What they contain is not known beforehand.
#[derive(Debug, Drop)]
pub struct Disk<'a, R> {
    files: &'a R,
}

impl<'a, R> Disk<'a, R> {
    /// Returns the files that a runtime finds.
    pub fn new(files: &'a R) -> Disk<'a, R> {
        Disk { files }
    }
}

impl<'a, R: Files<File = File> + AllocGlobal> Folder for Disk<'a, R> {
    type File = Plain<File>;

    type Keeper = DiskFile<'a, R>;

    type Lock = DiskLock;

    type Followed = FollowedDiskFile<'a, R>;

    ghost known = { λ _. None };

    fn open(&mut self, path: &str) -> Result<Plain<File>, OpenFailed> {
        let file = match fs::open(self.files, path) {
            Ok(file) => file,
            Err(error) => return Err(open_cause(&error)),
        };
        if file.metadata().is_ok_and(|metadata| metadata.is_dir()) {
            return Err(OpenFailed::IsDirectory);
        }
        Ok(Plain::new(file))
    }

    fn keep(&mut self, path: &str) -> Result<(DiskFile<'a, R>, Plain<File>), KeepFault> {
        keep_file(self.files, path)
    }

    // The lock is released with the file.
    fn release(&mut self, _path: &str, _keeper: DiskFile<'a, R>) {}

    fn follow(&mut self, alloc: Global, path: &str) -> Result<FollowedDiskFile<'a, R>, AllocError> {
        let path = String::from_str(alloc, path)?;
        Ok(FollowedDiskFile::new(self.files, path))
    }

    fn lock_to_save(&mut self, path: &str) -> Result<DiskLock, KeepFault> {
        lock_file(self.files, path)
    }

    fn place(&mut self, alloc: Global, path: &str) -> Result<String, SaveFault> {
        if fs::symlink_metadata(self.files, path).is_ok_and(|metadata| metadata.is_file()) {
            return Ok(String::from_str(alloc, path)?);
        }
        match fs::canonicalize(self.files, path) {
            Ok(place) => Ok(place.into_string()),
            Err(error) if error.kind() == ErrorKind::NotFound => {
                leads_somewhere(self.files, path)?;
                Ok(String::from_str(alloc, path)?)
            }
            Err(error) => Err(place_fault(&error)),
        }
    }

    fn is_stream(&self, path: &str) -> bool {
        fs::metadata(self.files, path).is_ok_and(|metadata| !metadata.is_file())
    }

    fn write_stream(&mut self, path: &str, text: &str) -> Result<(), ChangeFailed> {
        match fs::write(self.files, path, text) {
            Ok(()) => Ok(()),
            Err(_) => Err(ChangeFailed),
        }
    }

    fn write_beside(
        &mut self,
        alloc: Global,
        place: &str,
        text: &str,
    ) -> Result<String, SaveFault> {
        write_new(self.files, alloc, place, text)
    }

    fn back_up(&mut self, alloc: Global, place: &str) -> Result<String, SaveFault> {
        back_up(self.files, alloc, place)
    }

    fn holds(&mut self, lock: &DiskLock, _place: &str, bytes: &[u8]) -> Result<bool, ChangeFailed> {
        holds_bytes(lock, bytes)
    }

    fn replace(&mut self, lock: DiskLock, from: &str, place: &str) -> Result<(), MoveFault> {
        move_locked(self.files, lock, from, place)
    }

    fn sync_name(&mut self, path: &str) -> Result<(), ChangeFailed> {
        match sync_name(self.files, path) {
            Ok(()) => Ok(()),
            Err(_) => Err(ChangeFailed),
        }
    }

    fn remove(&mut self, path: &str) {
        let _ = fs::remove_file(self.files, path);
    }
}

/// Returns why it is not known which place a path leads to.
fn place_fault(error: &io::Error) -> SaveFault {
    match error.kind() {
        ErrorKind::OutOfMemory => SaveFault::NoMemory,
        _ => SaveFault::WriteFault(change_cause(error)),
    }
}

/// Checks that a path which has no place of its own, such as that of an open pipe, is not a link
/// that leads nowhere.
fn leads_somewhere(files: &impl Files, path: &str) -> Result<(), SaveFault> {
    let metadata = match fs::symlink_metadata(files, path) {
        Ok(_) => fs::metadata(files, path),
        Err(error) if error.kind() == ErrorKind::NotFound => return Ok(()),
        Err(error) => Err(error),
    };
    match metadata {
        Ok(_) => Ok(()),
        Err(error) => Err(place_fault(&error)),
    }
}
