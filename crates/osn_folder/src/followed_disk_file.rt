//! A file of the disk that another run appends to.
ghost use Rattle.std.specs.Prelude.{◌<◌, IfOk, length};
ghost use Rattle.osn_folder.specs.FollowedFile.{IsOfWholeLines};

use crate::cause::{cause_of_kind, open_cause};
use crate::fault::FollowFault;
use crate::followed_file::FollowedFile;
use osn_lines::ended_length;
use std::alloc::Global;
use std::fs::{File, Metadata};
use std::io::ErrorKind;
use std::os::unix::fs::{FileExt, MetadataExt};
use std::rt::Files;
use std::{fs, io};

/// The most bytes that are read at a look.
const MOST_BYTES: u64 = 1 << 30;

/// A file that was found.
#[derive(Drop)]
struct FoundFile {
    file: File,
    /// The numbers by which the system knows it.
    device: u64,
    inode: u64,
}

/// A file of the disk that another run appends to, by its path.
#[derive(Drop)]
pub struct FollowedDiskFile<'a, R> {
    files: &'a R,
    path: String,
    /// The file, once one was at the path.
    current: Option<FoundFile>,
    /// How many bytes the lines have that were read.
    length: u64,
}

/// Returns why a file could not be read.
fn read_fault(error: &io::Error) -> FollowFault {
    match error.kind() {
        ErrorKind::NotFound => FollowFault::Replaced,
        ErrorKind::OutOfMemory => FollowFault::NoMemory,
        _ => FollowFault::NotRead(open_cause(error)),
    }
}

/// Reads from a place up to the end of the file or of the buffer, and returns how many bytes came.
///
/// The file may have become shorter since its length was asked, if its last line was cut off.
fn read_on(file: &File, buffer: &mut [u8], offset: u64) -> io::Result<usize> {
    let mut count = 0;
    for _call in 0..u32::MAX {
        match file.read_at(&mut buffer[count..], offset.saturating_add(count as u64)) {
            Ok(0) => break,
            Ok(n) => count += n,
            Err(error) if error.kind() == ErrorKind::Interrupted => {}
            Err(error) => return Err(error),
        }
    }
    Ok(count)
}

impl<'a, R: Files<File = File>> FollowedDiskFile<'a, R> {
    /// Returns the file of a path, of which nothing was read yet.
    pub(crate) fn new(files: &'a R, path: String) -> FollowedDiskFile<'a, R> {
        FollowedDiskFile {
            files,
            path,
            current: None,
            length: 0,
        }
    }

    /// Opens the file that was found at the path.
    fn open(&self) -> io::Result<FoundFile> {
        let file = fs::open(self.files, self.path.as_str())?;
        let metadata = file.metadata()?;
        Ok(FoundFile {
            file,
            device: metadata.dev(),
            inode: metadata.ino(),
        })
    }

    /// Returns how long the file is that is at the path, once one is.
    fn find(&mut self) -> Result<Option<u64>, FollowFault> {
        match fs::metadata(self.files, self.path.as_str()) {
            Ok(metadata) => {
                self.check(&metadata)?;
                Ok(Some(metadata.len()))
            }
            Err(error) if error.kind() == ErrorKind::NotFound && self.current.is_none() => Ok(None),
            Err(error) => Err(read_fault(&error)),
        }
    }

    /// Checks that what is at the path is the file that was found first, and has grown if anything.
    fn check(&mut self, metadata: &Metadata) -> Result<(), FollowFault> {
        if !metadata.is_file() {
            return Err(FollowFault::NotRead(cause_of_kind(metadata)));
        }
        match &self.current {
            Some(file) if file.device != metadata.dev() || file.inode != metadata.ino() => {
                Err(FollowFault::Replaced)
            }
            Some(_) if metadata.len() < self.length => Err(FollowFault::Shorter),
            Some(_) => Ok(()),
            None => match self.open() {
                Ok(file) => {
                    self.current = Some(file);
                    Ok(())
                }
                Err(error) => Err(read_fault(&error)),
            },
        }
    }

    /// Returns the lines that end between what was read and this place.
    fn read_lines(&mut self, alloc: Global, end: u64) -> Result<Vec<u8>, FollowFault>
        ensures lines { IfOk result (λ bytes. IsOfWholeLines bytes.items) }
        ensures few { IfOk result (λ bytes. length bytes.items < 4294967295) }
    {
        let Some(current) = &self.current else {
            return Ok(Vec::new(alloc));
        };
        let size = end.saturating_sub(self.length).min(MOST_BYTES);
        let mut bytes = vec![in alloc; 0u8; size as usize]?;
        match read_on(&current.file, &mut bytes, self.length) {
            Ok(count) => {
                bytes.truncate(count);
                let whole_length = ended_length(&bytes);
                bytes.truncate(whole_length);
                self.length = self.length.saturating_add(whole_length as u64);
                Ok(bytes)
            }
            Err(error) => Err(read_fault(&error)),
        }
    }
}

impl<R: Files<File = File>> FollowedFile for FollowedDiskFile<'_, R> {
    ghost use Rattle.std.specs.Prelude.{None};

    ghost contents = { λ _. None };

    fn look(&mut self, alloc: Global) -> Result<Vec<u8>, FollowFault> {
        match self.find()? {
            Some(end) if end != self.length => self.read_lines(alloc, end),
            _ => Ok(Vec::new(alloc)),
        }
    }
}
