//! A folder in memory, in which each case runs.
use crate::kept_file::MemoryFile;
use osn_folder::{
    ChangeCause, ChangeFailed, Folder, FollowFault, FollowedFile, KeepFault, MoveFault, OpenFailed,
    SaveFault,
};
use osn_lines::{Plain, ended_length};
use std::alloc::{AllocError, Global};
use std::collections::BTreeMap;
use std::io::Cursor;

/// Files by their names. It has no folders: no file is found at a path with a `/`.
#[derive(Drop)]
pub(crate) struct MemoryFolder {
    alloc: Global,
    files: BTreeMap<String, Vec<u8>>,
}

/// The lock of a file in memory, which no one else has.
#[derive(Drop)]
pub(crate) struct MemoryLock;

/// Lines that another run appended to a file before this run began.
#[derive(Drop)]
pub(crate) struct MemoryFollowed {
    lines: Vec<u8>,
}

impl MemoryFolder {
    /// Returns a folder without files.
    pub(crate) fn new(alloc: Global) -> MemoryFolder {
        MemoryFolder {
            alloc,
            files: BTreeMap::new(alloc),
        }
    }

    /// Returns the contents of the file of this name, if it is there.
    pub(crate) fn contents(&self, name: &str) -> Option<&[u8]> {
        self.files.get(name).map(|contents| contents.as_slice())
    }

    /// Returns the names of the files, in order.
    pub(crate) fn names(&self) -> Result<Vec<u8>, AllocError> {
        let mut names = Vec::new(self.alloc);
        for (name, _) in self.files.iter() {
            names.extend_from_slice(name.as_bytes())?;
            names.push(b'\n')?;
        }
        Ok(names)
    }

    /// Makes a file of this name, which replaces one that is there.
    pub(crate) fn put(&mut self, name: &str, contents: &[u8]) -> Result<(), AllocError> {
        let name = String::from_str(self.alloc, name)?;
        let contents = Vec::from_slice(self.alloc, contents)?;
        self.files.insert(name, contents)?;
        Ok(())
    }

    /// Makes a file at a path that a run names, which replaces one that is there.
    fn write(&mut self, path: &str, contents: &[u8]) -> Result<(), ChangeFailed> {
        if path.contains('/') {
            return Err(ChangeFailed);
        }
        self.put(path, contents).map_err(|_| ChangeFailed)
    }
}

impl FollowedFile for MemoryFollowed {
    ghost use Rattle.std.specs.Prelude.{None};

    ghost contents = { λ _. None };

    fn look(&mut self, alloc: Global) -> Result<Vec<u8>, FollowFault> {
        let lines = &self.lines[..ended_length(&self.lines)];
        if lines.len() > 1_073_741_824 {
            return Err(FollowFault::NotRead(OpenFailed::Other));
        }
        let bytes = Vec::from_slice(alloc, lines)?;
        self.lines.clear();
        Ok(bytes)
    }
}

impl Folder for MemoryFolder {
    type File = Plain<Cursor<Vec<u8>>>;

    type Keeper = MemoryFile;

    type Lock = MemoryLock;

    type Followed = MemoryFollowed;

    ghost use Rattle.std.specs.Prelude.{None};

    ghost known = { λ _. None };

    fn open(&mut self, path: &str) -> Result<Plain<Cursor<Vec<u8>>>, OpenFailed> {
        let contents = self.contents(path).ok_or(cause_at(path))?;
        match Vec::from_slice(self.alloc, contents) {
            Ok(contents) => Ok(Plain::new(Cursor::new(contents))),
            Err(_) => Err(OpenFailed::Other),
        }
    }

    fn keep(&mut self, path: &str) -> Result<(MemoryFile, Plain<Cursor<Vec<u8>>>), KeepFault> {
        let Ok((kept, contents)) = MemoryFile::of(self.alloc, self.contents(path).unwrap_or(b""))
        else {
            return Err(KeepFault::NotOpened(OpenFailed::Other));
        };
        match self.write(path, &contents) {
            Ok(()) => Ok((kept, Plain::new(Cursor::new(contents)))),
            Err(_) => Err(KeepFault::NotOpened(make_cause_at(path))),
        }
    }

    fn release(&mut self, path: &str, keeper: MemoryFile) {
        let _ = self.write(path, keeper.contents());
    }

    fn follow(&mut self, alloc: Global, path: &str) -> Result<MemoryFollowed, AllocError> {
        let contents = self.contents(path).unwrap_or(b"");
        Ok(MemoryFollowed {
            lines: Vec::from_slice(alloc, contents)?,
        })
    }

    fn lock_to_save(&mut self, _path: &str) -> Result<MemoryLock, KeepFault> {
        Ok(MemoryLock)
    }

    fn place(&mut self, alloc: Global, path: &str) -> Result<String, SaveFault> {
        Ok(String::from_str(alloc, path)?)
    }

    fn is_stream(&self, _path: &str) -> bool {
        false
    }

    fn write_stream(&mut self, path: &str, text: &str) -> Result<(), ChangeFailed> {
        self.write(path, text.as_bytes())
    }

    fn write_beside(
        &mut self,
        alloc: Global,
        place: &str,
        text: &str,
    ) -> Result<String, SaveFault> {
        let path = format!(in alloc; "{place}.unfinished")?;
        match self.write(path.as_str(), text.as_bytes()) {
            Ok(()) => Ok(path),
            Err(_) => Err(SaveFault::WriteFault(change_cause_at(place))),
        }
    }

    fn back_up(&mut self, alloc: Global, place: &str) -> Result<String, SaveFault> {
        let contents = Vec::from_slice(alloc, self.contents(place).unwrap_or(b""))?;
        for number in 1..u32::MAX {
            let path = format!(in alloc; "{place}.~{number}~")?;
            if self.contents(path.as_str()).is_none() {
                self.write(path.as_str(), &contents)?;
                return Ok(path);
            }
        }
        Err(SaveFault::WriteFault(ChangeCause::Other))
    }

    fn holds(
        &mut self,
        _lock: &MemoryLock,
        place: &str,
        bytes: &[u8],
    ) -> Result<bool, ChangeFailed> {
        Ok(self.contents(place) == Some(bytes))
    }

    fn replace(&mut self, _lock: MemoryLock, from: &str, place: &str) -> Result<(), MoveFault> {
        match self.files.remove(from) {
            Some(contents) => Ok(self.write(place, &contents)?),
            None => Err(MoveFault::Failed),
        }
    }

    fn sync_name(&mut self, _path: &str) -> Result<(), ChangeFailed> {
        Ok(())
    }

    fn remove(&mut self, path: &str) {
        self.files.remove(path);
    }
}

/// Returns why nothing is opened at a path without a file. In the folder `private` nothing may be
/// read, in the folder `broken` the system fails, and a path `PATH/` is a folder.
fn cause_at(path: &str) -> OpenFailed {
    if path.ends_with('/') {
        OpenFailed::IsDirectory
    } else if path.starts_with("private/") {
        OpenFailed::PermissionDenied
    } else if path.starts_with("broken/") {
        OpenFailed::Other
    } else {
        OpenFailed::NotFound
    }
}

/// Returns why no file is made at a path to be kept.
fn make_cause_at(path: &str) -> OpenFailed {
    match cause_at(path) {
        OpenFailed::NotFound => OpenFailed::NoFolder,
        cause => cause,
    }
}

/// Returns why no text is written at a path. In the folder `full` no space is left.
fn change_cause_at(path: &str) -> ChangeCause {
    if path.starts_with("full/") {
        ChangeCause::NoSpace
    } else {
        ChangeCause::NoFolder
    }
}
