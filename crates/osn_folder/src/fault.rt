//! Why a file was not opened, changed or saved.
ghost use Rattle.std.specs.Prelude.{◌≡◌};
ghost use Rattle.osn_folder.specs.declared.fault.FollowFault.{FollowFault};
ghost use Rattle.osn_folder.specs.declared.fault.MoveFault.{MoveFault};
ghost use Rattle.osn_folder.specs.declared.fault.SaveFault.{SaveFault};

use std::alloc::AllocError;

/// Why a file could not be opened, as the system says it.
#[derive(Clone, Copy, Debug, PartialEq, Eq)]
pub enum OpenFailed {
    /// Nothing is at its path.
    NotFound,
    /// The folder of its path is not there, in which the file would be made.
    NoFolder,
    /// The system doesn't permit the program to read it.
    PermissionDenied,
    /// It is a directory.
    IsDirectory,
    /// Any other cause.
    Other,
}

/// A file that could not be opened, and why.
#[derive(Clone, Copy, Debug, PartialEq, Eq)]
pub struct OpenFailure<'a> {
    /// Its path.
    pub path: &'a str,
    /// Why it could not be opened.
    pub cause: OpenFailed,
}

/// Why a file could not be made or changed, as the system says it.
#[derive(Clone, Copy, Debug, PartialEq, Eq)]
pub enum ChangeCause {
    /// The folder of its path is not there.
    NoFolder,
    /// The system doesn't permit the program to write there.
    PermissionDenied,
    /// No space is left on the device, or within the user's quota.
    NoSpace,
    /// Any other cause.
    Other,
}

/// A file that could not be written, compared or moved.
#[derive(Clone, Copy, Debug, PartialEq, Eq)]
pub struct ChangeFailed;

/// Why a file is not kept, or not locked to be saved to.
#[derive(Clone, Copy, Debug, PartialEq, Eq)]
pub enum KeepFault {
    /// Another open of the file keeps it, or saves to it.
    Held,
    /// It can't be opened, made or locked, or is not a file, such as a folder or a pipe.
    NotOpened(OpenFailed),
}

/// Why a file that is kept was not changed, or is not sure to be on the disk.
#[derive(Clone, Copy, Debug, PartialEq, Eq)]
pub enum KeptFileFault {
    /// A write, a cut or a sync failed.
    ChangeFailed(ChangeCause),
    /// Its path names another file now, or none, or someone else has cut it or added to it.
    Replaced,
}

/// Why it isn't known what a file that is followed has gained.
#[derive(Clone, Copy, Debug, PartialEq, Eq)]
pub enum FollowFault {
    /// Memory ran out.
    NoMemory,
    /// It can't be opened or read, or is not a file, such as a folder or a pipe.
    NotRead(OpenFailed),
    /// It has fewer bytes than the lines that were read of it.
    Shorter,
    /// Its path names another file now, or none.
    Replaced,
}

/// Why a file was not put in the place of another.
#[derive(Clone, Copy, Debug, PartialEq, Eq)]
pub enum MoveFault {
    /// What is at the place is not what was there at first.
    Changed,
    /// The system failed.
    Failed,
}

/// Why it isn't sure that a text is saved.
#[derive(Debug, PartialEq, Eq, Drop)]
pub enum SaveFault {
    /// Memory ran out.
    NoMemory,
    /// The path leads nowhere that is known, or a write or a move failed. A file at the place is as
    /// it was.
    WriteFault(ChangeCause),
    /// The text is at the place, but a crash of the system may still undo that.
    NotSynced,
    /// What is at the place is not what was there at first, and is left as it is. The text is in a
    /// file beside it, of this path.
    Changed(String),
}

impl From<ChangeFailed> for MoveFault {
    ghost from_gives = { λ _ value. value ≡ MoveFault.Failed };

    fn from(_error: ChangeFailed) -> MoveFault {
        MoveFault::Failed
    }
}

impl From<ChangeFailed> for SaveFault {
    ghost use Rattle.osn_folder.specs.declared.fault.ChangeCause.{ChangeCause};

    ghost from_gives = { λ _ value. value ≡ SaveFault.WriteFault ChangeCause.Other };

    fn from(_error: ChangeFailed) -> SaveFault {
        SaveFault::WriteFault(ChangeCause::Other)
    }
}

impl From<AllocError> for SaveFault {
    ghost from_gives = { λ _ value. value ≡ SaveFault.NoMemory };

    fn from(_error: AllocError) -> SaveFault {
        SaveFault::NoMemory
    }
}

impl From<AllocError> for FollowFault {
    ghost from_gives = { λ _ value. value ≡ FollowFault.NoMemory };

    fn from(_error: AllocError) -> FollowFault {
        FollowFault::NoMemory
    }
}
