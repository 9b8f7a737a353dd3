//! Files by their paths: those that are read, those that are kept, and those that a text is saved
//! to.
ghost use Rattle.std.specs.Prelude.{◌≡◌, ◌∷◌, [], Option, Some, None, IfOk, IfErr};
ghost use Rattle.std.specs.Prelude.{IfSome, OnOk, OnErr, false, string_bytes};
ghost use Rattle.osn_folder.specs.Folder.{FolderModel, Changes, Stays, Fails, IsFileOf, HasNoFile};
ghost use Rattle.osn_folder.specs.Folder.{Opens};
ghost use Rattle.osn_folder.specs.Folder.{IsCauseAt};
ghost use Rattle.osn_folder.specs.Folder.{Becomes, IsKeptAt, Keeps, CannotKeep};
ghost use Rattle.osn_folder.specs.Folder.{Leaves};
ghost use Rattle.osn_folder.specs.Folder.{Locks, CannotLock, IsPlaceOf, LeavesAll, WritesBeside};
ghost use Rattle.osn_folder.specs.Folder.{Compares, Moves, CannotMove, Spoils, Syncs};
ghost use Rattle.osn_folder.specs.Crash.{LeavesSafe, LeavesAllSafe, LeavesOthersSafe};
ghost use Rattle.osn_folder.specs.Crash.{WritesWhole, MovesWhole, SyncsName, BacksUpSafely};
ghost use Rattle.osn_folder.specs.Crash.{AllStaySure, OthersOfTwoStaySure};

use crate::fault::{ChangeFailed, KeepFault, MoveFault, OpenFailed, SaveFault};
use crate::followed_file::FollowedFile;
use crate::kept_file::KeptFile;
use osn_lines::Source;
use std::alloc::{AllocError, Global};

/// Finds files by their paths.
pub trait Folder {
    /// A file that is open to be read.
    type File: Source + Drop;

    /// A file that is kept. No other run keeps it or saves to it before it is dropped.
    type Keeper: KeptFile + Drop;

    /// The lock of a file that a text will be saved to. No other run keeps the file or saves to it
    /// before the lock is dropped.
    type Lock: Drop;

    /// A file that another run appends to.
    type Followed: FollowedFile + Drop;

    // What its files contain, and which were opened, if that is known.
    ghost known: { Self → Option FolderModel };

    /// Opens a file, to be read from its first byte on.
    ///
    /// # Errors
    ///
    /// Why it could not be opened, as the system says it.
    fn open(&mut self, path: &str) -> Result<Self::File, OpenFailed>
        ensures opened { Changes (Opens (path.now ∷ [])) (known self.old) (known self.new) }
        ensures file { IfOk result
            (λ file. IsFileOf (known self.old) path.now (Self.File.remaining file)) }
        ensures none { OnErr result (HasNoFile (known self.old) path.now) }
        ensures cause { IfErr result (IsCauseAt (known self.old) path.now) }
        ensures crash { Changes LeavesAllSafe (known self.old) (known self.new) };

    /// Opens a file to be kept. It is made if there is no file, and locked, so that no other run of
    /// the program keeps it or saves to it at the same time. What it contains is on the disk then,
    /// at its path, even if the run that wrote it ended before that. The second part of the result
    /// reads the same open file, from its first byte on, as long as the first part has not changed
    /// it.
    ///
    /// # Errors
    ///
    /// `Held` if another open of the file keeps it or saves to it, `NotOpened` if it can't be kept.
    fn keep(&mut self, path: &str) -> Result<(Self::Keeper, Self::File), KeepFault>
        ensures contents { IfOk result
            (λ kept. IsKeptAt (known self.old) path.now (Self.Keeper.contents kept.0)) }
        ensures source { IfOk result
            (λ kept. Self.File.remaining kept.1 ≡ Self.Keeper.contents kept.0) }
        ensures sound { IfOk result (λ kept. (Self.Keeper.fault kept.0 ≡ None)
            × (Self.File.has_failed kept.1 ≡ false)) }
        ensures disk { IfOk result
            (λ kept. Self.Keeper.synced kept.0 ≡ Self.Keeper.contents kept.0) }
        ensures ok { OnOk result (Changes (Keeps path.now) (known self.old) (known self.new)) }
        ensures err { IfErr result
            (λ why. Changes (CannotKeep path.now why) (known self.old) (known self.new)) };

    /// Releases a file that was kept, by its path: other runs may keep it from now on.
    fn release(&mut self, path: &str, keeper: Self::Keeper)
        ensures { Changes (Leaves path.now (Self.Keeper.contents keeper))
            (known self.old) (known self.new) };

    /// Returns the file of a path, to be read while another run appends to it. It need not be there
    /// yet.
    ///
    /// # Errors
    ///
    /// Only that memory ran out.
    fn follow(&mut self, alloc: Global, path: &str) -> Result<Self::Followed, AllocError>
        ensures { Changes Stays (known self.old) (known self.new) };

    /// Locks the file of a path, through links, to save a text to it later. If nothing is there,
    /// the lock notes that. What is not a file, such as a pipe, takes no lock.
    ///
    /// # Errors
    ///
    /// `Held` if another open of the file keeps it or saves to it, `NotOpened` if it can't be
    /// locked, or a link leads nowhere.
    fn lock_to_save(&mut self, path: &str) -> Result<Self::Lock, KeepFault>
        ensures ok { OnOk result (Changes (Locks path.now) (known self.old) (known self.new)) }
        ensures err { IfErr result
            (λ why. Changes (CannotLock path.now why) (known self.old) (known self.new)) };

    /// Returns the place that a path leads to, through links, or the path itself if nothing is
    /// there.
    ///
    /// # Errors
    ///
    /// `NoMemory` if memory ran out. `WriteFault` if it isn't known, or a link leads nowhere.
    fn place(&mut self, alloc: Global, path: &str) -> Result<String, SaveFault>
        ensures ok { IfOk result (λ place. Changes (IsPlaceOf path.now (string_bytes place))
            (known self.old) (known self.new)) }
        ensures err { IfErr result
            (λ why. Changes (LeavesAll why) (known self.old) (known self.new)) }
        ensures crash { Changes LeavesAllSafe (known self.old) (known self.new) };

    /// Returns whether something is there that is not a file, such as a pipe.
    fn is_stream(&self, path: &str) -> bool
        ensures { IfSome (known self.now) (λ k. result ≡ k.paths.is_stream path.now) };

    /// Writes a text to what is there and is not a file.
    fn write_stream(&mut self, path: &str, text: &str) -> Result<(), ChangeFailed>
        ensures ok { OnOk result
            (Changes (Becomes path.now (Some text.now)) (known self.old) (known self.new)) }
        ensures err { OnErr result (Changes (Spoils path.now) (known self.old) (known self.new)) };

    /// Writes a text to a new file beside a place, with the permissions of the file at the place,
    /// if one is there. Returns the path of the new file, once the text is on the disk.
    ///
    /// # Errors
    ///
    /// `NoMemory` if memory ran out, `WriteFault` if no file could be made or a write failed.
    /// Nothing is left beside the place then.
    fn write_beside(&mut self, alloc: Global, place: &str, text: &str) -> Result<String, SaveFault>
        ensures ok { IfOk result (λ path.
            Changes (WritesBeside place.now text.now (string_bytes path))
            (known self.old) (known self.new)) }
        ensures err { IfErr result
            (λ why. Changes (LeavesAll why) (known self.old) (known self.new)) }
        ensures whole { IfOk result (λ path. Changes (WritesWhole place.now (string_bytes path))
            (known self.old) (known self.new)) }
        ensures crash { OnErr result
            (Changes (LeavesSafe place.now) (known self.old) (known self.new)) }
        ensures sure { Changes AllStaySure (known self.old) (known self.new) };

    /// Leaves the file at a place at a new path beside it too: the place with `.~1~` after it, or
    /// `.~2~` and so on, the first at which nothing is. Returns that path, once what the file
    /// contains is on the disk there.
    ///
    /// # Errors
    ///
    /// `NoMemory` if memory ran out, `WriteFault` if that could not be made or is not sure. Nothing
    /// is left beside the place then.
    fn back_up(&mut self, alloc: Global, place: &str) -> Result<String, SaveFault>
        ensures ok { IfOk result (λ path.
            Changes (BacksUpSafely place.now (string_bytes path))
            (known self.old) (known self.new)) }
        ensures err { IfErr result
            (λ why. Changes (LeavesAll why) (known self.old) (known self.new)) }
        ensures crash { OnErr result
            (Changes (LeavesSafe place.now) (known self.old) (known self.new)) };

    /// Returns whether the file that is locked, at this place, contains exactly these bytes.
    fn holds(&mut self, lock: &Self::Lock, place: &str, bytes: &[u8]) -> Result<bool, ChangeFailed>
        ensures ok { IfOk result (λ same. Changes (Compares place.now bytes.now same)
            (known self.old) (known self.new)) }
        ensures err { OnErr result (Changes Fails (known self.old) (known self.new)) }
        ensures crash { Changes LeavesAllSafe (known self.old) (known self.new) };

    /// Puts a file at a place, if that still names the file that is locked, or still nothing if
    /// nothing was there. A reader finds the place as it was or as it is then.
    ///
    /// # Errors
    ///
    /// `Changed` if the place does not, `Failed` if the file could not be moved. Nothing is changed
    /// then.
    fn replace(&mut self, lock: Self::Lock, from: &str, place: &str) -> Result<(), MoveFault>
        ensures ok { OnOk result
            (Changes (Moves from.now place.now) (known self.old) (known self.new)) }
        ensures err { IfErr result
            (λ why. Changes (CannotMove place.now why) (known self.old) (known self.new)) }
        ensures whole { OnOk result
            (Changes (MovesWhole from.now place.now) (known self.old) (known self.new)) }
        ensures crash { OnErr result
            (Changes LeavesAllSafe (known self.old) (known self.new)) }
        ensures sure { Changes (OthersOfTwoStaySure from.now place.now)
            (known self.old) (known self.new) };

    /// Returns once it is on the disk which file is at a path.
    fn sync_name(&mut self, path: &str) -> Result<(), ChangeFailed>
        ensures ok { OnOk result (Changes Syncs (known self.old) (known self.new)) }
        ensures err { OnErr result (Changes Fails (known self.old) (known self.new)) }
        ensures name { OnOk result
            (Changes (SyncsName path.now) (known self.old) (known self.new)) }
        ensures crash { OnErr result
            (Changes LeavesAllSafe (known self.old) (known self.new)) }
        ensures sure { Changes AllStaySure (known self.old) (known self.new) };

    /// Removes a file, if it can.
    fn remove(&mut self, path: &str)
        ensures becomes { Changes (Becomes path.now None) (known self.old) (known self.new) }
        ensures crash { Changes (LeavesOthersSafe path.now) (known self.old) (known self.new) };
}
