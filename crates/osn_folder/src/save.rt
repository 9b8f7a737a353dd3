//! Saves a text in a file that was locked, whole or not at all.
ghost use Rattle.std.specs.Prelude.{◌≡◌, Some, IfErr, OnErr, OnOk, option_map};
ghost use Rattle.osn_folder.specs.Folder.{Changes, Fails, Saves, CannotSave};
ghost use Rattle.osn_folder.specs.Folder.{SavesAt, CannotSaveAt, Syncs};
ghost use Rattle.osn_folder.specs.Crash.{IsSafelySaved, CannotSafelySave, IsSafelySavedAt};
ghost use Rattle.osn_folder.specs.Crash.{IsSafelyLeftAt, IsSafelyLeft, LeavesText};
ghost use Rattle.osn_folder.specs.Crash.{LeavesAllSafe, MovesWhole, SyncsName, AllStaySure};
ghost use Rattle.osn_folder.specs.Crash.{OthersStaySure, OthersOfTwoStaySure};
ghost use Rattle.osn_folder.specs.Crash.{OthersOfFileStaySure};
ghost use Rattle.osn_folder.specs.FolderInside.{ReplacesAt, CannotReplaceAt, HoldsLoaded};
ghost use Rattle.osn_folder.specs.FolderInside.{MovesLoaded, CannotMoveLoaded};
ghost use Rattle.osn_folder.specs.declared.fault.SaveFault.{SaveFault};

use crate::fault::{ChangeCause, ChangeFailed, MoveFault, SaveFault};
use crate::folder::Folder;
use std::alloc::Global;

/// Puts a text in place of the file that was locked, which a reader finds as it was or as it is
/// then, and never in part. The text is written to a new file beside it first, with the permissions
/// of the one that it replaces. A link stays one, and one that leads nowhere takes nothing. What is
/// not a file, such as a pipe, is written as it is.
///
/// If `loaded_bytes` is given, the file must contain exactly these bytes.
///
/// # Errors
///
/// `NoMemory` if memory ran out, `WriteFault` if a step failed. The file is as it was then, and
/// nothing is left beside it. `NotSynced` if the text is there, and it isn't sure that this is on
/// the disk. `Changed` if the path leads to another file now, or to a file and nothing was there
/// before, or if the file contains other bytes than those that are given. All is left as it is
/// then, and the text is in the file beside it.
pub fn save_file<D: Folder>(
    folder: &mut D,
    alloc: Global,
    lock: D::Lock,
    path: &str,
    loaded_bytes: Option<&[u8]>,
    text: &str,
) -> Result<(), SaveFault>
    ensures ok { OnOk result
        (Changes (Saves path.now (option_map (λ bytes. bytes.now) loaded_bytes.entry) text.now)
        (D.known folder.old) (D.known folder.new)) }
    ensures err { IfErr result (λ why.
        Changes (CannotSave path.now (option_map (λ bytes. bytes.now) loaded_bytes.entry) text.now
        why)
        (D.known folder.old) (D.known folder.new)) }
    ensures safe { OnOk result (Changes (IsSafelySaved path.now text.now)
        (D.known folder.old) (D.known folder.new)) }
    ensures crash { IfErr result (λ why. Changes (CannotSafelySave path.now text.now why)
        (D.known folder.old) (D.known folder.new)) }
{
    let place = folder.place(alloc, path)?;
    save_at(folder, alloc, lock, place.as_str(), loaded_bytes, text)
}

/// Puts a text in place of what is at a path that is not a link.
pub(crate) fn save_at<D: Folder>(
    folder: &mut D,
    alloc: Global,
    lock: D::Lock,
    place: &str,
    loaded_bytes: Option<&[u8]>,
    text: &str,
) -> Result<(), SaveFault>
    ensures ok { OnOk result
        (Changes (SavesAt place.now (option_map (λ bytes. bytes.now) loaded_bytes.entry) text.now)
        (D.known folder.old) (D.known folder.new)) }
    ensures err { IfErr result (λ why. Changes (CannotSaveAt place.now
        (option_map (λ bytes. bytes.now) loaded_bytes.entry) text.now why)
        (D.known folder.old) (D.known folder.new)) }
    ensures safe { OnOk result (Changes (IsSafelySavedAt place.now text.now)
        (D.known folder.old) (D.known folder.new)) }
    ensures crash { IfErr result (λ why. Changes (IsSafelyLeftAt place.now text.now why)
        (D.known folder.old) (D.known folder.new)) }
    ensures sure { Changes (OthersOfFileStaySure place.now)
        (D.known folder.old) (D.known folder.new) }
{
    if folder.is_stream(place) {
        Ok(folder.write_stream(place, text)?)
    } else {
        save_as_file(folder, alloc, lock, place, loaded_bytes, text)
    }
}

/// Puts a text in place of a file, by one beside it.
fn save_as_file<D: Folder>(
    folder: &mut D,
    alloc: Global,
    lock: D::Lock,
    place: &str,
    loaded_bytes: Option<&[u8]>,
    text: &str,
) -> Result<(), SaveFault>
    ensures ok { OnOk result
        (Changes (ReplacesAt place.now (option_map (λ bytes. bytes.now) loaded_bytes.entry)
        text.now)
        (D.known folder.old) (D.known folder.new)) }
    ensures err { IfErr result (λ why. Changes (CannotReplaceAt place.now
        (option_map (λ bytes. bytes.now) loaded_bytes.entry) text.now why)
        (D.known folder.old) (D.known folder.new)) }
    ensures safe { OnOk result (Changes (LeavesText place.now text.now)
        (D.known folder.old) (D.known folder.new)) }
    ensures crash { IfErr result (λ why. Changes (IsSafelyLeft place.now text.now why)
        (D.known folder.old) (D.known folder.new)) }
    ensures sure { Changes (OthersStaySure place.now) (D.known folder.old) (D.known folder.new) }
{
    let beside = folder.write_beside(alloc, place, text)?;
    match move_loaded(folder, lock, beside.as_str(), place, loaded_bytes) {
        Ok(()) => sync_saved(folder, place),
        Err(MoveFault::Changed) => Err(SaveFault::Changed(beside)),
        Err(MoveFault::Failed) => {
            folder.remove(beside.as_str());
            Err(SaveFault::WriteFault(ChangeCause::Other))
        }
    }
}

/// Makes sure that it is on the disk which file is at a place.
fn sync_saved<D: Folder>(folder: &mut D, place: &str) -> Result<(), SaveFault>
    ensures ok { OnOk result (Changes Syncs (D.known folder.old) (D.known folder.new)) }
    ensures err { IfErr result (λ why. (why ≡ SaveFault.NotSynced)
        × Changes Fails (D.known folder.old) (D.known folder.new)) }
    ensures safe { OnOk result
        (Changes (SyncsName place.now) (D.known folder.old) (D.known folder.new)) }
    ensures crash { OnErr result
        (Changes LeavesAllSafe (D.known folder.old) (D.known folder.new)) }
    ensures sure { Changes AllStaySure (D.known folder.old) (D.known folder.new) }
{
    match folder.sync_name(place) {
        Ok(()) => Ok(()),
        Err(ChangeFailed) => Err(SaveFault::NotSynced),
    }
}

/// Checks that the file which is locked contains exactly the bytes that are given, if any are.
fn check_loaded<D: Folder>(
    folder: &mut D,
    lock: &D::Lock,
    place: &str,
    loaded_bytes: Option<&[u8]>,
) -> Result<(), MoveFault>
    ensures ok { OnOk result (Changes (HoldsLoaded place.now
        (option_map (λ bytes. bytes.now) loaded_bytes.entry)) (D.known folder.old)
        (D.known folder.new)) }
    ensures err { IfErr result (λ why.
        Changes (CannotMoveLoaded place.now (option_map (λ bytes. bytes.now) loaded_bytes.entry)
        why)
        (D.known folder.old) (D.known folder.new)) }
    ensures crash { Changes LeavesAllSafe (D.known folder.old) (D.known folder.new) }
{
    match loaded_bytes {
        Some(bytes) => check_bytes(folder, lock, place, bytes),
        None => Ok(()),
    }
}

/// Checks that the file which is locked contains exactly these bytes.
fn check_bytes<D: Folder>(
    folder: &mut D,
    lock: &D::Lock,
    place: &str,
    bytes: &[u8],
) -> Result<(), MoveFault>
    ensures ok { OnOk result (Changes (HoldsLoaded place.now (Some bytes.now))
        (D.known folder.old) (D.known folder.new)) }
    ensures err { IfErr result (λ why. Changes (CannotMoveLoaded place.now (Some bytes.now) why)
        (D.known folder.old) (D.known folder.new)) }
    ensures crash { Changes LeavesAllSafe (D.known folder.old) (D.known folder.new) }
{
    if folder.holds(lock, place, bytes)? {
        Ok(())
    } else {
        Err(MoveFault::Changed)
    }
}

/// Puts a file at a place, if that contains what was loaded from it, if this is given.
fn move_loaded<D: Folder>(
    folder: &mut D,
    lock: D::Lock,
    from: &str,
    place: &str,
    loaded_bytes: Option<&[u8]>,
) -> Result<(), MoveFault>
    ensures ok { OnOk result
        (Changes (MovesLoaded from.now place.now
        (option_map (λ bytes. bytes.now) loaded_bytes.entry))
        (D.known folder.old) (D.known folder.new)) }
    ensures err { IfErr result (λ why.
        Changes (CannotMoveLoaded place.now (option_map (λ bytes. bytes.now) loaded_bytes.entry)
        why)
        (D.known folder.old) (D.known folder.new)) }
    ensures safe { OnOk result (Changes (MovesWhole from.now place.now)
        (D.known folder.old) (D.known folder.new)) }
    ensures crash { OnErr result
        (Changes LeavesAllSafe (D.known folder.old) (D.known folder.new)) }
    ensures sure { Changes (OthersOfTwoStaySure from.now place.now)
        (D.known folder.old) (D.known folder.new) }
{
    check_loaded(folder, &lock, place, loaded_bytes)?;
    folder.replace(lock, from, place)
}
