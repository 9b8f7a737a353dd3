//! Saves a text in the place of a file, which is left beside it.
ghost use Rattle.std.specs.Prelude.{IfErr, IfOk, string_bytes};
ghost use Rattle.osn_folder.specs.Folder.{Changes};
ghost use Rattle.osn_folder.specs.Crash.{SavesBeside, CannotSaveBeside, GivesUp};

use crate::fault::SaveFault;
use crate::folder::Folder;
use crate::save::save_at;
use std::alloc::Global;

/// Puts a text in place of the file that was locked, as `save_file` does, and leaves that file at a
/// new path beside it. Returns this path. Whenever the machine crashes, the old file is still at
/// its path; or the text is there, whole, and the old file beside it.
///
/// # Errors
///
/// Those of `save_file`. The old file is left beside the text with `NotSynced`, and is not with
/// another fault.
pub fn save_beside<D: Folder>(
    folder: &mut D,
    alloc: Global,
    lock: D::Lock,
    path: &str,
    text: &str,
) -> Result<String, SaveFault>
    ensures ok { IfOk result (λ backup.
        Changes (SavesBeside path.now (string_bytes backup) text.now)
        (D.known folder.old) (D.known folder.new)) }
    ensures err { IfErr result (λ why. Changes (CannotSaveBeside path.now text.now why)
        (D.known folder.old) (D.known folder.new)) }
{
    let place = folder.place(alloc, path)?;
    let backup = folder.back_up(alloc, place.as_str())?;
    match save_at(folder, alloc, lock, place.as_str(), None, text) {
        Ok(()) => Ok(backup),
        Err(fault) => {
            give_up(folder, backup.as_str(), &fault);
            Err(fault)
        }
    }
}

/// Removes a backup again, if the text isn't at its place.
fn give_up<D: Folder>(folder: &mut D, backup: &str, fault: &SaveFault)
    ensures { Changes (GivesUp backup.now fault.now) (D.known folder.old) (D.known folder.new) }
{
    match fault {
        SaveFault::NotSynced => {}
        SaveFault::NoMemory | SaveFault::WriteFault(_) | SaveFault::Changed(_) => {
            folder.remove(backup);
        }
    }
}
