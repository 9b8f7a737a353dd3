//! A file that another run appends to.
ghost use Rattle.std.specs.Prelude.{◌≡◌, ◌<◌, ℕ, List, Option, IfOk, OnErr, length};
ghost use Rattle.std.specs.Io.KnownBytes.{Appends};
ghost use Rattle.osn_folder.specs.FollowedFile.{IsOfWholeLines};

use crate::fault::FollowFault;
use std::alloc::Global;

/// A file that another run appends to, as far as its lines have come whole.
pub trait FollowedFile {
    // The lines that were read of it so far, if they are known.
    ghost contents: { Self → Option (List ℕ) };

    /// Returns the lines that the file contains now after those that it contained at the look
    /// before. There are none if there has been no file yet. A last line without its line feed
    /// waits. At most 1,073,741,824 bytes are read at a look.
    ///
    /// # Errors
    ///
    /// `NoMemory` if memory ran out, `NotRead` if the file can't be read. `Shorter` if it is
    /// shorter than those lines, `Replaced` if the path names another file, or none.
    fn look(&mut self, alloc: Global) -> Result<Vec<u8>, FollowFault>
        ensures lines { IfOk result (λ bytes. IsOfWholeLines bytes.items) }
        ensures few { IfOk result (λ bytes. length bytes.items < 4294967295) }
        ensures ok { IfOk result
            (λ bytes. Appends (contents self.old) (contents self.new) bytes.items) }
        ensures err { OnErr result (contents self.new ≡ contents self.old) };
}
