//! A file that is kept while a program runs.
ghost use Rattle.std.specs.Prelude.{◌≡◌, ℕ, List, Bool, true, Option, take, option_map};
ghost use Rattle.std.specs.Prelude.{OnOk, OnErr};
ghost use Rattle.std.specs.Io.KnownBytes.{Appends};
ghost use Rattle.osn_folder.specs.KeptFile.{fault_after};
ghost use Rattle.osn_folder.specs.declared.fault.KeptFileFault.{KeptFileFault};

use crate::fault::{ChangeFailed, KeptFileFault};

/// A file that is kept: what is appended to it comes after what it contains.
pub trait KeptFile {
    // What it contains, if that is known.
    ghost contents: { Self → Option (List ℕ) };

    // What is surely on the disk, if that is known.
    ghost synced: { Self → Option (List ℕ) };

    // Why the last change that failed did so, if one did.
    ghost fault: { Self → Option KeptFileFault };

    // Whether a cut back may fail.
    ghost cut_back_may_fail: { Self → Bool } = { λ _. true };

    /// Appends bytes.
    ///
    /// # Errors
    ///
    /// If a write failed. The first of the bytes may be in the file then.
    fn append(&mut self, bytes: &[u8]) -> Result<(), KeptFileFault>
        ensures ok { OnOk result (Appends (contents self.old) (contents self.new) bytes.now) }
        ensures err { OnErr result ((n : ℕ)
            × Appends (contents self.old) (contents self.new) (take n bytes.now)) }
        ensures disk { synced self.new ≡ synced self.old }
        ensures fault { fault self.new ≡ fault_after result (fault self.old) };

    /// Cuts it to its first bytes. One that has no more is left as it is.
    ///
    /// # Errors
    ///
    /// If it could not be cut.
    fn cut(&mut self, length: u64) -> Result<(), KeptFileFault>
        ensures ok { OnOk result
            (contents self.new ≡ option_map (take length) (contents self.old)) }
        ensures err { OnErr result (contents self.new ≡ contents self.old) }
        ensures disk { OnErr result (synced self.new ≡ synced self.old) }
        ensures fault { fault self.new ≡ fault_after result (fault self.old) };

    /// Cuts it back to its first bytes after a change of it has failed. One that has no more is
    /// left as it is. The fault is kept, and no change is made after it.
    ///
    /// # Errors
    ///
    /// If it could not be cut, or someone else has changed it.
    fn cut_back(&mut self, length: u64) -> Result<(), ChangeFailed>
        ensures ok { OnOk result
            (contents self.new ≡ option_map (take length) (contents self.old)) }
        ensures err { OnErr result ((contents self.new ≡ contents self.old)
            × (cut_back_may_fail self.old ≡ true)) }
        ensures fault { fault self.new ≡ fault self.old };

    /// Returns once all that it contains is on the disk, at the path that it was opened by.
    ///
    /// # Errors
    ///
    /// `ChangeFailed` if it isn't sure that all is on the disk. What was there before still is.
    /// `Replaced` if the path names another file now, or none, or the file is not as long as what
    /// it was given.
    fn sync(&mut self) -> Result<(), KeptFileFault>
        ensures same { contents self.new ≡ contents self.old }
        ensures ok { OnOk result (synced self.new ≡ contents self.new) }
        ensures err { OnErr result (synced self.new ≡ synced self.old) }
        ensures fault { fault self.new ≡ fault_after result (fault self.old) };
}
