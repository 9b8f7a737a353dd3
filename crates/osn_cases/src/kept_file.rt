//! A file in memory that is kept.
ghost use Rattle.std.specs.Prelude.{◌≡◌, IfOk, None, Some};

use osn_folder::{ChangeCause, ChangeFailed, KeptFile, KeptFileFault};
use std::alloc::{AllocError, Global};

/// A file in memory that is kept.
#[derive(Drop)]
pub(crate) struct MemoryFile {
    alloc: Global,
    contents: Vec<u8>,
    synced: Vec<u8>,
    fault: Option<KeptFileFault>,
}

impl MemoryFile {
    /// Returns a file with these bytes, and the bytes.
    pub(crate) fn of(alloc: Global, bytes: &[u8]) -> Result<(MemoryFile, Vec<u8>), AllocError>
        ensures { IfOk result (λ both. (both.0.contents.items ≡ both.1.items)
            × (both.0.synced.items ≡ both.1.items) × (both.0.fault ≡ None)) }
    {
        let keeper = MemoryFile {
            alloc,
            contents: Vec::from_slice(alloc, bytes)?,
            synced: Vec::from_slice(alloc, bytes)?,
            fault: None,
        };
        Ok((keeper, Vec::from_slice(alloc, bytes)?))
    }

    /// Returns the contents of the file.
    pub(crate) fn contents(&self) -> &[u8] {
        &self.contents
    }

    /// Notes that a change failed because memory ran out.
    fn fail(&mut self) -> KeptFileFault
        ensures fault { self.new.fault ≡ Some result }
        ensures contents { self.new.contents ≡ self.old.contents }
        ensures synced { self.new.synced ≡ self.old.synced }
    {
        let fault = KeptFileFault::ChangeFailed(ChangeCause::Other);
        self.fault = Some(fault);
        fault
    }
}

impl KeptFile for MemoryFile {
    ghost use Rattle.std.specs.Prelude.{false};

    ghost contents = { λ f. Some f.contents.items };

    ghost synced = { λ f. Some f.synced.items };

    ghost fault = { λ f. f.fault };

    ghost cut_back_may_fail = { λ _. false };

    fn append(&mut self, bytes: &[u8]) -> Result<(), KeptFileFault> {
        match self.contents.extend_from_slice(bytes) {
            Ok(()) => Ok(()),
            Err(_) => Err(self.fail()),
        }
    }

    fn cut(&mut self, length: u64) -> Result<(), KeptFileFault> {
        self.contents.truncate(length as usize);
        Ok(())
    }

    fn cut_back(&mut self, length: u64) -> Result<(), ChangeFailed> {
        self.contents.truncate(length as usize);
        Ok(())
    }

    fn sync(&mut self) -> Result<(), KeptFileFault> {
        match Vec::from_slice(self.alloc, &self.contents) {
            Ok(synced) => {
                self.synced = synced;
                Ok(())
            }
            Err(_) => Err(self.fail()),
        }
    }
}
