//! The journal that is followed, as far as its lines have come.
ghost use Rattle.std.specs.Prelude.{◌≡◌, ◌≢◌, ◌<◌, ◌++◌, [], ℕ, List, OnOk, IfErr, length};
ghost use Rattle.osn_files.specs.declared.fault.FileFault.TheVariants.{NoMemory};
ghost use Rattle.osn_folder.specs.FollowedFile.{IsOfWholeLines};
ghost use Rattle.osn_journal.specs.Follows.{IsRefused};
ghost use Rattle.osn_journal.specs.FollowerInside.{IsJournalOf};
ghost use Rattle.osn_journal.specs.FollowedJournalInside as spec;

use osn_core::Object;
use osn_files::{FileFault, JournalPart, load_part};
use osn_lines::Bytes;
use osn_register::Limits;
use osn_request::Version;
use std::alloc::Global;
use std::mem;

/// The journal as far as its lines have come.
#[derive(Drop)]
pub(crate) struct FollowedJournal {
    limits: Limits,
    /// The version that its head says, once that has come.
    version: Option<Version>,
    /// How many lines have come.
    lines: u64,
    /// The object of these lines.
    pub(crate) object: Object,
}

/// Returns the fault of a file, if lines came before those that were read.
fn later(fault: FileFault, lines: u64) -> FileFault
    ensures { result ≡ spec.later fault lines }
{
    match fault {
        FileFault::BadLine { role, line, fault } => FileFault::BadLine {
            role,
            line: lines.saturating_add(line),
            fault,
        },
        other => other,
    }
}

impl FollowedJournal {
    /// Returns the journal of a file of which no line has come.
    pub(crate) fn new(alloc: Global, limits: Limits) -> FollowedJournal
        ensures limits { result.limits ≡ limits }
        ensures journal { IsJournalOf limits [] result }
    {
        FollowedJournal {
            limits,
            version: None,
            lines: 0,
            object: Object::new(alloc, limits),
        }
    }

    /// Takes lines that have come, and were loaded.
    fn take(&mut self, part: JournalPart)
        ensures { self.new ≡ spec.journal_after self.old part }
    {
        self.version = Some(part.version);
        self.lines = self.lines.saturating_add(part.lines);
        self.object = part.object;
    }

    /// Takes in the lines that the file has gained.
    ///
    /// # Errors
    ///
    /// The first of them that is refused, by its number in the file, or that memory ran out.
    /// Nothing is known of the journal then.
    pub(crate) fn add(&mut self, alloc: Global, new_bytes: &[u8]) -> Result<(), FileFault>
        requires lines { IsOfWholeLines new_bytes.now }
        requires few { length new_bytes.now < 4294967295 }
        ensures limits { OnOk result (self.new.limits ≡ self.old.limits) }
        ensures ok { OnOk result ((file : List ℕ) → IsJournalOf self.old.limits file self.old →
            IsJournalOf self.old.limits (file ++ new_bytes.now) self.new) }
        ensures err { IfErr result (λ fault. fault ≢ NoMemory → (file : List ℕ) →
            IsJournalOf self.old.limits file self.old →
            IsRefused self.old.limits (file ++ new_bytes.now) fault) }
    {
        if new_bytes.is_empty() {
            return Ok(());
        }
        let object = mem::replace(&mut self.object, Object::new(alloc, self.limits));
        match load_part(alloc, self.version, object, &mut Bytes::new(new_bytes)) {
            Ok(part) => {
                self.take(part);
                Ok(())
            }
            Err(fault) => Err(later(fault, self.lines)),
        }
    }
}
