//! An object, and the file that it is kept in.
ghost use Rattle.std.specs.Prelude.{◌≡◌, None, MatchResult};
ghost use Rattle.osn_days.specs.Rules.{newest_rules};
ghost use Rattle.osn_core.specs.Sequential.{stage_refusal, publish_refusal};
ghost use Rattle.osn_journal.specs.KeptJournal.{file_of};
ghost use Rattle.osn_journal.specs.ChangeInside.{FailsAtLine, IsSynced, ChangeResult};
ghost use Rattle.osn_service.specs.declared.store.Change.TheVariants as changes;

use osn_core::{Object, Reply};
use osn_files::{with_edit, with_publish};
use osn_folder::{KeptFile, KeptFileFault};
use osn_register::{BorrowedQuery, Edit, Refusal};
use osn_service::{Change, Store, StoreFault};
use std::alloc::{AllocError, Global};

/// Stages an edit, which must be allowed, and appends its line.
///
/// # Errors
///
/// Returns `NoMemory` if memory runs out; nothing has changed then. Returns `NotKept` if the file
/// failed after the object had changed.
fn stage<K: KeptFile>(
    alloc: Global,
    object: &mut Object,
    keeper: &mut K,
    edit: Edit,
) -> Result<(), StoreFault<KeptFileFault>>
    requires { stage_refusal newest_rules object.old edit ≡ None }
    ensures { ChangeResult (changes.Stage edit) object.old object.new
        (file_of K.contents K.synced K.fault keeper.old)
        (file_of K.contents K.synced K.fault keeper.new) result }
{
    let line = with_edit(Vec::new(alloc), &edit)?;
    object.admit(edit)?;
    keeper.append(&line).map_err(StoreFault::NotKept)
}

/// Appends a line, and returns once all that the file contains is on the disk.
///
/// # Errors
///
/// Returns the fault of the file. The file may then contain the first bytes of the line.
pub fn append_synced<K: KeptFile>(keeper: &mut K, line: &[u8]) -> Result<(), KeptFileFault>
    ensures { MatchResult result
        (λ _. IsSynced line.now (file_of K.contents K.synced K.fault keeper.old)
        (file_of K.contents K.synced K.fault keeper.new))
        (FailsAtLine line.now (file_of K.contents K.synced K.fault keeper.old)
        (file_of K.contents K.synced K.fault keeper.new)) }
{
    keeper.append(line)?;
    keeper.sync()
}

/// Publishes the pending edits, which must be allowed, and appends the line of the publish, which
/// is on the disk then.
///
/// # Errors
///
/// As `stage`.
fn publish<K: KeptFile>(
    alloc: Global,
    object: &mut Object,
    keeper: &mut K,
) -> Result<(), StoreFault<KeptFileFault>>
    requires { publish_refusal object.old ≡ None }
    ensures { ChangeResult changes.Publish object.old object.new
        (file_of K.contents K.synced K.fault keeper.old)
        (file_of K.contents K.synced K.fault keeper.new) result }
{
    let line = with_publish(Vec::new(alloc))?;
    object.make_edition()?;
    append_synced(keeper, &line).map_err(StoreFault::NotKept)
}

/// An object, and the file in which it is kept. It owns no memory, so that what it borrows is known
/// again after it is dropped.
#[derive(Drop)]
pub(crate) struct KeptObject<'a, K> {
    pub(crate) alloc: Global,
    pub(crate) object: &'a mut Object,
    pub(crate) keeper: &'a mut K,
}

impl<'a, K: KeptFile> Store for KeptObject<'a, K> {
    ghost use Rattle.osn_journal.specs.KeptObjectInside.{HasKept, HasLost, IsSame};

    type Fault = KeptFileFault;

    ghost state = { λ s. s.object.now };

    ghost lends = { IsSame };

    ghost has_kept = { HasKept K.contents K.synced K.fault };

    ghost has_lost = { HasLost K.contents K.synced K.fault };

    fn check(&self, change: &Change) -> Result<u32, Refusal> {
        Store::check(self.object, change)
    }

    fn make(&mut self, change: Change) -> Result<(), StoreFault<KeptFileFault>> {
        match change {
            Change::Stage(edit) => stage(self.alloc, self.object, self.keeper, edit),
            Change::Publish => publish(self.alloc, self.object, self.keeper),
        }
    }

    fn ask(&self, query: BorrowedQuery<'_>) -> Result<Reply, AllocError> {
        self.object.ask_borrowed(query)
    }
}
