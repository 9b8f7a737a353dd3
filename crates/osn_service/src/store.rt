//! What a service answers from, and changes.
ghost use Rattle.std.specs.Prelude.{◌≡◌, ⊤, None, IfOk, IfErr, OnErr, OnOk, true};
ghost use Rattle.osn_days.specs.Rules.{newest_rules};
ghost use Rattle.osn_register.specs.Refusal.{IsCheckOf};
ghost use Rattle.osn_register.specs.Answer.{takes_memory};
ghost use Rattle.osn_register.specs.BorrowedQuery.{as_query};
ghost use Rattle.osn_core.specs.Sequential.{ObjectState, reply_at};
ghost use Rattle.osn_service.specs.Change as spec;
ghost use Rattle.osn_service.specs.Change.{change_refusal, changed, number_after};
ghost use Rattle.osn_service.specs.Store.{Makes, MatchStoreFault, FailsToKeep, KeepsSince};

use crate::outcome::Outcome;
use osn_core::{Object, Reply};
use osn_register::{BorrowedQuery, Edit, Refusal};
use std::alloc::AllocError;
use std::convert::Infallible;

/// What a line changes.
#[derive(Debug, Drop)]
pub enum Change {
    /// An edit is staged.
    Stage(Edit),
    /// The pending edits are published.
    Publish,
}

impl Change {
    /// Returns the reply to a change, by the number of pending edits or of editions after it.
    pub(crate) fn outcome(&self, number: u32) -> Outcome
        ensures { result ≡ spec.outcome self.now number }
    {
        match self {
            Change::Stage(_) => Outcome::Staged(number),
            Change::Publish => Outcome::Published(number),
        }
    }
}

/// Why a change was not made, or not kept.
#[derive(Debug, Drop)]
pub enum StoreFault<F> {
    /// Memory ran out, and nothing has changed.
    NoMemory,
    /// The change was made, and could not be kept.
    NotKept(F),
}

impl<F> From<AllocError> for StoreFault<F> {
    ghost use Rattle.std.specs.Prelude.{◌≡◌};
    ghost use Rattle.osn_service.specs.declared.store.StoreFault.TheVariants.{NoMemory};

    ghost from_gives = { λ _ fault. fault ≡ NoMemory };

    fn from(_: AllocError) -> StoreFault<F> {
        StoreFault::NoMemory
    }
}

/// A sequential object, which may keep its changes. What `has_kept` and `has_lost` say is its own.
pub trait Store {
    /// Why a change could not be kept.
    type Fault: Drop;

    // The object that it is.
    ghost state: { Self → ObjectState };

    // `lends initial now`: what was `initial` and is `now` lends the same.
    ghost lends: { Self → Self → Type 0 } = { λ _ _. ⊤ };

    // `has_kept initial now`: each change that made of what was `initial` what is `now` is kept.
    ghost has_kept: { Self → Self → Type 0 };

    // `has_lost initial before now why`: each change was kept up to where the object was `before`,
    // and the one that made it `now` was not, because of `why`.
    ghost has_lost: { Self → ObjectState → Self → Self.Fault → Type 0 };

    /// Returns how many edits would be pending, or which edition there would be, if this change
    /// were made.
    ///
    /// # Errors
    ///
    /// The first refusal that applies.
    fn check(&self, change: &Change) -> Result<u32, Refusal>
        ensures test { IsCheckOf (change_refusal (state self.now) change.now) result }
        ensures number { IfOk result (λ n. n ≡ number_after (state self.now) change.now) };

    /// Makes a change that `check` has accepted, and keeps it.
    ///
    /// # Errors
    ///
    /// `NoMemory` if memory ran out, and nothing has changed then. `NotKept` if the change was made
    /// and could not be kept.
    fn make(&mut self, change: Change) -> Result<(), StoreFault<Self::Fault>>
        requires { change_refusal (state self.old) change ≡ None }
        ensures lent { KeepsSince lends self.old self.new }
        ensures ok { OnOk result
            (Makes state has_kept self.old self.new (changed (state self.old) change)) }
        ensures err { IfErr result (λ fault. MatchStoreFault fault
            (Makes state has_kept self.old self.new (state self.old))
            (FailsToKeep state has_kept has_lost self.old self.new
            (changed (state self.old) change))) };

    /// Returns the reply to a query on the published register.
    ///
    /// # Errors
    ///
    /// Only if memory ran out. A refused query, the figures of a year and an empty list of
    /// territories take none.
    fn ask(&self, query: BorrowedQuery<'_>) -> Result<Reply, AllocError>
        ensures value { IfOk result (λ r. r ≡ reply_at newest_rules (state self.now).limits
            (state self.now).batches (as_query query.entry)) }
        ensures memory { OnErr result (takes_memory (reply_at newest_rules (state self.now).limits
            (state self.now).batches (as_query query.entry)).answer ≡ true) };
}

/// An object alone is kept nowhere, so no change of it fails to be kept.
impl Store for Object {
    ghost use Rattle.std.specs.Prelude.{⊤};

    type Fault = Infallible;

    ghost state = { λ o. o };

    ghost has_kept = { λ _ _. ⊤ };

    ghost has_lost = { λ _ _ _ _. ⊥ };

    fn check(&self, change: &Change) -> Result<u32, Refusal> {
        match change {
            Change::Stage(edit) => Object::check(self, edit),
            Change::Publish => self.check_publish(),
        }
    }

    fn make(&mut self, change: Change) -> Result<(), StoreFault<Infallible>> {
        match change {
            Change::Stage(edit) => self.admit(edit)?,
            Change::Publish => self.make_edition()?,
        };
        Ok(())
    }

    fn ask(&self, query: BorrowedQuery<'_>) -> Result<Reply, AllocError> {
        self.ask_borrowed(query)
    }
}
