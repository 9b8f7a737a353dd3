//! All edits of a sequential object, published and pending: their register, those that are pending,
//! and the counts that limits are set to.
ghost use Rattle.std.specs.Prelude.{◌≡◌, ◌+◌, length, None, IfOk, OnOk, OnErr};
ghost use Rattle.osn_register.specs.Refusal.{IsCheckOf};
ghost use Rattle.osn_core.specs.Draft.{first_draft, edit_refusal, edition_refusal, draft_with_edit};
ghost use Rattle.osn_core.specs.Draft.{draft_with_edition};
ghost use Rattle.osn_core.specs.Sequential.{HasLawfulSource};

use crate::batch::Batch;
use osn_register::{Edit, Limits, Refusal, Register};
use std::alloc::{AllocError, Global};
use std::marker::Model;

/// What the next edit and the next edition of a sequential object depend on. It has the register of
/// all edits, published and pending, the pending ones, and how many edits and editions there are.
#[derive(Drop)]
pub struct Draft {
    alloc: Global,
    register: Register,
    pending: Vec<Edit>,
    edits: u32,
    editions: u32,
}

impl Model for Draft {
    ghost use Rattle.osn_core.specs.Draft.{DraftState};
    ghost use Rattle.osn_core.specs.DraftInside.{draft_in, CountsPending};

    ghost Value = { DraftState };

    ghost view = { draft_in };

    ghost invariant = { CountsPending };
}

impl Draft {
    /// Returns a draft with no edit.
    pub fn new(alloc: Global, limits: Limits) -> Draft
        ensures { result ≡ first_draft limits }
    {
        Draft {
            alloc,
            register: Register::new(alloc, limits),
            pending: Vec::new(alloc),
            edits: 0,
            editions: 0,
        }
    }

    /// Returns the limits.
    pub fn limits(&self) -> Limits
        ensures { result ≡ self.now.register.limits }
    {
        self.register.limits()
    }

    /// Returns the register of all edits.
    pub fn register(&self) -> &Register
        ensures { result.now ≡ self.now.register }
    {
        &self.register
    }

    /// Returns the pending edits.
    pub fn pending(&self) -> &Vec<Edit>
        ensures { result.now.items ≡ self.now.pending }
    {
        &self.pending
    }

    /// Returns the number of editions.
    pub fn edition(&self) -> u32
        ensures { result ≡ self.now.editions }
    {
        self.editions
    }

    /// Returns how many edits would be pending if this one were staged now.
    ///
    /// # Errors
    ///
    /// The first refusal that applies.
    pub fn check(&self, edit: &Edit) -> Result<u32, Refusal>
        ensures test { IsCheckOf (edit_refusal self.now edit.now) result }
        ensures count { IfOk result (λ n. n ≡ length self.now.pending + 1) }
    {
        self.register.check(edit)?;
        if self.edits >= self.register.limits().edits {
            return Err(Refusal::JournalFull);
        }
        Ok(self.pending.len() as u32 + 1)
    }

    /// Stages an edit that `check` accepted, and returns how many are pending then.
    ///
    /// # Errors
    ///
    /// If memory runs out. On an error nothing has changed.
    pub fn admit(&mut self, edit: Edit) -> Result<u32, AllocError>
        requires { edit_refusal self.old edit ≡ None }
        ensures ok { OnOk result (self.new ≡ draft_with_edit self.old edit) }
        ensures count { IfOk result (λ n. n ≡ length self.new.pending) }
        ensures source { OnOk result (HasLawfulSource edit) }
        ensures err { OnErr result (self.new ≡ self.old) }
    {
        // The edits are fewer than the limit, so one more fits.
        let _most = self.register.limits().edits;
        self.pending.reserve(1)?;
        self.register.admit(&edit)?;
        self.pending.push_reserved(edit);
        self.edits += 1;
        Ok(self.pending.len() as u32)
    }

    /// Returns the edition that a publish would make now.
    ///
    /// # Errors
    ///
    /// The first refusal that applies.
    pub fn check_publish(&self) -> Result<u32, Refusal>
        ensures test { IsCheckOf (edition_refusal self.now) result }
        ensures edition { IfOk result (λ n. n ≡ self.now.editions + 1) }
    {
        if self.pending.is_empty() {
            return Err(Refusal::NothingPending);
        }
        if self.editions >= self.register.limits().editions {
            return Err(Refusal::EditionsFull);
        }
        Ok(self.editions + 1)
    }

    /// Makes the pending edits, which `check_publish` has let through, the next edition.
    pub fn make_edition(&mut self) -> Batch
        requires { edition_refusal self.old ≡ None }
        ensures batch { result ≡ self.old.pending }
        ensures after { self.new ≡ draft_with_edition self.old }
    {
        // The editions are fewer than the limit, so one more fits.
        let _most = self.register.limits().editions;
        self.editions += 1;
        let pending = std::mem::replace(&mut self.pending, Vec::new(self.alloc));
        Batch::new(pending)
    }

    /// Exchanges its register with one that is equal to it.
    pub fn exchange(&mut self, other: &mut Register)
        requires { other.old ≡ self.old.register }
        ensures same { self.new ≡ self.old }
        ensures other { other.new ≡ other.old }
    {
        std::mem::swap(&mut self.register, other);
    }
}
