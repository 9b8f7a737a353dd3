//! The sequential object: the published batches with their register, and the pending edits.
ghost use Rattle.std.specs.Prelude.{◌≡◌, ◌+◌, true, length, None, IfOk, IfErr, OnOk, OnErr};
ghost use Rattle.osn_days.specs.Rules.{newest_rules};
ghost use Rattle.osn_register.specs.Refusal.{IsCheckOf, IsRefusalOrNoMemory};
ghost use Rattle.osn_register.specs.BorrowedQuery.{as_query};
ghost use Rattle.osn_register.specs.Answer.{refusal_in, takes_memory};
ghost use Rattle.osn_register.specs.QueryRefusal.{query_refusal};
ghost use Rattle.osn_core.specs.Sequential.{empty_object, with_pending, with_edition};
ghost use Rattle.osn_core.specs.Sequential.{stage_refusal};
ghost use Rattle.osn_core.specs.Sequential.{publish_refusal, reply_at, territories_of, IsSound};
ghost use Rattle.osn_core.specs.Sequential.{HasLawfulSource};

use crate::batch::Batch;
use crate::live_and_standby::LiveAndStandby;
use crate::step::Reply;
use osn_register::{BorrowedQuery, Edit, Limits, Query, Refusal, Register};
use std::alloc::{AllocError, Global};
use std::marker::Model;

/// The sequential object: the published batches with their register, and the pending edits.
///
/// It keeps two registers, which a publish exchanges. So a publish costs the same however large the
/// register is, and what the other one lacks then is applied at the next stage.
#[derive(Drop)]
pub struct Object {
    copies: LiveAndStandby,
}

impl Model for Object {
    ghost use Rattle.osn_core.specs.Sequential.{ObjectState};

    ghost Value = { ObjectState };

    ghost view = { λ o. o.copies.object };
}

impl Object {
    /// Returns an object with no batch and nothing pending.
    pub fn new(alloc: Global, limits: Limits) -> Object
        ensures { result ≡ empty_object limits }
    {
        Object {
            copies: LiveAndStandby::new(alloc, limits),
        }
    }

    /// Returns the published register.
    pub fn register(&self) -> &Register
        ensures territories { result.now.territories
            ≡ territories_of newest_rules self.now.limits self.now.batches }
        ensures limits { result.now.limits ≡ self.now.limits }
    {
        self.copies.live()
    }

    /// Returns the batches, each an edition.
    pub fn batches(&self) -> &[Batch]
        ensures value { result.now ≡ self.now.batches }
        ensures sound { IsSound newest_rules self.now }
    {
        self.copies.batches()
    }

    /// Returns the pending edits.
    pub fn pending(&self) -> &[Edit]
        ensures { result.now ≡ self.now.pending }
    {
        self.copies.pending()
    }

    /// Returns the reply to a query of the published register.
    ///
    /// # Errors
    ///
    /// If memory runs out. A refused query, the figures of a year and an empty list of territories
    /// need none.
    pub fn ask(&self, query: &Query) -> Result<Reply, AllocError>
        ensures value { IfOk result
            (λ r. r ≡ reply_at newest_rules self.now.limits self.now.batches query.now) }
        // as a law: only the definition's refusals refuse a query
        ensures refused { IfOk result (λ r. refusal_in r.answer
            ≡ query_refusal newest_rules
            (territories_of newest_rules self.now.limits self.now.batches) query.now) }
        ensures memory { OnErr result (takes_memory
            (reply_at newest_rules self.now.limits self.now.batches query.now).answer ≡ true) }
    {
        self.ask_borrowed(query.borrow())
    }

    /// Answers a query with borrowed texts as `ask` does.
    ///
    /// # Errors
    ///
    /// As for `ask`.
    pub fn ask_borrowed(&self, query: BorrowedQuery<'_>) -> Result<Reply, AllocError>
        ensures value { IfOk result (λ r. r
            ≡ reply_at newest_rules self.now.limits self.now.batches (as_query query.entry)) }
        ensures refused { IfOk result (λ r. refusal_in r.answer
            ≡ query_refusal newest_rules
            (territories_of newest_rules self.now.limits self.now.batches) (as_query query.entry)) }
        ensures memory { OnErr result (takes_memory
            (reply_at newest_rules self.now.limits self.now.batches (as_query query.entry)).answer
            ≡ true) }
    {
        Ok(Reply {
            edition: self.copies.edition(),
            answer: self.copies.live().answer_borrowed(query)?,
        })
    }
}

impl Object {
    /// Returns how many edits would be pending if this one were staged now.
    ///
    /// # Errors
    ///
    /// The first refusal that applies.
    pub fn check(&self, edit: &Edit) -> Result<u32, Refusal>
        ensures test { IsCheckOf (stage_refusal newest_rules self.now edit.now) result }
        ensures count { IfOk result (λ n. n ≡ length self.now.pending + 1) }
    {
        self.copies.check(edit)
    }

    /// Stages an edit, and returns how many are pending then.
    ///
    /// # Errors
    ///
    /// The first refusal that applies. Otherwise `NoMemory` if memory runs out. On an error nothing
    /// has changed.
    pub fn stage(&mut self, edit: &Edit) -> Result<u32, Refusal>
        ensures lawful { OnOk result (stage_refusal newest_rules self.old edit.now ≡ None) }
        ensures ok { OnOk result (self.new ≡ with_pending self.old edit.now) }
        ensures count { IfOk result (λ n. n ≡ length self.new.pending) }
        ensures refused { IfErr result
            (IsRefusalOrNoMemory (stage_refusal newest_rules self.old edit.now)) }
        ensures err { OnErr result (self.new ≡ self.old) }
    {
        self.check(edit)?;
        Ok(self.admit(edit.copy()?)?)
    }

    /// Stages an edit that `check` accepted, and returns how many are pending then.
    ///
    /// # Errors
    ///
    /// If memory runs out. On an error nothing has changed.
    pub fn admit(&mut self, edit: Edit) -> Result<u32, AllocError>
        requires { stage_refusal newest_rules self.old edit ≡ None }
        ensures ok { OnOk result (self.new ≡ with_pending self.old edit) }
        ensures count { IfOk result (λ n. n ≡ length self.new.pending) }
        // If the edit gives a source, it is one that may be given.
        ensures source { OnOk result (HasLawfulSource edit) }
        ensures err { OnErr result (self.new ≡ self.old) }
    {
        self.copies.catch_up()?;
        self.copies.admit(edit)
    }

    /// Returns the edition that a publish would make now.
    ///
    /// # Errors
    ///
    /// The first refusal that applies.
    pub fn check_publish(&self) -> Result<u32, Refusal>
        ensures test { IsCheckOf (publish_refusal self.now) result }
        ensures edition { IfOk result (λ n. n ≡ length self.now.batches + 1) }
    {
        self.copies.check_publish()
    }

    /// Publishes the pending edits as the next edition, and returns its number.
    ///
    /// # Errors
    ///
    /// The first refusal that applies. Otherwise `NoMemory` if memory runs out. On an error nothing
    /// has changed.
    pub fn publish(&mut self) -> Result<u32, Refusal>
        ensures lawful { OnOk result (publish_refusal self.old ≡ None) }
        ensures ok { OnOk result (self.new ≡ with_edition self.old) }
        ensures edition { IfOk result (λ n. n ≡ length self.new.batches) }
        ensures refused { IfErr result (IsRefusalOrNoMemory (publish_refusal self.old)) }
        ensures err { OnErr result (self.new ≡ self.old) }
    {
        self.check_publish()?;
        Ok(self.make_edition()?)
    }

    /// Publishes the pending edits, which `check_publish` has let through, as the next edition, and
    /// returns its number.
    ///
    /// # Errors
    ///
    /// If memory runs out. On an error nothing has changed.
    pub fn make_edition(&mut self) -> Result<u32, AllocError>
        requires { publish_refusal self.old ≡ None }
        ensures ok { OnOk result (self.new ≡ with_edition self.old) }
        ensures edition { IfOk result (λ n. n ≡ length self.new.batches) }
        ensures err { OnErr result (self.new ≡ self.old) }
    {
        self.copies.make_edition()
    }
}
