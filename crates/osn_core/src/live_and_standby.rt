//! The sequential object over two registers, which a publish exchanges.
ghost use Rattle.std.specs.Prelude.{◌≡◌, ◌<◌, ◌≤◌, ◌+◌, ◌-◌, length, get_or, None, IfOk, OnOk};
ghost use Rattle.std.specs.Prelude.{OnErr};
ghost use Rattle.osn_days.specs.Rules.{newest_rules};
ghost use Rattle.osn_register.specs.Refusal.{IsCheckOf};
ghost use Rattle.osn_core.specs.Sequential.{with_pending, with_edition, stage_refusal};
ghost use Rattle.osn_core.specs.Sequential.{publish_refusal, territories_of, last_batch, IsSound};
ghost use Rattle.osn_core.specs.Sequential.{HasLawfulSource};
ghost use Rattle.osn_core.specs.LiveAndStandbyInside.{first_copies, lagging_territories};

use crate::batch::Batch;
use crate::draft::Draft;
use osn_register::{Edit, Limits, Refusal, Register};
use std::alloc::{AllocError, Global};
use std::marker::Model;

/// The batches and the pending edits, and two registers of them. The live one has the batches, and
/// the standby all edits except the last ones of the last batch, which it lacks for a while.
///
/// While edits are pending, the draft's register is the standby; otherwise it is the live one. So a
/// publish exchanges the two, and costs the same however large the register is.
#[derive(Drop)]
pub struct LiveAndStandby {
    draft: Draft,
    /// The register that is not the draft's.
    other: Register,
    /// How many edits of the last batch the standby lacks.
    lag: usize,
    batches: Vec<Batch>,
}

impl Model for LiveAndStandby {
    ghost use Rattle.osn_core.specs.LiveAndStandbyInside.{CopiesState, copies_in, AreCopiesInStep};

    ghost Value = { CopiesState };

    ghost view = { copies_in };

    ghost invariant = { AreCopiesInStep };
}

impl LiveAndStandby {
    /// Returns two registers with no territory, no batch and nothing pending.
    pub fn new(alloc: Global, limits: Limits) -> LiveAndStandby
        ensures { result ≡ first_copies limits }
    {
        LiveAndStandby {
            draft: Draft::new(alloc, limits),
            other: Register::new(alloc, limits),
            lag: 0,
            batches: Vec::new(alloc),
        }
    }

    /// Returns the register of the batches.
    pub fn live(&self) -> &Register
        ensures territories { result.now.territories
            ≡ territories_of newest_rules self.now.object.limits self.now.object.batches }
        ensures limits { result.now.limits ≡ self.now.object.limits }
    {
        if self.draft.pending().is_empty() {
            self.draft.register()
        } else {
            &self.other
        }
    }

    /// Returns the register of all edits except those that the standby lacks.
    pub fn standby(&self) -> &Register
        ensures territories { result.now.territories ≡ lagging_territories newest_rules self.now }
        ensures limits { result.now.limits ≡ self.now.object.limits }
    {
        if self.draft.pending().is_empty() {
            &self.other
        } else {
            self.draft.register()
        }
    }

    /// Returns how many edits of the last batch the standby lacks.
    pub fn lag(&self) -> usize
        ensures { result ≡ self.now.lag }
    {
        self.lag
    }

    /// Returns the batches, each an edition.
    pub fn batches(&self) -> &[Batch]
        ensures value { result.now ≡ self.now.object.batches }
        ensures sound { IsSound newest_rules self.now.object }
    {
        self.batches.as_slice()
    }

    /// Returns the pending edits.
    pub fn pending(&self) -> &[Edit]
        ensures { result.now ≡ self.now.object.pending }
    {
        self.draft.pending().as_slice()
    }

    /// Returns the number of batches.
    pub fn edition(&self) -> u32
        ensures { result ≡ length self.now.object.batches }
    {
        self.draft.edition()
    }

    /// Returns how many edits would be pending if this one were staged now, or the first refusal.
    pub fn check(&self, edit: &Edit) -> Result<u32, Refusal>
        ensures test { IsCheckOf (stage_refusal newest_rules self.now.object edit.now) result }
        ensures count { IfOk result (λ n. n ≡ length self.now.object.pending + 1) }
    {
        self.draft.check(edit)
    }

    /// Stages an edit that `check` accepted, in a standby that lacks nothing, and returns how many
    /// are pending then.
    ///
    /// # Errors
    ///
    /// If memory runs out. On an error nothing has changed.
    pub fn admit(&mut self, edit: Edit) -> Result<u32, AllocError>
        requires lag { self.old.lag ≡ 0 }
        requires lawful { stage_refusal newest_rules self.old.object edit ≡ None }
        ensures ok { OnOk result
            (self.new ≡ record { object = with_pending self.old.object edit; lag = 0 }) }
        ensures count { IfOk result (λ n. n ≡ length self.new.object.pending) }
        ensures source { OnOk result (HasLawfulSource edit) }
        ensures err { OnErr result (self.new ≡ self.old) }
    {
        self.take_standby();
        Ok(self.draft.admit(edit)?)
    }

    /// Makes the standby the register of the draft. If the draft still has the live register, both
    /// are equal.
    fn take_standby(&mut self)
        requires { self.old.lag ≡ 0 }
        ensures { self.new ≡ self.old }
    {
        if self.draft.pending().is_empty() {
            self.draft.exchange(&mut self.other);
        }
    }

    /// Returns the edition that a publish would make now, or the first refusal.
    pub fn check_publish(&self) -> Result<u32, Refusal>
        ensures test { IsCheckOf (publish_refusal self.now.object) result }
        ensures edition { IfOk result (λ n. n ≡ length self.now.object.batches + 1) }
    {
        self.draft.check_publish()
    }

    /// Makes the standby the live register, with the pending edits as the next batch, which the
    /// other one then lacks, and returns the number of batches.
    ///
    /// # Errors
    ///
    /// If memory runs out. On an error nothing has changed.
    pub fn make_edition(&mut self) -> Result<u32, AllocError>
        requires { publish_refusal self.old.object ≡ None }
        ensures ok { OnOk result (self.new ≡ record {
          object = with_edition self.old.object;
          lag = length self.old.object.pending;
        }) }
        ensures edition { IfOk result (λ n. n ≡ length self.new.object.batches) }
        ensures err { OnErr result (self.new ≡ self.old) }
    {
        self.batches.reserve(1)?;
        let lag = self.draft.pending().len();
        let batch = self.draft.make_edition();
        self.batches.push_reserved(batch);
        self.lag = lag;
        Ok(self.draft.edition())
    }

    /// Applies to the standby the next edit that it lacks.
    ///
    /// # Errors
    ///
    /// If memory runs out. On an error nothing has changed.
    pub fn absorb(&mut self) -> Result<(), AllocError>
        requires { 0 < self.old.lag }
        ensures ok { OnOk result (self.new ≡ record self.old { lag = self.old.lag - 1 }) }
        ensures err { OnErr result (self.new ≡ self.old) }
    {
        self.other.admit(next_edit(&self.batches, self.lag))?;
        self.lag -= 1;
        Ok(())
    }

    /// Applies to the standby all that it lacks.
    ///
    /// # Errors
    ///
    /// If memory runs out. Then the standby has some of the edits.
    pub fn catch_up(&mut self) -> Result<(), AllocError>
        ensures object { self.new.object ≡ self.old.object }
        ensures all { OnOk result (self.new.lag ≡ 0) }
    {
        while self.lag > 0 {
            self.absorb()?;
        }
        Ok(())
    }
}

/// Returns the edit of the last batch with which the last ones begin, as many as the lag.
fn next_edit(batches: &[Batch], lag: usize) -> &Edit
    requires some { 0 < lag }
    requires of_last { lag ≤ length (last_batch batches.now) }
    ensures { result.now ≡ get_or (last_batch batches.now)
        (length (last_batch batches.now) - lag) result.now }
{
    let edits = batches[batches.len() - 1].edits();
    &edits[edits.len() - lag]
}
