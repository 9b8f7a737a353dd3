//! A register that advances from edition to edition.
ghost use Rattle.std.specs.Prelude.{◌≡◌, ◌≤◌, [], IfOk, OnOk, length, take};
ghost use Rattle.osn_days.specs.Rules.{newest_rules};
ghost use Rattle.osn_register.specs.BorrowedQuery.{as_query};
ghost use Rattle.osn_register.specs.Plain.{after_edits, register_after};
ghost use Rattle.osn_register.specs.Lawful.{AreLawful};
ghost use Rattle.osn_core.specs.Sequential.{joined, reply_at};
ghost use Rattle.osn_file_commands.specs.InsideFollower.{IsAt};

use osn_core::{Batch, Object};
use osn_register::{Answer, BorrowedQuery, Edit, Limits, Register};
use std::alloc::{AllocError, Global};
use std::mem;

/// Applies edits that are lawful, each in its turn, without another check.
fn admit_edits(register: &mut Register, edits: &[Edit]) -> Result<(), AllocError>
    requires { AreLawful newest_rules register.old.limits register.old.territories edits.now }
    ensures { OnOk result (register.new ≡ record register.old {
      territories = after_edits newest_rules register.old.limits register.old.territories edits.now;
    }) }
{
    for edit in edits {
        register.admit(edit)?;
    }
    Ok(())
}

/// Applies the edits of batches, which are lawful, each in its turn.
fn admit_batches(register: &mut Register, batches: &[Batch]) -> Result<(), AllocError>
    requires { AreLawful newest_rules register.old.limits register.old.territories
        (joined batches.now) }
    ensures { OnOk result (register.new ≡ record register.old {
      territories = after_edits newest_rules register.old.limits register.old.territories
          (joined batches.now);
    }) }
{
    for batch in batches {
        admit_edits(register, batch.edits())?;
    }
    Ok(())
}

/// A register, and the edition that it is at.
#[derive(Drop)]
pub(crate) struct RegisterCursor {
    pub(crate) edition: u32,
    pub(crate) register: Register,
}

impl RegisterCursor {
    /// Returns a follower at edition 0, which is empty.
    pub(crate) fn new(alloc: Global, limits: Limits) -> RegisterCursor
        ensures edition { result.edition ≡ 0 }
        ensures register { result.register ≡ register_after newest_rules limits [] }
    {
        RegisterCursor {
            edition: 0,
            register: Register::new(alloc, limits),
        }
    }

    /// Returns the follower at an edition that is not before its own.
    fn at(self, batches: &[Batch], edition: u32) -> Result<RegisterCursor, AllocError>
        requires at { IsAt self.register.limits batches.now self }
        requires lawful { AreLawful newest_rules self.register.limits [] (joined batches.now) }
        requires from { self.edition ≤ edition }
        requires there { edition ≤ length batches.now }
        ensures edition { IfOk result (λ f. f.edition ≡ edition) }
        ensures register { IfOk result (λ f. IsAt self.register.limits batches.now f) }
    {
        let mut register = self.register;
        admit_batches(
            &mut register,
            &batches[self.edition as usize..edition as usize],
        )?;
        Ok(RegisterCursor { edition, register })
    }

    /// Advances to an edition of the object that is not before its own, and returns the answer to a
    /// query under that edition. If memory runs out, the follower is at edition 0.
    pub(crate) fn ask(
        &mut self,
        alloc: Global,
        object: &Object,
        edition: u32,
        query: BorrowedQuery<'_>,
    ) -> Result<Answer, AllocError>
        requires at { IsAt object.now.limits object.now.batches self.old }
        requires from { self.old.edition ≤ edition }
        requires there { edition ≤ length object.now.batches }
        ensures answer { IfOk result (λ a. a ≡ (reply_at newest_rules object.now.limits
            (take edition object.now.batches) (as_query query.entry)).answer) }
        ensures edition { self.new.edition ≤ edition }
        ensures at { IsAt object.now.limits object.now.batches self.new }
    {
        let none = RegisterCursor::new(alloc, object.register().limits());
        let before = mem::replace(self, none);
        let after = before.at(object.batches(), edition)?;
        let answer = after.register.answer_borrowed(query)?;
        *self = after;
        Ok(answer)
    }
}
