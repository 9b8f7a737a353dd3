//! One editor and its readers over two copies of the register, a step at a time.
ghost use Rattle.std.specs.Prelude.{◌≡◌, ◌<◌, ℕ, true, None, IfOk, IfErr, OnOk, OnErr};
ghost use Rattle.osn_register.specs.Refusal.{IsRefusalOrNoMemory};
ghost use Rattle.osn_days.specs.Rules.{newest_rules};
ghost use Rattle.osn_core.specs.Control.{reader_at};
ghost use Rattle.osn_core.specs.LiveAndStandby.{side_territories, IsSeenBy};
ghost use Rattle.osn_core.specs.Machine.{first_core, out_of, core_after, step_takes_memory};
ghost use Rattle.osn_core.specs.Machine.{readers_refusal};

use crate::live_and_standby::LiveAndStandby;
use crate::phase::Phase;
use crate::reader::ReaderState;
use crate::readers::Readers;
use crate::step::{Out, Reply, Step};
use osn_register::{Edit, Limits, Query, Refusal, Register};
use std::alloc::{AllocError, Global};
use std::marker::Model;

/// The most readers.
pub const MOST_READERS: u32 = 64;

/// One editor and its readers over two copies of the register, a step at a time.
///
/// Readers are in the live side, and the editor works on the other one, the standby. A publish
/// exchanges the two. Those who are still in the side that was live go on there, and the editor
/// waits until the last of them has left.
#[derive(Drop)]
pub struct Core {
    copies: LiveAndStandby,
    /// The side that is live, 0 or 1.
    side: u8,
    phase: Phase,
    readers: Readers,
}

impl Model for Core {
    ghost use Rattle.osn_core.specs.Machine.{CoreState};
    ghost use Rattle.osn_core.specs.CoreInside.{core_in, HoldsCore};

    ghost Value = { CoreState };

    ghost view = { core_in };

    ghost invariant = { HoldsCore };
}

impl Core {
    /// Returns a core with nothing staged and that many idle readers, 1 to 64.
    ///
    /// # Errors
    ///
    /// `BadCount` for another number of readers. Otherwise `NoMemory` if memory runs out.
    pub fn new(alloc: Global, limits: Limits, readers: u32) -> Result<Core, Refusal>
        ensures lawful { OnOk result (readers_refusal readers ≡ None) }
        ensures ok { IfOk result (λ c. c ≡ first_core limits readers) }
        ensures refused { IfErr result (IsRefusalOrNoMemory (readers_refusal readers)) }
    {
        if readers == 0 || readers > MOST_READERS {
            return Err(Refusal::BadCount);
        }
        let readers = Readers::new(alloc, readers)?;
        Ok(Core {
            copies: LiveAndStandby::new(alloc, limits),
            side: 0,
            phase: Phase::Ready,
            readers,
        })
    }

    /// Returns the copy of a side, 0 or 1.
    pub fn side(&self, side: u8) -> &Register
        requires { side < 2 }
        ensures territories { result.now.territories ≡ side_territories newest_rules self.now side }
        ensures limits { result.now.limits ≡ self.now.object.limits }
        ensures readers { (reader : ℕ) →
            IsSeenBy newest_rules self.now.object side result.now.territories
            (reader_at self.now.control.readers reader) }
    {
        if side == self.side {
            self.copies.live()
        } else {
            self.copies.standby()
        }
    }

    /// Takes a step. A step that finds no memory changes nothing, and may be tried again.
    ///
    /// # Errors
    ///
    /// If memory runs out. Pins, checks, leaves and claims need none. Neither does a step that is
    /// not enabled, a refusal, or a query of the figures of a year.
    pub fn step(&mut self, step: &Step) -> Result<Out, AllocError>
        ensures out { IfOk result (λ o. o ≡ out_of newest_rules self.old step.now) }
        ensures ok { OnOk result (self.new ≡ core_after newest_rules self.old step.now) }
        ensures err { OnErr result (self.new ≡ self.old) }
        ensures memory { OnErr result
            (step_takes_memory step.now (out_of newest_rules self.old step.now) ≡ true) }
    {
        match step {
            Step::Look { reader, query } => self.look(*reader, query),
            Step::Pin { reader } => Ok(self.pin(*reader)),
            Step::Check { reader } => Ok(self.check(*reader)),
            Step::Answer { reader } => self.answer(*reader),
            Step::Leave { reader } => Ok(self.leave(*reader)),
            Step::Stage(edit) => self.stage(edit),
            Step::Publish => self.publish(),
            Step::Claim => Ok(self.claim()),
            Step::Absorb => self.absorb(),
        }
    }

    fn look(&mut self, reader: u32, query: &Query) -> Result<Out, AllocError>
        ensures out { IfOk result (λ o. o
            ≡ out_of newest_rules self.old (Step.Look reader query.now)) }
        ensures ok { OnOk result
            (self.new ≡ core_after newest_rules self.old (Step.Look reader query.now)) }
        ensures err { OnErr result (self.new ≡ self.old) }
        ensures memory { OnErr result (step_takes_memory (Step.Look reader query.now)
            (out_of newest_rules self.old (Step.Look reader query.now)) ≡ true) }
    {
        self.readers.look(reader, query, self.side)
    }

    fn pin(&mut self, reader: u32) -> Out
        ensures out { result ≡ out_of newest_rules self.old (Step.Pin reader) }
        ensures after { self.new ≡ core_after newest_rules self.old (Step.Pin reader) }
    {
        self.readers.pin(reader)
    }

    fn check(&mut self, reader: u32) -> Out
        ensures out { result ≡ out_of newest_rules self.old (Step.Check reader) }
        ensures after { self.new ≡ core_after newest_rules self.old (Step.Check reader) }
    {
        self.readers.check(reader, self.side, self.copies.edition())
    }

    #[tactic(auto, using(crate::proofs::ReaderMoves::put_same))]
    fn answer(&mut self, reader: u32) -> Result<Out, AllocError>
        ensures out { IfOk result (λ o. o ≡ out_of newest_rules self.old (Step.Answer reader)) }
        ensures ok { OnOk result (self.new
            ≡ core_after newest_rules self.old (Step.Answer reader)) }
        ensures err { OnErr result (self.new ≡ self.old) }
        ensures memory { OnErr result (step_takes_memory (Step.Answer reader)
            (out_of newest_rules self.old (Step.Answer reader)) ≡ true) }
    {
        let Some(
            ReaderState::Entered {
                query,
                side,
                edition,
            },
        ) = self.readers.get(reader)
        else {
            return Ok(Out::NotNow);
        };
        let (side, edition) = (*side, *edition);
        let answer = self.side(side).answer(query)?;
        self.readers
            .set(reader, ReaderState::Answered { side, edition });
        let reply = Reply { edition, answer };
        Ok(Out::Replied { reader, reply })
    }

    fn leave(&mut self, reader: u32) -> Out
        ensures out { result ≡ out_of newest_rules self.old (Step.Leave reader) }
        ensures after { self.new ≡ core_after newest_rules self.old (Step.Leave reader) }
    {
        self.readers.leave(reader)
    }

    fn stage(&mut self, edit: &Edit) -> Result<Out, AllocError>
        ensures out { IfOk result (λ o. o ≡ out_of newest_rules self.old (Step.Stage edit.now)) }
        ensures ok { OnOk result (self.new
            ≡ core_after newest_rules self.old (Step.Stage edit.now)) }
        ensures err { OnErr result (self.new ≡ self.old) }
        ensures memory { OnErr result (step_takes_memory (Step.Stage edit.now)
            (out_of newest_rules self.old (Step.Stage edit.now)) ≡ true) }
    {
        let Phase::Ready = self.phase else {
            return Ok(Out::NotNow);
        };
        match self.copies.check(edit) {
            Ok(_) => {
                let pending = self.copies.admit(edit.copy()?)?;
                Ok(Out::Staged { pending })
            }
            Err(refusal) => Ok(Out::Refused(refusal)),
        }
    }

    fn publish(&mut self) -> Result<Out, AllocError>
        ensures out { IfOk result (λ o. o ≡ out_of newest_rules self.old Step.Publish) }
        ensures ok { OnOk result (self.new ≡ core_after newest_rules self.old Step.Publish) }
        ensures err { OnErr result (self.new ≡ self.old) }
        ensures memory { OnErr result (step_takes_memory Step.Publish
            (out_of newest_rules self.old Step.Publish) ≡ true) }
    {
        let Phase::Ready = self.phase else {
            return Ok(Out::NotNow);
        };
        match self.copies.check_publish() {
            Ok(_) => {
                let edition = self.copies.make_edition()?;
                self.side = 1 - self.side;
                self.phase = Phase::Draining;
                Ok(Out::Published { edition })
            }
            Err(refusal) => Ok(Out::Refused(refusal)),
        }
    }

    fn claim(&mut self) -> Out
        ensures out { result ≡ out_of newest_rules self.old Step.Claim }
        ensures after { self.new ≡ core_after newest_rules self.old Step.Claim }
    {
        let Phase::Draining = self.phase else {
            return Out::NotNow;
        };
        if self.readers.marks(1 - self.side) {
            return Out::NotNow;
        }
        self.phase = Phase::Claimed;
        Out::Moved
    }

    fn absorb(&mut self) -> Result<Out, AllocError>
        ensures out { IfOk result (λ o. o ≡ out_of newest_rules self.old Step.Absorb) }
        ensures ok { OnOk result (self.new ≡ core_after newest_rules self.old Step.Absorb) }
        ensures err { OnErr result (self.new ≡ self.old) }
        ensures memory { OnErr result (step_takes_memory Step.Absorb
            (out_of newest_rules self.old Step.Absorb) ≡ true) }
    {
        let Phase::Claimed = self.phase else {
            return Ok(Out::NotNow);
        };
        if self.copies.lag() == 0 {
            self.phase = Phase::Ready;
            return Ok(Out::Ready);
        }
        self.copies.absorb()?;
        Ok(Out::Moved)
    }
}
