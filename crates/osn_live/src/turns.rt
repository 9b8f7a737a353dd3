//! The calls of a gate around the items of one list.
ghost use Rattle.std.specs.Prelude.{◌≡◌, ◌+◌, ◌^◌, ◌<◌, IfErr, OnOk};
ghost use Rattle.osn_live.specs.InsideWork.{IsOfPassing};
ghost use Rattle.osn_live.specs.declared.work_fault.WorkFault.{WorkFault};

use crate::gate::Gate;
use crate::work_fault::WorkFault;

/// The calls of a gate for the items of one list: how many items it was called before, and how many
/// it was called after.
#[derive(Drop)]
pub struct Turns<'a, G> {
    pub gate: &'a G,
    pub who: u32,
    pub begun: usize,
    pub ended: usize,
}

impl<'a, G: Gate> Turns<'a, G> {
    /// Returns the calls of a gate with no item begun.
    pub fn new(gate: &'a G, who: u32) -> Turns<'a, G>
        ensures gate { result.gate.now ≡ gate.now }
        ensures who { result.who ≡ who }
        ensures begun { result.begun ≡ 0 }
        ensures ended { result.ended ≡ 0 }
    {
        Turns {
            gate,
            who,
            begun: 0,
            ended: 0,
        }
    }

    /// Calls the gate before the next item.
    pub fn begin(&mut self) -> Result<(), WorkFault>
        requires between { self.old.begun ≡ self.old.ended }
        requires few { self.old.begun + 1 < 2 ^ 64 }
        ensures ok { OnOk result
            (self.new ≡ record self.old { begun = self.old.begun + 1 }) }
        ensures called { OnOk result
            (G.let_pass self.old.gate.now self.old.who self.old.begun) }
        ensures gate { IfErr result (IsOfPassing (G.is_open self.old.gate.now)) }
        ensures closed { IfErr result (λ why. why ≡ WorkFault.GateClosed) }
    {
        if !self.gate.before(self.who, self.begun) {
            return Err(WorkFault::GateClosed);
        }
        self.begun += 1;
        Ok(())
    }

    /// Calls the gate after the item that was begun.
    pub fn end(&mut self)
        requires { self.old.begun ≡ self.old.ended + 1 }
        ensures counts { self.new ≡ record self.old { ended = self.old.ended + 1 } }
        ensures called { G.saw_end self.old.gate.now self.old.who self.old.ended }
    {
        let _most = self.begun;
        self.gate.after(self.who, self.ended);
        self.ended += 1;
    }
}
