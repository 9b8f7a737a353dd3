//! A list of steps, taken from the first state.
ghost use Rattle.std.specs.Prelude.{◌≡◌, ℕ, [], ◌∷◌, ◌++◌, None, IfOk, IfErr, OnOk};
ghost use Rattle.osn_register.specs.Refusal.{IsRefusalOrNoMemory};
ghost use Rattle.osn_register.specs.declared.refusal.Refusal.TheVariants.{NoMemory};
ghost use Rattle.osn_days.specs.Rules.{newest_rules};
ghost use Rattle.osn_core.specs.Sequential.{empty_object};
ghost use Rattle.osn_core.specs.Machine.{first_core, out_of, core_after, outs_of, readers_refusal};
ghost use Rattle.osn_core.specs.History.{history, outs_to, editor_outs, replies_to, Begin};
ghost use Rattle.osn_core.specs.History.{editions_to, NeverFalls};

use crate::machine::Core;
use crate::step::{Out, Step};
use osn_register::{Limits, Refusal};
use std::alloc::{AllocError, Global};

/// Takes a list of steps from the first state, enabled or not, and returns what each gives.
///
/// Whatever the steps, the sequential object is run on their history from the empty state. It gives
/// the editor what the editor got, and its replies to a reader begin with those that the reader
/// got. Each is the reply at the check by which its reader entered. The editions that one reader
/// gets never fall.
///
/// # Errors
///
/// `BadCount` if the readers are not 1 to 64. Otherwise `NoMemory` if memory runs out.
pub fn replay(
    alloc: Global,
    limits: Limits,
    readers: u32,
    steps: &[Step],
) -> Result<Vec<Out>, Refusal>
    ensures lawful { OnOk result (readers_refusal readers ≡ None) }
    ensures refused { IfErr result (IsRefusalOrNoMemory (readers_refusal readers)) }
    ensures outs { IfOk result
        (λ outs. outs.items ≡ outs_of newest_rules (first_core limits readers) steps.now) }
    ensures editor { IfOk result (λ outs. editor_outs outs.items
        ≡ editor_outs (outs_to newest_rules (empty_object limits) (history steps.now outs.items))) }
    ensures readers { IfOk result (λ outs. (reader : ℕ) → Begin (replies_to reader outs.items)
        (replies_to reader (outs_to newest_rules (empty_object limits)
        (history steps.now outs.items)))) }
    ensures forward { IfOk result (λ outs.
        (reader : ℕ) → NeverFalls 0 (editions_to reader outs.items)) }
{
    let mut core = Core::new(alloc, limits, readers)?;
    run_steps(alloc, &mut core, steps)
}

/// Returns what each step gives, from a state of the core on, or `NoMemory`.
fn run_steps(alloc: Global, core: &mut Core, steps: &[Step]) -> Result<Vec<Out>, Refusal>
    ensures outs { IfOk result (λ outs. outs.items ≡ outs_of newest_rules core.old steps.now) }
    ensures refused { IfErr result (λ f. f ≡ NoMemory) }
{
    let mut outs = Vec::new(alloc);
    for step in steps {
        take(core, step, &mut outs)?;
    }
    Ok(outs)
}

/// Takes a step, and adds what it gives.
fn take(core: &mut Core, step: &Step, outs: &mut Vec<Out>) -> Result<(), AllocError>
    ensures core { OnOk result (core.new ≡ core_after newest_rules core.old step.now) }
    ensures outs { OnOk result
        (outs.new.items ≡ outs.old.items ++ out_of newest_rules core.old step.now ∷ []) }
{
    outs.push(core.step(step)?)?;
    Ok(())
}
