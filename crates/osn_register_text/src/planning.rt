//! The edits that take one register to a target one.
ghost use Rattle.std.specs.Prelude.{◌≡◌, IfOk, IfErr};
ghost use Rattle.osn_register_text.specs.Differences.{all_edits};
ghost use Rattle.osn_register_text.specs.Fault.{IsFault};
ghost use Rattle.osn_register_text.specs.Plan.{IsPlan};

use crate::names::check_names;
use crate::pair::TerritoryPair;
use crate::plan_fault::PlanFault;
use crate::territories::push_edits;
use crate::trial::try_edits;
use osn_register::{Edit, Register};
use std::alloc::{AllocError, Global};

/// Returns the edits that each target territory needs, in the order of these.
fn all_edits(alloc: Global, register: &Register, target: &Register) -> Result<Vec<Edit>, AllocError>
    ensures { IfOk result
        (λ es. es.items ≡ all_edits target.now.territories register.now.territories) }
{
    // There are no more territories than the limit, so that each place fits.
    let _most = target.limits().lands;
    let mut edits = Vec::new(alloc);
    let mut index = 0;
    while let Some((code, name, territory)) = target.territory_at(index) {
        let pair = TerritoryPair {
            alloc,
            code,
            register,
            target,
        };
        push_edits(pair, name, territory, &mut edits)?;
        index += 1;
    }
    Ok(edits)
}

/// Returns the edits that take a register to a target one: its territories, and the sources of
/// their periods and listed Easters. They are in the order of the target's territories. For each of
/// these, changes of regime are dropped before others are added or altered, and then listed Easters
/// before others are listed, by the day or the year. A territory that the target register lacks
/// stays as it is. The limits are those of the first register.
///
/// # Errors
///
/// Returns `Renamed` for the first territory of the target whose code has another name, then
/// `Refused` if the register refuses an edit that is needed, such as one territory more than its
/// limit. Returns `NoMemory` if memory runs out.
pub fn plan(alloc: Global, register: &Register, target: &Register) -> Result<Vec<Edit>, PlanFault>
    ensures ok { IfOk result (λ edits. IsPlan register.now.limits target.now.territories
        register.now.territories edits.items) }
    ensures err { IfErr result
        (IsFault register.now.limits target.now.territories register.now.territories) }
{
    // What both contain is sound, as of every register.
    let _limits = (register.limits(), target.limits());
    check_names(alloc, register, target)?;
    let edits = all_edits(alloc, register, target)?;
    try_edits(register, edits.as_slice())?;
    Ok(edits)
}
