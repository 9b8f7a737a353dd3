//! Checks that each target territory has the name that its code has already.
ghost use Rattle.std.specs.Prelude.{◌≡◌, false, None, IfOk, OnOk, IfErr};
ghost use Rattle.osn_register_text.specs.declared.plan_fault.PlanFault.TheVariants.{Renamed};
ghost use Rattle.osn_register_text.specs.Fault.{has_other_name, first_renamed, IsNameFault};
ghost use Rattle.osn_register_text.specs.Fault.{IsFault};
ghost use Rattle.osn_register_text.specs.NeededEdits.{name_in};

use crate::plan_fault::PlanFault;
use osn_register::{Register, Text};
use std::alloc::{AllocError, Global};

/// Returns the fault of a code that has another name.
fn renamed_fault(
    alloc: Global,
    code: &str,
    name: &str,
    new_name: &str,
) -> Result<PlanFault, AllocError>
    ensures { IfOk result (λ fault. fault ≡ Renamed code.now name.now new_name.now) }
{
    Ok(PlanFault::Renamed {
        code: Text::from_str(alloc, code)?,
        name: Text::from_str(alloc, name)?,
        new_name: Text::from_str(alloc, new_name)?,
    })
}

/// Checks that the code has this name, if it is present.
fn check_name(alloc: Global, register: &Register, code: &str, name: &str) -> Result<(), PlanFault>
    ensures ok { OnOk result
        (has_other_name name.now (name_in register.now.territories code.now) ≡ false) }
    ensures err { IfErr result (IsNameFault register.now.territories code.now name.now) }
{
    match register.find_territory(code) {
        Some((current, _)) if current != name => Err(renamed_fault(alloc, code, current, name)?),
        _ => Ok(()),
    }
}

/// Checks that every code of the target register that is present has the target name.
pub(crate) fn check_names(
    alloc: Global,
    register: &Register,
    target: &Register,
) -> Result<(), PlanFault>
    ensures ok { OnOk result
        (first_renamed target.now.territories register.now.territories ≡ None) }
    ensures err { IfErr result
        (IsFault register.now.limits target.now.territories register.now.territories) }
{
    // There are no more territories than the limit, so that each place fits.
    let _most = target.limits().lands;
    let mut index = 0;
    while let Some((code, name, _)) = target.territory_at(index) {
        check_name(alloc, register, code, name)?;
        index += 1;
    }
    Ok(())
}
