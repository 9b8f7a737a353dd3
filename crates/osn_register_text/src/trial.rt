//! Whether a register takes edits, tried on a copy of it.
ghost use Rattle.std.specs.Prelude.{◌≡◌, None, OnOk, IfErr};
ghost use Rattle.osn_days.specs.Rules.{newest_rules};
ghost use Rattle.osn_register.specs.Lawful.{AreLawful};
ghost use Rattle.osn_register.specs.Plain.{refusal, after_edits, IsWellFormed};
ghost use Rattle.osn_register_text.specs.Fault as spec;

use crate::plan_fault::PlanFault;
use osn_register::{Edit, Register};

/// Checks that the register takes the edit now.
fn check_edit(register: &Register, edit: &Edit) -> Result<(), PlanFault>
    ensures ok { OnOk result
        (refusal newest_rules register.now.limits register.now.territories edit.now ≡ None) }
    ensures err { IfErr result
        (spec.IsEditFault register.now.limits register.now.territories edit.now) }
{
    match register.check(edit) {
        Ok(()) => Ok(()),
        Err(refusal) => Err(PlanFault::Refused {
            code: edit.code().copy()?,
            refusal,
        }),
    }
}

/// Checks that the register takes the edits, each after those before it.
pub(crate) fn try_edits(register: &Register, edits: &[Edit]) -> Result<(), PlanFault>
    ensures lawful { OnOk result
        (AreLawful newest_rules register.now.limits register.now.territories edits.now) }
    ensures well_formed { OnOk result (IsWellFormed newest_rules (record register.now {
      territories = after_edits newest_rules register.now.limits register.now.territories edits.now;
    })) }
    ensures err { IfErr result
        (spec.IsTrialFault register.now.limits register.now.territories edits.now) }
{
    let mut draft = register.copy()?;
    for edit in edits {
        check_edit(&draft, edit)?;
        draft.admit(edit)?;
    }
    // What the draft is now is within its limits, as every register.
    let _limits = draft.limits();
    Ok(())
}
