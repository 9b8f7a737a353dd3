//! Why there is no plan.
ghost use Rattle.std.specs.Prelude.{◌≡◌};

use osn_register::{Refusal, Text};
use std::alloc::AllocError;

/// Why there is no plan.
#[derive(Debug, Drop)]
pub enum PlanFault {
    /// The code has another name than the target one, and a name can't be changed.
    Renamed {
        code: Text,
        name: Text,
        new_name: Text,
    },
    /// The register refuses an edit of the territory that has the code.
    Refused {
        code: Text,
        refusal: Refusal,
    },
    /// A growth of memory was refused; the call may be tried again.
    NoMemory,
}

impl From<AllocError> for PlanFault {
    ghost use Rattle.osn_register_text.specs.declared.plan_fault.PlanFault.TheVariants.{NoMemory};

    ghost from_gives = { λ _ fault. fault ≡ NoMemory };

    fn from(_: AllocError) -> PlanFault {
        PlanFault::NoMemory
    }
}
