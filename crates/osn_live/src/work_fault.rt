//! How the work through one list fails, and what a desk answers then.
ghost use Rattle.std.specs.Prelude.{◌≡◌};
ghost use Rattle.osn_live.specs.InsideFaults.{by_ask, by_work};
ghost use Rattle.osn_live.specs.declared.work_fault.WorkFault.{WorkFault};

use crate::faults::{AskFault, DeskFault};
use std::alloc::{AllocError, AllocFailed};

/// Why the work through a list ended early. It shows nothing of the history.
#[derive(Clone, Copy, Debug, Drop)]
pub enum WorkFault {
    /// A growth of memory was refused.
    NoMemory,
    /// There is no room for a reader, or no thread.
    NoPlace,
    /// The gate was closed to an item.
    GateClosed,
}

impl From<AllocError> for WorkFault {
    ghost from_gives = { λ _ value. value ≡ WorkFault.NoMemory };

    fn from(_error: AllocError) -> WorkFault {
        WorkFault::NoMemory
    }
}

impl<T: Drop> From<AllocFailed<T>> for WorkFault {
    ghost from_gives = { λ _ value. value ≡ WorkFault.NoMemory };

    fn from(_failed: AllocFailed<T>) -> WorkFault {
        WorkFault::NoMemory
    }
}

impl From<AskFault> for WorkFault {
    ghost from_gives = { λ fault value. value ≡ by_ask fault };

    fn from(fault: AskFault) -> WorkFault {
        match fault {
            AskFault::NoMemory => WorkFault::NoMemory,
            AskFault::NoPlace => WorkFault::NoPlace,
        }
    }
}

impl From<WorkFault> for DeskFault {
    ghost from_gives = { λ fault value. value ≡ by_work fault };

    fn from(fault: WorkFault) -> DeskFault {
        match fault {
            WorkFault::NoMemory => DeskFault::NoMemory,
            WorkFault::NoPlace => DeskFault::NoPlace,
            WorkFault::GateClosed => DeskFault::GateClosed,
        }
    }
}
