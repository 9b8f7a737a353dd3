//! Why a query has no answer of its own.
ghost use Rattle.std.specs.Prelude.{◌≡◌};
ghost use Rattle.osn_register.specs.declared.query_fault.QueryFault.TheVariants as query_fault;

use crate::refusal::Refusal;
use std::alloc::AllocError;

/// Why a query has no answer of its own.
#[derive(Drop)]
pub(crate) enum QueryFault {
    /// It is refused.
    Refused(Refusal),
    /// A growth of memory was refused.
    NoMemory,
}

impl From<Refusal> for QueryFault {
    ghost from_gives = { λ refusal why. why ≡ query_fault.Refused refusal };

    fn from(refusal: Refusal) -> QueryFault {
        QueryFault::Refused(refusal)
    }
}

impl From<AllocError> for QueryFault {
    ghost from_gives = { λ _ why. why ≡ query_fault.NoMemory };

    fn from(_refused: AllocError) -> QueryFault {
        QueryFault::NoMemory
    }
}
