//! Why a territory refuses a call.
ghost use Rattle.std.specs.Prelude.{◌≡◌};
ghost use Rattle.osn_territory.specs.declared.fault.LandFault.TheVariants.{NoMemory};

use std::alloc::AllocError;

/// Why a territory refuses a call, and is as before.
#[derive(Clone, Copy, Debug, PartialEq, Eq, Hash)]
pub enum LandFault {
    /// A period starts on the day already.
    ChangeExists,
    /// No period starts on the day.
    NoSuchChange,
    /// Day 1 begins the opening period, which is altered and neither added nor dropped.
    OpeningPeriod,
    /// A year from Easter to Easter requires the Julian calendar and the Julian rule.
    StyleNeedsJulian,
    /// An exception is listed for the year already.
    ExceptionExists,
    /// No exception is listed for the year.
    NoSuchException,
    /// A growth of memory was refused; the call may be tried again.
    NoMemory,
}

impl From<AllocError> for LandFault {
    ghost from_gives = { λ _ fault. fault ≡ NoMemory };

    fn from(_refused: AllocError) -> LandFault {
        LandFault::NoMemory
    }
}
