//! Why the service stops.
use crate::store::StoreFault;
use std::alloc::AllocError;

/// A write of the replies that wait failed, and this many of them are not written whole.
#[derive(Clone, Copy)]
pub(crate) struct UnwrittenReplies {
    pub(crate) unwritten: u64,
}

/// Why the service stops before the end of the input.
#[derive(Drop)]
pub(crate) enum Stop<F> {
    /// Memory ran out.
    NoMemory,
    /// A write failed.
    WriteFailed(UnwrittenReplies),
    /// A change was made and could not be kept.
    NotKept(F),
    /// The line was refused and ends the service.
    Refused,
}

impl<F> From<AllocError> for Stop<F> {
    ghost use Rattle.std.specs.Prelude.{◌≡◌};
    ghost use Rattle.osn_service.specs.declared.stop.Stop.TheVariants.{NoMemory};

    ghost from_gives = { λ _ e. e ≡ NoMemory };

    fn from(_: AllocError) -> Stop<F> {
        Stop::NoMemory
    }
}

impl<F> From<UnwrittenReplies> for Stop<F> {
    ghost use Rattle.std.specs.Prelude.{◌≡◌};
    ghost use Rattle.osn_service.specs.declared.stop.Stop.TheVariants.{WriteFailed};

    ghost from_gives = { λ replies e. e ≡ WriteFailed replies };

    fn from(replies: UnwrittenReplies) -> Stop<F> {
        Stop::WriteFailed(replies)
    }
}

impl<F> From<StoreFault<F>> for Stop<F> {
    ghost use Rattle.std.specs.Prelude.{◌≡◌};
    ghost use Rattle.osn_service.specs.Stop.{by_store};

    ghost from_gives = { λ fault e. e ≡ by_store fault };

    fn from(fault: StoreFault<F>) -> Stop<F> {
        match fault {
            StoreFault::NoMemory => Stop::NoMemory,
            StoreFault::NotKept(why) => Stop::NotKept(why),
        }
    }
}
