//! Why a line ends the reading of a file.
use crate::fault::LineFault;
use osn_register::Refusal;
use osn_request::{RequestError, WireFault};
use std::alloc::AllocError;

/// Why a line ends the reading of a file.
#[derive(Drop)]
pub enum LineStop {
    /// Memory ran out.
    NoMemory,
    /// The line has this fault.
    Fault(LineFault),
}

impl From<AllocError> for LineStop {
    ghost use Rattle.std.specs.Prelude.{◌≡◌};
    ghost use Rattle.osn_files.specs.declared.stop.LineStop.TheVariants.{NoMemory};

    ghost from_gives = { λ _ stop. stop ≡ NoMemory };

    fn from(_: AllocError) -> LineStop {
        LineStop::NoMemory
    }
}

impl From<Refusal> for LineStop {
    ghost use Rattle.std.specs.Prelude.{◌≡◌};
    ghost use Rattle.osn_files.specs.declared.fault.LineFault.TheVariants.{Register};
    ghost use Rattle.osn_files.specs.declared.stop.LineStop.TheVariants.{Fault};

    ghost from_gives = { λ refusal stop. stop ≡ Fault (Register refusal) };

    fn from(refusal: Refusal) -> LineStop {
        LineStop::Fault(LineFault::Register(refusal))
    }
}

impl From<WireFault> for LineStop {
    ghost use Rattle.std.specs.Prelude.{◌≡◌};
    ghost use Rattle.osn_files.specs.declared.fault.LineFault.TheVariants.{Wire};
    ghost use Rattle.osn_files.specs.declared.stop.LineStop.TheVariants.{Fault};

    ghost from_gives = { λ fault stop. stop ≡ Fault (Wire fault) };

    fn from(fault: WireFault) -> LineStop {
        LineStop::Fault(LineFault::Wire(fault))
    }
}

impl From<RequestError> for LineStop {
    ghost use Rattle.std.specs.Prelude.{◌≡◌};
    ghost use Rattle.osn_files.specs.Stops.{stop_of};

    ghost from_gives = { λ error stop. stop ≡ stop_of error };

    fn from(error: RequestError) -> LineStop {
        match error {
            RequestError::NoMemory => LineStop::NoMemory,
            RequestError::Fault(fault) => LineStop::Fault(LineFault::Wire(fault)),
        }
    }
}
