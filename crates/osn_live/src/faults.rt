//! How the calls of the running register fail.
ghost use Rattle.std.specs.Prelude.{◌≡◌};
ghost use Rattle.osn_live.specs.Faults.{desk_fault_number, desk_fault_name};
ghost use Rattle.osn_live.specs.InsideFaults.{by_open};
ghost use Rattle.osn_live.specs.declared.faults.DeskFault.{DeskFault};
ghost use Rattle.osn_live.specs.declared.faults.OpenFault.{OpenFault};

use std::alloc::{AllocError, AllocFailed};
use thiserror::Error;

/// Why no register was opened.
#[derive(Clone, Copy, Debug, Drop, PartialEq, Eq, Error)]
pub enum OpenFault {
    /// A growth of memory was refused; the call may be tried again.
    #[error("memory ran out; nothing was opened")]
    NoMemory,
    /// The readers are 1 to 64.
    #[error("the number of readers is not 1 to 64")]
    BadCount,
    /// There is no room for a reader.
    #[error("there is no room for a reader; nothing was opened")]
    NoPlace,
}

impl From<AllocError> for OpenFault {
    ghost from_gives = { λ _ value. value ≡ OpenFault.NoMemory };

    fn from(_error: AllocError) -> OpenFault {
        OpenFault::NoMemory
    }
}

impl<T: Drop> From<AllocFailed<T>> for OpenFault {
    ghost from_gives = { λ _ value. value ≡ OpenFault.NoMemory };

    fn from(_failed: AllocFailed<T>) -> OpenFault {
        OpenFault::NoMemory
    }
}

/// Why nothing was published. What is pending remains.
#[derive(Clone, Copy, Debug, Drop, PartialEq, Eq, Error)]
pub enum PublishFault {
    /// There is no edit to publish.
    #[error("nothing is pending")]
    NothingPending,
    /// There are as many editions as the limit allows.
    #[error("there are as many editions as the limit allows")]
    EditionsFull,
    /// A growth of memory was refused; the call may be tried again.
    #[error("memory ran out; the pending edits are kept")]
    NoMemory,
}

/// Why a query was not answered.
#[derive(Clone, Copy, Debug, Drop, PartialEq, Eq, Error)]
pub enum AskFault {
    /// A growth of memory was refused; the call may be tried again.
    #[error("memory ran out")]
    NoMemory,
    /// The reader was not admitted: the editor was closed.
    #[error("the editor was closed")]
    NoPlace,
}

/// Why a desk answered nothing. If there are several faults, any of them is returned.
#[derive(Clone, Copy, Debug, Drop, PartialEq, Eq, Error)]
pub enum DeskFault {
    /// A growth of memory was refused.
    #[error("memory ran out")]
    NoMemory,
    /// Once all had ended, a reader had seen more editions than there were. No contract excludes
    /// it, and no cause for it is known.
    #[error("reader {reader} saw edition {last}, but there are {editions} editions")]
    HistoryBroken {
        /// Which reader, from 1.
        reader: u32,
        /// The last edition that the reader had seen.
        last: u32,
        /// How many editions the script has.
        editions: u32,
    },
    /// The lists of questions are 1 to 64.
    #[error("the number of readers is not 1 to 64")]
    BadCount,
    /// There is no room for a reader, or no thread.
    #[error("there is no room for a reader, or no thread")]
    NoPlace,
    /// The gate was closed to an item.
    #[error("the gate was closed")]
    GateClosed,
}

impl DeskFault {
    /// Returns the number of the fault.
    pub fn number(self) -> u8
        ensures { result ≡ desk_fault_number self }
    {
        match self {
            DeskFault::NoMemory => 90,
            DeskFault::HistoryBroken { .. } => 91,
            DeskFault::BadCount => 92,
            DeskFault::NoPlace => 93,
            DeskFault::GateClosed => 94,
        }
    }

    /// Returns the name of the fault.
    pub fn name(self) -> &'static str
        ensures { result.now ≡ desk_fault_name self }
    {
        match self {
            DeskFault::NoMemory => "NoMemory",
            DeskFault::HistoryBroken { .. } => "HistoryBroken",
            DeskFault::BadCount => "BadCount",
            DeskFault::NoPlace => "NoPlace",
            DeskFault::GateClosed => "GateClosed",
        }
    }
}

impl From<OpenFault> for DeskFault {
    ghost from_gives = { λ fault value. value ≡ by_open fault };

    fn from(fault: OpenFault) -> DeskFault {
        match fault {
            OpenFault::NoMemory => DeskFault::NoMemory,
            OpenFault::BadCount => DeskFault::BadCount,
            OpenFault::NoPlace => DeskFault::NoPlace,
        }
    }
}

impl<T: Drop> From<AllocFailed<T>> for DeskFault {
    ghost from_gives = { λ _ value. value ≡ DeskFault.NoMemory };

    fn from(_failed: AllocFailed<T>) -> DeskFault {
        DeskFault::NoMemory
    }
}
