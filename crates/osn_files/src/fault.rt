//! Why a file is refused.
ghost use Rattle.std.specs.Prelude.{◌≡◌};
ghost use Rattle.osn_files.specs.Faults.{line_fault_number, line_fault_name};

use osn_register::Refusal;
use osn_request::WireFault;
use std::alloc::AllocError;
use thiserror::Error;

/// What a file is read as.
#[derive(Clone, Copy, Debug, PartialEq, Eq, Hash)]
pub enum Role {
    /// The edits and publishes of an object, after a head.
    Journal,
    /// The edits and publishes of one editor, after a head.
    Script,
    /// The queries of readers.
    Questions,
    /// The steps of one editor and of readers.
    Schedule,
    /// The queries of readers, each with its reply.
    Transcript,
}

/// Why a line of a file is refused.
#[derive(Clone, Copy, Debug, PartialEq, Eq, Hash)]
pub enum LineFault {
    /// The line doesn't have the form of this file's lines.
    Wire(WireFault),
    /// What the line asks for is refused.
    Register(Refusal),
}

impl LineFault {
    /// Returns the number of the fault, as in a reply.
    pub fn number(self) -> u8
        ensures { result ≡ line_fault_number self }
    {
        match self {
            LineFault::Wire(fault) => fault.number(),
            LineFault::Register(refusal) => refusal.number(),
        }
    }

    /// Returns the name of the fault, as in a reply.
    pub fn name(self) -> &'static str
        ensures { result.now ≡ line_fault_name self }
    {
        match self {
            LineFault::Wire(fault) => fault.name(),
            LineFault::Register(refusal) => refusal.name(),
        }
    }
}

/// Why a file gave nothing.
#[derive(Debug, Drop, Error)]
pub enum FileFault {
    /// Memory ran out.
    #[error("memory ran out")]
    NoMemory,
    /// The source failed, or gave no end within 4,294,967,295 reads.
    #[error("the file could not be read")]
    ReadFault,
    /// A line is refused. Lines are counted from 1.
    #[error("line {line} is refused")]
    BadLine {
        /// What the file is read as.
        role: Role,
        /// The number of the line.
        line: u64,
        /// Why it is refused.
        fault: LineFault,
    },
}

impl From<AllocError> for FileFault {
    ghost use Rattle.std.specs.Prelude.{◌≡◌};
    ghost use Rattle.osn_files.specs.declared.fault.FileFault.TheVariants.{NoMemory};

    ghost from_gives = { λ _ fault. fault ≡ NoMemory };

    fn from(_: AllocError) -> FileFault {
        FileFault::NoMemory
    }
}
