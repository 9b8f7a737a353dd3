//! Why a command ended early.
ghost use Rattle.std.specs.Prelude.{◌≡◌};
ghost use Rattle.osn_report.specs.Fault.{by_read};
ghost use Rattle.osn_report.specs.declared.fault.CommandFault.{CommandFault};

use osn_files::FileFault;
use osn_folder::{ChangeCause, FollowFault, KeepFault, KeptFileFault, OpenFailed};
use osn_lines::ReadAllFault;
use osn_live::DeskFault;
use osn_register::Refusal;
use osn_request::Version;
use osn_service::ServeFault;
use std::alloc::AllocError;

/// Why a command ended early. It contains the fault that the command met, as it is.
#[derive(Debug, Drop)]
pub enum CommandFault {
    /// A file could not be read, or one of its lines is refused.
    File(FileFault),
    /// Not all lines could be answered.
    Service(ServeFault),
    /// What the arguments ask for is refused.
    Refused(Refusal),
    /// A desk answered nothing.
    Desk(DeskFault),
    /// A journal to keep is named, and also one to begin with or to save.
    KeptWithOther,
    /// An upgrade is asked for, and no journal to keep is named.
    UpgradeWithoutKeep,
    /// A file could not be locked, to be kept or to save a journal to it.
    Keep(KeepFault),
    /// The journal that is kept could not be changed, or is another file now.
    KeptFile(KeptFileFault),
    /// A journal to follow is named, and also one to begin with, to keep or to save.
    FollowedWithOther,
    /// The journal that is followed could not be read, or is another file now.
    FollowedFile(FollowFault),
    /// A journal of this version, which lacks words of an edit, is not kept.
    OlderVersion(Version),
    /// The line of this number was refused and ended the service. Lines are counted from 1.
    RefusedLine(u64),
    /// A file could not be opened. The line on standard error names its path.
    NotOpened(OpenFailed),
    /// A file could not be opened. The line on standard error reports a read fault.
    ReadFault(OpenFailed),
    /// A text could not be written to standard output.
    WriteFault,
    /// A journal could not be saved.
    NotSaved(ChangeCause),
    /// Memory ran out.
    NoMemory,
}

impl From<FileFault> for CommandFault {
    ghost from_gives = { λ fault value. value ≡ CommandFault.File fault };

    fn from(fault: FileFault) -> CommandFault {
        CommandFault::File(fault)
    }
}

impl From<ReadAllFault> for CommandFault {
    ghost from_gives = { λ fault value. value ≡ by_read fault };

    fn from(fault: ReadAllFault) -> CommandFault {
        match fault {
            ReadAllFault::NoMemory => CommandFault::NoMemory,
            ReadAllFault::ReadFault => CommandFault::File(FileFault::ReadFault),
        }
    }
}

impl From<KeptFileFault> for CommandFault {
    ghost from_gives = { λ fault value. value ≡ CommandFault.KeptFile fault };

    fn from(fault: KeptFileFault) -> CommandFault {
        CommandFault::KeptFile(fault)
    }
}

impl From<AllocError> for CommandFault {
    ghost from_gives = { λ _ value. value ≡ CommandFault.NoMemory };

    fn from(_error: AllocError) -> CommandFault {
        CommandFault::NoMemory
    }
}
