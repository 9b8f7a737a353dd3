//! Why a follower ended early.
ghost use Rattle.std.specs.Prelude.{◌≡◌};
ghost use Rattle.osn_journal.specs.declared.follower_fault.FollowerFault.TheVariants.{Serve, File};

use osn_files::FileFault;
use osn_folder::FollowFault;
use osn_service::ServeFault;

/// Why a follower answered no more lines. The number of lines beside it counts those whose reply
/// was written whole.
#[derive(Debug, Drop)]
pub enum FollowerFault {
    /// Memory ran out, or the input or the output failed.
    Serve(ServeFault),
    /// A line of the journal is refused.
    Journal(FileFault),
    /// The file could not be read, or it is no longer the one that was read so far.
    File(FollowFault),
}

impl From<ServeFault> for FollowerFault {
    ghost from_gives = { λ fault value. value ≡ Serve fault };

    fn from(fault: ServeFault) -> FollowerFault {
        FollowerFault::Serve(fault)
    }
}

impl From<FollowFault> for FollowerFault {
    ghost from_gives = { λ fault value. value ≡ File fault };

    fn from(fault: FollowFault) -> FollowerFault {
        FollowerFault::File(fault)
    }
}
