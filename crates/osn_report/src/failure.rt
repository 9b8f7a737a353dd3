//! Why a command ended early, and at which file.
ghost use Rattle.std.specs.Prelude.{◌≡◌};
ghost use Rattle.osn_report.specs.Failure as spec;
ghost use Rattle.osn_folder.specs.declared.fault.OpenFailure.{OpenFailure};
ghost use Rattle.osn_report.specs.declared.fault.CommandFault.{CommandFault};

use crate::fault::CommandFault;
use osn_files::{FileFault, Role};
use osn_folder::OpenFailure;

/// Why a command ended early, and at which file. Nothing was written then.
#[derive(Debug, Drop)]
pub struct Failure<'a> {
    /// The path of the file.
    pub path: &'a str,
    /// Why it ended.
    pub fault: CommandFault,
}

impl<'a> From<OpenFailure<'a>> for Failure<'a> {
    ghost from_gives = { λ why value. (value.path.now ≡ why.path.now)
        × (value.fault ≡ CommandFault.ReadFault why.cause) };

    fn from(why: OpenFailure<'a>) -> Failure<'a> {
        Failure {
            path: why.path,
            fault: CommandFault::ReadFault(why.cause),
        }
    }
}

/// Returns whether a file of this role is the second that a command reads.
fn is_second(role: Role) -> bool
    ensures { result ≡ spec.is_second role }
{
    match role {
        Role::Questions | Role::Transcript => true,
        Role::Journal | Role::Script | Role::Schedule => false,
    }
}

/// Returns whether a fault of two files is one of the second, by whether a read of that failed.
fn is_at_second(fault: &FileFault, has_failed: bool) -> bool
    ensures { result ≡ spec.is_at_second fault.now has_failed }
{
    match *fault {
        FileFault::NoMemory => false,
        FileFault::ReadFault => has_failed,
        FileFault::BadLine { role, .. } => is_second(role),
    }
}

/// Returns why a command of two files ended early, by this fault, and at which of them: the second
/// if a line of it is bad or a read of it failed, or else the first.
pub fn failure_of_two<'a>(
    fault: CommandFault,
    first: &'a str,
    second: &'a str,
    has_failed: bool,
) -> Failure<'a>
    ensures path { result.path.now ≡ spec.path_of_two fault first.now second.now has_failed }
    ensures fault { result.fault ≡ fault }
{
    let path = match &fault {
        CommandFault::File(why) => {
            if is_at_second(why, has_failed) {
                second
            } else {
                first
            }
        }
        _ => first,
    };
    Failure { path, fault }
}
