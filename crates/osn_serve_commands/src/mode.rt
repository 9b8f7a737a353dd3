//! Which service the options of `serve` ask for.
ghost use Rattle.std.specs.Prelude.{◌≡◌, Ok, Err, IfErr, IfOk};
ghost use Rattle.osn_serve_commands.specs.Mode.{mode_model, mode_of_options};

use osn_invocation::ServeOptions;
use osn_report::CommandFault;

/// Which service is run. Files are named by their paths.
#[derive(Clone, Copy)]
pub(crate) enum Mode<'a> {
    /// One in memory.
    Load {
        /// The journal to begin with, if any.
        journal: Option<&'a str>,
        /// The file to which the journal is saved in the end, if any.
        save: Option<&'a str>,
    },
    /// One that keeps its journal in this file.
    Keep(&'a str),
    /// One that keeps its journal in this file, after the file was upgraded.
    Upgrade(&'a str),
    /// One that follows the journal which another run keeps in this file.
    Follow(&'a str),
}

/// Returns which service the options ask for.
///
/// # Errors
///
/// `UpgradeWithoutKeep`, `FollowedWithOther` or `KeptWithOther`, the first that applies.
pub(crate) fn mode_of<'a>(options: ServeOptions<'a>) -> Result<Mode<'a>, CommandFault>
    ensures ok { IfOk result (λ mode. mode_of_options options.entry ≡ Ok (mode_model mode)) }
    ensures err { IfErr result (λ fault. mode_of_options options.entry ≡ Err fault) }
{
    let ServeOptions {
        journal,
        save,
        keep,
        upgrade,
        follow,
        ..
    } = options;
    match (upgrade, keep, follow, journal, save) {
        (true, None, _, _, _) => Err(CommandFault::UpgradeWithoutKeep),
        (false, None, None, _, _) => Ok(Mode::Load { journal, save }),
        (false, None, Some(path), None, None) => Ok(Mode::Follow(path)),
        (false, Some(path), None, None, None) => Ok(Mode::Keep(path)),
        (true, Some(path), None, None, None) => Ok(Mode::Upgrade(path)),
        (_, _, Some(_), _, _) => Err(CommandFault::FollowedWithOther),
        (_, Some(_), None, _, _) => Err(CommandFault::KeptWithOther),
    }
}
