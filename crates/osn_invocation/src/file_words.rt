//! What the commands that only read files have to do, by their arguments.

ghost use Rattle.std.specs.Prelude.{◌≡◌};
ghost use Rattle.clap.specs.Words.{found_of, rows_of};
ghost use Rattle.osn_invocation.specs.Invocation.{audit_command, command_model, desk_command};
ghost use Rattle.osn_invocation.specs.Invocation.{replay_command};

use crate::invocation::{CommandWords, READERS};
use crate::values::{number_of, text_of};
use clap::ArgMatches;

/// Returns what the arguments of `replay` ask for.
pub(crate) fn replay_of<'a>(matches: &ArgMatches<'a>) -> CommandWords<'a>
    ensures { command_model result ≡ replay_command (rows_of (found_of matches.now)) }
{
    CommandWords::Replay {
        readers: number_of(matches, "readers", READERS),
        schedule: text_of(matches, "schedule"),
    }
}

/// Returns what the arguments of `desk` ask for.
pub(crate) fn desk_of<'a>(matches: &ArgMatches<'a>) -> CommandWords<'a>
    ensures { command_model result ≡ desk_command (rows_of (found_of matches.now)) }
{
    CommandWords::Desk {
        script: text_of(matches, "script"),
        questions: text_of(matches, "questions"),
    }
}

/// Returns what the arguments of `audit` ask for.
pub(crate) fn audit_of<'a>(matches: &ArgMatches<'a>) -> CommandWords<'a>
    ensures { command_model result ≡ audit_command (rows_of (found_of matches.now)) }
{
    CommandWords::Audit {
        journal: text_of(matches, "journal"),
        transcript: text_of(matches, "transcript"),
    }
}
