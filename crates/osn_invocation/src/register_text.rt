//! What the commands for editions and for the register as a text have to do, by their arguments.

ghost use Rattle.std.specs.Prelude.{◌≡◌};
ghost use Rattle.clap.specs.Words.{found_of, rows_of};
ghost use Rattle.osn_invocation.specs.Invocation.{check_command, command_model, diff_command};
ghost use Rattle.osn_invocation.specs.Invocation.{editions_command, plan_command};
ghost use Rattle.osn_invocation.specs.Invocation.{publish_command, text_command};

use crate::invocation::CommandWords;
use crate::values::{is_given, text_of, value_of};
use clap::ArgMatches;

/// Returns what the argument of `editions` asks for.
pub(crate) fn editions_of<'a>(matches: &ArgMatches<'a>) -> CommandWords<'a>
    ensures { command_model result ≡ editions_command (rows_of (found_of matches.now)) }
{
    CommandWords::Editions {
        journal: text_of(matches, "journal"),
    }
}

/// Returns what the arguments of `diff` ask for.
pub(crate) fn diff_of<'a>(matches: &ArgMatches<'a>) -> CommandWords<'a>
    ensures { command_model result ≡ diff_command (rows_of (found_of matches.now)) }
{
    CommandWords::Diff {
        journal: text_of(matches, "journal"),
        from: text_of(matches, "from"),
        to: text_of(matches, "to"),
    }
}

/// Returns what the arguments of `text` ask for.
pub(crate) fn register_text_of<'a>(matches: &ArgMatches<'a>) -> CommandWords<'a>
    ensures { command_model result ≡ text_command (rows_of (found_of matches.now)) }
{
    CommandWords::Text {
        journal: text_of(matches, "journal"),
        edition: value_of(matches, "edition"),
        code: value_of(matches, "code"),
    }
}

/// Returns what the argument of `check` asks for.
pub(crate) fn check_of<'a>(matches: &ArgMatches<'a>) -> CommandWords<'a>
    ensures { command_model result ≡ check_command (rows_of (found_of matches.now)) }
{
    CommandWords::Check {
        text: text_of(matches, "text"),
    }
}

/// Returns what the arguments of `plan` ask for.
pub(crate) fn plan_of<'a>(matches: &ArgMatches<'a>) -> CommandWords<'a>
    ensures { command_model result ≡ plan_command (rows_of (found_of matches.now)) }
{
    CommandWords::Plan {
        journal: text_of(matches, "journal"),
        text: text_of(matches, "text"),
        strict: is_given(matches, "strict"),
    }
}

/// Returns what the arguments of `publish` ask for.
pub(crate) fn publish_of<'a>(matches: &ArgMatches<'a>) -> CommandWords<'a>
    ensures { command_model result ≡ publish_command (rows_of (found_of matches.now)) }
{
    CommandWords::Publish {
        journal: text_of(matches, "journal"),
        text: text_of(matches, "text"),
        onto_newest: is_given(matches, "onto-newest"),
    }
}
