//! A command line with a text for a journal that it leaves out, which may be a new one.
ghost use Rattle.std.specs.Prelude.{◌≡◌, map, option_map};
ghost use Rattle.osn_commands.specs.NewJournal as spec;

use crate::command_words::{asks_help, command_in, first_plain_word, plain_count};
use crate::journal::option_at;
use std::convert::AsStr;

/// Returns whether a command plans or publishes a text.
pub fn takes_text(command: &str) -> bool
    ensures { result ≡ spec.takes_text command.now }
{
    matches!(command, "plan" | "publish")
}

/// Returns whether the command plans or publishes a text, and no option names its journal.
fn takes_text_for_default<S: AsStr>(words: &[S]) -> bool
    ensures { result ≡ spec.takes_text_for_default (map S.text words.now) }
{
    takes_text(command_in(words)) && option_at(words).is_none()
}

/// Returns whether the text is also the only argument besides the options, which do not ask for
/// help.
fn has_text_alone<S: AsStr>(words: &[S]) -> bool
    ensures { result ≡ spec.has_text_alone (map S.text words.now) }
{
    takes_text_for_default(words) && !asks_help(words) && plain_count(words) == 1
}

/// Returns the text that a command line plans or publishes for a journal that it leaves out: the
/// only argument besides the options. Returns `None` if help is asked for.
pub fn text_alone<S: AsStr>(words: &[S]) -> Option<&str>
    ensures { option_map (λ text. text.now) result ≡ spec.text_alone (map S.text words.now) }
{
    if has_text_alone(words) {
        return first_plain_word(words);
    }
    None
}
