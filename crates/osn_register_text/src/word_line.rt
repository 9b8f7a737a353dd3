//! A line that gives a key a word.
ghost use Rattle.std.specs.Prelude.{◌≡◌, ◌++◌, OnOk, string_bytes};
ghost use Rattle.osn_register_text.specs.WrittenText as spec;

use std::alloc::AllocError;
use std::fmt::Write;

/// Appends the line of a key and its word.
#[tactic(auto, unfolding(crate::specs::WrittenText::word_line))]
pub(crate) fn push_word(out: &mut String, key: &str, word: &str) -> Result<(), AllocError>
    ensures { OnOk result (string_bytes out.new
        ≡ string_bytes out.old ++ spec.word_line key.now word.now) }
{
    writeln!(out, "{key} = \"{word}\"")
}

/// Appends the line of a key and its word, unless the word is the one before.
#[tactic(auto, unfolding(crate::specs::WrittenText::changed_line))]
pub(crate) fn push_changed(
    out: &mut String,
    key: &str,
    before: &str,
    word: &str,
) -> Result<(), AllocError>
    ensures { OnOk result (string_bytes out.new
        ≡ string_bytes out.old ++ spec.changed_line key.now before.now word.now) }
{
    if before == word {
        Ok(())
    } else {
        push_word(out, key, word)
    }
}
