//! Help for the common mistakes in the arguments, which follows what `clap` says of them.
ghost use Rattle.std.specs.Prelude.{◌≡◌, map};
ghost use Rattle.std.specs.List.{list_any};
ghost use Rattle.clap.specs.Words.{kind_of};
ghost use Rattle.osn_commands.specs.Help as spec;

use crate::command_words::{begins_with_journal, command_in, plain_count};
use crate::journal::{option_at, words_without};
use clap::Error;
use clap::error::ErrorKind;
use std::convert::AsStr;

const COMMAND: &str =
    "help: the first argument is a command, such as read: oldstyle --help lists them\n";

const YEAR: &str = "help: write one year, 1 to 9999, counted from 1 January, such as 1731\n";

const READERS: &str = "help: write the number of readers, 1 to 64\n";

const JOURNAL: &str = "help: the file of the journal comes first, or --journal FILE names it\n";

const JOURNAL_OR_DEFAULT: &str =
    "help: name the journal first, by --journal or by OLDSTYLE_JOURNAL; publish TEXT makes one\n";

const FILE: &str = "help: write the file of the journal after the option: --journal FILE\n";

const NAMED_TWICE: &str =
    "help: the journal is named twice: leave out the first argument or --journal\n";

const NEGATIVE: &str = "help: a year is 1 to 9999, and no date begins with a hyphen\n";

const JSON: &str =
    "help: read, day, month, year and territory have --json: serve answers other queries in JSON\n";

const SERVED: &str = "help: name the journal by an option: oldstyle serve --journal FILE\n";

const QUOTES: &str =
    "help: put a date or a name of several words in quotes: \"11 February 1731\"\n";

const PATH: &str =
    "help: put a path that has spaces in quotes: oldstyle help COMMAND lists the arguments\n";

/// Returns the help on a word that is not a number.
fn number_help(command: &str) -> &'static str
    ensures { result.now ≡ spec.number_help command.now }
{
    match command {
        "almanac" => YEAR,
        _ => READERS,
    }
}

/// Returns the help on a word that is missing.
fn missing_help(command: &str) -> &'static str
    ensures { result.now ≡ spec.missing_help command.now }
{
    if words_without(command).is_some() {
        JOURNAL_OR_DEFAULT
    } else if begins_with_journal(command) {
        JOURNAL
    } else {
        ""
    }
}

/// Returns whether the words have the option `--journal`, with its file or without.
fn has_journal_option<S: AsStr>(words: &[S]) -> bool
    ensures { result ≡ spec.has_journal_option (map S.text words.now) }
{
    begins_with_journal(command_in(words)) && option_at(words).is_some()
}

/// Returns the help on an option that has no value.
fn value_help<S: AsStr>(words: &[S]) -> &'static str
    ensures { result.now ≡ spec.value_help (map S.text words.now) }
{
    if has_journal_option(words) { FILE } else { "" }
}

/// Returns how many words a command takes besides its options.
fn words_taken(command: &str) -> usize
    ensures { result ≡ spec.words_taken command.now }
{
    match command {
        "serve" => 0,
        "replay" | "editions" | "completions" | "check" => 1,
        "letters" | "convert" | "territory" | "text" | "plan" | "publish" | "audit" | "desk" => 2,
        "month" => 4,
        _ => 3,
    }
}

/// Returns whether the arguments of a command have a date or a year.
fn takes_date(command: &str) -> bool
    ensures { result ≡ spec.takes_date command.now }
{
    matches!(
        command,
        "read" | "day" | "month" | "year" | "almanac" | "convert"
    )
}

/// Returns whether a word begins as a negative number does.
fn is_negative(word: &str) -> bool
    ensures { result ≡ spec.is_negative word.now }
{
    let bytes = word.as_bytes();
    match bytes.get(1) {
        Some(byte) => byte.is_ascii_digit() && bytes.first() == Some(&b'-'),
        None => false,
    }
}

/// Returns whether one of these words begins as a negative number does.
fn some_negative<S: AsStr>(words: &[S]) -> bool
    ensures { result ≡ list_any (λ word. spec.is_negative (S.text word)) words.now }
{
    words.iter().any(|word| is_negative(word.as_str()))
}

/// Returns whether the text of one of these words begins as a negative number does.
fn has_negative<S: AsStr>(words: &[S]) -> bool
    ensures { result ≡ list_any spec.is_negative (map S.text words.now) }
{
    some_negative(words)
}

/// Returns whether the words have a date or a year that begins as a negative number does.
fn has_negative_date<S: AsStr>(words: &[S]) -> bool
    ensures { result ≡ spec.has_negative_date (map S.text words.now) }
{
    takes_date(command_in(words)) && has_negative(words)
}

/// Returns whether a command has the option `--json`.
fn takes_json(command: &str) -> bool
    ensures { result ≡ spec.takes_json command.now }
{
    matches!(command, "read" | "day" | "month" | "year" | "territory")
}

/// Returns whether a word is the option `--json`.
fn is_json(word: &str) -> bool
    ensures { result ≡ spec.is_json word.now }
{
    word == "--json"
}

/// Returns whether one of these words is that option.
fn some_json<S: AsStr>(words: &[S]) -> bool
    ensures { result ≡ list_any (λ word. spec.is_json (S.text word)) words.now }
{
    words.iter().any(|word| is_json(word.as_str()))
}

/// Returns whether the text of one of these words is that option.
fn has_json<S: AsStr>(words: &[S]) -> bool
    ensures { result ≡ list_any spec.is_json (map S.text words.now) }
{
    some_json(words)
}

/// Returns whether the words have the option `--json` after a command that lacks it.
fn has_json_elsewhere<S: AsStr>(words: &[S]) -> bool
    ensures { result ≡ spec.has_json_elsewhere (map S.text words.now) }
{
    !takes_json(command_in(words)) && has_json(words)
}

/// Returns whether the words name the journal at its place, and by the option too.
fn is_named_twice<S: AsStr>(words: &[S]) -> bool
    ensures { result ≡ spec.is_named_twice (map S.text words.now) }
{
    has_journal_option(words) && plain_count(words) == words_taken(command_in(words))
}

/// Returns the help on an argument too many.
fn surplus_help(command: &str) -> &'static str
    ensures { result.now ≡ spec.surplus_help command.now }
{
    match command {
        "serve" => SERVED,
        "territory" => QUOTES,
        _ if takes_date(command) => QUOTES,
        _ => PATH,
    }
}

/// Returns the help on a word that its command does not take.
fn unknown_help<S: AsStr>(words: &[S]) -> &'static str
    ensures { result.now ≡ spec.unknown_help (map S.text words.now) }
{
    let command = command_in(words);
    if has_negative_date(words) {
        NEGATIVE
    } else if has_json_elsewhere(words) {
        JSON
    } else if is_named_twice(words) {
        NAMED_TWICE
    } else if words_taken(command) < plain_count(words) {
        surplus_help(command)
    } else {
        ""
    }
}

/// Returns the help on what is wrong with the arguments, or an empty text.
pub(crate) fn help_on<S: AsStr>(error: &Error, words: &[S]) -> &'static str
    ensures { result.now ≡ spec.help_on (kind_of error.now) (map S.text words.now) }
{
    match error.kind() {
        ErrorKind::InvalidSubcommand => COMMAND,
        ErrorKind::InvalidValue => value_help(words),
        ErrorKind::ValueValidation => number_help(command_in(words)),
        ErrorKind::MissingRequiredArgument => missing_help(command_in(words)),
        ErrorKind::UnknownArgument => unknown_help(words),
        _ => "",
    }
}
