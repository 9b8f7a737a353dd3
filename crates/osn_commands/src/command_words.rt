//! The words of a command line, as they were typed.
ghost use Rattle.std.specs.Prelude.{◌≡◌, [], drop, get_or, map, option_map};
ghost use Rattle.std.specs.List.{list_any};
ghost use Rattle.osn_commands.specs.CommandWords as spec;

use osn_written::parts_at;
use std::convert::AsStr;

/// What the next word is, by those before it.
#[derive(Clone, Copy, Debug, PartialEq, Eq)]
enum Next {
    /// An option, or a word of its own.
    Any,
    /// The value of an option.
    Value,
    /// A word of its own, since `--` was before it.
    Plain,
}

/// Returns the word of the command, or an empty text without one.
pub(crate) fn command_in<S: AsStr>(words: &[S]) -> &str
    ensures { result.now ≡ spec.command_in (map S.text words.now) }
{
    match words.get(1) {
        Some(word) => word.as_str(),
        None => "",
    }
}

/// Returns the word after that of the command, or an empty text without one.
fn word_after_command<S: AsStr>(words: &[S]) -> &str
    ensures { result.now ≡ get_or (map S.text words.now) 2 [] }
{
    match words.get(2) {
        Some(word) => word.as_str(),
        None => "",
    }
}

/// Returns whether a word is the option that asks for help.
fn is_help(word: &str) -> bool
    ensures { result ≡ spec.is_help word.now }
{
    matches!(word, "--help" | "-h")
}

/// Returns whether one of these words is that option.
fn some_help<S: AsStr>(words: &[S]) -> bool
    ensures { result ≡ list_any (λ word. spec.is_help (S.text word)) words.now }
{
    words.iter().any(|word| is_help(word.as_str()))
}

/// Returns whether the text of one of these words is that option.
pub(crate) fn asks_help<S: AsStr>(words: &[S]) -> bool
    ensures { result ≡ list_any spec.is_help (map S.text words.now) }
{
    some_help(words)
}

/// Returns whether help is asked for of the command that prints it.
fn asks_help_twice(words: &[&str]) -> bool
    ensures { result ≡ spec.asks_help_twice (map (λ word. word.now) words.now) }
{
    command_in(words) == "help" && is_help(word_after_command(words))
}

/// Returns the words of a command line, in which `help --help` means `--help`.
pub(crate) fn with_plain_help<'a>(words: Vec<&'a str>) -> Vec<&'a str>
    ensures { map (λ word. word.now) result.items
        ≡ spec.with_plain_help (map (λ word. word.now) words.entry.items) }
{
    let mut words = words;
    if !asks_help_twice(&words) {
        return words;
    }
    words.remove(1);
    words
}

/// Returns whether a command begins with the file of a journal.
pub(crate) fn begins_with_journal(command: &str) -> bool
    ensures { result ≡ spec.begins_with_journal command.now }
{
    matches!(
        command,
        "read"
            | "day"
            | "month"
            | "year"
            | "territory"
            | "letters"
            | "text"
            | "editions"
            | "diff"
            | "plan"
            | "publish"
            | "almanac"
            | "audit"
    )
}

/// Returns whether a word is an option without a value.
fn is_flag(word: &str) -> bool
    ensures { result ≡ spec.is_flag word.now }
{
    matches!(
        word,
        "--strict"
            | "--json"
            | "--summary"
            | "--replace"
            | "--keep-going"
            | "--onto-newest"
            | "--upgrade"
            | "--read-only"
            | "--stop-at-refusal"
            | "--explain"
            | "--strict-members"
            | "--help"
            | "-h"
    )
}

/// Returns whether a word is an option, such as `--strict`.
fn is_option(word: &str) -> bool
    ensures { result ≡ spec.is_option word.now }
{
    word.as_bytes().first() == Some(&b'-') && word != "-"
}

/// Returns whether the word after an option is its value.
fn has_value_next(option: &str) -> bool
    ensures { result ≡ spec.has_value_next option.now }
{
    !is_flag(option) && parts_at(option, '=').is_none()
}

/// Returns what the word after this one is.
fn next_after(next: Next, word: &str) -> Next
    ensures { result ≡ spec.next_after next word.now }
{
    match next {
        Next::Plain => Next::Plain,
        Next::Value => Next::Any,
        Next::Any if word == "--" => Next::Plain,
        Next::Any if is_option(word) && has_value_next(word) => Next::Value,
        Next::Any => Next::Any,
    }
}

/// Returns whether a word is neither an option nor the value of one.
fn is_plain(next: Next, word: &str) -> bool
    ensures { result ≡ spec.is_plain next word.now }
{
    match next {
        Next::Plain => true,
        Next::Value => false,
        Next::Any => !is_option(word),
    }
}

/// Returns how many of these words are neither options nor their values.
fn plain_from<S: AsStr>(words: &[S]) -> usize
    ensures { result ≡ spec.plain_from S.text Next.Any words.now }
{
    let mut next = Next::Any;
    let mut count = 0;
    for word in words {
        let word = word.as_str();
        if is_plain(next, word) {
            count += 1;
        }
        next = next_after(next, word);
    }
    count
}

/// Returns how many such words follow the command.
fn plain_after<S: AsStr>(words: &[S]) -> usize
    ensures { result ≡ spec.plain_from S.text Next.Any (drop 2 words.now) }
{
    if words.len() < 2 {
        return 0;
    }
    plain_from(&words[2..])
}

/// Returns how many words after the command are neither options nor their values, by their texts.
pub(crate) fn plain_count<S: AsStr>(words: &[S]) -> usize
    ensures { result ≡ spec.plain_count (map S.text words.now) }
{
    plain_after(words)
}

/// Returns the first of these words that is neither an option nor the value of one.
fn first_plain_from<S: AsStr>(words: &[S]) -> Option<&str>
    ensures { option_map (λ word. word.now) result
        ≡ spec.first_plain_from S.text Next.Any words.now }
{
    let mut next = Next::Any;
    for word in words {
        let word = word.as_str();
        if is_plain(next, word) {
            return Some(word);
        }
        next = next_after(next, word);
    }
    None
}

/// Returns the first such word after the command.
fn first_plain_after<S: AsStr>(words: &[S]) -> Option<&str>
    ensures { option_map (λ word. word.now) result
        ≡ spec.first_plain_from S.text Next.Any (drop 2 words.now) }
{
    if words.len() < 2 {
        return None;
    }
    first_plain_from(&words[2..])
}

/// Returns the first word after the command of a command line that is neither an option nor the
/// value of one.
pub fn first_plain_word<S: AsStr>(words: &[S]) -> Option<&str>
    ensures { option_map (λ word. word.now) result ≡ spec.first_plain (map S.text words.now) }
{
    first_plain_after(words)
}
