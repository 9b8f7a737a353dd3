//! The file of the journal, in a command line that names it by the option `--journal` or leaves it
//! out.
ghost use Rattle.std.specs.Prelude.{◌≡◌, ◌<◌, IfOk, None, length, map, option_map};
ghost use Rattle.std.specs.List.{list_any, position};
ghost use Rattle.osn_commands.specs.CommandWords.{with_plain_help};
ghost use Rattle.osn_commands.specs.Journal as spec;

use crate::command_words::{begins_with_journal, command_in, plain_count, with_plain_help};
use osn_written::parts_at;
use std::alloc::{AllocError, Global};
use std::convert::AsStr;

/// Returns how many words follow a command that has a default journal, besides its options, if the
/// file of the journal is left out.
pub(crate) fn words_without(command: &str) -> Option<usize>
    ensures { result ≡ spec.words_without command.now }
{
    match command {
        "territory" => Some(0),
        "letters" => Some(0),
        "text" => Some(0),
        "editions" => Some(0),
        "plan" => Some(1),
        "publish" => Some(1),
        "read" => Some(2),
        "day" => Some(2),
        "diff" => Some(2),
        "year" => Some(2),
        "almanac" => Some(2),
        "month" => Some(3),
        _ => None,
    }
}

/// Returns whether the words leave out the file of the journal.
fn leaves_out_journal(words: &[&str]) -> bool
    ensures { result ≡ spec.leaves_out_journal (map (λ word. word.now) words.now) }
{
    match words_without(command_in(words)) {
        Some(count) => plain_count(words) == count,
        None => false,
    }
}

/// Returns the file in a word that is `--journal=FILE`.
fn file_after_equals(word: &str) -> Option<&str>
    ensures { option_map (λ path. path.now) result ≡ spec.file_after_equals word.now }
{
    match parts_at(word, '=') {
        Some((name, path)) if name == "--journal" => Some(path),
        _ => None,
    }
}

/// Returns whether a word is the option `--journal`, with its file or before it.
fn is_journal_option(word: &str) -> bool
    ensures { result ≡ spec.is_journal_option word.now }
{
    word == "--journal" || file_after_equals(word).is_some()
}

/// Returns the place of the first of these words that is the option.
fn place_of_option<S: AsStr>(words: &[S]) -> Option<usize>
    ensures { result ≡ position (λ word. spec.is_journal_option (S.text word)) words.now }
{
    words
        .iter()
        .position(|word| is_journal_option(word.as_str()))
}

/// Returns the place of the first word whose text is the option.
pub(crate) fn option_at<S: AsStr>(words: &[S]) -> Option<usize>
    ensures { result ≡ spec.option_at (map S.text words.now) }
{
    place_of_option(words)
}

/// Returns whether one of these words is the option.
fn has_option(words: &[&str]) -> bool
    ensures { result ≡ list_any (λ word. spec.is_journal_option word.now) words.now }
{
    words.iter().any(|word| is_journal_option(*word))
}

/// Returns whether the option is repeated after this place.
fn is_repeated(at: usize, words: &[&str]) -> bool
    requires { at < length words.now }
    ensures { result ≡ spec.is_repeated at (map (λ word. word.now) words.now) }
{
    has_option(&words[at + 1..])
}

/// Returns the words, if they have a command, with one more after it.
fn with_path<'a>(words: Vec<&'a str>, path: &'a str) -> Result<Vec<&'a str>, AllocError>
    ensures { IfOk result (λ new. new.items ≡ spec.with_path path.entry words.entry.items) }
{
    let mut words = words;
    if words.len() < 2 {
        return Ok(words);
    }
    words.insert(2, path)?;
    Ok(words)
}

/// Returns the words with the one that follows the option at its place after the command, if there
/// is one.
fn with_next_file<'a>(words: Vec<&'a str>, at: usize) -> Result<Vec<&'a str>, AllocError>
    requires { at < length words.items }
    ensures { IfOk result (λ new. new.items
        ≡ spec.with_file None at words.entry.items) }
{
    let mut words = words;
    let path = match words.get(at + 1) {
        Some(path) => *path,
        None => return Ok(words),
    };
    words.remove(at + 1);
    words.remove(at);
    with_path(words, path)
}

/// Returns the words without the option at this place, and with its file, which is this one or the
/// next word, after the command.
fn with_file<'a>(
    words: Vec<&'a str>,
    path: Option<&'a str>,
    at: usize,
) -> Result<Vec<&'a str>, AllocError>
    requires { at < length words.items }
    ensures { IfOk result (λ new. new.items ≡ spec.with_file path.entry at words.entry.items) }
{
    let mut words = words;
    match path {
        Some(path) => {
            words.remove(at);
            with_path(words, path)
        }
        None => with_next_file(words, at),
    }
}

/// Returns the words with the file that the option at this place names, unless it is repeated.
fn with_named<'a>(words: Vec<&'a str>, at: usize) -> Result<Vec<&'a str>, AllocError>
    requires { at < length words.items }
    ensures { IfOk result (λ new. map (λ word. word.now) new.items
        ≡ spec.with_named at (map (λ word. word.now) words.entry.items)) }
{
    if at < 2 || is_repeated(at, &words) {
        return Ok(words);
    }
    let word = words[at];
    with_file(words, file_after_equals(word), at)
}

/// Returns the words with this default, if they leave out the file of the journal.
fn with_default<'a>(
    words: Vec<&'a str>,
    default: Option<&'a str>,
) -> Result<Vec<&'a str>, AllocError>
    ensures { IfOk result (λ new. map (λ word. word.now) new.items
        ≡ spec.with_default (option_map (λ path. path.now) default.entry)
        (map (λ word. word.now) words.entry.items)) }
{
    match default {
        Some(path) if leaves_out_journal(&words) => with_path(words, path),
        _ => Ok(words),
    }
}

/// Returns the words with the file of the journal after the command.
fn with_journal_by<'a>(
    words: Vec<&'a str>,
    default: Option<&'a str>,
) -> Result<Vec<&'a str>, AllocError>
    ensures { IfOk result (λ new. map (λ word. word.now) new.items
        ≡ spec.with_journal (option_map (λ path. path.now) default.entry)
        (map (λ word. word.now) words.entry.items)) }
{
    if !begins_with_journal(command_in(&words)) {
        return Ok(words);
    }
    match option_at(&words) {
        Some(at) => with_named(words, at),
        None => with_default(words, default),
    }
}

/// Returns the words as texts.
fn texts_of<'a, S: AsStr>(alloc: Global, words: &'a [S]) -> Result<Vec<&'a str>, AllocError>
    ensures { IfOk result (λ texts. map (λ text. text.now) texts.items ≡ map S.text words.now) }
{
    let mut texts = Vec::new(alloc);
    for word in words {
        texts.push(word.as_str())?;
    }
    Ok(texts)
}

/// Returns what a command line means in which the file of the journal is left out, or named by the
/// option `--journal`, with this default: the words with the file after the command. `help --help`
/// means `--help`.
pub(crate) fn with_journal<'a, S: AsStr>(
    alloc: Global,
    words: &'a [S],
    default: Option<&'a str>,
) -> Result<Vec<&'a str>, AllocError>
    ensures { IfOk result (λ new. map (λ word. word.now) new.items
        ≡ spec.with_journal (option_map (λ path. path.now) default.entry)
        (with_plain_help (map S.text words.now))) }
{
    let texts = texts_of(alloc, words)?;
    with_journal_by(with_plain_help(texts), default)
}
