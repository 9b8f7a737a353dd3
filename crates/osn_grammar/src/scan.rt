//! A text is cut into its parts.
ghost use Rattle.std.specs.Prelude.{◌≡◌, ◌||◌, ◌<◌, ◌+◌, ◌++◌, []};
ghost use Rattle.std.specs.Prelude.{IfOk, OnOk, drop, length, string_bytes};
ghost use Rattle.std.specs.Option.{option_to_list};
ghost use Rattle.osn_grammar.specs.Scan as spec;

use crate::names::token_named;
use crate::token::{Token, are_digits, token_of};
use std::alloc::{AllocError, Global};

/// Returns whether a character is a digit.
fn is_digit(character: char) -> bool
    ensures { result ≡ spec.is_digit character }
{
    matches!(character, '0'..='9')
}

/// Returns whether a character is a dash: a hyphen, a dash or a minus sign.
fn is_dash(character: char) -> bool
    ensures { result ≡ spec.is_dash character }
{
    matches!(
        character,
        '-' | '\u{2010}' | '\u{2011}' | '–' | '—' | '\u{2212}'
    )
}

/// Returns whether a character is a blank: a space, a tab, or a space that doesn't break or is
/// thin.
fn is_blank(character: char) -> bool
    ensures { result ≡ spec.is_blank character }
{
    matches!(character, ' ' | '\t' | '\u{a0}' | '\u{2009}' | '\u{202f}')
}

/// Returns whether a character is a letter: of ASCII, `_`, `@` or `#`, or any other beyond ASCII
/// except a dash or a blank.
fn is_letter(character: char) -> bool
    ensures { result ≡ spec.is_letter character }
{
    matches!(character, '@'..='Z' | 'a'..='z' | '_' | '#')
        || (character > '\u{7f}' && !(is_dash(character) || is_blank(character)))
}

/// Returns the small letter of a capital one, up to U+00DE.
fn small(character: char) -> char
    ensures { result ≡ spec.small character }
{
    if matches!(character, 'A'..='Z' | 'À'..='Þ') {
        char::from(character as u8 + 32)
    } else {
        character
    }
}

/// Returns whether a word has digits, and nothing else.
fn is_number(word: &str) -> bool
    ensures { result ≡ spec.is_number word.now }
{
    !word.is_empty() && are_digits(word.as_bytes())
}

/// Returns whether the next character belongs to a word.
fn is_word_next(next: Option<char>) -> bool
    ensures { result ≡ spec.next_is (λ d. spec.is_letter d || spec.is_digit d) next }
{
    match next {
        Some(character) => is_letter(character) || is_digit(character),
        None => false,
    }
}

/// Returns the first character.
fn first_of(characters: &[char]) -> Option<char>
    ensures { result ≡ spec.first_of characters.now }
{
    match characters {
        [first, ..] => Some(*first),
        [] => None,
    }
}

/// Returns whether a letter comes next.
fn is_letter_next(rest: &[char]) -> bool
    ensures { result ≡ spec.is_letter_next rest.now }
{
    match rest {
        [first, ..] => is_letter(*first),
        [] => false,
    }
}

/// Returns whether one letter alone comes next.
fn is_letter_alone(rest: &[char]) -> bool
    ensures { result ≡ spec.is_letter_alone rest.now }
{
    match rest {
        [first, after @ ..] => is_letter(*first) && !is_word_next(first_of(after)),
        [] => false,
    }
}

/// Returns whether no letter comes directly after the digits at the beginning.
fn are_digits_alone(characters: &[char]) -> bool
    ensures { result ≡ spec.are_digits_alone characters.now }
{
    for character in characters {
        if !is_digit(*character) {
            return !is_letter(*character);
        }
    }
    true
}

/// Returns whether a number comes next, after any blanks.
fn is_number_next(rest: &[char]) -> bool
    ensures { result ≡ spec.is_number_next rest.now }
{
    let mut place = 0;
    while place < rest.len() {
        if !is_blank(rest[place]) {
            return is_digit(rest[place]) && are_digits_alone(&rest[place + 1..]);
        }
        place += 1;
    }
    false
}

/// Returns whether a closing round bracket comes next.
fn is_round_next(rest: &[char]) -> bool
    ensures { result ≡ spec.is_round_next rest.now }
{
    match rest {
        [next, ..] => *next == ')',
        [] => false,
    }
}

/// Returns whether a closing round bracket comes next, or a full stop before one.
fn ends_round(rest: &[char]) -> bool
    ensures { result ≡ spec.ends_round rest.now }
{
    match rest {
        [next, after @ ..] => *next == ')' || (*next == '.' && is_round_next(after)),
        [] => false,
    }
}

/// Returns whether a digit comes next that ends a number in round brackets.
fn is_last_digit_next(rest: &[char]) -> bool
    ensures { result ≡ spec.is_last_digit_next rest.now }
{
    match rest {
        [digit, after @ ..] => is_digit(*digit) && ends_round(after),
        [] => false,
    }
}

/// Returns whether a number of one or two digits comes next, with a closing round bracket after it.
fn is_in_round(rest: &[char]) -> bool
    ensures { result ≡ spec.is_in_round rest.now }
{
    match rest {
        [digit, after @ ..] => {
            is_digit(*digit) && (ends_round(after) || is_last_digit_next(after))
        }
        [] => false,
    }
}

/// Returns the mark that an opening round bracket is, before the rest of the text.
fn mark_of_round(rest: &[char]) -> Option<Token>
    ensures { result ≡ spec.mark_of_round rest.now }
{
    if is_in_round(rest) {
        Some(Token::Round)
    } else {
        None
    }
}

/// Returns whether a word is the name of a month, as in `Feb:ry`.
fn is_month_name(word: &str) -> bool
    ensures { result ≡ spec.is_month_name word.now }
{
    matches!(token_named(word), Some(Token::Month(_)))
}

/// Returns whether a word is the name of a month or an ordinal, as in `11th: Feb:`.
fn is_month_or_ordinal(word: &str) -> bool
    ensures { result ≡ spec.is_month_or_ordinal word.now }
{
    matches!(
        token_named(word),
        Some(Token::Month(_)) | Some(Token::Number(_))
    )
}

/// Returns the mark that a full stop is, after a word and before the rest of the text.
fn mark_of_stop(word: &str, rest: &[char]) -> Option<Token>
    ensures { result ≡ spec.mark_of_stop word.now rest.now }
{
    if let Some('.') = first_of(rest) {
        Some(Token::Open)
    } else if is_number(word) && is_number_next(rest) {
        Some(Token::Dot)
    } else {
        None
    }
}

/// Returns the mark that a character is, after a word and before the rest of the text.
fn mark_of(word: &str, character: char, rest: &[char]) -> Option<Token>
    ensures { result ≡ spec.mark_of word.now character rest.now }
{
    if is_dash(character) {
        return Some(Token::Dash);
    }
    if is_blank(character) {
        return None;
    }
    match character {
        '/' => Some(Token::Slash),
        '?' => Some(Token::Doubt),
        '~' => Some(Token::About),
        '%' => Some(Token::AboutAndDoubt),
        '[' | ']' => Some(Token::Bracket),
        '.' => mark_of_stop(word, rest),
        '(' => mark_of_round(rest),
        ',' | ')' => None,
        ':' if is_month_or_ordinal(word) => None,
        '&' => Some(Token::And),
        _ => Some(Token::Unknown),
    }
}

/// Returns the part of a word, if it is not empty.
fn token_of_run(word: &str) -> Option<Token>
    ensures { result ≡ spec.token_of_run word.now }
{
    if word.is_empty() {
        None
    } else {
        Some(token_of(word))
    }
}

/// Appends a part, if there is one.
fn push_some(tokens: &mut Vec<Token>, token: Option<Token>) -> Result<(), AllocError>
    ensures { OnOk result (tokens.new.items ≡ tokens.old.items ++ option_to_list token) }
{
    if let Some(token) = token {
        tokens.push(token)?;
    }
    Ok(())
}

/// Returns whether a mark after a word belongs to it: a full stop between two single letters, as in
/// `O.S.`, or a colon between the name of a month and a letter, as in `Feb:ry`.
fn is_passed_over(word: &str, character: char, rest: &[char]) -> bool
    ensures { result ≡ spec.is_passed_over word.now character rest.now }
{
    match character {
        '.' => is_letter_alone(rest) && word.len() == 1 && !are_digits(word.as_bytes()),
        ':' => is_letter_next(rest) && is_month_name(word),
        _ => false,
    }
}

/// Returns whether the next character and a word so far are both of a number, or both of a name.
fn are_alike(word: &str, next: char) -> bool
    ensures { result ≡ spec.are_alike word.now next }
{
    if is_digit(next) {
        are_digits(word.as_bytes())
    } else {
        is_letter(next) && !are_digits(word.as_bytes())
    }
}

/// Returns whether there is a next character that is alike with the word so far.
fn is_alike_next(word: &str, rest: &[char]) -> bool
    ensures { result ≡ spec.is_alike_next word.now rest.now }
{
    match rest {
        [next, ..] => are_alike(word, *next),
        [] => false,
    }
}

/// Returns whether a character is a square bracket within a word, as in `16[60]` and `Feb[ruary]`:
/// both sides of it are digits, or both are letters.
fn is_bracket_within(word: &str, character: char, rest: &[char]) -> bool
    ensures { result ≡ spec.is_bracket_within word.now character rest.now }
{
    (character == '[' || character == ']') && !word.is_empty() && is_alike_next(word, rest)
}

/// Takes one more character, before the rest of the text.
fn take(
    tokens: &mut Vec<Token>,
    word: &mut String,
    character: char,
    rest: &[char],
) -> Result<(), AllocError>
    ensures tokens { OnOk result
        (tokens.new.items ≡ tokens.old.items
        ++ spec.tokens_ended (string_bytes word.old) character rest.now) }
    ensures word { OnOk result
        (string_bytes word.new
        ≡ spec.word_after (string_bytes word.old) character rest.now) }
{
    if is_letter(character) || is_digit(character) {
        return word.push(small(character));
    }
    if is_passed_over(word.as_str(), character, rest) {
        return Ok(());
    }
    if is_bracket_within(word.as_str(), character, rest) {
        tokens.push(Token::Bracket)?;
        return Ok(());
    }
    push_some(tokens, token_of_run(word.as_str()))?;
    push_some(tokens, mark_of(word.as_str(), character, rest))?;
    word.clear();
    Ok(())
}

/// Takes the character at a place.
fn take_at(
    tokens: &mut Vec<Token>,
    word: &mut String,
    characters: &[char],
    place: usize,
) -> Result<(), AllocError>
    requires { place < length characters.now }
    ensures { OnOk result
        (tokens.new.items
        ++ spec.tokens_after (string_bytes word.new) (drop (place + 1) characters.now)
        ≡ tokens.old.items ++ spec.tokens_after (string_bytes word.old)
        (drop place characters.now)) }
{
    take(tokens, word, characters[place], &characters[place + 1..])
}

/// Returns the parts of these characters.
fn tokens_of(alloc: Global, characters: &[char]) -> Result<Vec<Token>, AllocError>
    ensures { IfOk result (λ tokens. tokens.items ≡ spec.tokens_after [] characters.now) }
{
    let mut tokens = Vec::new(alloc);
    let mut word = String::new(alloc);
    let mut place = 0;
    while place < characters.len() {
        take_at(&mut tokens, &mut word, characters, place)?;
        place += 1;
    }
    push_some(&mut tokens, token_of_run(word.as_str()))?;
    Ok(tokens)
}

/// Returns the parts of a text.
pub fn tokens_in(alloc: Global, text: &str) -> Result<Vec<Token>, AllocError>
    ensures { IfOk result (λ tokens. tokens.items ≡ spec.tokens_in text.now) }
{
    let characters: Vec<char> = text.chars().collect(alloc)?;
    tokens_of(alloc, characters.as_slice())
}
