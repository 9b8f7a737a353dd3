//! The parts of a text: its numbers, its names and its marks.
ghost use Rattle.std.specs.Prelude.{◌≡◌, ◌<◌, ◌≤◌, ◌^◌, IfSome, length};
ghost use Rattle.std.specs.List.{list_all};
ghost use Rattle.std.specs.Str.{all_ascii_digits};
ghost use Rattle.osn_grammar.specs.Tokens as spec;

use crate::names::token_named;
use crate::roman_year::roman_year;
use osn_days::Weekday;
use osn_written::{Feast, Portion, Reckoning};

/// A number with the count of its digits.
#[derive(Clone, Copy)]
pub struct Numeral {
    pub value: u32,
    pub digits: u8,
}

/// The years from a first one to a last one.
#[derive(Clone, Copy)]
pub struct Years {
    pub first: u16,
    pub last: u16,
}

/// Which one of some equal parts.
#[derive(Clone, Copy)]
pub enum Nth {
    First,
    Second,
    Last,
}

/// How large a part is.
#[derive(Clone, Copy)]
pub enum Fraction {
    Half,
    Third,
}

/// A word of the name of a feast.
#[derive(Clone, Copy)]
pub enum FeastWord {
    /// `easter`, alone or with a weekday beside it.
    Easter,
    /// `pentecost`, in the same way.
    Whitsun,
    Ascension,
    /// `ash`, before Wednesday. The next ones need their weekdays too.
    Ash,
    Palm,
    Maundy,
    Good,
    Whit,
    Trinity,
    /// `corpus`, before `christi`.
    Corpus,
    Christi,
    /// `day`, after another one.
    Day,
    /// A name with its weekday, such as `ostermontag`.
    Named(Feast),
    /// A feast that is not counted from Easter.
    Other,
}

/// A part of a text.
#[derive(Clone, Copy)]
pub enum Token {
    Number(Numeral),
    Month(u8),
    Weekday(Weekday),
    Reckoning(Reckoning),
    /// A dash between two parts.
    Dash,
    Slash,
    /// A full stop between two numbers.
    Dot,
    /// Two full stops: an end that is open.
    Open,
    /// A month or a day that is left open, `XX`.
    Blank,
    /// The first digit of a month or a day whose second one is open, such as `1x`.
    Tens(u8),
    To,
    /// `au` or `al`, which join two dates and are other words except between them.
    ToThe,
    Or,
    And,
    Between,
    From,
    Before,
    After,
    /// `earlier`, before `than`.
    Earlier,
    /// `later`, before `than`.
    Later,
    Than,
    Not,
    By,
    About,
    /// `est` or `cal`, which are other words except at the beginning and before a number.
    Estimated,
    Doubt,
    /// `%`: both of them.
    AboutAndDoubt,
    /// `int`, which begins a date that was interpreted from a phrase.
    Interpreted,
    /// A square bracket, of what an editor supplied.
    Bracket,
    /// The opening round bracket before a number of one or two digits alone, as in `3 (13) June`.
    Round,
    /// A word that says nothing of the day, such as `of`.
    Filler,
    /// `no`, which says that a date is lacking, or denies a bound, as in `no later than`.
    No,
    Undated,
    Feast(FeastWord),
    /// A Roman numeral from 2 to 31 that is not another word, or an ordinal such as `XVIe`.
    Roman(u8),
    /// One letter of Roman numerals, which is a month between two numbers and otherwise another
    /// word.
    RomanLetter(u8),
    /// Another word of the letters of Roman numerals.
    RomanNumeral,
    /// A decade or the years of a century, such as `158x`, `1580s` and `15xx`.
    Years(Years),
    /// The word `century`.
    Century,
    /// `s`, which is the word for a century beside a Roman numeral.
    CenturyLetter,
    /// `talet`, which makes `1580-talet` a decade and `1500-talet` a hundred years.
    Tal,
    /// A word for a decade before its first year, such as `années`.
    Decade,
    /// A third of a time, by one word: `early`, `mid` or `late`.
    Portion(Portion),
    /// `first`, `second` or `last`, which are other words except before `half` or `third`.
    Nth(Nth),
    Fraction(Fraction),
    /// A season, by the number of its first month.
    Season(u8),
    /// A year with other open digits, such as `1x3x`.
    OpenYear,
    Unknown,
}

impl Token {
    /// Returns whether the part says which day is meant.
    pub fn is_of_time(&self) -> bool
        ensures { result ≡ spec.is_of_time self.now }
    {
        !matches!(
            self,
            Token::Weekday(_)
                | Token::Reckoning(_)
                | Token::About
                | Token::Doubt
                | Token::AboutAndDoubt
                | Token::Bracket
                | Token::Round
                | Token::Filler
        )
    }
}

/// Returns whether each byte is a digit.
pub fn are_digits(word: &[u8]) -> bool
    ensures { result ≡ all_ascii_digits word.now }
{
    for byte in word {
        if !byte.is_ascii_digit() {
            return false;
        }
    }
    true
}

/// Returns the value of a word of 1 to 9 digits, if it is one.
fn value_of(word: &str) -> Option<u32>
    ensures value { result ≡ spec.value_of word.now }
    ensures short { IfSome result (λ _. length word.now ≤ 9) }
    ensures small { IfSome result (λ n. n < 10 ^ 9) }
{
    if word.is_empty() || word.len() > 9 || !are_digits(word.as_bytes()) {
        return None;
    }
    word.parse::<u32>().ok()
}

/// Returns the number that a word is, of 1 to 9 digits, if it is one.
fn numeral_of(word: &str) -> Option<Numeral>
    ensures { result ≡ spec.numeral_of word.now }
{
    let value = value_of(word)?;
    Some(Numeral {
        value,
        digits: word.len() as u8,
    })
}

/// Returns whether a byte is a small letter of Roman numerals.
fn is_roman(byte: u8) -> bool
    ensures { result ≡ spec.is_roman byte }
{
    matches!(byte, b'i' | b'j' | b'v' | b'x' | b'l' | b'c' | b'd' | b'm')
}

/// Returns whether each byte is a small letter of Roman numerals.
fn are_roman(word: &[u8]) -> bool
    ensures { result ≡ list_all spec.is_roman word.now }
{
    for byte in word {
        if !is_roman(*byte) {
            return false;
        }
    }
    true
}

/// Returns whether a byte is `x` or `_`, for a digit that is open.
fn is_gap(byte: u8) -> bool
    ensures { result ≡ spec.is_gap byte }
{
    byte == b'x' || byte == b'_'
}

/// Returns whether a byte is a digit, or `x` or `_` for an open one.
fn is_place(byte: u8) -> bool
    ensures { result ≡ spec.is_place byte }
{
    byte.is_ascii_digit() || is_gap(byte)
}

/// Returns whether a word is a year with open digits, or one such as `1500s`, which may be a decade
/// or a century.
fn is_open_year(word: &[u8]) -> bool
    ensures { result ≡ spec.is_open_year word.now }
{
    match word {
        [a, b, c, d] => a.is_ascii_digit() && is_place(*b) && is_place(*c) && is_gap(*d),
        [a, b, c, d, e] => are_two_digits(*a, *b) && *c == b'0' && is_zero_s(*d, *e),
        _ => false,
    }
}

/// Returns the value of a digit.
pub fn digit(byte: u8) -> u16
    ensures value { result ≡ spec.digit byte }
    ensures small { result ≤ 9 }
{
    if byte >= b'0' && byte <= b'9' {
        u16::from(byte - b'0')
    } else {
        0
    }
}

/// Returns the ten years that begin with three digits.
pub fn decade(a: u8, b: u8, c: u8) -> Years
    ensures { result ≡ spec.decade a b c }
{
    let first = 1000 * digit(a) + 100 * digit(b) + 10 * digit(c);
    Years {
        first,
        last: first + 9,
    }
}

/// Returns the hundred years that begin with two digits.
pub fn hundred(a: u8, b: u8) -> Years
    ensures { result ≡ spec.hundred a b }
{
    let first = 1000 * digit(a) + 100 * digit(b);
    Years {
        first,
        last: first + 99,
    }
}

/// Returns whether two bytes are digits.
pub fn are_two_digits(a: u8, b: u8) -> bool
    ensures { result ≡ spec.are_two_digits a b }
{
    a.is_ascii_digit() && b.is_ascii_digit()
}

/// Returns whether two bytes are `0s`.
fn is_zero_s(d: u8, e: u8) -> bool
    ensures { result ≡ spec.is_zero_s d e }
{
    d == b'0' && e == b's'
}

/// Returns the decade of `158x`, or the hundred years of `15xx`.
fn years_of_gaps(a: u8, b: u8, c: u8, d: u8) -> Option<Years>
    ensures { result ≡ spec.years_of_gaps a b c d }
{
    if !are_two_digits(a, b) || !is_gap(d) {
        None
    } else if c.is_ascii_digit() {
        Some(decade(a, b, c))
    } else if is_gap(c) {
        Some(hundred(a, b))
    } else {
        None
    }
}

/// Returns the decade of `1580s`, and of `1580er`. `1500s` may be a century too.
fn years_of_plural(a: u8, b: u8, c: u8, d: u8, e: u8) -> Option<Years>
    ensures { result ≡ spec.years_of_plural a b c d e }
{
    if are_two_digits(a, b) && c.is_ascii_digit() && c != b'0' && is_zero_s(d, e) {
        Some(decade(a, b, c))
    } else {
        None
    }
}

/// Returns the years that a word in small letters is, if it is a decade or a century.
fn years_of_word(word: &[u8]) -> Option<Years>
    ensures { result ≡ spec.years_of_word word.now }
{
    match word {
        [a, b, c, d] => years_of_gaps(*a, *b, *c, *d),
        [a, b, c, d, e] => years_of_plural(*a, *b, *c, *d, *e),
        [a, b, c, d, e, r] if *e == b'e' && *r == b'r' => { years_of_plural(*a, *b, *c, *d, b's') }
        _ => None,
    }
}

/// Returns the number of an ordinal such as `16e`, if a word is one or two digits and `e`.
fn ordinal_of(word: &[u8]) -> Option<Numeral>
    ensures { result ≡ spec.ordinal_of word.now }
{
    match word {
        [a, e] if a.is_ascii_digit() && *e == b'e' => Some(Numeral {
            value: u32::from(digit(*a)),
            digits: 1,
        }),
        [a, b, e] if are_two_digits(*a, *b) && *e == b'e' => Some(Numeral {
            value: u32::from(10 * digit(*a) + digit(*b)),
            digits: 2,
        }),
        _ => None,
    }
}

/// Returns the number of a year in Roman numerals, if a word is one.
fn roman_number(word: &[u8]) -> Option<Numeral>
    ensures { result ≡ spec.roman_number word.now }
{
    Some(Numeral {
        value: roman_year(word)?,
        digits: 4,
    })
}

/// Returns the part that a word in small letters is, if it is neither a number nor a name.
fn token_of_other(word: &[u8]) -> Token
    ensures { result ≡ spec.token_of_other word.now }
{
    if let Some(years) = years_of_word(word) {
        Token::Years(years)
    } else if let Some(numeral) = ordinal_of(word) {
        Token::Number(numeral)
    } else if let Some(numeral) = roman_number(word) {
        Token::Number(numeral)
    } else if is_open_year(word) {
        Token::OpenYear
    } else if are_roman(word) {
        Token::RomanNumeral
    } else {
        Token::Unknown
    }
}

/// Returns the part that a word in small letters is.
pub fn token_of(word: &str) -> Token
    ensures { result ≡ spec.token_of word.now }
{
    if let Some(numeral) = numeral_of(word) {
        Token::Number(numeral)
    } else if let Some(token) = token_named(word) {
        token
    } else {
        token_of_other(word.as_bytes())
    }
}
