//! Decades and centuries, which are ranges of years.
ghost use Rattle.std.specs.Prelude.{◌≡◌, ◌≤◌};
ghost use Rattle.std.specs.List.{list_any};
ghost use Rattle.osn_grammar.specs.Reading as reading;
ghost use Rattle.osn_grammar.specs.Years as spec;

use crate::set::inside_brackets;
use crate::token::Token::{self, Century, CenturyLetter, Dash, Number, Or, Roman, Slash, Tal, To};
use crate::token::{Numeral, Years, are_two_digits, decade, digit, hundred};
use osn_written::{AnyDate, Extent, PartialDate, Year};

/// Returns the date that is a whole year.
fn whole_year(first: u16) -> PartialDate
    ensures { result ≡ spec.whole_year first }
{
    PartialDate::Year(Year {
        first,
        is_double: false,
        has_three_digits: false,
    })
}

/// Returns the range of the years.
pub fn range_of(years: Years) -> Extent
    ensures { result ≡ spec.range_of years }
{
    Extent::FromTo(whole_year(years.first), whole_year(years.last))
}

/// Returns the years of a century, which is the 1st to the 99th: the 16th is 1501 to 1600.
fn century(number: u32) -> Option<Years>
    ensures { result ≡ spec.century number }
{
    if number >= 1 && number <= 99 {
        let last = 100 * number as u16;
        Some(Years {
            first: last - 99,
            last,
        })
    } else {
        None
    }
}

/// Returns the years from the first of some to the last of others, if a part joins them.
fn join_years(first: Option<Years>, token: Token, last: Option<Years>) -> Option<Years>
    ensures { result ≡ spec.join_years first token last }
{
    match token {
        Dash | Slash | To | Or => Some(Years {
            first: first?.first,
            last: last?.last,
        }),
        _ => None,
    }
}

/// Returns the years from one on, if it has four digits.
fn years_on(first: Numeral, more: u16) -> Option<Years>
    requires { more ≤ 99 }
    ensures { result ≡ spec.years_on first more }
{
    if first.digits == 4 && first.value <= 9999 {
        let first = first.value as u16;
        Some(Years {
            first,
            last: first + more,
        })
    } else {
        None
    }
}

/// Returns the decade of a year that is its first one. That of `1500` may be a century too.
fn decade_from(first: Numeral) -> Option<Years>
    ensures { result ≡ spec.decade_from first }
{
    if first.value % 10 == 0 && first.value % 100 != 0 {
        years_on(first, 9)
    } else {
        None
    }
}

/// Returns the hundred years of `1500-talet`, or the decade of `1580-talet`.
fn years_of_tal(first: Numeral) -> Option<Years>
    ensures { result ≡ spec.years_of_tal first }
{
    if first.value % 100 == 0 {
        years_on(first, 99)
    } else {
        decade_from(first)
    }
}

/// Returns the years of parts that are one decade or one century, by a word beside a number.
pub fn by_word(tokens: &[Token]) -> Option<Years>
    ensures { result ≡ spec.by_word tokens.now }
{
    match tokens {
        [Roman(number), CenturyLetter] | [CenturyLetter, Roman(number)] => {
            century(u32::from(*number))
        }
        [Number(first), Dash, Tal] => years_of_tal(*first),
        [Token::Decade, Number(first)] => decade_from(*first),
        _ => None,
    }
}

/// Returns the years of parts that are one decade or one century.
pub fn one_in(tokens: &[Token]) -> Option<Years>
    ensures { result ≡ spec.one_in tokens.now }
{
    match tokens {
        [Token::Years(years)] => Some(*years),
        [Number(number), Century] => century(number.value),
        [Roman(number), Century] | [Century, Roman(number)] => century(u32::from(*number)),
        _ => None,
    }
}

/// Returns the years from one decade to another.
fn decades_in(tokens: &[Token]) -> Option<Years>
    ensures { result ≡ spec.decades_in tokens.now }
{
    match tokens {
        [Token::Years(first), token, Token::Years(last)] => join_years(
            Some(*first),
            *token,
            Some(*last),
        ),
        _ => None,
    }
}

/// Returns the years from one century to another, by their numbers.
fn centuries_in(tokens: &[Token]) -> Option<Years>
    ensures { result ≡ spec.centuries_in tokens.now }
{
    match tokens {
        [Number(first), token, Number(last), Century] => {
            join_years(century(first.value), *token, century(last.value))
        }
        _ => None,
    }
}

/// Returns the years of two numbers of centuries.
fn roman_years(first: u8, token: Token, last: u8) -> Option<Years>
    ensures { result ≡ spec.roman_years first token last }
{
    join_years(century(u32::from(first)), token, century(u32::from(last)))
}

/// Returns the years from one century to another, by Roman numerals.
fn roman_centuries_in(tokens: &[Token]) -> Option<Years>
    ensures { result ≡ spec.roman_centuries_in tokens.now }
{
    match tokens {
        [Roman(first), token, Roman(last), Century] => roman_years(*first, *token, *last),
        [Century, Roman(first), token, Roman(last)] => roman_years(*first, *token, *last),
        _ => None,
    }
}

/// Returns the first of two.
pub fn or_years(first: Option<Years>, other: Option<Years>) -> Option<Years>
    ensures { result ≡ spec.or_years first other }
{
    match first {
        Some(years) => Some(years),
        None => other,
    }
}

/// Returns the years of parts that are a decade or a century, or two of them.
pub fn years_in(tokens: &[Token]) -> Option<Years>
    ensures { result ≡ spec.years_in tokens.now }
{
    or_years(
        or_years(
            one_in(tokens),
            or_years(by_word(tokens), decades_in(tokens)),
        ),
        or_years(centuries_in(tokens), roman_centuries_in(tokens)),
    )
}

/// Returns the decade of `158?` or `158-`, or the hundred years of `15--`.
fn years_by_signs(a: u8, b: u8, c: u8, d: u8) -> Option<Years>
    ensures { result ≡ spec.years_by_signs a b c d }
{
    if !are_two_digits(a, b) || a == b'0' {
        None
    } else if c.is_ascii_digit() && (d == b'-' || d == b'?') {
        Some(decade(a, b, c))
    } else if c == b'-' && d == b'-' {
        Some(hundred(a, b))
    } else {
        None
    }
}

/// Returns the date that is these years, if there are any.
fn date_of_years(years: Option<Years>, is_uncertain: bool, is_supplied: bool) -> Option<AnyDate>
    ensures { result ≡ spec.date_of_years years is_uncertain is_supplied }
{
    Some(AnyDate {
        extent: range_of(years?),
        weekday: None,
        reckoning: None,
        is_approximate: false,
        is_uncertain,
        is_supplied,
    })
}

/// Returns the years that a text is, if it is two or three digits of a year and a sign for each of
/// the others. A question mark after dashes says that the years are in doubt.
fn open_years(text: &[u8], is_supplied: bool) -> Option<AnyDate>
    ensures { result ≡ spec.open_years is_supplied text.now }
{
    match text {
        [a, b, c, d] => date_of_years(years_by_signs(*a, *b, *c, *d), false, is_supplied),
        [a, b, c, d, e] if *d == b'-' && *e == b'?' => {
            date_of_years(years_by_signs(*a, *b, *c, *d), true, is_supplied)
        }
        [a, b, c, d, e, f] if *d == 0xe2 && *e == 0x80 && *f == 0x93 => {
            date_of_years(years_by_signs(*a, *b, *c, b'-'), false, is_supplied)
        }
        _ => None,
    }
}

/// Returns whether four bytes are `th c`, in capital or small letters.
fn is_ordinal(t: u8, h: u8, s: u8, c: u8) -> bool
    ensures { result ≡ spec.is_ordinal t h s c }
{
    (t == b't' || t == b'T') && (h == b'h' || h == b'H') && s == b' ' && (c == b'c' || c == b'C')
}

/// Returns the century of two digits.
fn years_by(a: u8, b: u8) -> Option<Years>
    ensures { result ≡ spec.years_by a b }
{
    if are_two_digits(a, b) {
        century(u32::from(10 * digit(a) + digit(b)))
    } else {
        None
    }
}

/// Returns the century of `16th c.`, since `c.` is also the word for `about`.
fn century_by_letter(text: &[u8]) -> Option<Years>
    ensures { result ≡ spec.century_by_letter text.now }
{
    match text {
        [a, b, t, h, s, c] if is_ordinal(*t, *h, *s, *c) => years_by(*a, *b),
        [a, b, t, h, s, c, stop] if is_ordinal(*t, *h, *s, *c) && *stop == b'.' => years_by(*a, *b),
        _ => None,
    }
}

/// Returns the years that a text is by digits and signs, or the century that it is.
fn years_or_century(text: &[u8], is_supplied: bool) -> Option<AnyDate>
    ensures { result ≡ spec.years_or_century is_supplied text.now }
{
    match open_years(text, is_supplied) {
        Some(date) => Some(date),
        None => date_of_years(century_by_letter(text), false, is_supplied),
    }
}

/// Returns the years that a text is, such as `158?`, `[158-]`, `15--?` and `16th c.`, if it is
/// nothing else.
pub fn years_of_text(text: &str) -> Option<AnyDate>
    ensures { result ≡ spec.years_of_text text.now }
{
    match inside_brackets(text) {
        Some(inside) => years_or_century(inside.as_bytes(), true),
        None => years_or_century(text.as_bytes(), false),
    }
}

/// Returns whether a part has years with open digits.
pub fn has_open_year(tokens: &[Token]) -> bool
    ensures { result ≡ list_any reading.is_open_year tokens.now }
{
    tokens
        .iter()
        .any(|token| matches!(token, Token::OpenYear | Token::Years(_)))
}
