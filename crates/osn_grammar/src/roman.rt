//! A day with a Roman numeral for its day or its month.
ghost use Rattle.std.specs.Prelude.{◌≡◌};
ghost use Rattle.std.specs.List.{list_any};
ghost use Rattle.osn_grammar.specs.Reading as reading;
ghost use Rattle.osn_grammar.specs.Roman as spec;

use crate::forms::year_numbers;
use crate::simple::{YearNumbers, around_month, day_of_month, is_long, one};
use crate::token::Numeral;
use crate::token::Token::{self, Dash, Month, Number, Roman, RomanLetter, Slash};
use osn_written::{DateFault, PartialDate};

/// Returns the day of a Roman numeral in a month.
fn roman_day(years: YearNumbers, month: u8, day: u8) -> Result<PartialDate, DateFault>
    ensures { result ≡ spec.roman_day years month day }
{
    day_of_month(
        years,
        month,
        Numeral {
            value: u32::from(day),
            digits: 2,
        },
    )
}

/// Returns the day of a year and the name of a month before a Roman numeral.
fn year_first(year: Numeral, month: u8, day: u8) -> Result<PartialDate, DateFault>
    ensures { result ≡ spec.year_first year month day }
{
    if is_long(year) {
        roman_day(one(year), month, day)
    } else {
        Err(DateFault::Malformed)
    }
}

/// Returns the day of two numbers with a Roman numeral between them, which is the month.
fn around_roman(first: Numeral, month: u8, last: Numeral) -> Result<PartialDate, DateFault>
    ensures { result ≡ spec.around_roman first month last }
{
    if month <= 12 {
        around_month(first, month, last)
    } else {
        Err(DateFault::Malformed)
    }
}

/// Returns the day of a Roman numeral and a month in a year, if there is a year.
fn in_year(years: Option<YearNumbers>, month: u8, day: u8) -> Result<PartialDate, DateFault>
    ensures { result ≡ spec.in_year years month day }
{
    match years {
        Some(years) => roman_day(years, month, day),
        None => Err(DateFault::Malformed),
    }
}

/// Returns the day of a number and these parts after it.
fn after_number(first: Numeral, rest: &[Token]) -> Result<PartialDate, DateFault>
    ensures { result ≡ spec.after_number first rest.now }
{
    match rest {
        [Month(m), Roman(d)] => year_first(first, *m, *d),
        [Roman(m), Number(b)] => around_roman(first, *m, *b),
        [RomanLetter(m), Number(b)] => around_roman(first, *m, *b),
        [Dash, Roman(m), Dash, Number(b)] => around_roman(first, *m, *b),
        [Slash, Roman(m), Slash, Number(b)] => around_roman(first, *m, *b),
        _ => Err(DateFault::Malformed),
    }
}

/// Returns the day of parts with one Roman numeral, which is the day beside the name of a month,
/// and the month between two numbers.
pub fn roman_date(tokens: &[Token]) -> Result<PartialDate, DateFault>
    ensures { result ≡ spec.roman_date tokens.now }
{
    match tokens {
        [Roman(d), Month(m), year @ ..] => in_year(year_numbers(year), *m, *d),
        [Month(m), Roman(d), year @ ..] => in_year(year_numbers(year), *m, *d),
        [Number(a), rest @ ..] => after_number(*a, rest),
        _ => Err(DateFault::Malformed),
    }
}

/// Returns whether a part is a Roman numeral.
pub fn has_roman_numeral(tokens: &[Token]) -> bool
    ensures { result ≡ list_any reading.is_roman_numeral tokens.now }
{
    tokens.iter().any(|token| matches!(token, Token::RomanNumeral | RomanLetter(_) | Roman(_)))
}
