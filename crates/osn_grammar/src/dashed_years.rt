//! A double year after a dash, beside a day or a month: `11 Feb. 1675-6`.
ghost use Rattle.std.specs.Prelude.{◌≡◌, ◌++◌, ◌∷◌, Some, IfOk, OnOk};
ghost use Rattle.std.specs.List.{list_any};
ghost use Rattle.osn_grammar.specs.DashedYears as spec;

use crate::simple::ends_next_year;
use crate::token::Numeral;
use crate::token::Token::{self, Dash, Dot, Month, Number, Slash};
use std::alloc::{AllocError, Global};

/// Returns whether a number after a dash is the later year of a double one: its last one or two
/// digits, or all of it. A year of three digits may have lost one.
fn is_double_by(year: Numeral, later: Numeral) -> bool
    ensures { result ≡ spec.is_double_by year later }
{
    year.digits >= 4
        && year.value <= 10000
        && (later.digits <= 2 || later.digits == 4)
        && ends_next_year(year.value, later.value, u32::from(later.digits))
}

/// Returns whether a part may be before the year of a date: its month or its day.
fn is_of_date(token: Option<Token>) -> bool
    ensures { result ≡ spec.is_of_date token }
{
    matches!(token, Some(Month(_)) | Some(Number(_)) | Some(Dot))
}

/// Returns whether a month and a day come next.
fn begins_day(rest: &[Token]) -> bool
    ensures { result ≡ spec.begins_day rest.now }
{
    matches!(rest, [Month(_), Number(_), ..])
}

/// Returns `/` for the dash of a double year.
fn slash_if(is_double: bool) -> Token
    ensures { result ≡ spec.slash_if is_double }
{
    if is_double { Slash } else { Dash }
}

/// Returns a dash after a year, or `/` if a double year has it. A part may be before the year.
fn dash_after(earlier: Option<Token>, year: Numeral, rest: &[Token]) -> Token
    ensures { result ≡ spec.dash_after earlier year rest.now }
{
    match rest {
        [Number(later), after @ ..] => {
            slash_if(is_double_by(year, *later) && (is_of_date(earlier) || begins_day(after)))
        }
        _ => Dash,
    }
}

/// Returns a part, or `/` if it is the dash of a double year. Two parts may be before it.
fn with_slash(earlier: Option<Token>, before: Option<Token>, token: Token, rest: &[Token]) -> Token
    ensures { result ≡ spec.with_slash earlier before token rest.now }
{
    match (before, token) {
        (Some(Number(year)), Dash) => dash_after(earlier, year, rest),
        _ => token,
    }
}

/// Appends a part, or `/` if it is the dash of a double year.
fn push_slashed(
    slashed: &mut Vec<Token>,
    earlier: Option<Token>,
    before: Option<Token>,
    token: Token,
    rest: &[Token],
) -> Result<(), AllocError>
    ensures { OnOk result
        (slashed.new.items ++ spec.slashed_after before (Some token) rest.now
        ≡ slashed.old.items ++ spec.slashed_after earlier before (token ∷ rest.now)) }
{
    slashed.push(with_slash(earlier, before, token, rest))?;
    Ok(())
}

/// Returns the parts with a `/` for the dash of each double year.
pub fn with_slashes(alloc: Global, tokens: &[Token]) -> Result<Vec<Token>, AllocError>
    ensures { IfOk result (λ slashed. slashed.items ≡ spec.with_slashes tokens.now) }
{
    let mut slashed = Vec::new(alloc);
    let mut earlier: Option<Token> = None;
    let mut before: Option<Token> = None;
    let mut place = 0;
    while place < tokens.len() {
        let token = tokens[place];
        push_slashed(&mut slashed, earlier, before, token, &tokens[place + 1..])?;
        earlier = before;
        before = Some(token);
        place += 1;
    }
    Ok(slashed)
}

/// Returns whether a part is the name of a month.
fn has_month(tokens: &[Token]) -> bool
    ensures { result ≡ list_any spec.is_month tokens.now }
{
    tokens.iter().any(|token| matches!(token, Month(_)))
}

/// Returns whether a part is the name of a month after March.
fn has_late_month(tokens: &[Token]) -> bool
    ensures { result ≡ list_any spec.is_late_month tokens.now }
{
    tokens.iter().any(|token| match token {
        Month(month) => *month > 3,
        _ => false,
    })
}

/// Returns whether a double year may be among the parts: a month is, and none after March.
pub fn may_be_double(tokens: &[Token]) -> bool
    ensures { result ≡ spec.may_be_double tokens.now }
{
    has_month(tokens) && !has_late_month(tokens)
}
