//! What is said beside a date: its weekday, its calendar, and how sure it is.
ghost use Rattle.std.specs.Prelude.{◌≡◌, None};
ghost use Rattle.std.specs.List.{list_any};
ghost use Rattle.osn_grammar.specs.Reading as spec;

use crate::token::Token;
use osn_days::Weekday;
use osn_written::{DateFault, Reckoning};

/// Returns the weekday so far, with that of one more part. No two may be named.
fn with_weekday(before: Option<Weekday>, token: Token) -> Result<Option<Weekday>, DateFault>
    ensures { result ≡ spec.with_weekday before token }
{
    match (before, token) {
        (Some(_), Token::Weekday(_)) => Err(DateFault::Malformed),
        (None, Token::Weekday(weekday)) => Ok(Some(weekday)),
        _ => Ok(before),
    }
}

/// Returns the weekday that parts name, if one does.
pub fn weekday_of(tokens: &[Token]) -> Result<Option<Weekday>, DateFault>
    ensures { result ≡ spec.weekday_after None tokens.now }
{
    let mut weekday = None;
    for token in tokens {
        weekday = with_weekday(weekday, *token)?;
    }
    Ok(weekday)
}

/// Returns the calendar so far, with that of one more part. No two may be named.
fn with_reckoning(before: Option<Reckoning>, token: Token) -> Result<Option<Reckoning>, DateFault>
    ensures { result ≡ spec.with_reckoning before token }
{
    match (before, token) {
        (Some(_), Token::Reckoning(_)) => Err(DateFault::Malformed),
        (None, Token::Reckoning(reckoning)) => Ok(Some(reckoning)),
        _ => Ok(before),
    }
}

/// Returns the calendar that parts name, if one does.
pub fn reckoning_of(tokens: &[Token]) -> Result<Option<Reckoning>, DateFault>
    ensures { result ≡ spec.reckoning_after None tokens.now }
{
    let mut reckoning = None;
    for token in tokens {
        reckoning = with_reckoning(reckoning, *token)?;
    }
    Ok(reckoning)
}

/// Returns whether a part says that a date is approximate.
pub fn is_approximate(tokens: &[Token]) -> bool
    ensures { result ≡ list_any spec.is_about tokens.now }
{
    tokens.iter().any(|token| matches!(
        token,
        Token::About | Token::AboutAndDoubt | Token::Estimated
    ))
}

/// Returns whether a part says that a date is in doubt.
pub fn is_uncertain(tokens: &[Token]) -> bool
    ensures { result ≡ list_any spec.is_doubt tokens.now }
{
    tokens.iter().any(|token| matches!(token, Token::Doubt | Token::AboutAndDoubt))
}

/// Returns whether a part says that an editor supplied a date.
pub fn is_supplied(tokens: &[Token]) -> bool
    ensures { result ≡ list_any spec.is_bracket tokens.now }
{
    tokens.iter().any(|token| matches!(token, Token::Bracket))
}
