//! A feast is read: its parts are those of a name and a year.
ghost use Rattle.std.specs.Prelude.{◌≡◌};
ghost use Rattle.std.specs.List.{list_any};
ghost use Rattle.osn_grammar.specs.Reading as spec;

use crate::feasts::feast_in;
use crate::reading::unless_open;
use crate::signs::{is_approximate, is_supplied, is_uncertain, reckoning_of, weekday_of};
use crate::token::{FeastWord, Token};
use osn_written::{AnyDate, DateFault, Extent, Reckoning};

/// Returns whether a part is a word of a feast's name, other than `day`.
fn is_feast(token: &Token) -> bool
    ensures { result ≡ spec.is_feast token.now }
{
    match token {
        Token::Feast(FeastWord::Day) => false,
        Token::Feast(_) => true,
        _ => false,
    }
}

/// Returns whether a part names a feast.
pub fn has_feast(tokens: &[Token]) -> bool
    ensures { result ≡ list_any spec.is_feast tokens.now }
{
    tokens.iter().any(|token| is_feast(token))
}

/// Returns the feast that parts are, with its signs, unless a calendar is named.
fn with_its_signs(
    tokens: &[Token],
    reckoning: Option<Reckoning>,
    extent: Extent,
) -> Result<AnyDate, DateFault>
    ensures { result ≡ spec.with_its_signs tokens.now reckoning extent }
{
    if reckoning.is_some() {
        return Err(DateFault::Feast);
    }
    unless_open(AnyDate {
        extent,
        weekday: None,
        reckoning: None,
        is_approximate: is_approximate(tokens),
        is_uncertain: is_uncertain(tokens),
        is_supplied: is_supplied(tokens),
    })
}

/// Returns the feast that parts are, or why they are not one. Its weekday is part of its name.
pub fn feast_of(tokens: &[Token], time_tokens: &[Token]) -> Result<AnyDate, DateFault>
    ensures { result ≡ spec.feast_of tokens.now time_tokens.now }
{
    let weekday = weekday_of(tokens)?;
    let reckoning = reckoning_of(tokens)?;
    let extent = feast_in(weekday, time_tokens)?;
    with_its_signs(tokens, reckoning, extent)
}
