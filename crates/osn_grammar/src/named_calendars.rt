//! The names of both calendars beside the two dates of a day.
ghost use Rattle.std.specs.Prelude.{◌≡◌};
ghost use Rattle.osn_grammar.specs.BothCalendars as spec;

use crate::forms::year_numbers;
use crate::token::Token::{self, Month, Number, Reckoning as By, Slash, Weekday};
use osn_written::Reckoning;

/// Returns whether parts are `N.S.` and a year, in this order or the other one.
fn are_new_and_year(tokens: &[Token]) -> bool
    ensures { result ≡ spec.are_new_and_year tokens.now }
{
    match tokens {
        [By(Reckoning::NewStyle), year @ ..] => year_numbers(year).is_some(),
        [Number(_), By(Reckoning::NewStyle)] => true,
        [Number(_), Slash, Number(_), By(Reckoning::NewStyle)] => true,
        _ => false,
    }
}

/// Returns whether parts are the second of two dates, with `N.S.` beside it.
fn is_new_last(tokens: &[Token]) -> bool
    ensures { result ≡ spec.is_new_last tokens.now }
{
    match tokens {
        [Number(_), Month(_), rest @ ..] => are_new_and_year(rest),
        _ => false,
    }
}

/// Returns whether parts are the rest of two dates after the month of the first one, with `O.S.`
/// beside the first one and `N.S.` beside the second one.
fn is_old_first(rest: &[Token]) -> bool
    ensures { result ≡ spec.is_old_first rest.now }
{
    match rest {
        [By(Reckoning::OldStyle), Slash, last @ ..] => is_new_last(last),
        [Number(_), By(Reckoning::OldStyle), Slash, last @ ..] => is_new_last(last),
        _ => false,
    }
}

/// Returns whether parts are two dates by name, `O.S.` beside the first one and `N.S.` beside the
/// second one.
pub fn are_named(tokens: &[Token]) -> bool
    ensures { result ≡ spec.are_named tokens.now }
{
    match tokens {
        [Number(_), Month(_), rest @ ..] => is_old_first(rest),
        [Weekday(_), Number(_), Month(_), rest @ ..] => is_old_first(rest),
        _ => false,
    }
}
