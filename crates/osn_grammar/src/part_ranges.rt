//! A range from one part of a time to another one: `early 1675 - late 1676`.
ghost use Rattle.std.specs.Prelude.{◌≡◌, []};
ghost use Rattle.osn_grammar.specs.PartRanges as spec;

use crate::period::{part_of_month, period_in, three_months};
use crate::token::Token;
use osn_written::{Extent, PartialDate, Portion, Year};

/// Returns the first date of a part of a time. A part of a year has one only if it begins with it.
fn start_in(extent: Option<Extent>) -> Option<PartialDate>
    ensures { result ≡ spec.start_in extent }
{
    match extent {
        Some(Extent::FromTo(first, _)) => Some(first),
        Some(Extent::Part(Portion::FirstThird, date)) => Some(date),
        Some(Extent::Part(Portion::FirstHalf, date)) => Some(date),
        _ => None,
    }
}

/// Returns the last date of a part of a time, in the same way.
fn stop_in(extent: Option<Extent>) -> Option<PartialDate>
    ensures { result ≡ spec.stop_in extent }
{
    match extent {
        Some(Extent::FromTo(_, last)) => Some(last),
        Some(Extent::Part(Portion::LastThird, date)) => Some(date),
        Some(Extent::Part(Portion::SecondHalf, date)) => Some(date),
        _ => None,
    }
}

/// Returns the year of a date.
fn year_in(date: PartialDate) -> Year
    ensures { result ≡ spec.year_in date }
{
    match date {
        PartialDate::Day { year, .. } | PartialDate::Month { year, .. } => year,
        PartialDate::Year(year) => year,
    }
}

/// Returns the part of a year that parts are which lack the year.
fn part_without_year(year: Year, tokens: &[Token]) -> Option<Extent>
    ensures { result ≡ spec.part_without_year year tokens.now }
{
    match tokens {
        [Token::Portion(portion), Token::Month(month)] => {
            Some(part_of_month(*portion, year, *month))
        }
        [Token::Season(first)] if *first <= 10 => three_months(Ok(year), *first),
        _ => None,
    }
}

/// Returns the first of two.
fn or_lacking(first: Option<Extent>, other: Option<Extent>) -> Option<Extent>
    ensures { result ≡ spec.or_lacking first other }
{
    match first {
        Some(extent) => Some(extent),
        None => other,
    }
}

/// Returns the range from parts to a date.
fn range_to(first: &[Token], last: Option<PartialDate>) -> Option<Extent>
    ensures { result ≡ spec.range_to first.now last }
{
    let last = last?;
    let first = or_lacking(period_in(first), part_without_year(year_in(last), first));
    Some(Extent::FromTo(start_in(first)?, last))
}

/// Returns the range that a part joins, if it is one that joins.
fn join_parts(first: &[Token], token: Token, last: &[Token]) -> Option<Extent>
    ensures { result ≡ spec.join_parts first.now token last.now }
{
    match token {
        Token::To | Token::Or | Token::Dash | Token::ToThe => {
            range_to(first, stop_in(period_in(last)))
        }
        _ => None,
    }
}

/// Returns the range that parts are, at the first part that joins two of them.
pub fn part_range(tokens: &[Token]) -> Option<Extent>
    ensures { result ≡ spec.part_range tokens.now }
{
    let mut found = None;
    let mut place = tokens.len();
    while place > 0 {
        place -= 1;
        let last = &tokens[place + 1..];
        found = or_lacking(join_parts(&tokens[..place], tokens[place], last), found);
    }
    found
}
