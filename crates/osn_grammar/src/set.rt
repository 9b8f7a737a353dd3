//! A set of dates, of which one is meant, as EDTF writes it.
ghost use Rattle.std.specs.Prelude.{◌≡◌, [], map, option_map, IfOk};
ghost use Rattle.std.specs.Option.{unwrap_or};
ghost use Rattle.std.specs.Result.{result_map_both, result_ok};
ghost use Rattle.osn_grammar.specs.Reading as reading;
ghost use Rattle.osn_grammar.specs.Sets as spec;

use crate::forms::date_in_digits;
use crate::scan::tokens_in;
use crate::signs::{is_approximate, is_uncertain};
use crate::simple::{day_in_digits, one, whole_year, year_and_month};
use crate::token::Numeral;
use crate::token::Token::{self, About, AboutAndDoubt, Dash, Doubt, Number, Open};
use osn_written::{AnyDate, DateFault, Extent, PartialDate};
use std::alloc::{AllocError, Global};

/// Returns what comes after the opening bracket of a text, if it begins with one.
fn after_bracket(text: &str) -> Option<&str>
    ensures { option_map (λ rest. rest.now) result ≡ spec.without_first 91 text.now }
{
    text.strip_prefix('[')
}

/// Returns what comes before the closing bracket of a text, if it ends with one.
fn before_bracket(text: &str) -> Option<&str>
    ensures { option_map (λ front. front.now) result ≡ spec.without_last 93 text.now }
{
    text.strip_suffix(']')
}

/// Returns what comes after the opening brace of a text, if it begins with one.
fn after_brace(text: &str) -> Option<&str>
    ensures { option_map (λ rest. rest.now) result ≡ spec.without_first 123 text.now }
{
    text.strip_prefix('{')
}

/// Returns what comes before the closing brace of a text, if it ends with one.
fn before_brace(text: &str) -> Option<&str>
    ensures { option_map (λ front. front.now) result ≡ spec.without_last 125 text.now }
{
    text.strip_suffix('}')
}

/// Returns the text between square brackets, if a text is in brackets.
pub fn inside_brackets(text: &str) -> Option<&str>
    ensures { option_map (λ inside. inside.now) result ≡ spec.inside_brackets text.now }
{
    before_bracket(after_bracket(text)?)
}

/// Returns a date, or the dates from it to the one that these parts are after it. The end may be
/// open.
fn from_date(first: Result<PartialDate, DateFault>, rest: &[Token]) -> Result<Extent, DateFault>
    ensures { result ≡ spec.from_date first rest.now }
{
    match rest {
        [] => Ok(Extent::On(first?)),
        [Open] => Ok(Extent::NotBefore(first?)),
        [Open, last @ ..] => {
            let first = first?;
            Ok(Extent::FromTo(first, date_in_digits(last)?))
        }
        _ => Err(DateFault::Malformed),
    }
}

/// Returns the date that is a year of four digits or more.
fn long_year(year: Numeral) -> Result<PartialDate, DateFault>
    ensures { result ≡ spec.long_year year }
{
    if year.digits >= 4 {
        whole_year(one(year))
    } else {
        Err(DateFault::Malformed)
    }
}

/// Returns a month, or the dates from it to the one that these parts are after it.
fn from_month(year: Numeral, month: Numeral, rest: &[Token]) -> Result<Extent, DateFault>
    ensures { result ≡ spec.from_month year month rest.now }
{
    from_date(year_and_month(year, month), rest)
}

/// Returns the dates that these parts, a day and what is after it, are in a month.
fn from_day(year: Numeral, month: Numeral, parts: &[Token]) -> Result<Extent, DateFault>
    ensures { result ≡ spec.from_day year month parts.now }
{
    match parts {
        [Number(d), rest @ ..] => from_date(day_in_digits(one(year), month, *d), rest),
        _ => Err(DateFault::Malformed),
    }
}

/// Returns the dates that these parts are after a year and a month.
fn after_month(year: Numeral, month: Numeral, rest: &[Token]) -> Result<Extent, DateFault>
    ensures { result ≡ spec.after_month year month rest.now }
{
    match rest {
        [Dash, day @ ..] => from_day(year, month, day),
        _ => from_month(year, month, rest),
    }
}

/// Returns the dates that these parts, a month and what is after it, are in a year.
fn in_months(year: Numeral, parts: &[Token]) -> Result<Extent, DateFault>
    ensures { result ≡ spec.in_months year parts.now }
{
    match parts {
        [Number(m), rest @ ..] => after_month(year, *m, rest),
        _ => Err(DateFault::Malformed),
    }
}

/// Returns a year, or the dates from it to the one that these parts are after it.
fn from_year(year: Numeral, rest: &[Token]) -> Result<Extent, DateFault>
    ensures { result ≡ spec.from_year year rest.now }
{
    from_date(long_year(year), rest)
}

/// Returns the dates that these parts are after a year.
fn after_year(year: Numeral, rest: &[Token]) -> Result<Extent, DateFault>
    ensures { result ≡ spec.after_year year rest.now }
{
    match rest {
        [Dash, months @ ..] => in_months(year, months),
        _ => from_year(year, rest),
    }
}

/// Returns a date in digits, or the first and the last one with `..` between them, either of which
/// may be open.
fn dates_in_digits(tokens: &[Token]) -> Result<Extent, DateFault>
    ensures { result ≡ spec.dates_in_digits tokens.now }
{
    match tokens {
        [Number(y), rest @ ..] => after_year(*y, rest),
        [Open, last @ ..] => Ok(Extent::NotAfter(date_in_digits(last)?)),
        _ => Err(DateFault::Malformed),
    }
}

/// Returns the member of a set that parts are, or why they are not one. The parts `unsigned` are
/// those without the signs.
fn member_of(tokens: &[Token], unsigned: &[Token]) -> Result<AnyDate, DateFault>
    ensures { result ≡ reading.member_by tokens.now (spec.dates_in_digits unsigned.now) }
{
    let extent = dates_in_digits(unsigned)?;
    Ok(AnyDate {
        extent,
        weekday: None,
        reckoning: None,
        is_approximate: is_approximate(tokens),
        is_uncertain: is_uncertain(tokens),
        is_supplied: false,
    })
}

/// Returns the member of a set that a text is, or why it is not one.
fn member_in(alloc: Global, text: &str) -> Result<Result<AnyDate, DateFault>, AllocError>
    ensures { IfOk result (λ member. member ≡ reading.member_in text.now) }
{
    let tokens = tokens_in(alloc, text)?;
    let unsigned: Vec<Token> = tokens
        .iter()
        .copied()
        .filter(|token| !matches!(token, About | Doubt | AboutAndDoubt))
        .collect(alloc)?;
    Ok(member_of(tokens.as_slice(), unsigned.as_slice()))
}

/// The members of a set, or why the text is not a set.
type Members = Result<Vec<AnyDate>, DateFault>;

/// Returns the members of a set that texts are, or why the first wrong one is not a member.
fn all_members(alloc: Global, texts: &[&str]) -> Result<Members, AllocError>
    ensures { IfOk result (λ members. result_map_both (λ members. members.items) (λ fault. fault)
        members
        ≡ reading.all_members (map (λ text. text.now) texts.now)) }
{
    let mut members = Vec::new(alloc);
    for text in texts {
        match member_in(alloc, text)? {
            Ok(member) => members.push(member)?,
            Err(fault) => return Ok(Err(fault)),
        }
    }
    Ok(Ok(members))
}

/// Returns the texts between the commas of a text.
fn between_commas(alloc: Global, text: &str) -> Result<Vec<&str>, AllocError>
    ensures { IfOk result (λ texts.
        map (λ text. text.now) texts.items ≡ spec.between_commas text.now) }
{
    text.split(',').collect(alloc)
}

/// Returns the members of the set with this text in its brackets, or why it is not a set.
fn members_inside(alloc: Global, inside: &str) -> Result<Members, AllocError>
    ensures { IfOk result (λ members. result_map_both (λ members. members.items) (λ fault. fault)
        members
        ≡ reading.all_members (spec.between_commas inside.now)) }
{
    let texts = between_commas(alloc, inside)?;
    all_members(alloc, texts.as_slice())
}

/// Returns the members of the set that a text is, or why it is not a set.
#[tactic(auto, unfolding(crate::specs::Reading::set_in))]
pub fn set_in(alloc: Global, text: &str) -> Result<Members, AllocError>
    ensures { IfOk result (λ members. result_map_both (λ members. members.items) (λ fault. fault)
        members
        ≡ reading.set_in text.now) }
{
    match inside_brackets(text) {
        Some(inside) => members_inside(alloc, inside),
        None => Ok(Err(DateFault::Malformed)),
    }
}

/// Returns the text between braces, if a text is in braces.
fn inside_braces(text: &str) -> Option<&str>
    ensures { option_map (λ inside. inside.now) result ≡ spec.inside_braces text.now }
{
    before_brace(after_brace(text)?)
}

/// Returns the members of a list of these texts, or why they are not a list.
fn list_of(alloc: Global, texts: &[&str]) -> Result<Members, AllocError>
    ensures { IfOk result (λ members. result_map_both (λ members. members.items) (λ fault. fault)
        members
        ≡ reading.list_of (map (λ text. text.now) texts.now)) }
{
    match texts {
        [_, _, ..] => all_members(alloc, texts),
        _ => Ok(Err(DateFault::Malformed)),
    }
}

/// Returns the members of the list that a text without braces is, or why it is not a list.
fn list_without_braces(alloc: Global, text: &str) -> Result<Members, AllocError>
    ensures { IfOk result (λ members. result_map_both (λ members. members.items) (λ fault. fault)
        members
        ≡ reading.list_of (spec.between_commas text.now)) }
{
    let texts = between_commas(alloc, text)?;
    list_of(alloc, texts.as_slice())
}

/// Returns the members of the list that a text is, or why it is not a list.
#[tactic(auto, unfolding(crate::specs::Reading::list_in))]
pub fn list_in(alloc: Global, text: &str) -> Result<Members, AllocError>
    ensures { IfOk result (λ members. result_map_both (λ members. members.items) (λ fault. fault)
        members
        ≡ reading.list_in text.now) }
{
    match inside_braces(text) {
        Some(inside) => members_inside(alloc, inside),
        None => list_without_braces(alloc, text),
    }
}

/// Returns the members of the list that a text is, and none if it is not a list.
fn listed_members(alloc: Global, text: &str) -> Result<Vec<AnyDate>, AllocError>
    ensures { IfOk result (λ members. members.items
        ≡ unwrap_or (result_ok (reading.list_in text.now)) []) }
{
    match list_in(alloc, text)? {
        Ok(members) => Ok(members),
        Err(_) => Ok(Vec::new(alloc)),
    }
}

/// Returns the dates of a list, or of a set of EDTF, of which one is meant, such as
/// `[1543-04-11,1544-04-11]`: those of a text that `read_date` returns as `Written::Set`. Each is a
/// date, a range or a bound, and has its own signs. There are none if the text is neither.
///
/// # Errors
///
/// If memory runs out.
pub fn members_of(alloc: Global, text: &str) -> Result<Vec<AnyDate>, AllocError>
    ensures { IfOk result (λ members. members.items ≡ reading.members text.now) }
{
    match set_in(alloc, text)? {
        Ok(members) => Ok(members),
        Err(_) => listed_members(alloc, text),
    }
}
