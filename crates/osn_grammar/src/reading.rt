//! A text is read: what it says of a date, or why it is not a date.
ghost use Rattle.std.specs.Prelude.{◌≡◌, None, Err, IfOk};
ghost use Rattle.std.specs.List.{list_any};
ghost use Rattle.osn_grammar.specs.InDigits.{AreDigitsRead};
ghost use Rattle.osn_grammar.specs.Languages.{AreWordsKnown};
ghost use Rattle.osn_grammar.specs.Laws.{AreCountedNamesKnown, AreEnglishNamesKnown};
ghost use Rattle.osn_grammar.specs.Names.{AreNamesDistinct};
ghost use Rattle.osn_grammar.specs.Reading as spec;
ghost use Rattle.osn_grammar.specs.SetsInDigits.{AreSetsRead};

use crate::both_calendars::{ReckonedDay, day_by_both, named_day};
use crate::extent::extent_of;
use crate::feast_reading::{feast_of, has_feast};
use crate::open_digits::open_in;
use crate::otherwise::or_other_form;
use crate::period::{has_period, is_winter, period_in};
use crate::roman::{has_roman_numeral, roman_date};
use crate::scan::tokens_in;
use crate::set::set_in;
use crate::signs::{is_approximate, is_supplied, is_uncertain, reckoning_of, weekday_of};
use crate::simple::lacks_digit;
use crate::text_reading::{DateOrder, TextReading};
use crate::token::Token;
use crate::years::{has_open_year, range_of, years_in, years_of_text};
use osn_written::{AnyDate, DateFault, Extent, Reckoning};
use std::alloc::{AllocError, Global};

/// What parts say of the time, by which calendar.
#[derive(Clone, Copy)]
struct ReckonedExtent {
    extent: Extent,
    reckoning: Option<Reckoning>,
    /// Whether it is part of a time, such as `early 1675`.
    is_part: bool,
}

/// Returns the extent of a date that is written in a usual form, with the calendar that it names.
fn plain(extent: Extent, reckoning: Option<Reckoning>) -> ReckonedExtent
    ensures { result ≡ spec.extent_said reckoning extent }
{
    ReckonedExtent {
        extent,
        reckoning,
        is_part: false,
    }
}

/// Returns the day by both calendars, unless parts name a calendar.
fn extent_by_both(
    reckoning: Option<Reckoning>,
    fault: DateFault,
    day: Result<ReckonedDay, DateFault>,
) -> Result<ReckonedExtent, DateFault>
    ensures { result ≡ spec.extent_by_both reckoning fault day }
{
    match day {
        Ok(day) if reckoning.is_none() => { Ok(plain(Extent::On(day.date), Some(day.reckoning))) }
        Ok(_) => Err(DateFault::NamedCalendar),
        Err(DateFault::Malformed) => Err(fault),
        Err(other) => Err(other),
    }
}

/// Returns whether parts begin with `est` or `cal`.
fn begin_estimated(tokens: &[Token]) -> bool
    ensures { result ≡ spec.begin_estimated tokens.now }
{
    matches!(tokens, [Token::Estimated, ..])
}

/// Returns whether parts begin with a number.
fn begin_with_number(tokens: &[Token]) -> bool
    ensures { result ≡ spec.begin_with_number tokens.now }
{
    matches!(tokens, [Token::Number(_), ..])
}

/// Returns what comes after `est` or `cal`, if a text begins with it and a number comes next.
fn after_estimated(
    order: DateOrder,
    tokens: &[Token],
    time_tokens: &[Token],
) -> Result<Extent, DateFault>
    ensures { result ≡ spec.after_estimated order tokens.now time_tokens.now }
{
    match time_tokens {
        [Token::Estimated, date @ ..] if begin_estimated(tokens) && begin_with_number(date) => {
            extent_of(order, date)
        }
        _ => Err(DateFault::Malformed),
    }
}

/// Returns what parts without a usual form say: an estimated date, one with an open digit, a
/// decade, a century, a part of a time, a day with a Roman numeral or a day by both calendars.
fn extent_otherwise(
    order: DateOrder,
    tokens: &[Token],
    time_tokens: &[Token],
    reckoning: Option<Reckoning>,
    fault: DateFault,
) -> Result<ReckonedExtent, DateFault>
    ensures { result ≡ spec.extent_otherwise order tokens.now time_tokens.now reckoning fault }
{
    if let Some(extent) = open_in(time_tokens) {
        return Ok(plain(extent, reckoning));
    }
    if let Ok(extent) = after_estimated(order, tokens, time_tokens) {
        return Ok(plain(extent, reckoning));
    }
    if let Some(years) = years_in(time_tokens) {
        return Ok(plain(range_of(years), reckoning));
    }
    if let Some(extent) = period_in(time_tokens) {
        return Ok(ReckonedExtent {
            extent,
            reckoning,
            is_part: true,
        });
    }
    match roman_date(time_tokens) {
        Ok(date) => Ok(plain(Extent::On(date), reckoning)),
        Err(_) => extent_by_both(reckoning, fault, day_by_both(tokens, time_tokens)),
    }
}

/// Returns what parts say, by a usual form or by another one.
fn or_other(
    order: DateOrder,
    tokens: &[Token],
    time_tokens: &[Token],
    reckoning: Option<Reckoning>,
    read: Result<Extent, DateFault>,
) -> Result<ReckonedExtent, DateFault>
    ensures { result ≡ spec.or_other order tokens.now time_tokens.now reckoning read }
{
    match read {
        Ok(extent) => Ok(plain(extent, reckoning)),
        Err(fault) => extent_otherwise(order, tokens, time_tokens, reckoning, fault),
    }
}

/// Returns what parts say of the time by the calendar that they name, or by both of them.
fn extent_in(
    order: DateOrder,
    tokens: &[Token],
    time_tokens: &[Token],
    named: Result<Option<Reckoning>, DateFault>,
) -> Result<ReckonedExtent, DateFault>
    ensures { result ≡ spec.extent_in order tokens.now time_tokens.now named }
{
    match named {
        Ok(reckoning) => or_other(
            order,
            tokens,
            time_tokens,
            reckoning,
            extent_of(order, time_tokens),
        ),
        Err(fault) => extent_by_both(None, fault, named_day(tokens, time_tokens)),
    }
}

/// Returns the date, unless a year of it may lack a digit: one of three digits that is in doubt or
/// in brackets.
pub fn unless_open(date: AnyDate) -> Result<AnyDate, DateFault>
    ensures { result ≡ spec.unless_open date }
{
    if date.extent.has_year_of_three_digits() && (date.is_uncertain || date.is_supplied) {
        Err(DateFault::OpenYear)
    } else {
        Ok(date)
    }
}

/// Returns the date that parts say. The parts `time_tokens` are those that say which day is meant.
fn date_of(order: DateOrder, tokens: &[Token], time_tokens: &[Token]) -> Result<AnyDate, DateFault>
    ensures { result ≡ spec.date_of order tokens.now time_tokens.now }
{
    let weekday = weekday_of(tokens)?;
    let reckoned = extent_in(order, tokens, time_tokens, reckoning_of(tokens))?;
    unless_open(AnyDate {
        extent: reckoned.extent,
        weekday,
        reckoning: reckoned.reckoning,
        is_approximate: reckoned.is_part || is_approximate(tokens),
        is_uncertain: is_uncertain(tokens),
        is_supplied: is_supplied(tokens),
    })
}

/// Returns whether parts are a year of three digits with a dash or two full stops after it.
fn is_open_end(time_tokens: &[Token]) -> bool
    ensures { result ≡ spec.is_open_end time_tokens.now }
{
    match time_tokens {
        [Token::Number(year), Token::Dash | Token::Open] => lacks_digit(*year),
        _ => false,
    }
}

/// Returns whether parts end with a year of three digits and a dash or two full stops after it.
fn ends_open(time_tokens: &[Token]) -> bool
    ensures { result ≡ spec.ends_open time_tokens.now }
{
    time_tokens.len() >= 2 && is_open_end(&time_tokens[time_tokens.len() - 2..])
}

/// Returns the fault of parts, or that of a year with an open digit if they end with one.
fn open_or(time_tokens: &[Token], fault: DateFault) -> DateFault
    ensures { result ≡ spec.open_or time_tokens.now fault }
{
    match fault {
        DateFault::Malformed if ends_open(time_tokens) => DateFault::OpenYear,
        _ => fault,
    }
}

/// Returns why parts are not a date: the part of a time, the Roman numeral or the year with an open
/// digit that they have, or else the fault.
fn reason(tokens: &[Token], time_tokens: &[Token], fault: DateFault) -> DateFault
    ensures { result ≡ spec.reason tokens.now time_tokens.now fault }
{
    if has_period(tokens) || is_winter(time_tokens) {
        DateFault::OpenPart
    } else if has_roman_numeral(tokens) {
        DateFault::RomanNumeral
    } else if has_open_year(tokens) {
        DateFault::OpenYear
    } else {
        open_or(time_tokens, fault)
    }
}

/// Returns a date that was read, or why parts are not a date.
fn or_reason(
    tokens: &[Token],
    time_tokens: &[Token],
    read: Result<AnyDate, DateFault>,
) -> Result<TextReading, DateFault>
    ensures { result ≡ spec.or_reason tokens.now time_tokens.now read }
{
    match read {
        Ok(date) => Ok(TextReading::Date(date)),
        Err(fault) => Err(reason(tokens, time_tokens, fault)),
    }
}

/// Returns whether parts say that a text is undated, as `n.d.` does.
fn is_undated(time_tokens: &[Token]) -> bool
    ensures { result ≡ spec.is_undated time_tokens.now }
{
    matches!(time_tokens, [Token::Undated | Token::No])
}

/// Returns what parts say. The parts `time_tokens` are those that say which day is meant.
pub fn reading_of_tokens(
    order: DateOrder,
    tokens: &[Token],
    time_tokens: &[Token],
) -> Result<TextReading, DateFault>
    ensures { result ≡ spec.reading_of_tokens order tokens.now time_tokens.now }
{
    if tokens.is_empty() || is_undated(time_tokens) {
        return Ok(TextReading::NoDate);
    }
    if has_feast(tokens) {
        return Ok(TextReading::Date(feast_of(tokens, time_tokens)?));
    }
    or_reason(tokens, time_tokens, date_of(order, tokens, time_tokens))
}

/// Returns that a text is a set of dates, or why its first wrong member is not one, or otherwise
/// this fault.
fn or_set(
    alloc: Global,
    text: &str,
    fault: DateFault,
) -> Result<Result<TextReading, DateFault>, AllocError>
    ensures { IfOk result (λ read. read ≡ spec.or_set (spec.set_in text.now) (Err fault)) }
{
    match set_in(alloc, text)? {
        Ok(_) => Ok(Ok(TextReading::Set)),
        Err(DateFault::Malformed) => Ok(Err(fault)),
        Err(reason) => Ok(Err(reason)),
    }
}

/// Returns what a text says, or else the years that it is by digits and signs alone.
fn or_years(text: &str, read: Result<TextReading, DateFault>) -> Result<TextReading, DateFault>
    ensures { result ≡ spec.or_years text.now read }
{
    match read {
        Ok(written) => Ok(written),
        Err(fault) => match years_of_text(text) {
            Some(date) => Ok(TextReading::Date(date)),
            None => Err(fault),
        },
    }
}

/// Returns what a text says of a date, in one of the forms of `docs/DATES.md`.
///
/// # Errors
///
/// If memory runs out. If the text is not a date, the inner result has the fault.
#[tactic(auto, using(crate::proofs::NameFacts::name_laws, crate::proofs::DigitLaw::digits_law, crate::proofs::SetLaw::sets_law), unfolding(crate::specs::Reading::read_date))]
pub fn read_date(
    alloc: Global,
    text: &str,
    order: DateOrder,
) -> Result<Result<TextReading, DateFault>, AllocError>
    ensures value { IfOk result (λ read. read ≡ spec.read_date order text.now) }
    // as a law: no name is twice in the table of names
    ensures names { AreNamesDistinct }
    // as a law: it has the English months and weekdays
    ensures english { AreEnglishNamesKnown }
    // as a law: it has `8ber` and its like, which count the months from March on
    ensures counted_names { AreCountedNamesKnown }
    // as a law: it has the months, weekdays, ordinals and other words of each language
    ensures words { AreWordsKnown }
    // as a law: a date in digits is read as its day, with `?`, `~` and `%` after it, in a range and
    // with an open end
    ensures digits { AreDigitsRead }
    // as a law: a set of two or more such dates and ranges is read as that set
    ensures sets { AreSetsRead }
{
    let tokens = tokens_in(alloc, text)?;
    let time_tokens: Vec<Token> = tokens
        .iter()
        .copied()
        .filter(|token| token.is_of_time())
        .collect(alloc)?;
    match reading_of_tokens(order, tokens.as_slice(), time_tokens.as_slice()) {
        Ok(written) => Ok(Ok(written)),
        Err(fault) => {
            let read = or_years(text, or_set(alloc, text, fault)?);
            or_other_form(
                alloc,
                order,
                text,
                tokens.as_slice(),
                time_tokens.as_slice(),
                read,
            )
        }
    }
}
