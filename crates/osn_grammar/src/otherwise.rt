//! Forms that are tried last: a double year after a dash, a range of days after its month or of
//! parts of a time, a date that was interpreted from a phrase, and a list of dates.
ghost use Rattle.std.specs.Prelude.{◌≡◌, Err, IfOk, filter, option_map};
ghost use Rattle.osn_grammar.specs.Reading as spec;
ghost use Rattle.osn_grammar.specs.Scan as scan;
ghost use Rattle.osn_grammar.specs.Tokens.{is_of_time};
ghost use Rattle.osn_written.specs.WrittenDate.{parts_at as parts_of};

use crate::dashed_years::{may_be_double, with_slashes};
use crate::month_first::{has_month_first, month_moved};
use crate::part_ranges::part_range;
use crate::period::has_period;
use crate::reading::{reading_of_tokens, unless_open};
use crate::scan::tokens_in;
use crate::set::list_in;
use crate::signs::{is_supplied, is_uncertain, reckoning_of, weekday_of};
use crate::text_reading::{DateOrder, TextReading};
use crate::token::Token;
use osn_days::Weekday;
use osn_written::{AnyDate, DateFault, Extent, Reckoning, parts_at};
use std::alloc::{AllocError, Global};

/// What a text says of a date, or why it is not a date.
type Read = Result<TextReading, DateFault>;

/// Returns a reading, or else the first fault.
fn or_this(read: Read, fault: DateFault) -> Read
    ensures { result ≡ spec.or_this read fault }
{
    match read {
        Ok(written) => Ok(written),
        Err(_) => Err(fault),
    }
}

/// Returns the range of days after its month that parts are, or else the fault.
fn read_month_first(
    alloc: Global,
    order: DateOrder,
    tokens: &[Token],
    time_tokens: &[Token],
    fault: DateFault,
) -> Result<Read, AllocError>
    ensures { IfOk result (λ read.
        read ≡ spec.read_month_first order tokens.now time_tokens.now fault) }
{
    if !has_month_first(time_tokens) {
        return Ok(Err(fault));
    }
    let moved = month_moved(alloc, time_tokens)?;
    Ok(or_this(reading_of_tokens(order, tokens, moved.as_slice()), fault))
}

/// Returns the date with a double year after a dash, or the range of days after its month, that
/// parts are, or else the fault.
fn read_slashed(
    alloc: Global,
    order: DateOrder,
    tokens: &[Token],
    time_tokens: &[Token],
    fault: DateFault,
) -> Result<Read, AllocError>
    ensures { IfOk result (λ read.
        read ≡ spec.read_slashed order tokens.now time_tokens.now fault) }
{
    if has_month_first(time_tokens) || !may_be_double(time_tokens) {
        return read_month_first(alloc, order, tokens, time_tokens, fault);
    }
    let slashed = with_slashes(alloc, time_tokens)?;
    Ok(or_this(reading_of_tokens(order, tokens, slashed.as_slice()), fault))
}

/// Returns the date of a range of parts of a time.
fn of_parts(
    tokens: &[Token],
    weekday: Option<Weekday>,
    reckoning: Option<Reckoning>,
    range: Option<Extent>,
) -> Result<AnyDate, DateFault>
    ensures { result ≡ spec.of_parts tokens.now weekday reckoning range }
{
    match range {
        Some(extent) => unless_open(AnyDate {
            extent,
            weekday,
            reckoning,
            is_approximate: true,
            is_uncertain: is_uncertain(tokens),
            is_supplied: is_supplied(tokens),
        }),
        None => Err(DateFault::OpenPart),
    }
}

/// Returns the date that parts are, from one part of a time to another one.
fn date_of_parts(tokens: &[Token], time_tokens: &[Token]) -> Result<AnyDate, DateFault>
    ensures { result ≡ spec.date_of_parts tokens.now time_tokens.now }
{
    let weekday = weekday_of(tokens)?;
    let reckoning = reckoning_of(tokens)?;
    of_parts(tokens, weekday, reckoning, part_range(time_tokens))
}

/// Returns a date as what a text says.
fn as_date(read: Result<AnyDate, DateFault>) -> Read
    ensures { result ≡ spec.as_date read }
{
    Ok(TextReading::Date(read?))
}

/// Returns the range of parts of a time, or the date with a double year after a dash, that parts
/// are, or else the fault.
fn read_parts(
    alloc: Global,
    order: DateOrder,
    tokens: &[Token],
    time_tokens: &[Token],
    fault: DateFault,
) -> Result<Read, AllocError>
    ensures { IfOk result (λ read. read ≡ spec.read_parts order tokens.now time_tokens.now fault) }
{
    if has_period(tokens) {
        Ok(or_this(as_date(date_of_parts(tokens, time_tokens)), fault))
    } else {
        read_slashed(alloc, order, tokens, time_tokens, fault)
    }
}

/// Returns the date that parts say after `int`, or else the fault.
fn date_before_phrase(
    order: DateOrder,
    tokens: &[Token],
    time_tokens: &[Token],
    fault: DateFault,
) -> Read
    ensures { result ≡ spec.date_before_phrase order tokens.now time_tokens.now fault }
{
    match time_tokens {
        [Token::Interpreted, time_tokens @ ..] => {
            or_this(reading_of_tokens(order, tokens, time_tokens), fault)
        }
        _ => Err(fault),
    }
}

/// Returns the date that a text before a phrase says after `int`, or else the fault.
fn read_before(
    alloc: Global,
    order: DateOrder,
    text: &str,
    fault: DateFault,
) -> Result<Read, AllocError>
    ensures { IfOk result (λ read. read ≡ spec.date_before_phrase order (scan.tokens_in text.now)
        (filter is_of_time (scan.tokens_in text.now)) fault) }
{
    let tokens = tokens_in(alloc, text)?;
    let time_tokens: Vec<Token> = tokens
        .iter()
        .copied()
        .filter(|token| token.is_of_time())
        .collect(alloc)?;
    Ok(date_before_phrase(order, tokens.as_slice(), time_tokens.as_slice(), fault))
}

/// Returns that a text is a list of dates, or else the fault.
fn read_list(alloc: Global, text: &str, fault: DateFault) -> Result<Read, AllocError>
    ensures { IfOk result (λ read. read ≡ spec.or_list (spec.list_in text.now) (Err fault)) }
{
    match list_in(alloc, text)? {
        Ok(_) => Ok(Ok(TextReading::Set)),
        Err(_) => Ok(Err(fault)),
    }
}

/// Returns what a text says by other forms, or else as a list of dates.
fn or_list(alloc: Global, text: &str, read: Read) -> Result<Read, AllocError>
    ensures { IfOk result (λ found. found ≡ spec.or_list (spec.list_in text.now) read) }
{
    match read {
        Ok(written) => Ok(Ok(written)),
        Err(fault) => read_list(alloc, text, fault),
    }
}

/// Returns whether the first `)` ends a text.
fn is_closed(phrase: &str) -> bool
    ensures { result ≡ spec.is_closed (parts_of 41 phrase.now) }
{
    match parts_at(phrase, ')') {
        Some((_, rest)) => rest.is_empty(),
        None => false,
    }
}

/// Returns the date that a text says before a phrase in round brackets, or else the fault.
fn before_phrase(
    alloc: Global,
    order: DateOrder,
    text: &str,
    fault: DateFault,
) -> Result<Read, AllocError>
    ensures { IfOk result (λ read.
        read ≡ spec.before_phrase order (parts_of 40 text.now) fault) }
{
    match parts_at(text, '(') {
        Some((date, phrase)) if is_closed(phrase) => read_before(alloc, order, date, fault),
        _ => Ok(Err(fault)),
    }
}

/// Returns what parts say by other forms, or else as a range of parts of a time or with a double
/// year after a dash.
fn or_parts(
    alloc: Global,
    order: DateOrder,
    tokens: &[Token],
    time_tokens: &[Token],
    read: Read,
) -> Result<Read, AllocError>
    ensures { IfOk result (λ found.
        found ≡ spec.or_parts order tokens.now time_tokens.now read) }
{
    match read {
        Ok(written) => Ok(Ok(written)),
        Err(fault) => read_parts(alloc, order, tokens, time_tokens, fault),
    }
}

/// Returns what a text says by other forms, or else before a phrase.
fn or_phrase(alloc: Global, order: DateOrder, text: &str, read: Read) -> Result<Read, AllocError>
    ensures { IfOk result (λ found. found ≡ spec.or_phrase order text.now read) }
{
    match read {
        Ok(written) => Ok(Ok(written)),
        Err(fault) => before_phrase(alloc, order, text, fault),
    }
}

/// Returns what a text says by other forms, or else by those that are tried last.
pub fn or_other_form(
    alloc: Global,
    order: DateOrder,
    text: &str,
    tokens: &[Token],
    time_tokens: &[Token],
    read: Read,
) -> Result<Read, AllocError>
    ensures { IfOk result (λ found. found ≡ spec.or_list (spec.list_in text.now)
        (spec.or_phrase order text.now (spec.or_parts order tokens.now time_tokens.now read))) }
{
    let read = or_parts(alloc, order, tokens, time_tokens, read)?;
    let read = or_phrase(alloc, order, text, read)?;
    or_list(alloc, text, read)
}
