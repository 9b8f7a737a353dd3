//! The month that a word names.
ghost use Rattle.std.specs.Prelude.{◌≡◌, true, IfOk, OnErr};
ghost use Rattle.osn_written.specs.WrittenDate.{number_of as number_in};
ghost use Rattle.osn_page_commands.specs.MonthWord as spec;

use osn_grammar::parse_day;
use osn_report::Misuse;
use osn_written::{DateFault, WrittenDate, number_of};
use std::alloc::{AllocError, Global};

/// Returns the month of a date that was read, if it was, and has one year.
fn month_of(date: Result<WrittenDate, DateFault>) -> Option<u8>
    ensures { result ≡ spec.month_of date }
{
    match date {
        Ok(date) if !date.is_double => Some(date.month),
        _ => None,
    }
}

/// Returns the month that the word names in a date, in any language in which dates are read, in
/// full or short.
pub(crate) fn month_in_date(alloc: Global, word: &str) -> Result<Option<u8>, AllocError>
    ensures { IfOk result (λ month. month ≡ spec.month_in_date word.now) }
{
    let text = format!(in alloc; "1 {word} 2000")?;
    Ok(month_of(parse_day(alloc, text.as_str())?))
}

/// Returns a month by its number or by a name that a date may have.
pub(crate) fn month_of_word(alloc: Global, text: &str) -> Result<Result<u8, Misuse>, AllocError>
    ensures value { IfOk result (λ month.
        month ≡ spec.month_of_word (number_in text.now) text.now) }
    ensures memory { OnErr result (spec.month_takes_memory (number_in text.now) ≡ true) }
{
    match number_of(text) {
        Some(month) if month >= 1 && month <= 12 => Ok(Ok(month as u8)),
        Some(_) => Ok(Err(Misuse::Month)),
        None => Ok(month_in_date(alloc, text)?.ok_or(Misuse::Month)),
    }
}
