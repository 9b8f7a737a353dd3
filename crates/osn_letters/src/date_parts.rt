//! The date of a row whose year, month and day have columns of their own.
ghost use Rattle.std.specs.Prelude.{◌≡◌, ◌++◌, IfOk, OnOk};
ghost use Rattle.std.specs.Char.{is_ascii_digit};
ghost use Rattle.std.specs.List.{list_all};
ghost use Rattle.csv.specs.Records.{fields_of};
ghost use Rattle.osn_letters.specs.DateParts as spec;
ghost use Rattle.osn_letters.specs.declared.columns.DateColumns.TheVariants.{Apart};

use crate::columns::field_at;
use crate::row_field::trimmed;
use csv::ByteRecord;
use std::alloc::{AllocError, Global};

/// Returns the field of a column without the white space around it. A column that is not named has
/// an empty one.
fn part_in(row: &ByteRecord, column: Option<usize>) -> &[u8]
    ensures { result.now ≡ spec.part_in (fields_of row.now) column }
{
    match column {
        Some(index) => trimmed(field_at(row, index)),
        None => &[],
    }
}

/// Returns whether a text has digits alone.
fn are_digits(text: &[u8]) -> bool
    ensures { result ≡ list_all is_ascii_digit text.now }
{
    text.iter().all(|byte| byte.is_ascii_digit())
}

/// Returns whether a month is written in digits only.
fn is_in_digits(month: &[u8]) -> bool
    ensures { result ≡ spec.is_in_digits month.now }
{
    !month.is_empty() && are_digits(month)
}

/// Appends a hyphen with a month or a day after it, unless that is empty.
fn push_after_hyphen(text: &mut Vec<u8>, digits: &[u8]) -> Result<(), AllocError>
    ensures { OnOk result (text.new.items ≡ text.old.items ++ spec.after_hyphen digits.now) }
{
    if digits.is_empty() {
        return Ok(());
    }
    text.push(b'-')?;
    if digits.len() == 1 && are_digits(digits) {
        text.push(b'0')?;
    }
    text.extend_from_slice(digits)
}

/// Appends a day or a month with a blank after it, unless that is empty.
fn push_before_blank(text: &mut Vec<u8>, word: &[u8]) -> Result<(), AllocError>
    ensures { OnOk result (text.new.items ≡ text.old.items ++ spec.before_blank word.now) }
{
    if word.is_empty() {
        return Ok(());
    }
    text.extend_from_slice(word)?;
    Ok(text.push(b' ')?)
}

/// Returns the date of a year, a month and a day, of which each may be empty.
fn date_of_parts(
    alloc: Global,
    year: &[u8],
    month: &[u8],
    day: &[u8],
) -> Result<Vec<u8>, AllocError>
    ensures { IfOk result (λ text.
        text.items ≡ spec.date_of_parts year.now month.now day.now) }
{
    let mut text = Vec::new(alloc);
    if is_in_digits(month) {
        text.extend_from_slice(year)?;
        push_after_hyphen(&mut text, month)?;
        push_after_hyphen(&mut text, day)?;
    } else {
        push_before_blank(&mut text, day)?;
        push_before_blank(&mut text, month)?;
        text.extend_from_slice(year)?;
    }
    Ok(text)
}

/// Returns the text of a row's date, whose year, month and day are in these columns.
pub(crate) fn parts_text(
    alloc: Global,
    row: &ByteRecord,
    year: usize,
    month: Option<usize>,
    day: Option<usize>,
) -> Result<Vec<u8>, AllocError>
    ensures { IfOk result (λ text. text.items
        ≡ spec.date_in (Apart year month day) (fields_of row.now)) }
{
    date_of_parts(
        alloc,
        part_in(row, Some(year)),
        part_in(row, month),
        part_in(row, day),
    )
}
