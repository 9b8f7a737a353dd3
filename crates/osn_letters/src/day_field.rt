//! What the fields after a row say of days.
ghost use Rattle.std.specs.Prelude.{◌≡◌, ◌++◌, OnOk};
ghost use Rattle.std.specs.Fmt.{decimal};
ghost use Rattle.osn_days.specs.DateText.{text_of_date};
ghost use Rattle.osn_letters.specs.Fields as spec;

use crate::date_text::DateText;
use itoa::Buffer;
use osn_days::{Calendar, Date, date_digits, date_of};
use osn_territory::DatedDay;
use std::alloc::{AllocError, Global};

/// What a field says of a day.
#[derive(Clone, Copy)]
pub(crate) enum DayField {
    /// Its number.
    Number,
    /// Its Gregorian date.
    Gregorian,
    /// Its Julian date.
    Julian,
    /// Its dual text.
    Dual,
    /// The English name of its weekday.
    Weekday,
    /// Its Julian day number.
    JulianDayNumber,
}

/// Appends the digits of a number.
pub(crate) fn push_number(text: &mut Vec<u8>, number: u64) -> Result<(), AllocError>
    ensures { OnOk result (text.new.items ≡ text.old.items ++ decimal number) }
{
    let mut digits = Buffer::new();
    text.extend_from_slice(digits.format(number).as_bytes())
}

/// Appends a date, such as `1732-02-22`.
pub(crate) fn push_date(alloc: Global, text: &mut Vec<u8>, date: Date) -> Result<(), AllocError>
    ensures { OnOk result (text.new.items ≡ text.old.items ++ text_of_date date) }
{
    let year = date.year.unsigned_abs();
    if year < 10_000 && date.month < 100 && date.day < 100 {
        let digits = date_digits(year, u32::from(date.month), u32::from(date.day));
        return text.extend_from_slice(&digits);
    }
    let date = DateText(date);
    text.extend_from_slice(format!(in alloc; "{date}")?.as_bytes())
}

/// Appends what a field says of a day.
fn push_day_text(
    alloc: Global,
    text: &mut Vec<u8>,
    field: DayField,
    dated_day: DatedDay,
) -> Result<(), AllocError>
    ensures { OnOk result (text.new.items ≡ text.old.items ++ spec.day_text field dated_day) }
{
    let day = dated_day.day;
    match field {
        DayField::Number => push_number(text, u64::from(day.number())),
        DayField::Gregorian => push_date(alloc, text, date_of(Calendar::Gregorian, day)),
        DayField::Julian => push_date(alloc, text, date_of(Calendar::Julian, day)),
        DayField::Dual => text.extend_from_slice(format!(in alloc; "{dated_day}")?.as_bytes()),
        DayField::Weekday => text.extend_from_slice(day.weekday().name().as_bytes()),
        DayField::JulianDayNumber => push_number(text, u64::from(day.julian_day_number())),
    }
}

/// Appends the field of all days.
pub(crate) fn push_days_text(
    alloc: Global,
    text: &mut Vec<u8>,
    field: DayField,
    days: &[DatedDay],
) -> Result<(), AllocError>
    ensures { OnOk result (text.new.items ≡ text.old.items ++ spec.days_text days.now field) }
{
    if days.is_empty() {
        return Ok(());
    }
    push_day_text(alloc, text, field, days[0])?;
    for index in 1..days.len() {
        text.extend_from_slice(b"; ")?;
        push_day_text(alloc, text, field, days[index])?;
    }
    Ok(())
}
