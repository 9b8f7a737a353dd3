//! Which of the dates that people write are one day.
ghost use Rattle.std.specs.Prelude.{◌≡◌};
ghost use Rattle.osn_written.specs.PlainDay as spec;

use crate::any_date::{AnyDate, Extent, PartialDate};
use crate::written_date::{DateFault, WrittenDate};
use osn_days::Weekday;

/// Returns the date of one day, with the weekday that is named beside it, if any.
fn day_in(extent: Extent, weekday: Option<Weekday>) -> Result<WrittenDate, DateFault>
    ensures { result ≡ spec.day_in extent weekday }
{
    match extent {
        Extent::On(PartialDate::Day { year, month, day }) => Ok(WrittenDate {
            year: year.first,
            month,
            day,
            is_double: year.is_double,
            weekday,
        }),
        _ => Err(DateFault::NotOneDay),
    }
}

/// Returns whether more is said of a date than which it is.
fn has_qualifier(date: AnyDate) -> bool
    ensures { result ≡ spec.has_qualifier date }
{
    date.reckoning.is_some() || date.is_approximate || date.is_uncertain || date.is_supplied
}

/// Returns the date of one day with its weekday, if nothing more is said of it.
///
/// # Errors
///
/// `NotOneDay` for a month, a year, a range or a bound, then `Qualifier` if more is said.
pub fn plain_day(date: AnyDate) -> Result<WrittenDate, DateFault>
    ensures { result ≡ spec.plain_day date }
{
    let day = day_in(date.extent, date.weekday)?;
    if has_qualifier(date) {
        return Err(DateFault::Qualifier);
    }
    Ok(day)
}

impl WrittenDate {
    /// Returns the day of a date that is one day, with the weekday that it names, if any.
    pub fn of_one_day(date: AnyDate) -> Option<WrittenDate>
        ensures { result ≡ spec.one_day date }
    {
        day_in(date.extent, date.weekday).ok()
    }
}
