//! Whether a place counted the days double that a date with both years means.
ghost use Rattle.std.specs.Prelude.{◌≡◌, IfOk};
ghost use Rattle.std.specs.List.{list_any};
ghost use Rattle.osn_days.specs.Rules.{newest_rules};
ghost use Rattle.osn_written.specs.Double as spec;

use crate::any_date::{Extent, PartialDate};
use crate::finding::ends_of;
use crate::runs::{double_days, year_of};
use osn_days::Day;
use osn_territory::Territory;
use std::alloc::{AllocError, Global};

/// Returns whether the place dated the day by another year.
fn is_dated_otherwise(own: &Territory, first: u16, day: Day) -> bool
    ensures { result ≡ spec.is_dated_otherwise newest_rules own.now first day }
{
    own.dated(day).label.year != i32::from(first)
}

/// Returns whether the place dated one of the days by another year.
fn has_dated_otherwise(own: &Territory, first: u16, days: &[Day]) -> bool
    ensures { result ≡ list_any (spec.is_dated_otherwise newest_rules own.now first) days.now }
{
    days.iter().any(|day| is_dated_otherwise(own, first, *day))
}

/// Returns whether a date has both years, and a place dated one of the days that it means by
/// another year than the first one: it did not count that day double.
fn is_date_not_counted_double(
    alloc: Global,
    own: &Territory,
    territory: &Territory,
    date: PartialDate,
) -> Result<bool, AllocError>
    ensures { IfOk result (λ is. is
        ≡ spec.is_date_not_counted_double newest_rules own.now territory.now date) }
{
    let year = year_of(date);
    if !year.is_double {
        return Ok(false);
    }
    let days = double_days(alloc, territory, date)?;
    Ok(has_dated_otherwise(own, year.first, days.as_slice()))
}

/// Returns whether a date of what is written has both years, and means by the reckoning of a
/// territory a day that the place itself dated by another year than the first one.
///
/// # Errors
///
/// `AllocError` if there is no memory for the list of days.
pub fn is_extent_not_counted_double(
    alloc: Global,
    own: &Territory,
    territory: &Territory,
    extent: Extent,
) -> Result<bool, AllocError>
    ensures { IfOk result (λ is. is
        ≡ spec.is_extent_not_counted_double newest_rules own.now territory.now extent) }
{
    let (first, last) = ends_of(extent);
    Ok(
        is_date_not_counted_double(alloc, own, territory, first)?
            || is_date_not_counted_double(alloc, own, territory, last)?,
    )
}
