//! What is near a date that no day of a territory has.
ghost use Rattle.std.specs.Prelude.{◌≡◌, IfOk};
ghost use Rattle.osn_days.specs.Rules.{newest_rules};
ghost use Rattle.osn_written.specs.MissingDate as spec;

use crate::absence::Absence;
use crate::any_date::{Extent, PartialDate, Year};
use crate::finding::{NoDay, ends_of, first_day_of};
use crate::nearest::nearest_days;
use crate::runs::runs_meant;
use crate::written_date::WrittenDate;
use osn_days::Day;
use osn_territory::{Run, Territory};
use std::alloc::{AllocError, Global};

/// A date that no day of a territory has, and why.
#[derive(Clone, Copy, Debug, PartialEq, Eq)]
pub struct MissingDate {
    pub date: WrittenDate,
    pub absence: Absence,
}

/// Returns the date whose day is missing, if that is why no day is meant. It is the first day of a
/// month or a year.
pub fn missing_day(extent: Extent, reason: NoDay) -> Option<MissingDate>
    ensures { result ≡ spec.missing_day extent reason }
{
    let (first, last) = ends_of(extent);
    match reason {
        NoDay::Absent(absence) => Some(MissingDate {
            date: first_day_of(first),
            absence,
        }),
        NoDay::LastAbsent(absence) => Some(MissingDate {
            date: first_day_of(last),
            absence,
        }),
        NoDay::OutOfOrder | NoDay::OffTheLine | NoDay::NoFeast => None,
    }
}

/// Returns the days of the territory that are most like a missing one: those with the first of its
/// two years alone, or those of its month and day in the nearest years.
///
/// # Errors
///
/// `AllocError` if there is no memory for a list of days.
pub fn days_like(
    alloc: Global,
    territory: &Territory,
    missing: MissingDate,
) -> Result<Vec<Day>, AllocError>
    ensures { IfOk result (λ days.
        days.items ≡ spec.days_like newest_rules territory.now missing) }
{
    match missing.absence {
        Absence::NotWithBothYears => territory.read(missing.date.label()),
        Absence::NotOfItsCalendar | Absence::OffTheLine => Ok(Vec::new(alloc)),
        Absence::Skipped | Absence::NotInThatYear => nearest_days(alloc, territory, missing.date),
    }
}

/// Returns the days of the changes at which the territory skipped a missing day.
///
/// # Errors
///
/// `AllocError` if there is no memory for a list of days.
pub fn changes_over(
    alloc: Global,
    territory: &Territory,
    missing: MissingDate,
) -> Result<Vec<Day>, AllocError>
    ensures { IfOk result (λ days.
        days.items ≡ spec.changes_over newest_rules territory.now missing) }
{
    match missing.absence {
        Absence::Skipped => territory.gaps(missing.date.label()),
        _ => Ok(Vec::new(alloc)),
    }
}

/// Returns the days of the year that lacks a missing day, as runs, if that is why it is missing.
///
/// # Errors
///
/// `AllocError` if there is no memory for a list of days.
pub fn year_without(
    alloc: Global,
    territory: &Territory,
    missing: MissingDate,
) -> Result<Vec<Run>, AllocError>
    ensures { IfOk result (λ runs.
        runs.items ≡ spec.year_without newest_rules territory.now missing) }
{
    match missing.absence {
        Absence::NotInThatYear => {
            let year = Year {
                first: missing.date.year,
                is_double: false,
                has_three_digits: false,
            };
            runs_meant(alloc, territory, PartialDate::Year(year))
        }
        _ => Ok(Vec::new(alloc)),
    }
}
