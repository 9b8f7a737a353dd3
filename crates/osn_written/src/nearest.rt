//! The days of a date's month and day in the nearest years that have them.
ghost use Rattle.std.specs.Prelude.{◌≡◌, ◌<◌, IfOk};
ghost use Rattle.osn_days.specs.Rules.{newest_rules};
ghost use Rattle.osn_written.specs.Nearest as spec;

use crate::written_date::WrittenDate;
use osn_days::Day;
use osn_territory::{Label, Territory};
use std::alloc::{AllocError, Global};

/// How far the years are looked through: labels have the years 0 to 10,000.
const MOST_YEARS: u16 = 10_000;

/// Returns the days of the date's month and day in another year.
fn days_in_year(territory: &Territory, date: WrittenDate, year: i32) -> Result<Vec<Day>, AllocError>
    ensures { IfOk result (λ days. days.items
        ≡ spec.days_in_year newest_rules territory.now date year) }
{
    territory.read(Label {
        year,
        month: date.month,
        day: date.day,
    })
}

/// Returns the days of the date's month and day that many years before and after its own.
#[tactic(auto, unfolding(crate::specs::Nearest::days_apart))]
fn days_apart(territory: &Territory, date: WrittenDate, years: u16) -> Result<Vec<Day>, AllocError>
    ensures { IfOk result (λ days. days.items
        ≡ spec.days_apart newest_rules territory.now date years) }
{
    let year = i32::from(date.year);
    let mut days = days_in_year(territory, date, year - i32::from(years))?;
    let later = days_in_year(territory, date, year + i32::from(years))?;
    days.extend_from_slice(later.as_slice())?;
    Ok(days)
}

/// Returns those in the nearest years that have some, at most as many years before or after.
fn nearest_within(
    alloc: Global,
    territory: &Territory,
    date: WrittenDate,
    most: u16,
) -> Result<Vec<Day>, AllocError>
    requires { most < 65535 }
    ensures { IfOk result (λ days. days.items
        ≡ spec.nearest_within newest_rules territory.now date most) }
{
    for years in 1..most + 1 {
        let days = days_apart(territory, date, years)?;
        if !days.is_empty() {
            return Ok(days);
        }
    }
    Ok(Vec::new(alloc))
}

/// Returns the days of the date's month and day in the nearest years that have some, of all years
/// that a label may have: those of the year before and of the one after it, if both are as near.
///
/// # Errors
///
/// `AllocError` if there is no memory for a list of days.
pub fn nearest_days(
    alloc: Global,
    territory: &Territory,
    date: WrittenDate,
) -> Result<Vec<Day>, AllocError>
    ensures { IfOk result (λ days. days.items
        ≡ spec.nearest_days newest_rules territory.now date) }
{
    nearest_within(alloc, territory, date, MOST_YEARS)
}
