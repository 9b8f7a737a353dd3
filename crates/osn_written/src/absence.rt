//! Why a written date means no day in a territory.
ghost use Rattle.std.specs.Prelude.{◌≡◌, not, IfOk};
ghost use Rattle.osn_days.specs.Rules.{newest_rules};
ghost use Rattle.osn_territory.specs.LabelOrder.{gaps};
ghost use Rattle.osn_territory.specs.Territory.{reading, is_empty};
ghost use Rattle.osn_written.specs.Absence as spec;

use crate::written_date::WrittenDate;
use osn_territory::{Label, Territory};
use std::alloc::AllocError;

/// Why a date means no day in a territory.
#[derive(Clone, Copy, Debug, PartialEq, Eq)]
pub enum Absence {
    /// The territory dates a day so with the first year alone: it did not count that day double.
    NotWithBothYears,
    /// No calendar of the territory has the month and day in any year.
    NotOfItsCalendar,
    /// The date is before the first day of the line or after the last.
    OffTheLine,
    /// The date lies in the gap of a change: the territory skipped it.
    Skipped,
    /// The territory has the month and day in other years, and not in that one.
    NotInThatYear,
}

/// Returns whether the territory dates a day with the label.
fn is_read(territory: &Territory, label: Label) -> Result<bool, AllocError>
    ensures { IfOk result (λ read.
        read ≡ not (is_empty (reading newest_rules territory.now label))) }
{
    let days = territory.read(label)?;
    Ok(!days.is_empty())
}

/// Returns the absence of a label that is skipped at a change, or is missing in its year.
fn by_gaps(territory: &Territory, label: Label) -> Result<Absence, AllocError>
    ensures { IfOk result (λ absence.
        absence ≡ spec.by_gaps (gaps newest_rules territory.now label)) }
{
    let changes = territory.gaps(label)?;
    if changes.is_empty() {
        Ok(Absence::NotInThatYear)
    } else {
        Ok(Absence::Skipped)
    }
}

/// Returns why no day is dated with the label.
fn absence_of_label(territory: &Territory, label: Label) -> Result<Absence, AllocError>
    ensures { IfOk result (λ absence.
        absence ≡ spec.absence_of_label newest_rules territory.now label) }
{
    if !territory.has_month_day(label.month, label.day) {
        return Ok(Absence::NotOfItsCalendar);
    }
    if territory.is_off_line(label) {
        return Ok(Absence::OffTheLine);
    }
    by_gaps(territory, label)
}

/// Returns why a date that means no day in a territory means none: the first of the reasons that
/// applies.
///
/// # Errors
///
/// `AllocError` if there is no memory for a list of days.
#[tactic(auto, unfolding(crate::specs::Absence::absence))]
pub fn absence_of(territory: &Territory, date: WrittenDate) -> Result<Absence, AllocError>
    ensures { IfOk result (λ a. a ≡ spec.absence newest_rules territory.now date) }
{
    let label = date.label();
    if date.is_double && is_read(territory, label)? {
        return Ok(Absence::NotWithBothYears);
    }
    absence_of_label(territory, label)
}
