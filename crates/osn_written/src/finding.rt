//! Which days a date means in a territory with all that is written of it, or why it means none.
ghost use Rattle.std.specs.Prelude.{◌≡◌, IfOk};
ghost use Rattle.osn_days.specs.Rules.{newest_rules};
ghost use Rattle.osn_written.specs.Finding as spec;

use crate::absence::{Absence, absence_of};
use crate::any_date::{AnyDate, Extent, PartialDate, Reckoning, Year};
use crate::feast::Feast;
use crate::feast_days::feast_meant;
use crate::runs::runs_meant;
use crate::span::{NoSpan, span_meant};
use crate::written_date::WrittenDate;
use osn_computus::Rule;
use osn_days::Calendar;
use osn_territory::{Regime, Run, Style, Territory};
use std::alloc::{AllocError, Global};

/// Why a written date means no day in a territory.
#[derive(Clone, Copy, Debug, PartialEq, Eq)]
pub enum NoDay {
    /// The date, the first one of a range or that of a bound means no day. For a month or a year,
    /// this is why its first day is missing.
    Absent(Absence),
    /// The last date of a range means no day.
    LastAbsent(Absence),
    /// The first day of a range is after its last day.
    OutOfOrder,
    /// The line has no day before the date, or no day after it.
    OffTheLine,
    /// The feast did not fall in that year, as the place counted it.
    NoFeast,
}

/// The regime of a date by the new style.
const NEW_STYLE: Regime = Regime {
    calendar: Calendar::Gregorian,
    style: Style::January,
    rule: Rule::Gregorian,
};

/// Returns the territory as if it had used the calendar that a date names. By the old style that is
/// the Julian calendar with the territory's own beginnings of the year. By the new style it is the
/// Gregorian calendar with the year from 1 January.
///
/// # Errors
///
/// `AllocError` if there is no memory for its periods.
pub fn by_reckoning(
    alloc: Global,
    territory: &Territory,
    reckoning: Reckoning,
) -> Result<Territory, AllocError>
    ensures { IfOk result (λ t. t ≡ spec.by_reckoning territory.now reckoning) }
{
    match reckoning {
        Reckoning::OldStyle => territory.in_julian_calendar(),
        Reckoning::NewStyle => Territory::open(alloc, NEW_STYLE),
    }
}

/// Returns the first day of a date, as it is written: for a month or a year its day 1.
pub fn first_day_of(date: PartialDate) -> WrittenDate
    ensures { result ≡ spec.first_day_of date }
{
    let (year, month, day) = match date {
        PartialDate::Day { year, month, day } => (year, month, day),
        PartialDate::Month { year, month } => (year, month, 1),
        PartialDate::Year(year) => (year, 1, 1),
    };
    WrittenDate {
        year: year.first,
        month,
        day,
        is_double: year.is_double,
        weekday: None,
    }
}

/// Returns why a date means no day.
fn absence_in(territory: &Territory, date: PartialDate) -> Result<Absence, AllocError>
    ensures { IfOk result (λ absence.
        absence ≡ spec.absence_in newest_rules territory.now date) }
{
    absence_of(territory, first_day_of(date))
}

/// Returns the first date of what is written, and the last one. For one date or a bound both are
/// that one, and for a feast both are its year.
pub fn ends_of(extent: Extent) -> (PartialDate, PartialDate)
    ensures { result ≡ spec.ends_of extent }
{
    match extent {
        Extent::FromTo(first, last) => (first, last),
        Extent::DaysOfYear { first, last, year } => (first.in_year(year), last.in_year(year)),
        Extent::On(date)
        | Extent::Before(date)
        | Extent::NotAfter(date)
        | Extent::After(date)
        | Extent::NotBefore(date)
        | Extent::Part(_, date) => (date, date),
        Extent::Feast { year, .. } => (PartialDate::Year(year), PartialDate::Year(year)),
    }
}

/// Returns why there is no span of days.
fn reason_of(territory: &Territory, extent: Extent, no_span: NoSpan) -> Result<NoDay, AllocError>
    ensures { IfOk result (λ reason.
        reason ≡ spec.reason_of newest_rules territory.now extent no_span) }
{
    let (first, last) = ends_of(extent);
    match no_span {
        NoSpan::NoDay => Ok(NoDay::Absent(absence_in(territory, first)?)),
        NoSpan::NoLastDay => Ok(NoDay::LastAbsent(absence_in(territory, last)?)),
        NoSpan::OutOfOrder => Ok(NoDay::OutOfOrder),
        NoSpan::OffTheLine => Ok(NoDay::OffTheLine),
    }
}

/// Returns one run, or why no day is meant.
fn of_span(
    alloc: Global,
    territory: &Territory,
    extent: Extent,
    span: Result<Run, NoSpan>,
) -> Result<Result<Vec<Run>, NoDay>, AllocError>
    ensures { IfOk result (λ found. spec.list_of found
        ≡ spec.of_span newest_rules territory.now extent span) }
{
    match span {
        Ok(run) => {
            let mut runs = Vec::new(alloc);
            runs.push(run)?;
            Ok(Ok(runs))
        }
        Err(no_span) => Ok(Err(reason_of(territory, extent, no_span)?)),
    }
}

/// Returns the runs of one date, or why it means no day.
fn of_date(
    alloc: Global,
    territory: &Territory,
    date: PartialDate,
) -> Result<Result<Vec<Run>, NoDay>, AllocError>
    ensures { IfOk result (λ found. spec.list_of found
        ≡ spec.of_date newest_rules territory.now date) }
{
    let runs = runs_meant(alloc, territory, date)?;
    if runs.is_empty() {
        return Ok(Err(NoDay::Absent(absence_in(territory, date)?)));
    }
    Ok(Ok(runs))
}

/// Returns the runs of a feast, or that it did not fall in the year.
fn of_feast(
    alloc: Global,
    territory: &Territory,
    feast: Feast,
    year: Year,
) -> Result<Result<Vec<Run>, NoDay>, AllocError>
    ensures { IfOk result (λ found. spec.list_of found
        ≡ spec.of_feast newest_rules territory.now feast year) }
{
    let runs = feast_meant(alloc, territory, feast, year)?;
    if runs.is_empty() {
        return Ok(Err(NoDay::NoFeast));
    }
    Ok(Ok(runs))
}

/// Returns the date, if what is written is one.
fn one_date(extent: Extent) -> Option<PartialDate>
    ensures { result ≡ spec.one_date extent }
{
    match extent {
        Extent::On(date) => Some(date),
        _ => None,
    }
}

/// Returns the days that what is written means in a territory, as runs in order, or why it means
/// none. One date has the runs of `runs_meant`, a range or a bound is the one of `span_meant`. A
/// feast has the days of the year that are counted from the Easters in force there.
///
/// # Errors
///
/// `AllocError` if there is no memory for the list.
#[tactic(auto, unfolding(crate::specs::Finding::extent_meant))]
pub fn find_runs(
    alloc: Global,
    territory: &Territory,
    extent: Extent,
) -> Result<Result<Vec<Run>, NoDay>, AllocError>
    ensures { IfOk result (λ found. spec.list_of found
        ≡ spec.extent_meant newest_rules territory.now extent) }
{
    match one_date(extent) {
        Some(date) => of_date(alloc, territory, date),
        None => match extent {
            Extent::Feast { feast, year } => of_feast(alloc, territory, feast, year),
            _ => {
                let span = span_meant(alloc, territory, extent)?;
                of_span(alloc, territory, extent, span)
            }
        },
    }
}

/// Returns whether both are the same runs. If neither means a day, the reasons may differ.
fn are_same(own: &Result<Vec<Run>, NoDay>, named: &Result<Vec<Run>, NoDay>) -> bool
    ensures { result ≡ spec.are_same (spec.list_of own.now) (spec.list_of named.now) }
{
    match (own, named) {
        (Ok(own), Ok(named)) => own.as_slice() == named.as_slice(),
        (Err(_), Err(_)) => true,
        _ => false,
    }
}

/// Returns whether a date that names a calendar means other days by it than by the place's own
/// reckoning.
///
/// # Errors
///
/// `AllocError` if there is no memory for the lists that are compared.
pub fn is_by_other_calendar(
    alloc: Global,
    territory: &Territory,
    date: AnyDate,
) -> Result<bool, AllocError>
    ensures { IfOk result (λ other.
        other ≡ spec.is_by_other_calendar newest_rules territory.now date) }
{
    let Some(reckoning) = date.reckoning else {
        return Ok(false);
    };
    let reckoned = by_reckoning(alloc, territory, reckoning)?;
    let own = find_runs(alloc, territory, date.extent)?;
    let named = find_runs(alloc, &reckoned, date.extent)?;
    Ok(!are_same(&own, &named))
}
