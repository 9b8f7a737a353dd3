//! The runs of days that a written day, month or year means in a territory.
ghost use Rattle.std.specs.Prelude.{◌≡◌, ◌++◌, ◌+◌, map, filter, IfOk, OnOk, true};
ghost use Rattle.osn_days.specs.Rules.{newest_rules};
ghost use Rattle.osn_territory.specs.Dating.{dated_on};
ghost use Rattle.osn_territory.specs.Runs.{days_in, days_of_run};
ghost use Rattle.osn_territory.specs.Style.{is_before_25_march};
ghost use Rattle.osn_territory.specs.Territory.{reading};
ghost use Rattle.osn_written.specs.Runs as spec;

use crate::any_date::{PartialDate, Year};
use osn_days::Day;
use osn_territory::{DatedDay, Label, Run, Territory};
use std::alloc::{AllocError, Global};

/// Returns the year that is written.
pub(crate) fn year_of(date: PartialDate) -> Year
    ensures { result ≡ spec.year_of date }
{
    match date {
        PartialDate::Day { year, .. } => year,
        PartialDate::Month { year, .. } => year,
        PartialDate::Year(year) => year,
    }
}

/// Returns whether the label has the month and the day of the month, if they are written.
fn has_month_and_day(date: PartialDate, label: Label) -> bool
    ensures { result ≡ spec.has_month_and_day date label }
{
    match date {
        PartialDate::Day { month, day, .. } => label.month == month && label.day == day,
        PartialDate::Month { month, .. } => label.month == month,
        PartialDate::Year(_) => true,
    }
}

/// Returns whether a label is of a day from 1 January to 24 March.
fn is_before_25_march(label: Label) -> bool
    ensures { result ≡ is_before_25_march label.month label.day }
{
    label.month < 3 || label.month == 3 && label.day < 25
}

/// Returns whether the day is of the double year that begins with this one.
pub(crate) fn is_in_double_year(first: u16, day: &DatedDay) -> bool
    ensures { result ≡ spec.is_in_double_year first day.now }
{
    let year = i32::from(first);
    day.january_year == year + 1
        && (day.label.year == year || day.label.year == year + 1 && is_before_25_march(day.label))
}

/// Returns whether a date of a double year means the day.
fn is_meant_double(date: PartialDate, day: &DatedDay) -> bool
    ensures { result ≡ spec.is_meant_double date day.now }
{
    is_in_double_year(year_of(date).first, day) && has_month_and_day(date, day.label)
}

/// Returns each of these days as a run.
fn single_runs(alloc: Global, days: &[Day]) -> Result<Vec<Run>, AllocError>
    ensures { IfOk result (λ runs. runs.items ≡ map spec.run_of_day days.now) }
{
    days.iter()
        .map(|day| Run {
            first: *day,
            last: *day,
        })
        .collect(alloc)
}

/// Returns the days with a label, each as a run.
fn runs_of_label(alloc: Global, territory: &Territory, label: Label) -> Result<Vec<Run>, AllocError>
    ensures days { IfOk result (λ runs.
        days_in runs.items ≡ reading newest_rules territory.now label) }
    ensures have { IfOk result (λ runs. spec.HaveDays runs.items) }
{
    let days = territory.read(label)?;
    single_runs(alloc, days.as_slice())
}

/// Returns the days whose label has that year, and the month and the day that are written, as runs
/// that may touch.
fn runs_labelled(
    alloc: Global,
    territory: &Territory,
    date: PartialDate,
    year: i32,
) -> Result<Vec<Run>, AllocError>
    ensures days { IfOk result (λ runs.
        days_in runs.items ≡ spec.all_labelled newest_rules territory.now date year) }
    ensures have { IfOk result (λ runs. spec.HaveDays runs.items) }
{
    match date {
        PartialDate::Day { month, day, .. } => {
            runs_of_label(alloc, territory, Label { year, month, day })
        }
        PartialDate::Month { month, .. } => territory.days_of_month(year, month),
        PartialDate::Year(_) => territory.days_of_year(year),
    }
}

/// Appends the days of a run that a date of a double year means.
fn push_meant(
    territory: &Territory,
    date: PartialDate,
    run: Run,
    days: &mut Vec<Day>,
) -> Result<(), AllocError>
    ensures { OnOk result (days.new.items ≡ days.old.items
        ++ filter (λ d. spec.is_meant_double date (dated_on newest_rules territory.now d))
        (days_of_run run)) }
{
    for number in run.first.number()..run.last.number() + 1 {
        let day = Day::on_line(i64::from(number));
        if is_meant_double(date, &territory.dated(day)) {
            days.push(day)?;
        }
    }
    Ok(())
}

/// Appends the days that a date of a double year means among those whose label has a year.
fn push_meant_of_year(
    alloc: Global,
    territory: &Territory,
    date: PartialDate,
    year: i32,
    days: &mut Vec<Day>,
) -> Result<(), AllocError>
    ensures { OnOk result (days.new.items ≡ days.old.items
        ++ filter (λ d. spec.is_meant_double date (dated_on newest_rules territory.now d))
        (spec.all_labelled newest_rules territory.now date year)) }
{
    let runs = runs_labelled(alloc, territory, date, year)?;
    for run in runs.as_slice() {
        push_meant(territory, date, *run, days)?;
    }
    Ok(())
}

/// Returns the days that a date of a double year means, in order.
pub(crate) fn double_days(
    alloc: Global,
    territory: &Territory,
    date: PartialDate,
) -> Result<Vec<Day>, AllocError>
    ensures { IfOk result (λ days.
        days.items ≡ spec.all_double newest_rules territory.now date) }
{
    let year = i32::from(year_of(date).first);
    let mut days = Vec::new(alloc);
    push_meant_of_year(alloc, territory, date, year, &mut days)?;
    push_meant_of_year(alloc, territory, date, year + 1, &mut days)?;
    days.sort()?;
    Ok(days)
}

/// Returns the days that a date of a double year means, each as a run.
fn double_runs(
    alloc: Global,
    territory: &Territory,
    date: PartialDate,
) -> Result<Vec<Run>, AllocError>
    ensures days { IfOk result (λ runs.
        days_in runs.items ≡ spec.all_double newest_rules territory.now date) }
    ensures have { IfOk result (λ runs. spec.HaveDays runs.items) }
{
    let days = double_days(alloc, territory, date)?;
    single_runs(alloc, days.as_slice())
}

/// Returns the days that a date means, as runs that may touch.
fn touching_runs(
    alloc: Global,
    territory: &Territory,
    date: PartialDate,
) -> Result<Vec<Run>, AllocError>
    ensures days { IfOk result (λ runs.
        days_in runs.items ≡ spec.all_meant newest_rules territory.now date) }
    ensures have { IfOk result (λ runs. spec.HaveDays runs.items) }
{
    let year = year_of(date);
    if year.is_double {
        double_runs(alloc, territory, date)
    } else {
        runs_labelled(alloc, territory, date, i32::from(year.first))
    }
}

/// Returns a run and others after it in order, those as one that touch.
fn joined_after(alloc: Global, first: Run, others: &[Run]) -> Result<Vec<Run>, AllocError>
    requires { spec.HaveDays others.now }
    ensures { IfOk result (λ joined.
        joined.items ≡ spec.runs_from first (days_in others.now)) }
{
    let mut joined = Vec::new(alloc);
    let mut current = first;
    for run in others {
        if run.first.number() == current.last.number() + 1 {
            current.last = run.last;
        } else {
            joined.push(current)?;
            current = *run;
        }
    }
    joined.push(current)?;
    Ok(joined)
}

/// Runs in order, those as one that touch.
pub(crate) fn join_runs(alloc: Global, runs: &[Run]) -> Result<Vec<Run>, AllocError>
    requires { spec.HaveDays runs.now }
    ensures { IfOk result (λ joined. joined.items ≡ spec.runs_of (days_in runs.now)) }
{
    match runs {
        [] => Ok(Vec::new(alloc)),
        [first, others @ ..] => joined_after(alloc, *first, others),
    }
}

/// Returns the days that a written day, month or year means in a territory, as runs in order. Each
/// is a day whose label has the year that is written, and the month and the day if they are
/// written, by the regime that was in force on it. A day that is not meant is between each run and
/// the next one.
///
/// A double year is that of the days whose label has the first year, and whose year counted from 1
/// January is the later one. From 1 January to 24 March it is also that of the days which the
/// territory dated by the later year alone.
///
/// # Errors
///
/// `AllocError` if there is no memory for the list.
#[tactic(auto, unfolding(crate::specs::Runs::runs_meant))]
pub fn runs_meant(
    alloc: Global,
    territory: &Territory,
    date: PartialDate,
) -> Result<Vec<Run>, AllocError>
    ensures value { IfOk result (λ runs.
        runs.items ≡ spec.runs_meant newest_rules territory.now date) }
    // as laws: their days are those that are meant, and no two of the runs touch
    ensures days { IfOk result (λ runs.
        days_in runs.items ≡ spec.all_meant newest_rules territory.now date) }
    ensures apart { IfOk result (λ runs. spec.LieApart runs.items) }
{
    let runs = touching_runs(alloc, territory, date)?;
    join_runs(alloc, runs.as_slice())
}
