//! The answer about a date as it is written.
ghost use Rattle.std.specs.Prelude.{◌≡◌, Some, IfOk, map};
ghost use Rattle.osn_days.specs.Rules.{newest_rules};
ghost use Rattle.osn_register.specs.Answer as spec;
ghost use Rattle.osn_register.specs.Remarks as remark;
ghost use Rattle.osn_written.specs.Finding as finding;
ghost use Rattle.osn_written.specs.SetsMeant.{set_list_of};

use crate::answer::{Answer, FoundRun, Reason, WrittenAnswer};
use crate::remarks::{near, no_near_days, no_remarks, remarks_of, remarks_of_set};
use crate::territory_answer::found_on;
use osn_days::Weekday;
use osn_territory::{Run, Territory};
use osn_written::{
    AbsentMember, AnyDate, DateFault, DateReading, Extent, Kind, Listing, MissingDate, NoDay,
    WrittenDate, by_reckoning, days_meant, find_runs, find_set, has_weekday, is_by_other_calendar,
    is_set_approximate, is_set_uncertain, kind_of, missing_day,
};
use std::alloc::{AllocError, Global};

/// Returns a run by its first and its last day, as the territory names them.
fn found_run(alloc: Global, territory: &Territory, run: Run) -> Result<FoundRun, AllocError>
    ensures { IfOk result (λ f. f ≡ spec.found_run newest_rules territory.now run) }
{
    Ok(FoundRun {
        first: found_on(alloc, territory, run.first)?,
        last: found_on(alloc, territory, run.last)?,
    })
}

/// Runs by their first and their last days, as the territory names them.
pub(crate) fn found_runs(
    alloc: Global,
    territory: &Territory,
    runs: &[Run],
) -> Result<Vec<FoundRun>, AllocError>
    ensures { IfOk result (λ v.
        v.items ≡ map (spec.found_run newest_rules territory.now) runs.now) }
{
    let mut found = Vec::with_capacity(alloc, runs.len())?;
    for run in runs {
        found.push(found_run(alloc, territory, *run)?)?;
    }
    Ok(found)
}

/// Returns the runs that a date means, and why it means none.
fn runs_and_reason(
    alloc: Global,
    territory: &Territory,
    outcome: Result<Vec<Run>, NoDay>,
) -> Result<(Vec<FoundRun>, Option<Reason>), AllocError>
    ensures runs { IfOk result (λ pair. pair.0.items
        ≡ map (spec.found_run newest_rules territory.now)
        (remark.runs_in (finding.list_of outcome))) }
    ensures reason { IfOk result (λ pair. pair.1 ≡ remark.reason_in (finding.list_of outcome)) }
{
    match outcome {
        Ok(runs) => Ok((found_runs(alloc, territory, runs.as_slice())?, None)),
        Err(no_day) => Ok((Vec::new(alloc), Some(Reason::NoDay(no_day)))),
    }
}

/// Returns the date whose day is missing, if that is why no day is meant.
fn missing_in(extent: Extent, outcome: &Result<Vec<Run>, NoDay>) -> Option<MissingDate>
    ensures { result ≡ remark.missing_in extent (finding.list_of outcome.now) }
{
    match outcome {
        Ok(_) => None,
        Err(reason) => missing_day(extent, *reason),
    }
}

/// Returns whether one of the days that a date means is of the weekday that it names, and of the
/// one that is given.
fn is_on_weekday(
    alloc: Global,
    territory: &Territory,
    given: Option<Weekday>,
    date: WrittenDate,
) -> Result<bool, AllocError>
    ensures { IfOk result (λ on.
        on ≡ remark.is_on_weekday newest_rules territory.now given date) }
{
    let days = days_meant(alloc, territory, date, given)?;
    Ok(days.iter().any(|day| has_weekday(date, given, day)))
}

/// Returns whether one of the days that a date means is of the weekday that is named or given. It
/// is `None` if no weekday is, or the date is not that of one day.
fn if_weekday(
    alloc: Global,
    territory: &Territory,
    date: AnyDate,
    given: Option<Weekday>,
) -> Result<Option<bool>, AllocError>
    ensures { IfOk result (λ on. on ≡ remark.if_weekday newest_rules territory.now date given) }
{
    if date.weekday.is_none() && given.is_none() {
        return Ok(None);
    }
    match WrittenDate::of_one_day(date) {
        Some(day) => Ok(Some(is_on_weekday(alloc, territory, given, day)?)),
        None => Ok(None),
    }
}

/// Returns what a date means by the reckoning of one territory, each day as another one names it.
fn answer_by(
    alloc: Global,
    territory: &Territory,
    reckoned: &Territory,
    date: AnyDate,
    given: Option<Weekday>,
) -> Result<WrittenAnswer, AllocError>
    requires { reckoned.now ≡ finding.with_reckoning territory.now date.reckoning }
    ensures { IfOk result (λ a. a ≡ spec.date_answer newest_rules territory.now date given) }
{
    let outcome = find_runs(alloc, reckoned, date.extent)?;
    let missing = missing_in(date.extent, &outcome);
    let (runs, reason) = runs_and_reason(alloc, territory, outcome)?;
    Ok(WrittenAnswer {
        kind: Some(kind_of(date.extent)),
        is_approximate: date.is_approximate,
        is_uncertain: date.is_uncertain,
        is_supplied: date.is_supplied,
        is_by_other_calendar: is_by_other_calendar(alloc, territory, date)?,
        reason,
        runs: Listing::new(runs),
        is_on_weekday: if_weekday(alloc, reckoned, date, given)?,
        remarks: remarks_of(alloc, territory, reckoned, date)?,
        near: near(alloc, territory, reckoned, missing)?,
    })
}

/// Returns what a date means in a territory, by the calendar that it names.
fn date_answer(
    alloc: Global,
    territory: &Territory,
    date: AnyDate,
    given: Option<Weekday>,
) -> Result<WrittenAnswer, AllocError>
    ensures { IfOk result (λ a. a ≡ spec.date_answer newest_rules territory.now date given) }
{
    match date.reckoning {
        None => answer_by(alloc, territory, territory, date, given),
        Some(reckoning) => {
            let reckoned = by_reckoning(alloc, territory, reckoning)?;
            answer_by(alloc, territory, &reckoned, date, given)
        }
    }
}

/// Returns the runs that a set of dates means, and why it means none.
fn set_runs_and_reason(
    alloc: Global,
    territory: &Territory,
    outcome: Result<Vec<Run>, AbsentMember>,
) -> Result<(Vec<FoundRun>, Option<Reason>), AllocError>
    ensures runs { IfOk result (λ pair. pair.0.items
        ≡ map (spec.found_run newest_rules territory.now)
        (remark.set_runs_in (set_list_of outcome))) }
    ensures reason { IfOk result (λ pair. pair.1 ≡ remark.set_reason_in (set_list_of outcome)) }
{
    match outcome {
        Ok(runs) => Ok((found_runs(alloc, territory, runs.as_slice())?, None)),
        Err(absent) => Ok((Vec::new(alloc), Some(Reason::NoDay(absent.reason)))),
    }
}

/// Returns the date of a set whose day is missing, if that is why no day is meant.
fn missing_in_set(outcome: &Result<Vec<Run>, AbsentMember>) -> Option<MissingDate>
    ensures { result ≡ remark.missing_in_set (set_list_of outcome.now) }
{
    match outcome {
        Ok(_) => None,
        Err(absent) => missing_day(absent.extent, absent.reason),
    }
}

/// Returns what a set of dates means in a territory. No weekday is compared.
fn set_answer(
    alloc: Global,
    territory: &Territory,
    members: &[AnyDate],
) -> Result<WrittenAnswer, AllocError>
    ensures { IfOk result (λ a. a ≡ spec.set_answer newest_rules territory.now members.now) }
{
    let outcome = find_set(alloc, territory, members)?;
    let missing = missing_in_set(&outcome);
    let (runs, reason) = set_runs_and_reason(alloc, territory, outcome)?;
    Ok(WrittenAnswer {
        kind: Some(Kind::Set),
        is_approximate: is_set_approximate(members),
        is_uncertain: is_set_uncertain(members),
        is_supplied: false,
        is_by_other_calendar: false,
        reason,
        runs: Listing::new(runs),
        is_on_weekday: None,
        remarks: remarks_of_set(alloc, members)?,
        near: near(alloc, territory, territory, missing)?,
    })
}

/// Returns the answer if no date is read.
fn no_date(alloc: Global, fault: DateFault) -> WrittenAnswer
    ensures { result ≡ spec.no_date fault }
{
    WrittenAnswer {
        kind: None,
        is_approximate: false,
        is_uncertain: false,
        is_supplied: false,
        is_by_other_calendar: false,
        reason: Some(Reason::NotRead(fault)),
        runs: Listing::new(Vec::new(alloc)),
        is_on_weekday: None,
        remarks: no_remarks(alloc),
        near: no_near_days(alloc),
    }
}

/// Returns the answer about a date that was read.
fn reading_answer(
    alloc: Global,
    territory: &Territory,
    date: &DateReading,
    given: Option<Weekday>,
) -> Result<WrittenAnswer, AllocError>
    ensures { IfOk result (λ a.
        a ≡ spec.date_reading_answer newest_rules territory.now date.now given) }
{
    match date {
        DateReading::Date(date) => date_answer(alloc, territory, *date, given),
        DateReading::Set(dates) => set_answer(alloc, territory, dates.as_slice()),
        DateReading::Fault(fault) => Ok(no_date(alloc, *fault)),
    }
}

/// Returns what a date means in a territory, as it was read.
pub(crate) fn written_date(
    alloc: Global,
    territory: &Territory,
    date: &DateReading,
    given: Option<Weekday>,
) -> Result<Answer, AllocError>
    ensures { IfOk result (λ a.
        a ≡ spec.written_answer newest_rules (Some territory.now) date.now given) }
{
    Ok(Answer::Written(reading_answer(alloc, territory, date, given)?))
}
