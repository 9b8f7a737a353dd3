//! From which day to which a written date, a range or a bound may be in a territory.
ghost use Rattle.std.specs.Prelude.{◌≡◌, ◌≤◌, ◌<◌, IfOk};
ghost use Rattle.osn_days.specs.Rules.{newest_rules};
ghost use Rattle.osn_written.specs.Spans as spec;

use crate::any_date::{Extent, PartialDate, Year};
use crate::feast_days::feast_meant;
use crate::portion::{Portion, part_of_run};
use crate::runs::runs_meant;
use crate::written_date::MonthDay;
use osn_days::{Day, HIGH};
use osn_territory::{Run, Territory};
use std::alloc::{AllocError, Global};

/// Why a date, a range or a bound is not a span of days.
#[derive(Clone, Copy, Debug, PartialEq, Eq)]
pub enum NoSpan {
    /// The date, or the first one of a range, means no day.
    NoDay,
    /// The last date of a range means no day.
    NoLastDay,
    /// The first day of a range is after its last day.
    OutOfOrder,
    /// The line has no day before the date, or no day after it.
    OffTheLine,
}

/// Returns the first day of runs in order.
pub fn first_of(runs: &[Run]) -> Option<Day>
    ensures { result ≡ spec.first_of runs.now }
{
    match runs {
        [] => None,
        [first, ..] => Some(first.first),
    }
}

/// Returns the last day of runs in order.
pub fn last_of(runs: &[Run]) -> Option<Day>
    ensures { result ≡ spec.last_of runs.now }
{
    match runs {
        [] => None,
        [.., last] => Some(last.last),
    }
}

/// Returns the first day that a date means.
fn first_meant(
    alloc: Global,
    territory: &Territory,
    date: PartialDate,
) -> Result<Option<Day>, AllocError>
    ensures { IfOk result (λ day. day ≡ spec.first_meant newest_rules territory.now date) }
{
    let runs = runs_meant(alloc, territory, date)?;
    Ok(first_of(runs.as_slice()))
}

/// Returns the last day that a date means.
fn last_meant(
    alloc: Global,
    territory: &Territory,
    date: PartialDate,
) -> Result<Option<Day>, AllocError>
    ensures { IfOk result (λ day. day ≡ spec.last_meant newest_rules territory.now date) }
{
    let runs = runs_meant(alloc, territory, date)?;
    Ok(last_of(runs.as_slice()))
}

/// Returns the run from one day to another one, which is not earlier.
fn from_to(first: Option<Day>, last: Option<Day>) -> Result<Run, NoSpan>
    ensures value { result ≡ spec.from_to first last }
    ensures in_order { IfOk result (λ run. run.first ≤ run.last) }
{
    let first = first.ok_or(NoSpan::NoDay)?;
    let last = last.ok_or(NoSpan::NoLastDay)?;
    if first <= last {
        Ok(Run { first, last })
    } else {
        Err(NoSpan::OutOfOrder)
    }
}

/// Returns the part of the days of a span.
fn part_of_span(portion: Portion, span: Result<Run, NoSpan>) -> Result<Run, NoSpan>
    requires { IfOk span (λ run. run.first ≤ run.last) }
    ensures { result ≡ spec.part_of_span portion span }
{
    Ok(part_of_run(portion, span?))
}

/// Returns the run from the first day of the line to the day before one.
fn before(day: Option<Day>) -> Result<Run, NoSpan>
    ensures { result ≡ spec.before day }
{
    let number = day.ok_or(NoSpan::NoDay)?.number();
    if 1 < number {
        Ok(Run {
            first: Day::FIRST,
            last: Day::on_line(i64::from(number) - 1),
        })
    } else {
        Err(NoSpan::OffTheLine)
    }
}

/// Returns the run from the first day of the line to one.
fn not_after(day: Option<Day>) -> Result<Run, NoSpan>
    ensures { result ≡ spec.not_after day }
{
    Ok(Run {
        first: Day::FIRST,
        last: day.ok_or(NoSpan::NoDay)?,
    })
}

/// Returns the run from the day after one to the last day of the line.
fn after(day: Option<Day>) -> Result<Run, NoSpan>
    ensures { result ≡ spec.after newest_rules day }
{
    let number = day.ok_or(NoSpan::NoDay)?.number();
    if number < HIGH {
        Ok(Run {
            first: Day::on_line(i64::from(number) + 1),
            last: Day::LAST,
        })
    } else {
        Err(NoSpan::OffTheLine)
    }
}

/// Returns the run from one day to the last day of the line.
fn not_before(day: Option<Day>) -> Result<Run, NoSpan>
    ensures { result ≡ spec.not_before newest_rules day }
{
    Ok(Run {
        first: day.ok_or(NoSpan::NoDay)?,
        last: Day::LAST,
    })
}

/// Returns the run from the first day that one date means to the last day that another one means.
fn range_meant(
    alloc: Global,
    territory: &Territory,
    first: PartialDate,
    last: PartialDate,
) -> Result<Result<Run, NoSpan>, AllocError>
    ensures value { IfOk result (λ span. span ≡ spec.from_to
        (spec.first_meant newest_rules territory.now first)
        (spec.last_meant newest_rules territory.now last)) }
    ensures in_order { IfOk result (λ span. IfOk span (λ run. run.first ≤ run.last)) }
{
    let first = first_meant(alloc, territory, first)?;
    let last = last_meant(alloc, territory, last)?;
    Ok(from_to(first, last))
}

/// Returns whether two days are in order by month and day, in one month or in two that follow each
/// other.
fn are_close(first: MonthDay, last: MonthDay) -> bool
    ensures { result ≡ spec.are_close first last }
{
    first.month == last.month && first.day <= last.day
        || u32::from(last.month) == u32::from(first.month) + 1
}

/// Returns whether the last of two days with one year may be of the next year.
fn may_end_in_next_year(first: MonthDay, last: MonthDay, year: Year) -> bool
    ensures { result ≡ spec.may_end_in_next_year first last year }
{
    are_close(first, last) && !year.is_double && year.first < 10000
}

/// Returns the year after a year.
fn next_year(year: Year) -> Year
    requires { year.first < 10000 }
    ensures { result ≡ spec.next_year year }
{
    Year {
        first: year.first + 1,
        ..year
    }
}

/// Returns the run from a day of a year to the first day with a date in the next year.
fn into_next_year(
    alloc: Global,
    territory: &Territory,
    first: MonthDay,
    last: MonthDay,
    year: Year,
) -> Result<Result<Run, NoSpan>, AllocError>
    requires { year.first < 10000 }
    ensures { IfOk result (λ span. span
        ≡ spec.into_next_year newest_rules territory.now first last year) }
{
    let first = first_meant(alloc, territory, first.in_year(year))?;
    let last = first_meant(alloc, territory, last.in_year(next_year(year)))?;
    Ok(from_to(first, last))
}

/// Returns the run from a day of a year to another day of it, whatever their months and days are.
fn in_one_year(
    alloc: Global,
    territory: &Territory,
    first: MonthDay,
    last: MonthDay,
    year: Year,
) -> Result<Result<Run, NoSpan>, AllocError>
    ensures { IfOk result (λ span. span
        ≡ spec.in_one_year newest_rules territory.now first last year) }
{
    range_meant(alloc, territory, first.in_year(year), last.in_year(year))
}

/// Returns the run over the beginning of a year that two days with one year mean, if they do.
fn days_over_new_year(
    alloc: Global,
    territory: &Territory,
    first: MonthDay,
    last: MonthDay,
    year: Year,
) -> Result<Option<Run>, AllocError>
    ensures { IfOk result (λ run. run
        ≡ spec.days_over_new_year newest_rules territory.now first last year) }
{
    if !may_end_in_next_year(first, last, year) {
        return Ok(None);
    }
    match in_one_year(alloc, territory, first, last, year)? {
        Err(NoSpan::OutOfOrder) => Ok(into_next_year(alloc, territory, first, last, year)?.ok()),
        _ => Ok(None),
    }
}

/// Returns the run that two days with one year mean.
fn days_of_year_meant(
    alloc: Global,
    territory: &Territory,
    first: MonthDay,
    last: MonthDay,
    year: Year,
) -> Result<Result<Run, NoSpan>, AllocError>
    ensures { IfOk result (λ span. span ≡ spec.or_in_one_year
        (spec.days_over_new_year newest_rules territory.now first last year)
        (spec.in_one_year newest_rules territory.now first last year)) }
{
    match days_over_new_year(alloc, territory, first, last, year)? {
        Some(run) => Ok(Ok(run)),
        None => in_one_year(alloc, territory, first, last, year),
    }
}

/// Returns whether what is written ends in the year after the one that is written: it is a range of
/// two days with one year, in one month or in two that follow each other, and in that year the
/// first day is after the last one. In England `18-26 March 1675` ends on 26 March 1676.
///
/// # Errors
///
/// `AllocError` if there is no memory for the runs of a date.
pub fn ends_in_next_year(
    alloc: Global,
    territory: &Territory,
    extent: Extent,
) -> Result<bool, AllocError>
    ensures { IfOk result (λ ends. ends
        ≡ spec.ends_in_next_year newest_rules territory.now extent) }
{
    match extent {
        Extent::DaysOfYear { first, last, year } => {
            Ok(days_over_new_year(alloc, territory, first, last, year)?.is_some())
        }
        _ => Ok(false),
    }
}

/// Returns the days from the first one that a date, a range or a bound may mean in a territory to
/// the last one, or why no day is meant. A range lasts from the first day of its first date to the
/// last day of its last date, which may be of the next year if one year is written for two days. A
/// bound reaches to the first or the last day of the line. A part of a date is that part of the
/// days from its first day to its last day.
///
/// # Errors
///
/// `AllocError` if there is no memory for the runs of a date.
pub fn span_meant(
    alloc: Global,
    territory: &Territory,
    extent: Extent,
) -> Result<Result<Run, NoSpan>, AllocError>
    ensures { IfOk result (λ span. span ≡ spec.span_meant newest_rules territory.now extent) }
{
    match extent {
        Extent::On(date) => range_meant(alloc, territory, date, date),
        Extent::FromTo(first, last) => range_meant(alloc, territory, first, last),
        Extent::DaysOfYear { first, last, year } => {
            days_of_year_meant(alloc, territory, first, last, year)
        }
        Extent::Before(date) => Ok(before(first_meant(alloc, territory, date)?)),
        Extent::NotAfter(date) => Ok(not_after(last_meant(alloc, territory, date)?)),
        Extent::After(date) => Ok(after(last_meant(alloc, territory, date)?)),
        Extent::NotBefore(date) => Ok(not_before(first_meant(alloc, territory, date)?)),
        Extent::Part(portion, date) => {
            let span = range_meant(alloc, territory, date, date)?;
            Ok(part_of_span(portion, span))
        }
        Extent::Feast { feast, year } => {
            let runs = feast_meant(alloc, territory, feast, year)?;
            Ok(from_to(first_of(runs.as_slice()), last_of(runs.as_slice())))
        }
    }
}
