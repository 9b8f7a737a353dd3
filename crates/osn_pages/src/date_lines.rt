//! The lines of a date with all that is written of it: its days, or why it has none.
ghost use Rattle.std.specs.Prelude.{◌≡◌, ◌++◌, IfOk, OnOk, string_bytes, is_err};
ghost use Rattle.osn_days.specs.Rules.{newest_rules};
ghost use Rattle.osn_written.specs.Finding.{extent_meant};
ghost use Rattle.osn_written.specs.Meaning.{dated_by, meaning};
ghost use Rattle.osn_written.specs.PlainDay.{one_day};
ghost use Rattle.osn_pages.specs.DateLines as spec;

use crate::reading::push_days;
use crate::runs::push_runs;
use crate::territory_sources::TerritorySources;
use crate::why::{push_reason, push_why};
use osn_days::Weekday;
use osn_territory::Territory;
use osn_written::{
    Absence, AnyDate, Extent, Kind, NoDay, WrittenDate, by_reckoning, dated_by, days_meant,
    ends_of, find_runs, first_day_of, kind_of,
};
use std::alloc::{AllocError, Global};

/// Appends the days that a date means by the reckoning of a territory, as the place itself dated
/// them, or why it means none.
fn push_reading(
    alloc: Global,
    out: &mut String,
    own: &Territory,
    territory: &Territory,
    sources: &TerritorySources<'_>,
    date: WrittenDate,
    given: Option<Weekday>,
) -> Result<(), AllocError>
    ensures { OnOk result (string_bytes out.new ≡ string_bytes out.old
        ++ spec.reading_lines newest_rules territory.now sources.now date given
        (dated_by newest_rules own.now (meaning newest_rules territory.now date given))) }
{
    let meant = days_meant(alloc, territory, date, given)?;
    let days = dated_by(alloc, own, meant.as_slice())?;
    if days.is_empty() {
        return push_why(alloc, out, territory, sources, date);
    }
    push_days(out, date, given, days.as_slice())
}

/// Returns the line of a bound beyond which the line has no day.
fn off_the_line(kind: Kind) -> &'static str
    ensures { result.now ≡ spec.off_the_line kind }
{
    match kind {
        Kind::Before => "no day of the line is before it\n",
        _ => "no day of the line is after it\n",
    }
}

/// Appends why the last date of a range means no day.
fn push_last_absent(
    alloc: Global,
    out: &mut String,
    territory: &Territory,
    sources: &TerritorySources<'_>,
    last: WrittenDate,
    absence: Absence,
) -> Result<(), AllocError>
    ensures { OnOk result (string_bytes out.new ≡ string_bytes out.old
        ++ spec.last_absent_lines newest_rules territory.now sources.now last absence) }
{
    out.push_str("of the last date:\n")?;
    push_reason(alloc, out, territory, sources, last, absence)
}

/// Appends why no day is meant, in the territory by whose reckoning the date is read. The sources
/// are those of the place.
pub(crate) fn push_no_day(
    alloc: Global,
    out: &mut String,
    territory: &Territory,
    sources: &TerritorySources<'_>,
    extent: Extent,
    reason: NoDay,
) -> Result<(), AllocError>
    ensures { OnOk result (string_bytes out.new ≡ string_bytes out.old
        ++ spec.no_day_lines newest_rules territory.now sources.now extent reason) }
{
    let (first, last) = ends_of(extent);
    match reason {
        NoDay::Absent(absence) => {
            push_reason(alloc, out, territory, sources, first_day_of(first), absence)
        }
        NoDay::LastAbsent(absence) => {
            push_last_absent(alloc, out, territory, sources, first_day_of(last), absence)
        }
        NoDay::OutOfOrder => out.push_str("the first date is after the last one\n"),
        NoDay::OffTheLine => out.push_str(off_the_line(kind_of(extent))),
        NoDay::NoFeast => out.push_str("that feast did not fall in that year\n"),
    }
}

/// Appends the days that are meant by the reckoning of a territory, as the place itself dated them,
/// or why no day is meant.
fn push_found(
    alloc: Global,
    out: &mut String,
    own: &Territory,
    territory: &Territory,
    sources: &TerritorySources<'_>,
    extent: Extent,
) -> Result<(), AllocError>
    ensures { OnOk result (string_bytes out.new ≡ string_bytes out.old
        ++ spec.found_lines newest_rules own.now territory.now sources.now extent
        (extent_meant newest_rules territory.now extent)) }
{
    match find_runs(alloc, territory, extent)? {
        Ok(runs) => push_runs(out, own, kind_of(extent), runs.as_slice()),
        Err(reason) => push_no_day(alloc, out, territory, sources, extent, reason),
    }
}

/// Appends the lines of a date by the reckoning of a territory, in a place of its own reckoning.
fn push_lines(
    alloc: Global,
    out: &mut String,
    own: &Territory,
    territory: &Territory,
    sources: &TerritorySources<'_>,
    date: AnyDate,
    given: Option<Weekday>,
) -> Result<(), AllocError>
    ensures { OnOk result (string_bytes out.new ≡ string_bytes out.old
        ++ spec.lines_of newest_rules own.now territory.now sources.now date given
        (one_day date)) }
{
    match WrittenDate::of_one_day(date) {
        Some(day) => push_reading(alloc, out, own, territory, sources, day, given),
        None => push_found(alloc, out, own, territory, sources, date.extent),
    }
}

/// Appends the lines of a date. If it names a calendar, it is read as if the place had used that
/// one.
pub(crate) fn push_date(
    alloc: Global,
    out: &mut String,
    territory: &Territory,
    sources: &TerritorySources<'_>,
    date: AnyDate,
    given: Option<Weekday>,
) -> Result<(), AllocError>
    ensures { OnOk result (string_bytes out.new ≡ string_bytes out.old
        ++ spec.date_lines newest_rules territory.now sources.now date given) }
{
    match date.reckoning {
        None => push_lines(alloc, out, territory, territory, sources, date, given),
        Some(reckoning) => {
            let reckoned = by_reckoning(alloc, territory, reckoning)?;
            push_lines(alloc, out, territory, &reckoned, sources, date, given)
        }
    }
}

/// Returns whether an extent means no day by the reckoning of a territory.
fn is_without_day(alloc: Global, territory: &Territory, extent: Extent) -> Result<bool, AllocError>
    ensures { IfOk result (λ without.
        without ≡ is_err (extent_meant newest_rules territory.now extent)) }
{
    Ok(find_runs(alloc, territory, extent)?.is_err())
}

/// Returns whether a date means no day in a territory. If it names a calendar, it is read as if the
/// place had used that one.
///
/// # Errors
///
/// `AllocError` if there is no memory for the list of days.
pub fn has_no_day(alloc: Global, territory: &Territory, date: AnyDate) -> Result<bool, AllocError>
    ensures { IfOk result (λ none. none ≡ spec.has_no_day newest_rules territory.now date) }
{
    match date.reckoning {
        None => is_without_day(alloc, territory, date.extent),
        Some(reckoning) => {
            let reckoned = by_reckoning(alloc, territory, reckoning)?;
            is_without_day(alloc, &reckoned, date.extent)
        }
    }
}
