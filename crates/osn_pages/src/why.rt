//! The lines that say why a written date means no day.
ghost use Rattle.std.specs.Prelude.{◌≡◌, ◌++◌, ◌<◌, ◌-◌, OnOk, map, pos, string_bytes};
ghost use Rattle.std.specs.List.{flat_map, All};
ghost use Rattle.osn_days.specs.Rules.{newest_rules};
ghost use Rattle.osn_territory.specs.Dating.{dated_on};
ghost use Rattle.osn_territory.specs.Runs.{days_in, days_of_year, AreRuns};
ghost use Rattle.osn_written.specs.Absence.{absence};
ghost use Rattle.osn_written.specs.Nearest.{nearest_days as days_nearest};
ghost use Rattle.osn_pages.specs.Why as spec;

use crate::source_line::push_source;
use crate::territory_sources::TerritorySources;
use crate::turn::push_turned;
use crate::words::{DaysAtChange, NumberedDay, YearEnds, push_empty_year};
use osn_days::{Day, Keyword, month_name};
use osn_territory::{DatedDay, Run, Style, Territory};
use osn_written::{Absence, WrittenDate, absence_of, nearest_days};
use std::alloc::{AllocError, Global};
use std::fmt::Write;

/// Appends the line of a day that the date means with its first year alone.
#[tactic(auto, unfolding(crate::specs::Why::with_one_year_line))]
fn push_with_one_year(out: &mut String, dated: DatedDay) -> Result<(), AllocError>
    ensures { OnOk result (string_bytes out.new
        ≡ string_bytes out.old ++ spec.with_one_year_line dated) }
{
    writeln!(out, "not with both years: {}", NumberedDay(dated))
}

/// Appends the line of each day that the date means with its first year alone.
fn push_all_with_one_year(
    out: &mut String,
    territory: &Territory,
    days: &[Day],
) -> Result<(), AllocError>
    ensures { OnOk result (string_bytes out.new ≡ string_bytes out.old
        ++ flat_map spec.with_one_year_line (map (dated_on newest_rules territory.now) days.now)) }
{
    for day in days {
        push_with_one_year(out, territory.dated(*day))?;
    }
    Ok(())
}

/// Appends the line of a nearest day.
#[tactic(auto, unfolding(crate::specs::Why::nearest_line))]
fn push_nearest_line(out: &mut String, dated: DatedDay) -> Result<(), AllocError>
    ensures { OnOk result (string_bytes out.new ≡ string_bytes out.old ++ spec.nearest_line dated) }
{
    writeln!(out, "nearest: {}", NumberedDay(dated))
}

/// Appends the line of each nearest day.
fn push_nearest_lines(
    out: &mut String,
    territory: &Territory,
    days: &[Day],
) -> Result<(), AllocError>
    ensures { OnOk result (string_bytes out.new ≡ string_bytes out.old
        ++ flat_map spec.nearest_line (map (dated_on newest_rules territory.now) days.now)) }
{
    for day in days {
        push_nearest_line(out, territory.dated(*day))?;
    }
    Ok(())
}

/// Appends the lines of the nearest days.
fn push_nearest(
    alloc: Global,
    out: &mut String,
    territory: &Territory,
    date: WrittenDate,
) -> Result<(), AllocError>
    ensures { OnOk result (string_bytes out.new
        ≡ string_bytes out.old ++ spec.nearest_lines newest_rules territory.now date) }
{
    let days = nearest_days(alloc, territory, date)?;
    push_nearest_lines(out, territory, days.as_slice())
}

/// Appends the ends of the line.
#[tactic(auto, unfolding(crate::specs::Why::line_ends))]
fn push_line_ends(out: &mut String, first: DatedDay, last: DatedDay) -> Result<(), AllocError>
    ensures { OnOk result (string_bytes out.new
        ≡ string_bytes out.old ++ spec.line_ends first last) }
{
    writeln!(
        out,
        "off the line of days: there it runs from {} to {}",
        NumberedDay(first),
        NumberedDay(last)
    )
}

/// Returns how many days a month has that lacks one of them by every calendar of a territory.
fn month_length(territory: &Territory, month: u8) -> &'static str
    ensures { result.now ≡ spec.month_length newest_rules territory.now month }
{
    match month {
        2 if territory.has_month_day(2, 30) => "has at most 30 days",
        2 => "has at most 29 days",
        _ => "has 30 days",
    }
}

/// Appends that no calendar of a territory has a day of that month.
#[tactic(auto, unfolding(crate::specs::Why::not_of_calendar_line))]
fn push_not_of_calendar(
    out: &mut String,
    territory: &Territory,
    month: u8,
) -> Result<(), AllocError>
    ensures { OnOk result (string_bytes out.new ≡ string_bytes out.old
        ++ spec.not_of_calendar_line newest_rules territory.now month) }
{
    writeln!(
        out,
        "no date of its calendar: {} {}",
        month_name(month),
        month_length(territory, month)
    )
}

/// Appends the day before a change and the day of the change.
#[tactic(auto, unfolding(crate::specs::Why::skip_line))]
fn push_skip_line(out: &mut String, before: DatedDay, change: DatedDay) -> Result<(), AllocError>
    ensures { OnOk result (string_bytes out.new
        ≡ string_bytes out.old ++ spec.skip_line before change) }
{
    writeln!(out, "skipped: {}", DaysAtChange { before, change })
}

/// Returns whether the two styles are one.
fn is_style(one: Style, other: Style) -> bool
    ensures { result ≡ spec.is_style one other }
{
    one.word() == other.word()
}

/// Appends that a change is one of the year's beginning, if it is, and the nearest days.
#[tactic(auto, unfolding(crate::specs::Why::beginning_lines))]
fn push_beginning(
    alloc: Global,
    out: &mut String,
    territory: &Territory,
    date: WrittenDate,
    old: Style,
    new: Style,
) -> Result<(), AllocError>
    ensures { OnOk result (string_bytes out.new ≡ string_bytes out.old
        ++ spec.beginning_lines newest_rules territory.now date old new) }
{
    if is_style(old, new) {
        return Ok(());
    }
    push_turned(
        out,
        "the year's beginning",
        old.beginning_of_year(),
        new.beginning_of_year(),
    )?;
    push_nearest(alloc, out, territory, date)
}

/// Appends the lines of a change in whose gap the date lies.
#[tactic(auto, unfolding(crate::specs::Why::skip_lines))]
fn push_skip(
    alloc: Global,
    out: &mut String,
    territory: &Territory,
    sources: &TerritorySources<'_>,
    date: WrittenDate,
    change: Day,
) -> Result<(), AllocError>
    requires { 1 < change }
    ensures { OnOk result (string_bytes out.new ≡ string_bytes out.old
        ++ spec.skip_lines newest_rules territory.now sources.now date change) }
{
    let before = Day::on_line(i64::from(change.number()) - 1);
    push_skip_line(out, territory.dated(before), territory.dated(change))?;
    push_source(out, sources.of_period(change))?;
    let old = territory.regime_at(before).style;
    let new = territory.regime_at(change).style;
    push_beginning(alloc, out, territory, date, old, new)
}

/// Appends the lines of the changes in whose gap the date lies.
fn push_skips(
    alloc: Global,
    out: &mut String,
    territory: &Territory,
    sources: &TerritorySources<'_>,
    date: WrittenDate,
    changes: &[Day],
) -> Result<(), AllocError>
    requires { All (λ change. 1 < change) changes.now }
    ensures { OnOk result (string_bytes out.new ≡ string_bytes out.old
        ++ flat_map (spec.skip_lines newest_rules territory.now sources.now date) changes.now) }
{
    for change in changes {
        push_skip(alloc, out, territory, sources, date, *change)?;
    }
    Ok(())
}

/// Appends from which day to which a year ran.
#[tactic(auto, unfolding(crate::specs::Why::year_ends_line))]
fn push_year_ends(
    out: &mut String,
    year: u16,
    first: DatedDay,
    last: DatedDay,
) -> Result<(), AllocError>
    ensures { OnOk result (string_bytes out.new
        ≡ string_bytes out.old ++ spec.year_ends_line year first last) }
{
    let ends = YearEnds {
        year: year as u32,
        first,
        last,
    };
    writeln!(out, "no such date in that year: {ends}")
}

/// Appends that the territory had no day of a year.
fn push_no_year(out: &mut String, year: u16) -> Result<(), AllocError>
    ensures { OnOk result (string_bytes out.new ≡ string_bytes out.old ++ spec.no_year_line year) }
{
    out.push_str("no such date in that year: ")?;
    push_empty_year(out, year as u32)
}

/// Appends from which day to which a year ran, of which these are the runs of days.
fn push_year(
    out: &mut String,
    territory: &Territory,
    year: u16,
    runs: &[Run],
) -> Result<(), AllocError>
    requires { AreRuns runs.now }
    ensures { OnOk result (string_bytes out.new ≡ string_bytes out.old
        ++ spec.year_line newest_rules territory.now year (days_in runs.now)) }
{
    if runs.is_empty() {
        return push_no_year(out, year);
    }
    let first = runs[0];
    let last = runs[runs.len() - 1];
    push_year_ends(
        out,
        year,
        territory.dated(first.first),
        territory.dated(last.last),
    )
}

/// Appends from which day to which the date's year ran, and the nearest days.
fn push_not_in_year(
    alloc: Global,
    out: &mut String,
    territory: &Territory,
    date: WrittenDate,
) -> Result<(), AllocError>
    ensures { OnOk result (string_bytes out.new ≡ string_bytes out.old
        ++ (spec.year_line newest_rules territory.now date.year
        (days_of_year newest_rules territory.now (pos date.year))
        ++ spec.nearest_lines newest_rules territory.now date)) }
{
    let runs = territory.days_of_year(i32::from(date.year))?;
    push_year(out, territory, date.year, runs.as_slice())?;
    push_nearest(alloc, out, territory, date)
}

/// Appends the lines of a reason, in a territory whose changes have these sources.
pub(crate) fn push_reason(
    alloc: Global,
    out: &mut String,
    territory: &Territory,
    sources: &TerritorySources<'_>,
    date: WrittenDate,
    reason: Absence,
) -> Result<(), AllocError>
    ensures { OnOk result (string_bytes out.new ≡ string_bytes out.old
        ++ spec.why_text newest_rules territory.now sources.now date reason) }
{
    match reason {
        Absence::NotWithBothYears => {
            let days = territory.read(date.label())?;
            push_all_with_one_year(out, territory, days.as_slice())
        }
        Absence::NotOfItsCalendar => push_not_of_calendar(out, territory, date.month),
        Absence::OffTheLine => {
            push_line_ends(out, territory.dated(Day::FIRST), territory.dated(Day::LAST))
        }
        Absence::Skipped => {
            let changes = territory.gaps(date.label())?;
            push_skips(alloc, out, territory, sources, date, changes.as_slice())
        }
        Absence::NotInThatYear => push_not_in_year(alloc, out, territory, date),
    }
}

/// Appends why the date means no day.
pub(crate) fn push_why(
    alloc: Global,
    out: &mut String,
    territory: &Territory,
    sources: &TerritorySources<'_>,
    date: WrittenDate,
) -> Result<(), AllocError>
    ensures { OnOk result (string_bytes out.new
        ≡ string_bytes out.old ++ spec.why_lines newest_rules territory.now sources.now date) }
{
    let reason = absence_of(territory, date)?;
    push_reason(alloc, out, territory, sources, date, reason)
}
