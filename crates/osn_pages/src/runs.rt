//! The lines of days that follow one another, which a month, a year, a range or a bound means.
ghost use Rattle.std.specs.Prelude.{◌≡◌, ◌++◌, ◌+◌, ◌-◌, OnOk, string_bytes};
ghost use Rattle.osn_days.specs.Rules.{newest_rules};
ghost use Rattle.osn_pages.specs.Runs as spec;

use crate::reading::push_day;
use osn_days::Day;
use osn_territory::{DatedDay, Run, Territory};
use osn_written::Kind;
use std::alloc::AllocError;
use std::fmt::Write;

/// Appends the line of a first day.
#[tactic(auto, unfolding(crate::specs::Runs::from_line))]
fn push_from(out: &mut String, dated: DatedDay) -> Result<(), AllocError>
    ensures { OnOk result (string_bytes out.new ≡ string_bytes out.old ++ spec.from_line dated) }
{
    out.push_str("from ")?;
    push_day(out, dated)
}

/// Appends the line of a last day.
#[tactic(auto, unfolding(crate::specs::Runs::to_line))]
fn push_to(out: &mut String, dated: DatedDay) -> Result<(), AllocError>
    ensures { OnOk result (string_bytes out.new ≡ string_bytes out.old ++ spec.to_line dated) }
{
    out.push_str("to   ")?;
    push_day(out, dated)
}

/// Appends how many days there are.
///
/// # Errors
///
/// If memory runs out, and in no other case.
#[tactic(auto, unfolding(crate::specs::Runs::count_line))]
pub fn push_count(out: &mut String, count: usize) -> Result<(), AllocError>
    ensures { OnOk result (string_bytes out.new ≡ string_bytes out.old ++ spec.count_line count) }
{
    match count {
        1 => out.push_str("1 day\n"),
        _ => writeln!(out, "{count} days"),
    }
}

/// Appends a first and a last day, or the one day if both are the same.
fn push_ends(
    out: &mut String,
    territory: &Territory,
    first: Day,
    last: Day,
) -> Result<(), AllocError>
    ensures { OnOk result (string_bytes out.new
        ≡ string_bytes out.old ++ spec.ends_lines newest_rules territory.now first last) }
{
    if first == last {
        return push_day(out, territory.dated(first));
    }
    push_from(out, territory.dated(first))?;
    push_to(out, territory.dated(last))
}

/// Returns how many days there are from a first one to a last one.
fn day_count(first: Day, last: Day) -> u32
    ensures { result ≡ last + 1 - first }
{
    (last.number() + 1).saturating_sub(first.number())
}

/// Appends the lines of a run with a first and a last day.
fn push_whole(out: &mut String, territory: &Territory, run: Run) -> Result<(), AllocError>
    ensures { OnOk result (string_bytes out.new
        ≡ string_bytes out.old ++ spec.whole_lines newest_rules territory.now run) }
{
    push_ends(out, territory, run.first, run.last)?;
    push_count(out, day_count(run.first, run.last) as usize)
}

/// Appends the lines of a run that has no first day.
fn push_until(out: &mut String, territory: &Territory, run: Run) -> Result<(), AllocError>
    ensures { OnOk result (string_bytes out.new
        ≡ string_bytes out.old ++ spec.until_lines newest_rules territory.now run) }
{
    out.push_str("from any earlier day\n")?;
    push_to(out, territory.dated(run.last))
}

/// Appends the lines of a run that has no last day.
fn push_since(out: &mut String, territory: &Territory, run: Run) -> Result<(), AllocError>
    ensures { OnOk result (string_bytes out.new
        ≡ string_bytes out.old ++ spec.since_lines newest_rules territory.now run) }
{
    push_from(out, territory.dated(run.first))?;
    out.push_str("to   any later day\n")
}

/// Appends the lines of a run, by what kind of date means it.
fn push_run(out: &mut String, territory: &Territory, kind: Kind, run: Run) -> Result<(), AllocError>
    ensures { OnOk result (string_bytes out.new
        ≡ string_bytes out.old ++ spec.run_lines newest_rules territory.now kind run) }
{
    match kind {
        Kind::Before => push_until(out, territory, run),
        Kind::After => push_since(out, territory, run),
        Kind::Feast => push_ends(out, territory, run.first, run.last),
        Kind::Day | Kind::Month | Kind::Year | Kind::Range | Kind::Part | Kind::Set => {
            push_whole(out, territory, run)
        }
    }
}

/// Appends the lines of all runs that a date of that kind means.
pub(crate) fn push_runs(
    out: &mut String,
    territory: &Territory,
    kind: Kind,
    runs: &[Run],
) -> Result<(), AllocError>
    ensures { OnOk result (string_bytes out.new
        ≡ string_bytes out.old ++ spec.runs_text newest_rules territory.now kind runs.now) }
{
    for run in runs {
        push_run(out, territory, kind, *run)?;
    }
    Ok(())
}
