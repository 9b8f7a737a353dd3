//! Days of a month in grids, as the program `cal` prints them.
ghost use Rattle.std.specs.Prelude.{◌≡◌, ◌<◌, ◌≤◌, ◌∷◌, ◌++◌, OnOk, IfOk, string_bytes};
ghost use Rattle.std.specs.Prelude.{length, replicate, take, drop};
ghost use Rattle.std.specs.List.{flat_map};
ghost use Rattle.osn_days.specs.Line.{weekday};
ghost use Rattle.osn_pages.specs.Grid as spec;

use osn_days::{Day, month_name};
use osn_territory::{DatedDay, DatedYears};
use std::alloc::{AllocError, Global};
use std::fmt::Write;

/// How many characters a grid has in a line.
const WIDTH: usize = 20;

/// Appends spaces.
fn push_spaces(out: &mut String, count: usize) -> Result<(), AllocError>
    ensures { OnOk result (string_bytes out.new ≡ string_bytes out.old ++ replicate count 32) }
{
    for _place in 0..count {
        out.push(' ')?;
    }
    Ok(())
}

/// Returns the month and year of a day.
#[tactic(auto, unfolding(crate::specs::Grid::month_year))]
fn month_year(alloc: Global, dated: DatedDay) -> Result<String, AllocError>
    ensures { IfOk result (λ s. string_bytes s ≡ spec.month_year dated) }
{
    format!(in alloc; "{} {}", month_name(dated.label.month), DatedYears(dated))
}

/// Appends the line of a title.
#[tactic(auto, unfolding(crate::specs::Grid::title_row))]
fn push_centred(out: &mut String, title: &str) -> Result<(), AllocError>
    ensures { OnOk result (string_bytes out.new
        ≡ string_bytes out.old ++ spec.title_row title.now) }
{
    push_spaces(out, WIDTH.saturating_sub(title.len()) / 2)?;
    writeln!(out, "{}", title)
}

/// Appends the title of a run of days.
fn push_title(alloc: Global, out: &mut String, run: &[DatedDay]) -> Result<(), AllocError>
    requires { 0 < length run.now }
    ensures { OnOk result (string_bytes out.new
        ≡ string_bytes out.old ++ spec.title_line run.now) }
{
    let title = month_year(alloc, run[0])?;
    push_centred(out, title.as_str())
}

/// Returns the weekday of a day, 0 for Sunday.
fn weekday_number(day: Day) -> u32
    ensures { result ≡ weekday day }
{
    day.number() % 7
}

/// Appends the number of a day in its month.
#[tactic(auto, unfolding(crate::specs::Grid::cell))]
fn push_cell(out: &mut String, dated: DatedDay) -> Result<(), AllocError>
    ensures { OnOk result (string_bytes out.new ≡ string_bytes out.old ++ spec.cell dated) }
{
    write!(out, "{:>2}", dated.label.day)
}

/// Appends the number of a day in its month, after another cell.
#[tactic(auto, unfolding(crate::specs::Grid::next_cell))]
fn push_next_cell(out: &mut String, dated: DatedDay) -> Result<(), AllocError>
    ensures { OnOk result (string_bytes out.new ≡ string_bytes out.old ++ spec.next_cell dated) }
{
    out.push(' ')?;
    push_cell(out, dated)
}

/// Appends the cells of these days after another one.
fn push_next_cells(out: &mut String, days: &[DatedDay]) -> Result<(), AllocError>
    ensures { OnOk result (string_bytes out.new
        ≡ string_bytes out.old ++ flat_map spec.next_cell days.now) }
{
    for dated in days {
        push_next_cell(out, *dated)?;
    }
    Ok(())
}

/// Appends the line of a week.
fn push_week(out: &mut String, week: &[DatedDay]) -> Result<(), AllocError>
    requires { 0 < length week.now }
    ensures { OnOk result (string_bytes out.new
        ≡ string_bytes out.old ++ spec.week_line week.now) }
{
    let first = week[0];
    push_spaces(out, 3 * weekday_number(first.day) as usize)?;
    push_cell(out, first)?;
    push_next_cells(out, &week[1..])?;
    out.push_str("\n")
}

/// Returns whether the day begins a week.
fn begins_week(dated: &DatedDay) -> bool
    ensures { result ≡ spec.begins_week dated.now }
{
    weekday_number(dated.day) == 0
}

/// Returns how many days the first week has.
fn week_len(days: &[DatedDay]) -> usize
    requires { 0 < length days.now }
    ensures some { 0 < result }
    ensures most { result ≤ length days.now }
    ensures cut { spec.weeks_of days.now
        ≡ take result days.now ∷ spec.weeks_of (drop result days.now) }
{
    for place in 1..days.len() {
        if begins_week(&days[place]) {
            return place;
        }
    }
    days.len()
}

/// Appends a line for each week.
fn push_weeks(out: &mut String, run: &[DatedDay]) -> Result<(), AllocError>
    ensures { OnOk result (string_bytes out.new
        ≡ string_bytes out.old ++ flat_map spec.week_line (spec.weeks_of run.now)) }
{
    let mut rest = run;
    while !rest.is_empty() {
        let (week, others) = rest.split_at(week_len(rest));
        push_week(out, week)?;
        rest = others;
    }
    Ok(())
}

/// Appends the line of the weekdays.
#[tactic(auto, unfolding(crate::specs::Grid::weekdays_line))]
fn push_weekdays(out: &mut String) -> Result<(), AllocError>
    ensures { OnOk result (string_bytes out.new ≡ string_bytes out.old ++ spec.weekdays_line) }
{
    out.push_str("Su Mo Tu We Th Fr Sa\n")
}

/// Appends the grid of a run of days.
#[tactic(auto, unfolding(crate::specs::Grid::grid))]
fn push_grid(alloc: Global, out: &mut String, run: &[DatedDay]) -> Result<(), AllocError>
    requires { 0 < length run.now }
    ensures { OnOk result (string_bytes out.new ≡ string_bytes out.old ++ spec.grid run.now) }
{
    push_title(alloc, out, run)?;
    push_weekdays(out)?;
    push_weeks(out, run)
}

/// Returns whether a day is the next one on the line.
fn is_next(before: &DatedDay, after: &DatedDay) -> bool
    ensures { result ≡ spec.is_next before.now after.now }
{
    after.day.number() == before.day.number() + 1
}

/// Returns how many days the first run has.
fn run_len(days: &[DatedDay]) -> usize
    requires { 0 < length days.now }
    ensures some { 0 < result }
    ensures most { result ≤ length days.now }
    ensures cut { spec.runs_of days.now
        ≡ take result days.now ∷ spec.runs_of (drop result days.now) }
{
    for place in 1..days.len() {
        if !is_next(&days[place - 1], &days[place]) {
            return place;
        }
    }
    days.len()
}

/// Appends a grid for each run of days that follow one another.
fn push_all_grids(alloc: Global, out: &mut String, days: &[DatedDay]) -> Result<(), AllocError>
    ensures { OnOk result (string_bytes out.new
        ≡ string_bytes out.old ++ flat_map spec.grid (spec.runs_of days.now)) }
{
    let mut rest = days;
    while !rest.is_empty() {
        let (run, others) = rest.split_at(run_len(rest));
        push_grid(alloc, out, run)?;
        rest = others;
    }
    Ok(())
}

/// Appends the grids of days in order, or that there is no such month if there is no day.
pub(crate) fn push_grids(
    alloc: Global,
    out: &mut String,
    days: &[DatedDay],
) -> Result<(), AllocError>
    ensures { OnOk result (string_bytes out.new ≡ string_bytes out.old ++ spec.grids days.now) }
{
    if days.is_empty() {
        return out.push_str("no such month\n");
    }
    push_all_grids(alloc, out, days)
}
