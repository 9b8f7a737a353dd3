//! The days of a year as a territory counted it, by the months in which they were lived.
ghost use Rattle.std.specs.Prelude.{◌≡◌, ◌<◌, ◌≤◌, ◌∷◌, ◌++◌, OnOk, IfOk, string_bytes, map};
ghost use Rattle.std.specs.Prelude.{length, take, drop, pos};
ghost use Rattle.osn_days.specs.Rules.{newest_rules};
ghost use Rattle.osn_days.specs.declared.calendar.Calendar.TheVariants.{Gregorian};
ghost use Rattle.osn_territory.specs.Dating.{dated_on};
ghost use Rattle.osn_territory.specs.Runs.{days_of_year};
ghost use Rattle.osn_pages.specs.Grid.{is_next};
ghost use Rattle.osn_pages.specs.YearPage as spec;

use crate::month::dated_days;
use crate::runs::push_count;
use crate::words::{DayInCalendar, NamedDay, YearEnds, push_empty_year};
use osn_days::{Calendar, Day, Year};
use osn_territory::{DatedDay, Territory};
use std::alloc::{AllocError, Global};
use std::fmt::Write;

/// Returns the year as a label's year.
pub(crate) fn label_year(year: Year) -> i32
    ensures { result ≡ pos year }
{
    year.number() as i32
}

/// Into what days are cut.
#[derive(Clone, Copy)]
pub(crate) enum Part {
    /// Days that follow one another.
    Run,
    /// Days that follow one another and are of one month.
    Month,
}

/// Returns whether a day is the next one on the line.
fn is_next(before: &DatedDay, after: &DatedDay) -> bool
    ensures { result ≡ is_next before.now after.now }
{
    after.day.number() == before.day.number() + 1
}

/// Returns whether a day is of the same run as the day before it, or of the same month.
fn goes_on(part: Part, before: &DatedDay, after: &DatedDay) -> bool
    ensures { result ≡ spec.goes_on part before.now after.now }
{
    match part {
        Part::Run => is_next(before, after),
        Part::Month => is_next(before, after) && before.label.month == after.label.month,
    }
}

/// Returns how many days the first run or month has.
fn piece_len(part: Part, days: &[DatedDay]) -> usize
    requires { 0 < length days.now }
    ensures some { 0 < result }
    ensures most { result ≤ length days.now }
    ensures cut { spec.parts_of part days.now
        ≡ take result days.now ∷ spec.parts_of part (drop result days.now) }
{
    for place in 1..days.len() {
        if !goes_on(part, &days[place - 1], &days[place]) {
            return place;
        }
    }
    days.len()
}

/// Appends that days begin or end with the line of days, if they do.
fn push_line_ends(out: &mut String, first: Day, last: Day) -> Result<(), AllocError>
    ensures { OnOk result (string_bytes out.new
        ≡ string_bytes out.old ++ spec.line_ends newest_rules first last) }
{
    if first == Day::FIRST {
        out.push_str("its first day is the first of the line of days\n")?;
    }
    if last == Day::LAST {
        out.push_str("its last day is the last of the line of days\n")?;
    }
    Ok(())
}

/// Appends the line of a run of days.
#[tactic(auto, unfolding(crate::specs::YearPage::run_line))]
fn push_run(
    out: &mut String,
    year: Year,
    first: DatedDay,
    last: DatedDay,
    count: usize,
) -> Result<(), AllocError>
    ensures { OnOk result (string_bytes out.new
        ≡ string_bytes out.old ++ spec.run_line newest_rules year first last count) }
{
    let year = year.number();
    let first_day = first.day;
    let last_day = last.day;
    write!(out, "{}: ", YearEnds { year, first, last })?;
    push_count(out, count)?;
    push_line_ends(out, first_day, last_day)
}

/// Returns a day by the Gregorian calendar.
fn gregorian(day: Day) -> DayInCalendar
    ensures { (result.calendar ≡ Gregorian) × (result.day ≡ day) }
{
    DayInCalendar {
        calendar: Calendar::Gregorian,
        day,
    }
}

/// Appends the days of a month, as the territory named them.
fn push_named(out: &mut String, first: DatedDay, last: DatedDay) -> Result<(), AllocError>
    ensures { OnOk result (string_bytes out.new
        ≡ string_bytes out.old ++ spec.named_days first last) }
{
    if first.day == last.day {
        write!(out, "{}", NamedDay(first))
    } else {
        write!(out, "{} to {}", NamedDay(first), NamedDay(last))
    }
}

/// Appends the days of a month by the Gregorian calendar.
fn push_gregorian(out: &mut String, first: Day, last: Day) -> Result<(), AllocError>
    ensures { OnOk result (string_bytes out.new
        ≡ string_bytes out.old ++ spec.gregorian_days first last) }
{
    if first == last {
        write!(out, "{}", gregorian(first))
    } else {
        write!(out, "{} to {}", gregorian(first), gregorian(last))
    }
}

/// Appends the line of a month.
#[tactic(auto, unfolding(crate::specs::YearPage::month_line))]
fn push_month(
    out: &mut String,
    first: DatedDay,
    last: DatedDay,
    count: usize,
) -> Result<(), AllocError>
    ensures { OnOk result (string_bytes out.new
        ≡ string_bytes out.old ++ spec.month_line first last count) }
{
    let first_day = first.day;
    let last_day = last.day;
    push_named(out, first, last)?;
    out.push_str("    ")?;
    push_gregorian(out, first_day, last_day)?;
    out.push_str(" Gregorian    ")?;
    push_count(out, count)
}

/// Appends the line of a run or a month, by its first and its last day.
fn push_part(
    out: &mut String,
    part: Part,
    year: Year,
    first: DatedDay,
    last: DatedDay,
    count: usize,
) -> Result<(), AllocError>
    ensures { OnOk result (string_bytes out.new
        ≡ string_bytes out.old ++ spec.part_line newest_rules part year first last count) }
{
    match part {
        Part::Run => push_run(out, year, first, last, count),
        Part::Month => push_month(out, first, last, count),
    }
}

/// Appends the line of these days.
fn push_piece(
    out: &mut String,
    part: Part,
    year: Year,
    piece: &[DatedDay],
) -> Result<(), AllocError>
    requires { 0 < length piece.now }
    ensures { OnOk result (string_bytes out.new
        ≡ string_bytes out.old ++ spec.piece_line newest_rules part year piece.now) }
{
    let first = piece[0];
    let last = piece[piece.len() - 1];
    push_part(out, part, year, first, last, piece.len())
}

/// Appends a line for each run or month of these days.
fn push_pieces(
    out: &mut String,
    part: Part,
    year: Year,
    days: &[DatedDay],
) -> Result<(), AllocError>
    ensures { OnOk result (string_bytes out.new
        ≡ string_bytes out.old ++ spec.pieces_text newest_rules part year days.now) }
{
    let mut rest = days;
    while !rest.is_empty() {
        let (piece, others) = rest.split_at(piece_len(part, rest));
        push_piece(out, part, year, piece)?;
        rest = others;
    }
    Ok(())
}

/// Appends the runs and the months of these days, or that no day had the year.
fn push_all(out: &mut String, year: Year, days: &[DatedDay]) -> Result<(), AllocError>
    ensures { OnOk result (string_bytes out.new
        ≡ string_bytes out.old ++ spec.days_lines newest_rules year days.now) }
{
    if days.is_empty() {
        return push_empty_year(out, year.number());
    }
    push_pieces(out, Part::Run, year, days)?;
    push_pieces(out, Part::Month, year, days)
}

/// Appends from which day to which the year ran, and its months.
pub(crate) fn push_days(
    alloc: Global,
    out: &mut String,
    territory: &Territory,
    year: Year,
) -> Result<(), AllocError>
    ensures { OnOk result (string_bytes out.new
        ≡ string_bytes out.old ++ spec.days_lines newest_rules year
        (map (dated_on newest_rules territory.now)
        (days_of_year newest_rules territory.now (pos year)))) }
{
    let runs = territory.days_of_year(label_year(year))?;
    let days = dated_days(alloc, territory, runs.as_slice())?;
    push_all(out, year, days.as_slice())
}
