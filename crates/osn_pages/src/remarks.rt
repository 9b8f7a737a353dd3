//! How a page names a date, and what is remarked after its days.
ghost use Rattle.std.specs.Prelude.{◌≡◌, ◌++◌, OnOk, string_bytes};
ghost use Rattle.osn_days.specs.Rules.{newest_rules};
ghost use Rattle.osn_written.specs.Finding.{list_of, with_reckoning};
ghost use Rattle.osn_pages.specs.Remarks as spec;

use osn_days::{Day, Weekday};
use osn_territory::{DatedDay, Run, Territory};
use osn_written::{
    AnyDate, DateInWords, Extent, NoDay, Reckoning, WrittenDate, by_reckoning, ends_in_next_year,
    find_runs, is_by_other_calendar, plain_day,
};
use std::alloc::{AllocError, Global};
use std::fmt;
use std::fmt::Write;

/// Returns a date without the weekday that it names.
fn without_weekday(date: AnyDate) -> AnyDate
    ensures { result ≡ spec.without_weekday date }
{
    AnyDate {
        weekday: None,
        ..date
    }
}

/// A date as its page names it. A plain date of one day is named without its weekday, and any other
/// date with its weekday and its signs.
#[derive(Clone, Copy)]
pub(crate) struct Subject(pub(crate) AnyDate);

impl fmt::Display for Subject {
    ghost use Rattle.std.specs.Prelude.{Some};
    ghost use Rattle.osn_pages.specs.Remarks.{subject};

    ghost output = { λ x. Some (subject x.0) };

    #[tactic(auto, unfolding(crate::specs::Remarks::subject))]
    fn fmt<W: fmt::Write>(&self, f: &mut fmt::Formatter<W>) -> fmt::Result {
        match plain_day(self.0) {
            Ok(_) => write!(f, "{}", DateInWords(without_weekday(self.0))),
            Err(_) => write!(f, "{}", DateInWords(self.0)),
        }
    }
}

/// Returns the line of how sure a date is, if anything is said of it.
fn sureness(date: AnyDate) -> &'static str
    ensures { result.now ≡ spec.sureness_line date }
{
    match (date.is_approximate, date.is_uncertain, date.is_supplied) {
        (false, false, false) => "",
        (false, false, true) => "supplied by an editor\n",
        (false, true, false) => "in doubt\n",
        (false, true, true) => "in doubt; supplied by an editor\n",
        (true, false, false) => "approximate\n",
        (true, false, true) => "approximate; supplied by an editor\n",
        (true, true, false) => "approximate; in doubt\n",
        (true, true, true) => "approximate; in doubt; supplied by an editor\n",
    }
}

/// Returns the line of a date that has a year of three digits and no zero before them.
fn three_digits_line(date: AnyDate) -> &'static str
    ensures { result.now ≡ spec.three_digits_line date }
{
    if date.extent.has_year_of_three_digits() {
        "year of three digits\n"
    } else {
        ""
    }
}

/// Appends the line of a range with one year that ends in the next one by the reckoning of a
/// territory.
fn push_next_year_by(
    alloc: Global,
    out: &mut String,
    territory: &Territory,
    extent: Extent,
) -> Result<(), AllocError>
    ensures { OnOk result (string_bytes out.new ≡ string_bytes out.old
        ++ spec.next_year_line newest_rules territory.now extent) }
{
    if ends_in_next_year(alloc, territory, extent)? {
        out.push_str("ends in the next year\n")
    } else {
        Ok(())
    }
}

/// Appends the same by the calendar that a date names.
fn push_next_year(
    alloc: Global,
    out: &mut String,
    territory: &Territory,
    date: AnyDate,
) -> Result<(), AllocError>
    ensures { OnOk result (string_bytes out.new ≡ string_bytes out.old
        ++ spec.next_year_line newest_rules
        (with_reckoning territory.now date.reckoning) date.extent) }
{
    match date.reckoning {
        None => push_next_year_by(alloc, out, territory, date.extent),
        Some(reckoning) => {
            let reckoned = by_reckoning(alloc, territory, reckoning)?;
            push_next_year_by(alloc, out, &reckoned, date.extent)
        }
    }
}

/// Returns the name of the style whose calendar a date names.
fn style_name(reckoning: Reckoning) -> &'static str
    ensures { result.now ≡ spec.style_name reckoning }
{
    match reckoning {
        Reckoning::OldStyle => "Old Style",
        Reckoning::NewStyle => "New Style",
    }
}

/// Returns the day, if runs are a single one.
fn only_day(runs: &[Run]) -> Option<Day>
    ensures { result ≡ spec.only_day runs.now }
{
    match runs {
        [run] if run.first == run.last => Some(run.first),
        _ => None,
    }
}

/// Appends how the place of that name itself dated a day.
#[tactic(auto, unfolding(crate::specs::Remarks::own_day))]
fn push_own_day(out: &mut String, name: &str, dated: DatedDay) -> Result<(), AllocError>
    ensures { OnOk result (string_bytes out.new
        ≡ string_bytes out.old ++ spec.own_day name.now dated) }
{
    writeln!(out, "{name} itself dated that day {dated}")
}

/// Appends how the place of that name itself dated days: a single one is named, and others are
/// written above.
#[tactic(auto, unfolding(crate::specs::Remarks::own_days))]
fn push_own_days(
    out: &mut String,
    name: &str,
    territory: &Territory,
    day: Option<Day>,
) -> Result<(), AllocError>
    ensures { OnOk result (string_bytes out.new ≡ string_bytes out.old
        ++ spec.own_days newest_rules name.now territory.now day) }
{
    match day {
        Some(day) => push_own_day(out, name, territory.dated(day)),
        None => writeln!(
            out,
            "{name} itself dated these days as they are written above"
        ),
    }
}

/// Appends how the place itself dated what a date means by the calendar that it names. If it means
/// no day by that calendar, it means one by the place's own.
#[tactic(auto, unfolding(crate::specs::Remarks::own_dates))]
fn push_own_dates(
    out: &mut String,
    name: &str,
    territory: &Territory,
    outcome: &Result<Vec<Run>, NoDay>,
) -> Result<(), AllocError>
    ensures { OnOk result (string_bytes out.new ≡ string_bytes out.old
        ++ spec.own_dates newest_rules name.now territory.now (list_of outcome.now)) }
{
    match outcome {
        Ok(runs) => push_own_days(out, name, territory, only_day(runs.as_slice())),
        Err(_) => writeln!(out, "by its own reckoning {name} has that date"),
    }
}

/// Appends by which calendar a date is read that names one, and how the place itself dated its
/// days, if the date means other days by the place's own reckoning.
fn push_calendar(
    alloc: Global,
    out: &mut String,
    name: &str,
    territory: &Territory,
    date: AnyDate,
) -> Result<(), AllocError>
    ensures { OnOk result (string_bytes out.new ≡ string_bytes out.old
        ++ spec.calendar_line newest_rules name.now territory.now date date.reckoning) }
{
    let Some(reckoning) = date.reckoning else {
        return Ok(());
    };
    if !is_by_other_calendar(alloc, territory, date)? {
        return Ok(());
    }
    let reckoned = by_reckoning(alloc, territory, reckoning)?;
    let outcome = find_runs(alloc, &reckoned, date.extent)?;
    write!(out, "read as {}, as the date says; ", style_name(reckoning))?;
    push_own_dates(out, name, territory, &outcome)
}

/// Appends that the weekday of a date is not compared, if it has one.
#[tactic(auto, unfolding(crate::specs::Remarks::not_sought_line))]
pub(crate) fn push_not_sought(out: &mut String, weekday: Option<Weekday>) -> Result<(), AllocError>
    ensures { OnOk result (string_bytes out.new
        ≡ string_bytes out.old ++ spec.not_sought_line weekday) }
{
    match weekday {
        None => Ok(()),
        Some(weekday) => writeln!(
            out,
            "{} is not compared: the date is not written as a day",
            weekday.name()
        ),
    }
}

/// Appends that the weekday is not compared, if the date is not written as a day.
fn push_weekday(
    out: &mut String,
    weekday: Option<Weekday>,
    day: Option<WrittenDate>,
) -> Result<(), AllocError>
    ensures { OnOk result (string_bytes out.new
        ≡ string_bytes out.old ++ spec.weekday_line weekday day) }
{
    match day {
        None => push_not_sought(out, weekday),
        Some(_) => Ok(()),
    }
}

/// Appends what is remarked of a date.
#[tactic(auto, unfolding(crate::specs::Remarks::remark_lines))]
pub(crate) fn push_remarks(
    alloc: Global,
    out: &mut String,
    name: &str,
    territory: &Territory,
    date: AnyDate,
    given: Option<Weekday>,
) -> Result<(), AllocError>
    ensures { OnOk result (string_bytes out.new ≡ string_bytes out.old
        ++ spec.remark_lines newest_rules name.now territory.now date given) }
{
    push_next_year(alloc, out, territory, date)?;
    out.push_str(sureness(date))?;
    out.push_str(three_digits_line(date))?;
    push_calendar(alloc, out, name, territory, date)?;
    push_weekday(out, date.weekday.or(given), WrittenDate::of_one_day(date))
}
