//! The changes that a year has, as a territory counted it, that end it or that pass it over.
ghost use Rattle.std.specs.Prelude.{◌≡◌, ◌++◌, ◌<◌, ◌-◌, OnOk, string_bytes};
ghost use Rattle.std.specs.List.{flat_map};
ghost use Rattle.osn_days.specs.Rules.{newest_rules};
ghost use Rattle.osn_register.specs.Plain.{sources_of};
ghost use Rattle.osn_pages.specs.YearPage as spec;

use crate::source_line::push_source;
use crate::turn::{push_gap, push_turned};
use crate::words::DaysAtChange;
use crate::year_days::label_year;
use osn_days::{Day, Keyword, Year, date_of, day_of};
use osn_register::Register;
use osn_territory::{Period, Regime, Territory};
use std::alloc::AllocError;
use std::fmt::Write;

/// Returns whether the year is one of these two, or lies between them.
fn is_between(before: i32, year: i32, after: i32) -> bool
    ensures { result ≡ spec.is_between before year after }
{
    (before <= year && year <= after) || (after <= year && year <= before)
}

/// Returns the day before a change.
fn day_before(change: Day) -> Day
    requires { 1 < change }
    ensures { result ≡ change - 1 }
{
    Day::on_line(i64::from(change.number()) - 1)
}

/// Returns whether a change is in the year, ends it or skips it.
fn is_change_of(territory: &Territory, year: Year, change: Day) -> bool
    requires { 1 < change }
    ensures { result ≡ spec.is_change_of newest_rules territory.now year change }
{
    is_between(
        territory.dated(day_before(change)).label.year,
        label_year(year),
        territory.dated(change).label.year,
    )
}

/// Appends that a part of the reckoning changed, if it did.
fn push_if_other(out: &mut String, part: &str, old: &str, new: &str) -> Result<(), AllocError>
    ensures { OnOk result (string_bytes out.new
        ≡ string_bytes out.old ++ spec.turned_if_other part.now old.now new.now) }
{
    if old == new {
        return Ok(());
    }
    push_turned(out, part, old, new)
}

/// Appends which parts of the reckoning changed.
#[tactic(auto, unfolding(crate::specs::YearPage::turned_lines))]
fn push_parts(out: &mut String, old: Regime, new: Regime) -> Result<(), AllocError>
    ensures { OnOk result (string_bytes out.new
        ≡ string_bytes out.old ++ spec.turned_lines old new) }
{
    push_if_other(
        out,
        "the calendar",
        old.calendar.word(),
        new.calendar.word(),
    )?;
    push_if_other(
        out,
        "the year's beginning",
        old.style.beginning_of_year(),
        new.style.beginning_of_year(),
    )?;
    push_if_other(out, "the rule of Easter", old.rule.word(), new.rule.word())
}

/// Appends the day before a change and the day of the change, and how many dates were left out.
#[tactic(auto, unfolding(crate::specs::YearPage::followed_line))]
fn push_followed(
    out: &mut String,
    territory: &Territory,
    last: Day,
    change: Day,
) -> Result<(), AllocError>
    requires change { 1 < change }
    requires last { last ≡ change - 1 }
    ensures { OnOk result (string_bytes out.new
        ≡ string_bytes out.old ++ spec.followed_line newest_rules territory.now change) }
{
    let followed = DaysAtChange {
        before: territory.dated(last),
        change: territory.dated(change),
    };
    write!(out, "{followed}")?;
    let date = date_of(territory.regime_at(change).calendar, change);
    push_gap(
        out,
        day_of(territory.regime_at(last).calendar, date),
        change,
    )?;
    out.push_str("\n")
}

/// Appends the lines of a change.
#[tactic(auto, unfolding(crate::specs::YearPage::change_lines))]
fn push_change(
    out: &mut String,
    territory: &Territory,
    register: &Register,
    code: &str,
    change: Day,
) -> Result<(), AllocError>
    requires { 1 < change }
    ensures { OnOk result (string_bytes out.new ≡ string_bytes out.old
        ++ spec.change_lines newest_rules territory.now
        (sources_of code.now register.now.territories) change) }
{
    let last = day_before(change);
    push_followed(out, territory, last, change)?;
    push_source(out, register.period_source(code, change))?;
    push_parts(out, territory.regime_at(last), territory.regime_at(change))
}

/// Appends the lines of the change with which a period begins, if it is one of the year.
fn push_change_if(
    out: &mut String,
    territory: &Territory,
    register: &Register,
    code: &str,
    year: Year,
    period: &Period,
) -> Result<(), AllocError>
    ensures { OnOk result (string_bytes out.new ≡ string_bytes out.old
        ++ spec.change_lines_if newest_rules territory.now
        (sources_of code.now register.now.territories) year period.now) }
{
    if period.first > Day::FIRST && is_change_of(territory, year, period.first) {
        return push_change(out, territory, register, code, period.first);
    }
    Ok(())
}

/// Appends the lines of the changes of the year, of those with which these periods begin.
fn push_changes_among(
    out: &mut String,
    territory: &Territory,
    register: &Register,
    code: &str,
    year: Year,
    periods: &[Period],
) -> Result<(), AllocError>
    ensures { OnOk result (string_bytes out.new ≡ string_bytes out.old
        ++ flat_map (spec.change_lines_if newest_rules territory.now
        (sources_of code.now register.now.territories) year)
        periods.now) }
{
    for period in periods {
        push_change_if(out, territory, register, code, year, period)?;
    }
    Ok(())
}

/// Appends the lines of the year's changes.
pub(crate) fn push_changes(
    out: &mut String,
    territory: &Territory,
    register: &Register,
    code: &str,
    year: Year,
) -> Result<(), AllocError>
    ensures { OnOk result (string_bytes out.new ≡ string_bytes out.old
        ++ spec.changes_text newest_rules territory.now
        (sources_of code.now register.now.territories) year) }
{
    push_changes_among(out, territory, register, code, year, territory.periods())
}
