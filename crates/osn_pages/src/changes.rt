//! The changes that fall in the year, with their sources.
ghost use Rattle.std.specs.Prelude.{◌≡◌, ◌++◌, OnOk, string_bytes};
ghost use Rattle.std.specs.List.{flat_map};
ghost use Rattle.osn_days.specs.Rules.{newest_rules};
ghost use Rattle.osn_register.specs.Plain.{sources_of};
ghost use Rattle.osn_pages.specs.Almanac as spec;

use crate::source_line::push_source;
use crate::year_days::label_year;
use osn_days::{Calendar, Day, Keyword, Year, date_of};
use osn_register::Register;
use osn_territory::{Period, Territory, dated_day};
use std::alloc::AllocError;
use std::fmt::Write;

/// Returns whether the period begins with a change, on a day that has a Gregorian date in the year.
fn is_change_in(year: Year, period: &Period) -> bool
    ensures { result ≡ spec.is_change_in year period.now }
{
    period.first > Day::FIRST && date_of(Calendar::Gregorian, period.first).year == label_year(year)
}

/// Appends the line of a change: the day as the new regime dates it, and how that regime reckons.
#[tactic(auto, unfolding(crate::specs::Almanac::change_line))]
fn push_change(out: &mut String, period: &Period) -> Result<(), AllocError>
    ensures { OnOk result (string_bytes out.new
        ≡ string_bytes out.old ++ spec.change_line newest_rules period.now) }
{
    let regime = period.regime;
    writeln!(
        out,
        "From {}, day {}: {} calendar, {} style, {} rule",
        dated_day(regime, period.first),
        period.first.number(),
        regime.calendar.word(),
        regime.style.word(),
        regime.rule.word()
    )
}

/// Appends the line of a change, and that of its source, if it is one of the year.
fn push_change_if(
    out: &mut String,
    register: &Register,
    code: &str,
    year: Year,
    period: &Period,
) -> Result<(), AllocError>
    ensures { OnOk result (string_bytes out.new ≡ string_bytes out.old
        ++ spec.change_lines newest_rules
        (sources_of code.now register.now.territories) year period.now) }
{
    if !is_change_in(year, period) {
        return Ok(());
    }
    push_change(out, period)?;
    push_source(out, register.period_source(code, period.first))
}

/// Appends the changes of the year, of those with which these periods begin.
fn push_changes_among(
    out: &mut String,
    register: &Register,
    code: &str,
    year: Year,
    periods: &[Period],
) -> Result<(), AllocError>
    ensures { OnOk result (string_bytes out.new ≡ string_bytes out.old
        ++ flat_map (spec.change_lines newest_rules
        (sources_of code.now register.now.territories) year) periods.now) }
{
    for period in periods {
        push_change_if(out, register, code, year, period)?;
    }
    Ok(())
}

/// Appends the changes of the year in the territory.
pub(crate) fn push_changes(
    out: &mut String,
    territory: &Territory,
    register: &Register,
    code: &str,
    year: Year,
) -> Result<(), AllocError>
    ensures { OnOk result (string_bytes out.new ≡ string_bytes out.old
        ++ spec.changes_text newest_rules territory.now
        (sources_of code.now register.now.territories) year) }
{
    push_changes_among(out, register, code, year, territory.periods())
}
