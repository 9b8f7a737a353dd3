//! The edits of a territory's listed Easters.
ghost use Rattle.std.specs.Prelude.{◌≡◌, ◌++◌, map, flat_map, OnOk};
ghost use Rattle.osn_register_text.specs.Change.{edit_of};
ghost use Rattle.osn_register_text.specs.Differences as spec;
ghost use Rattle.osn_register_text.specs.PlanInside.{sources_at};

use crate::pair::TerritoryPair;
use osn_days::{Day, Year};
use osn_register::Edit;
use osn_territory::Territory;
use std::alloc::AllocError;

/// Returns whether the territory lists the day as the Easter of the year.
fn lists(territory: &Territory, year: Year, day: Day) -> bool
    ensures { result ≡ spec.lists territory.now (year, day) }
{
    territory.exception(year) == Some(day)
}

/// Returns whether the territory lists the day as the Easter of the year, with the target source.
fn agrees(pair: TerritoryPair<'_>, territory: &Territory, year: Year, day: Day) -> bool
    ensures { result ≡ spec.day_agrees (sources_at pair.entry) territory.now (year, day) }
{
    lists(territory, year, day) && pair.has_easter_source(year)
}

/// Appends the drop of a listed day, unless the target lists it with its source.
fn push_drop(
    pair: TerritoryPair<'_>,
    target: &Territory,
    year: Year,
    day: Day,
    edits: &mut Vec<Edit>,
) -> Result<(), AllocError>
    ensures { OnOk result (edits.new.items ≡ edits.old.items
        ++ map (edit_of pair.entry.code.now) (spec.dropped_exception (sources_at pair.entry)
        target.now (year, day))) }
{
    if agrees(pair, target, year, day) {
        return Ok(());
    }
    edits.push(Edit::DropException {
        code: pair.code_text()?,
        year: i64::from(year.number()),
    })?;
    Ok(())
}

/// Appends the drops of the listed days that are not in the target, or whose sources differ.
pub(crate) fn push_drops(
    pair: TerritoryPair<'_>,
    current: &Territory,
    target: &Territory,
    edits: &mut Vec<Edit>,
) -> Result<(), AllocError>
    ensures { OnOk result (edits.new.items ≡ edits.old.items ++ flat_map
        (λ e. map (edit_of pair.entry.code.now) (spec.dropped_exception
        (sources_at pair.entry) target.now e)) current.now.exceptions) }
{
    for (year, day) in current.exceptions() {
        push_drop(pair, target, *year, *day, edits)?;
    }
    Ok(())
}

/// Appends the edit that lists a target day as the Easter of a year.
fn push_addition(
    pair: TerritoryPair<'_>,
    year: Year,
    day: Day,
    edits: &mut Vec<Edit>,
) -> Result<(), AllocError>
    ensures { OnOk result (edits.new.items ≡ edits.old.items
        ++ map (edit_of pair.entry.code.now) (spec.added_exception
        (sources_at pair.entry).target (year, day))) }
{
    edits.push(Edit::AddException {
        code: pair.code_text()?,
        year: i64::from(year.number()),
        day: i64::from(day.number()),
        source: pair.easter_source(year)?,
    })?;
    Ok(())
}

/// Appends the edits that list the days of a target territory.
pub(crate) fn push_additions(
    pair: TerritoryPair<'_>,
    target: &Territory,
    edits: &mut Vec<Edit>,
) -> Result<(), AllocError>
    ensures { OnOk result (edits.new.items ≡ edits.old.items ++ flat_map
        (λ e. map (edit_of pair.entry.code.now) (spec.added_exception
        (sources_at pair.entry).target e)) target.now.exceptions) }
{
    for (year, day) in target.exceptions() {
        push_addition(pair, *year, *day, edits)?;
    }
    Ok(())
}

/// Appends the edit that lists a target day, unless it is listed already with its source.
fn push_added(
    pair: TerritoryPair<'_>,
    current: &Territory,
    year: Year,
    day: Day,
    edits: &mut Vec<Edit>,
) -> Result<(), AllocError>
    ensures { OnOk result (edits.new.items ≡ edits.old.items
        ++ map (edit_of pair.entry.code.now) (spec.target_exception (sources_at pair.entry)
        current.now (year, day))) }
{
    if agrees(pair, current, year, day) {
        return Ok(());
    }
    push_addition(pair, year, day, edits)
}

/// Appends the edits that list the target days that are not listed already with their sources.
pub(crate) fn push_all_added(
    pair: TerritoryPair<'_>,
    current: &Territory,
    target: &Territory,
    edits: &mut Vec<Edit>,
) -> Result<(), AllocError>
    ensures { OnOk result (edits.new.items ≡ edits.old.items ++ flat_map
        (λ e. map (edit_of pair.entry.code.now) (spec.target_exception
        (sources_at pair.entry) current.now e)) target.now.exceptions) }
{
    for (year, day) in target.exceptions() {
        push_added(pair, current, *year, *day, edits)?;
    }
    Ok(())
}
