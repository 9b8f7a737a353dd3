//! The edits of a territory's changes of regime.
ghost use Rattle.std.specs.Prelude.{◌≡◌, ◌++◌, map, flat_map, OnOk};
ghost use Rattle.osn_register_text.specs.Change.{edit_of};
ghost use Rattle.osn_register_text.specs.Differences as spec;
ghost use Rattle.osn_register_text.specs.PlanInside.{sources_at};

use crate::pair::TerritoryPair;
use osn_days::Day;
use osn_register::Edit;
use osn_territory::{Period, Regime, Territory};
use std::alloc::AllocError;

/// Appends the drop of the change on a day, unless the target has one there.
fn push_drop(
    pair: TerritoryPair<'_>,
    target: &Territory,
    day: Day,
    edits: &mut Vec<Edit>,
) -> Result<(), AllocError>
    ensures { OnOk result (edits.new.items ≡ edits.old.items
        ++ map (edit_of pair.entry.code.now) (spec.dropped_change target.now day)) }
{
    if target.starts_on(day) {
        return Ok(());
    }
    edits.push(Edit::DropChange {
        code: pair.code_text()?,
        day: i64::from(day.number()),
    })?;
    Ok(())
}

/// Appends the drops of the changes on days without a target one.
pub(crate) fn push_drops(
    pair: TerritoryPair<'_>,
    current: &[Period],
    target: &Territory,
    edits: &mut Vec<Edit>,
) -> Result<(), AllocError>
    ensures { OnOk result (edits.new.items ≡ edits.old.items ++ flat_map
        (λ p. map (edit_of pair.entry.code.now) (spec.dropped_change target.now p.first))
        current.now) }
{
    for period in current {
        push_drop(pair, target, period.first, edits)?;
    }
    Ok(())
}

/// Appends the edit that adds the change on the first day of a target period.
fn push_addition(
    pair: TerritoryPair<'_>,
    period: &Period,
    edits: &mut Vec<Edit>,
) -> Result<(), AllocError>
    ensures { OnOk result (edits.new.items ≡ edits.old.items
        ++ map (edit_of pair.entry.code.now) (spec.added_change (sources_at pair.entry).target
        (period.now.first, period.now.regime))) }
{
    edits.push(Edit::AddChange {
        code: pair.code_text()?,
        day: i64::from(period.first.number()),
        regime: period.regime,
        source: pair.period_source(period.first)?,
    })?;
    Ok(())
}

/// Appends the edits that add the changes on the first days of these target periods.
pub(crate) fn push_additions(
    pair: TerritoryPair<'_>,
    periods: &[Period],
    edits: &mut Vec<Edit>,
) -> Result<(), AllocError>
    ensures { OnOk result (edits.new.items ≡ edits.old.items ++ flat_map
        (λ p. map (edit_of pair.entry.code.now) (spec.added_change
        (sources_at pair.entry).target (p.first, p.regime))) periods.now) }
{
    for period in periods {
        push_addition(pair, period, edits)?;
    }
    Ok(())
}

/// Returns whether the present regime and its source are those of a target period.
fn agrees(pair: TerritoryPair<'_>, current: Regime, target: &Period) -> bool
    ensures { result ≡ spec.start_agrees (sources_at pair.entry) current
        (target.now.first, target.now.regime) }
{
    current == target.regime && pair.has_period_source(target.first)
}

/// Appends the edit that alters the period that starts on the day of a target one, unless the two
/// have one regime and one source.
fn push_alteration(
    pair: TerritoryPair<'_>,
    current: Regime,
    target: &Period,
    edits: &mut Vec<Edit>,
) -> Result<(), AllocError>
    ensures { OnOk result (edits.new.items ≡ edits.old.items
        ++ map (edit_of pair.entry.code.now) (spec.altered_change (sources_at pair.entry)
        current (target.now.first, target.now.regime))) }
{
    if agrees(pair, current, target) {
        return Ok(());
    }
    edits.push(Edit::AlterChange {
        code: pair.code_text()?,
        day: i64::from(target.first.number()),
        regime: target.regime,
        source: pair.period_source(target.first)?,
    })?;
    Ok(())
}

/// Appends the edit that the start of a target period needs, if any.
fn push_added(
    pair: TerritoryPair<'_>,
    current: &Territory,
    target: &Period,
    edits: &mut Vec<Edit>,
) -> Result<(), AllocError>
    ensures { OnOk result (edits.new.items ≡ edits.old.items
        ++ map (edit_of pair.entry.code.now) (spec.target_change (sources_at pair.entry)
        current.now (target.now.first, target.now.regime))) }
{
    if current.starts_on(target.first) {
        push_alteration(pair, current.regime_at(target.first), target, edits)
    } else {
        push_addition(pair, target, edits)
    }
}

/// Appends the edits that the starts of the target periods need.
pub(crate) fn push_all_added(
    pair: TerritoryPair<'_>,
    current: &Territory,
    target: &[Period],
    edits: &mut Vec<Edit>,
) -> Result<(), AllocError>
    ensures { OnOk result (edits.new.items ≡ edits.old.items ++ flat_map
        (λ p. map (edit_of pair.entry.code.now) (spec.target_change (sources_at pair.entry)
        current.now (p.first, p.regime))) target.now) }
{
    for period in target {
        push_added(pair, current, period, edits)?;
    }
    Ok(())
}
