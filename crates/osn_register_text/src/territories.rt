//! The edits of one territory.
ghost use Rattle.std.specs.Prelude.{◌≡◌, ◌∷◌, ◌++◌, [], map, OnOk};
ghost use Rattle.osn_register.specs.declared.edit.Edit.TheVariants.{AddLand};
ghost use Rattle.osn_register.specs.Answer.{period_source};
ghost use Rattle.osn_register_text.specs.Change.{edit_of};
ghost use Rattle.osn_register_text.specs.Differences as spec;
ghost use Rattle.osn_register_text.specs.PlanInside.{sources_at};

use crate::pair::TerritoryPair;
use crate::{exceptions, plan_changes};
use osn_days::Day;
use osn_register::{Edit, Text};
use osn_territory::{Regime, Territory};
use std::alloc::AllocError;

/// Appends the edits that take a territory to the target one.
fn push_differences(
    pair: TerritoryPair<'_>,
    current: &Territory,
    target: &Territory,
    edits: &mut Vec<Edit>,
) -> Result<(), AllocError>
    ensures { OnOk result (edits.new.items ≡ edits.old.items
        ++ map (edit_of pair.entry.code.now)
        (spec.differences (sources_at pair.entry) current.now target.now)) }
{
    plan_changes::push_drops(pair, current.periods(), target, edits)?;
    plan_changes::push_all_added(pair, current, target.periods(), edits)?;
    exceptions::push_drops(pair, current, target, edits)?;
    exceptions::push_all_added(pair, current, target, edits)
}

/// Appends the edit that adds a territory with its opening regime, and the target source of that.
fn push_territory(
    pair: TerritoryPair<'_>,
    name: &str,
    regime: Regime,
    edits: &mut Vec<Edit>,
) -> Result<(), AllocError>
    ensures { OnOk result (edits.new.items ≡ edits.old.items
        ++ AddLand pair.entry.code.now name.now regime
        (period_source (sources_at pair.entry).target 1) ∷ []) }
{
    edits.push(Edit::AddLand {
        code: pair.code_text()?,
        name: Text::from_str(pair.alloc, name)?,
        regime,
        source: pair.period_source(Day::FIRST)?,
    })?;
    Ok(())
}

/// Appends the edits that make the target territory of one that has its opening regime alone.
fn push_later(
    pair: TerritoryPair<'_>,
    target: &Territory,
    edits: &mut Vec<Edit>,
) -> Result<(), AllocError>
    ensures { OnOk result (edits.new.items ≡ edits.old.items
        ++ map (edit_of pair.entry.code.now)
        (spec.later (sources_at pair.entry).target target.now)) }
{
    plan_changes::push_additions(pair, &target.periods()[1..], edits)?;
    exceptions::push_additions(pair, target, edits)
}

/// Appends the edits that take the territory of a code to the target one, or add it.
pub(crate) fn push_edits(
    pair: TerritoryPair<'_>,
    name: &str,
    target: &Territory,
    edits: &mut Vec<Edit>,
) -> Result<(), AllocError>
    ensures { OnOk result (edits.new.items ≡ edits.old.items
        ++ spec.entry_edits pair.entry.target.now.territories pair.entry.register.now.territories
        pair.entry.code.now name.now target.now) }
{
    if let Some((_, current)) = pair.register.find_territory(pair.code) {
        return push_differences(pair, current, target, edits);
    }
    push_territory(pair, name, target.periods()[0].regime, edits)?;
    push_later(pair, target, edits)
}
