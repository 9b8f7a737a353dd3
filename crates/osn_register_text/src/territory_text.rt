//! The edits that the table of a territory says, each with its part of the table.
ghost use Rattle.std.specs.Prelude.{◌≡◌, ◌++◌, [], ◌∷◌, MatchResult, OnOk, Ok, None};
ghost use Rattle.toml.specs.View.{items_view, table_view, view};
ghost use Rattle.osn_register.specs.declared.edit.Edit.TheVariants.{AddLand};
ghost use Rattle.osn_register_text.specs.TerritoryText as spec;
ghost use Rattle.osn_register_text.specs.Inside.{Fails, Gives, onto, place_of};

use crate::day_field::day_at;
use crate::fault::{Reason, TextFault};
use crate::field::{items_at, note_of, regime_of, source_at, table_of, text_at, whole_at};
use crate::key::{Key, Part};
use crate::place::Place;
use osn_register::{Edit, Source, Text};
use osn_territory::Regime;
use std::alloc::{AllocError, Global};
use toml::{Table, Value};

/// An edit, with the table that says it.
pub(crate) type Placed = (Part, Edit);

/// Adds an edit of a table.
fn push_edit(edits: &mut Vec<Placed>, part: Part, edit: Edit) -> Result<(), AllocError>
    ensures { OnOk result (edits.new.items ≡ edits.old.items ++ (part, edit) ∷ []) }
{
    edits.push((part, edit))?;
    Ok(())
}

/// Returns the day of a change, if it is later than that of the change before it.
fn if_later(at: Place<'_>, before: Option<i64>, day: i64) -> Result<i64, TextFault>
    ensures { Gives result (spec.if_later (place_of at.entry) before day) }
{
    match before {
        Some(before) if day <= before => Err(at.fault(Reason::NotLater)),
        _ => Ok(day),
    }
}

/// Returns the day, the regime and the source of a change, after the period before it.
#[tactic(auto, unfolding(crate::specs::TerritoryText::change_of))]
fn change_of(
    at: Place<'_>,
    before: Option<i64>,
    regime: Regime,
    table: &Table,
) -> Result<(i64, Regime, Option<Source>), TextFault>
    ensures { Gives result
        (spec.change_of (place_of at.entry) before regime (table_view table.now)) }
{
    let day = day_at(at, table, Key::From)?;
    let regime = regime_of(at, table, Some(regime))?;
    let source = source_at(at, table)?;
    note_of(at, table)?;
    Ok((if_later(at, before, day)?, regime, source))
}

/// Adds the changes of a territory, which opens with a regime.
fn push_changes(
    edits: &mut Vec<Placed>,
    territory: Place<'_>,
    opening: Regime,
    changes: &[Value],
) -> Result<(), TextFault>
    ensures { MatchResult result
        (λ _. onto edits.old.items
        (spec.changes_from territory.entry.code.now 1 None opening (items_view changes.now))
        ≡ Ok edits.new.items)
        (λ e. Fails e (onto edits.old.items
        (spec.changes_from territory.entry.code.now 1 None opening (items_view changes.now)))) }
{
    let mut before = None;
    let mut regime = opening;
    for (index, value) in changes.iter().enumerate() {
        let part = Part::Change(index + 1);
        let at = Place { part, ..territory };
        let (day, changed, source) = change_of(at, before, regime, table_of(at, value)?)?;
        let code = Text::from_str(at.alloc, at.code)?;
        before = Some(day);
        regime = changed;
        let edit = Edit::AddChange {
            code,
            day,
            regime,
            source,
        };
        push_edit(edits, part, edit)?;
    }
    Ok(())
}

/// Returns the year, the day and the source of a listed Easter.
#[tactic(auto, unfolding(crate::specs::TerritoryText::easter_of))]
fn easter_of(at: Place<'_>, table: &Table) -> Result<(i64, i64, Option<Source>), TextFault>
    ensures { Gives result (spec.easter_of (place_of at.entry) (table_view table.now)) }
{
    let year = whole_at(at, table, Key::Year)?;
    let day = day_at(at, table, Key::Date)?;
    let source = source_at(at, table)?;
    note_of(at, table)?;
    Ok((year, day, source))
}

/// Adds the listed Easters of a territory.
fn push_easters(
    edits: &mut Vec<Placed>,
    territory: Place<'_>,
    easters: &[Value],
) -> Result<(), TextFault>
    ensures { MatchResult result
        (λ _. onto edits.old.items
        (spec.easters_from territory.entry.code.now 1 (items_view easters.now))
        ≡ Ok edits.new.items)
        (λ e. Fails e (onto edits.old.items
        (spec.easters_from territory.entry.code.now 1 (items_view easters.now)))) }
{
    for (index, value) in easters.iter().enumerate() {
        let part = Part::Easter(index + 1);
        let at = Place { part, ..territory };
        let (year, day, source) = easter_of(at, table_of(at, value)?)?;
        let code = Text::from_str(at.alloc, at.code)?;
        let edit = Edit::AddException {
            code,
            year,
            day,
            source,
        };
        push_edit(edits, part, edit)?;
    }
    Ok(())
}

/// Returns the name of a territory, its opening regime and the source of that.
#[tactic(auto, unfolding(crate::specs::TerritoryText::opening_of))]
fn opening_of(at: Place<'_>, table: &Table) -> Result<(Text, Regime, Option<Source>), TextFault>
    ensures { Gives result (spec.opening_of (place_of at.entry) (table_view table.now)) }
{
    let name = text_at(at, table, Key::Name)?;
    let regime = regime_of(at, table, None)?;
    let source = source_at(at, table)?;
    note_of(at, table)?;
    Ok((Text::from_str(at.alloc, name)?, regime, source))
}

/// Adds the edit that opens a territory.
fn push_opening(
    edits: &mut Vec<Placed>,
    at: Place<'_>,
    name: Text,
    regime: Regime,
    source: Option<Source>,
) -> Result<(), AllocError>
    ensures { OnOk result (edits.new.items ≡ edits.old.items
        ++ (at.entry.part, AddLand at.entry.code.now name regime source) ∷ []) }
{
    let code = Text::from_str(at.alloc, at.code)?;
    let edit = Edit::AddLand {
        code,
        name,
        regime,
        source,
    };
    push_edit(edits, at.part, edit)
}

/// Adds the edits of a territory by its table.
#[tactic(auto, unfolding(crate::specs::TerritoryText::territory_edits))]
pub(crate) fn push_territory(
    edits: &mut Vec<Placed>,
    alloc: Global,
    code: &str,
    value: &Value,
) -> Result<(), TextFault>
    ensures { MatchResult result
        (λ _. onto edits.old.items (spec.territory_edits code.now (view value.now))
        ≡ Ok edits.new.items)
        (λ e. Fails e (onto edits.old.items (spec.territory_edits code.now (view value.now)))) }
{
    let part = Part::Territory;
    let at = Place { alloc, code, part };
    let table = table_of(at, value)?;
    let (name, regime, source) = opening_of(at, table)?;
    push_opening(edits, at, name, regime, source)?;
    push_changes(edits, at, regime, items_at(at, table, Key::Changes)?)?;
    push_easters(edits, at, items_at(at, table, Key::Easters)?)
}
