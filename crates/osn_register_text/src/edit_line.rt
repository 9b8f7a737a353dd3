//! The line of an edit that changes a register towards a target one.
ghost use Rattle.std.specs.Prelude.{◌≡◌, ◌++◌, OnOk, string_bytes};
ghost use Rattle.osn_days.specs.Rules.{newest_rules};
ghost use Rattle.osn_register_text.specs.EditLine as spec;
ghost use Rattle.osn_register_text.specs.EditDay.{day_words};

use crate::change_days::push_followed;
use crate::edit_day::{EditDay, dated_in, opening_regime, regime_before, territory_of};
use crate::line::{
    push_change, push_drop, push_easter, push_no_easter, push_opening, push_territory,
};
use crate::part::regime_words;
use crate::remark::{push_easter_notes, push_same_regime};
use crate::source_words::{push_source_words, source_before};
use osn_register::{Edit, Register};
use osn_territory::Regime;
use std::alloc::{AllocError, Global};

/// Returns the day of a number, as the territory of a code dates it.
fn day_in(register: &Register, code: &str, number: i64) -> EditDay
    ensures { day_words result.dated result.number
        ≡ spec.day_in newest_rules register.now.territories code.now number }
{
    EditDay {
        dated: dated_in(territory_of(register, code), number),
        number,
    }
}

/// Appends that a territory is added.
fn push_new_territory(
    alloc: Global,
    out: &mut String,
    code: &str,
    name: &str,
    regime: Regime,
) -> Result<(), AllocError>
    ensures { OnOk result (string_bytes out.new ≡ string_bytes out.old
        ++ spec.new_territory code.now name.now regime) }
{
    let words = regime_words(alloc, None, regime)?;
    push_territory(out, code, name, words.as_str())
}

/// Appends that a regime holds from a day on.
fn push_new_change(
    alloc: Global,
    out: &mut String,
    target: &Register,
    code: &str,
    day: i64,
    regime: Regime,
) -> Result<(), AllocError>
    ensures { OnOk result (string_bytes out.new ≡ string_bytes out.old
        ++ spec.new_change newest_rules target.now.territories code.now day regime) }
{
    let before = regime_before(territory_of(target, code), day);
    let words = regime_words(alloc, before, regime)?;
    push_change(out, code, day_in(target, code, day), words.as_str())
}

/// Appends that the opening regime is another.
fn push_new_opening(
    alloc: Global,
    out: &mut String,
    register: &Register,
    code: &str,
    regime: Regime,
) -> Result<(), AllocError>
    ensures { OnOk result (string_bytes out.new ≡ string_bytes out.old
        ++ spec.new_opening register.now.territories code.now regime) }
{
    let before = opening_regime(territory_of(register, code));
    let words = regime_words(alloc, before, regime)?;
    push_opening(out, code, words.as_str())
}

/// Appends that another regime holds from the start of a period on. The opening one has no day.
fn push_other_regime(
    alloc: Global,
    out: &mut String,
    register: &Register,
    target: &Register,
    code: &str,
    day: i64,
    regime: Regime,
) -> Result<(), AllocError>
    ensures { OnOk result (string_bytes out.new ≡ string_bytes out.old
        ++ spec.other_regime newest_rules register.now.territories target.now.territories
        code.now day regime) }
{
    if day == 1 {
        return push_new_opening(alloc, out, register, code, regime);
    }
    push_new_change(alloc, out, target, code, day, regime)
}

/// Appends what an edit changes.
#[tactic(auto, unfolding(crate::specs::EditLine::edit_words))]
fn push_edit_words(
    alloc: Global,
    out: &mut String,
    register: &Register,
    target: &Register,
    edit: &Edit,
) -> Result<(), AllocError>
    ensures { OnOk result (string_bytes out.new ≡ string_bytes out.old
        ++ spec.edit_words newest_rules register.now.territories target.now.territories edit.now) }
{
    match edit {
        Edit::AddLand {
            code,
            name,
            regime,
            ..
        } => push_new_territory(alloc, out, code.as_str(), name.as_str(), *regime),
        Edit::AddChange {
            code,
            day,
            regime,
            ..
        } => push_new_change(alloc, out, target, code.as_str(), *day, *regime),
        Edit::AlterChange {
            code,
            day,
            regime,
            ..
        } => push_other_regime(alloc, out, register, target, code.as_str(), *day, *regime),
        Edit::DropChange { code, day } => {
            push_drop(out, code.as_str(), day_in(register, code.as_str(), *day))
        }
        Edit::AddException {
            code,
            year,
            day,
            ..
        } => {
            push_easter(
                out,
                code.as_str(),
                *year,
                day_in(target, code.as_str(), *day),
            )
        }
        Edit::DropException { code, year } => push_no_easter(out, code.as_str(), *year),
    }
}

/// Appends what an editor is shown of a change of regime.
fn push_change_remarks(
    out: &mut String,
    target: &Register,
    code: &str,
    day: i64,
    regime: Regime,
) -> Result<(), AllocError>
    ensures { OnOk result (string_bytes out.new ≡ string_bytes out.old
        ++ spec.change_remarks newest_rules target.now.territories code.now day regime) }
{
    let territory = territory_of(target, code);
    push_followed(out, code, territory, day)?;
    push_same_regime(out, code, regime_before(territory, day), regime)
}

/// Appends what an editor is shown of an edit, in lines of their own.
#[tactic(auto, unfolding(crate::specs::EditLine::remarks))]
fn push_remarks(out: &mut String, target: &Register, edit: &Edit) -> Result<(), AllocError>
    ensures { OnOk result (string_bytes out.new
        ≡ string_bytes out.old ++ spec.remarks newest_rules target.now.territories edit.now) }
{
    match edit {
        Edit::AddChange {
            code,
            day,
            regime,
            ..
        }
        | Edit::AlterChange {
            code,
            day,
            regime,
            ..
        } => push_change_remarks(out, target, code.as_str(), *day, *regime),
        Edit::DropChange { code, day } => {
            push_followed(
                out,
                code.as_str(),
                territory_of(target, code.as_str()),
                *day,
            )
        }
        Edit::AddException {
            code,
            year,
            day,
            ..
        } => push_easter_notes(out, code.as_str(), *year, *day),
        Edit::AddLand { .. } | Edit::DropException { .. } => Ok(()),
    }
}

/// Appends the line of an edit: what it changes, and what it says of the source. Then what an
/// editor is shown of it.
#[tactic(auto, unfolding(crate::specs::EditLine::edit_line))]
pub(crate) fn push_edit(
    alloc: Global,
    out: &mut String,
    register: &Register,
    target: &Register,
    edit: &Edit,
) -> Result<(), AllocError>
    ensures { OnOk result (string_bytes out.new ≡ string_bytes out.old
        ++ spec.edit_line newest_rules register.now.territories target.now.territories edit.now) }
{
    push_edit_words(alloc, out, register, target, edit)?;
    push_source_words(out, edit.source(), source_before(register, edit))?;
    out.push_str("\n")?;
    push_remarks(out, target, edit)
}
