//! The text of a plan.
ghost use Rattle.std.specs.Prelude.{◌≡◌, ◌++◌, IfOk, OnOk, string_bytes};
ghost use Rattle.std.specs.List.{flat_map};
ghost use Rattle.osn_days.specs.Rules.{newest_rules};
ghost use Rattle.osn_register_text.specs.EditLine.{edit_line};
ghost use Rattle.osn_register_text.specs.PlanPage as spec;

use crate::edit_line::push_edit;
use osn_register::{Edit, Register};
use std::alloc::{AllocError, Global};
use std::fmt::Write;

/// Appends the lines of these edits.
fn push_edits(
    alloc: Global,
    out: &mut String,
    register: &Register,
    target: &Register,
    edits: &[Edit],
) -> Result<(), AllocError>
    ensures { OnOk result (string_bytes out.new ≡ string_bytes out.old
        ++ flat_map (edit_line newest_rules register.now.territories target.now.territories)
        edits.now) }
{
    for edit in edits {
        push_edit(alloc, out, register, target, edit)?;
    }
    Ok(())
}

/// Appends a blank and the code of a territory, if a target register lacks it.
#[tactic(auto, unfolding(crate::specs::PlanPage::absent_code))]
fn push_absent_code(out: &mut String, target: &Register, code: &str) -> Result<(), AllocError>
    ensures { OnOk result (string_bytes out.new
        ≡ string_bytes out.old ++ spec.absent_code target.now.territories code.now) }
{
    if target.find_territory(code).is_some() {
        return Ok(());
    }
    write!(out, " {code}")
}

/// Appends the codes of the territories that a target register lacks.
fn push_absent_codes(
    out: &mut String,
    register: &Register,
    target: &Register,
) -> Result<(), AllocError>
    ensures { OnOk result (string_bytes out.new ≡ string_bytes out.old
        ++ spec.absent_codes target.now.territories register.now.territories) }
{
    for index in 0..register.limits().lands as usize {
        let Some((code, _, _)) = register.territory_at(index) else {
            return Ok(());
        };
        push_absent_code(out, target, code)?;
    }
    Ok(())
}

/// Appends the line of territories that a target register lacks, unless there are none.
#[tactic(auto, unfolding(crate::specs::PlanPage::absent_line))]
fn push_absent_line(out: &mut String, codes: &str) -> Result<(), AllocError>
    ensures { OnOk result
        (string_bytes out.new ≡ string_bytes out.old ++ spec.absent_line codes.now) }
{
    if codes.is_empty() {
        return Ok(());
    }
    writeln!(out, "not in the text, so unchanged:{codes}")
}

/// Returns the text of edits that change a register towards a target one. Each edit is a line, in
/// their order; then there is one line with the territories that the target register lacks, if it
/// lacks any. If there are neither, the text is empty.
///
/// # Errors
///
/// Returns `AllocError` if memory runs out.
pub fn plan_page(
    alloc: Global,
    register: &Register,
    target: &Register,
    edits: &[Edit],
) -> Result<String, AllocError>
    ensures { IfOk result (λ s. string_bytes s
        ≡ spec.plan_page newest_rules register.now.territories target.now.territories edits.now) }
{
    let mut text = String::new(alloc);
    push_edits(alloc, &mut text, register, target, edits)?;
    let mut absent = String::new(alloc);
    push_absent_codes(&mut absent, register, target)?;
    push_absent_line(&mut text, absent.as_str())?;
    Ok(text)
}
