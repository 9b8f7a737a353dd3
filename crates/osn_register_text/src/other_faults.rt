//! The faults of the territories of a text other than the first one that has a fault.
ghost use Rattle.std.specs.Prelude.{◌≡◌, ◌++◌, [], ◌∷◌, Ok, IfOk, OnOk, MatchResult};
ghost use Rattle.toml.specs.Parse.{parse_document};
ghost use Rattle.toml.specs.View.{table_view, view};
ghost use Rattle.osn_register_text.specs.FurtherFaults as spec;
ghost use Rattle.osn_register_text.specs.Inside.{Fails};
ghost use Rattle.osn_register_text.specs.Text.{member_edits};

use crate::fault::{KeyFault, TextFault};
use crate::parse::{push_member, register_of};
use crate::territory_text::Placed;
use crate::toml_fault::toml_fault;
use osn_register::{Limits, Register};
use std::alloc::{AllocError, Global};
use toml::{Table, Value};

/// Returns the edits of one territory.
fn edits_alone(alloc: Global, code: &str, value: &Value) -> Result<Vec<Placed>, TextFault>
    ensures { MatchResult result
        (λ edits. member_edits code.now (view value.now) ≡ Ok edits.items)
        (λ e. Fails e (member_edits code.now (view value.now))) }
{
    let mut edits = Vec::new(alloc);
    push_member(&mut edits, alloc, code, value)?;
    Ok(edits)
}

/// Returns the register of one territory alone.
fn register_alone(
    alloc: Global,
    limits: Limits,
    code: &str,
    value: &Value,
) -> Result<Register, TextFault>
    ensures { MatchResult result
        (λ register. spec.alone limits code.now (view value.now) ≡ Ok register.territories)
        (λ e. Fails e (spec.alone limits code.now (view value.now))) }
{
    let edits = edits_alone(alloc, code, value)?;
    register_of(alloc, limits, &edits)
}

/// Adds a fault.
fn push_fault(faults: &mut Vec<KeyFault>, fault: KeyFault) -> Result<(), AllocError>
    ensures { OnOk result (faults.new.items ≡ faults.old.items ++ fault ∷ []) }
{
    faults.push(fault)?;
    Ok(())
}

/// Adds the fault of a territory alone, if it has one.
fn push_fault_alone(
    faults: &mut Vec<KeyFault>,
    alloc: Global,
    limits: Limits,
    code: &str,
    value: &Value,
) -> Result<(), TextFault>
    ensures { OnOk result (faults.new.items ≡ faults.old.items
        ++ spec.fault_in (spec.alone limits code.now (view value.now))) }
{
    match register_alone(alloc, limits, code, value) {
        Ok(_) => Ok(()),
        Err(TextFault::Key(fault)) => Ok(push_fault(faults, fault)?),
        Err(other) => Err(other),
    }
}

/// Adds the fault of a territory alone, if it has one and has another code than `code`.
fn push_fault_of_other(
    faults: &mut Vec<KeyFault>,
    alloc: Global,
    limits: Limits,
    code: &str,
    other: &str,
    value: &Value,
) -> Result<(), TextFault>
    ensures { OnOk result (faults.new.items ≡ faults.old.items
        ++ spec.fault_of_other limits code.now other.now (view value.now)) }
{
    if other == code {
        return Ok(());
    }
    push_fault_alone(faults, alloc, limits, other, value)
}

/// Returns the faults of the territories of a table that have another code.
fn faults_of_others(
    alloc: Global,
    limits: Limits,
    code: &str,
    table: &Table,
) -> Result<Vec<KeyFault>, TextFault>
    ensures { IfOk result (λ faults.
        faults.items ≡ spec.faults_of_others limits code.now (table_view table.now)) }
{
    let mut faults = Vec::new(alloc);
    for (other, value) in table.iter() {
        push_fault_of_other(&mut faults, alloc, limits, code, other.as_str(), value)?;
    }
    Ok(faults)
}

/// Returns the faults of the territories of a text that have another code than `code`, in the order
/// of their codes: for each territory that is wrong by itself, the first thing that is wrong in its
/// table, or what a register that has no territory yet refuses of it.
///
/// # Errors
///
/// Returns `Toml` if the text is not TOML, and `NoMemory` if memory runs out.
pub fn further_faults(
    alloc: Global,
    limits: Limits,
    text: &str,
    code: &str,
) -> Result<Vec<KeyFault>, TextFault>
    ensures { IfOk result (λ faults.
        faults.items ≡ spec.further_faults limits code.now (parse_document text.now)) }
{
    match toml::table_from_str(alloc, text) {
        Ok(table) => faults_of_others(alloc, limits, code, &table),
        Err(error) => Err(toml_fault(alloc, text, &error)),
    }
}
