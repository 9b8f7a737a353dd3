//! The register that a text of territories says.
ghost use Rattle.std.specs.Prelude.{◌≡◌, [], Some, Ok, IfOk, IfErr, MatchResult, option_map};
ghost use Rattle.std.specs.Prelude.{option_and_then};
ghost use Rattle.toml.specs.Data.{as_integer, get_member};
ghost use Rattle.toml.specs.View.{table_view, view};
ghost use Rattle.osn_days.specs.Rules.{newest_rules};
ghost use Rattle.osn_register.specs.Plain.{refusal};
ghost use Rattle.osn_register_text.specs.Inside.{Fails, Gives, onto};
ghost use Rattle.osn_register_text.specs.Text as spec;

use crate::fault::{Reason, TextFault};
use crate::key::Part;
use crate::place::Place;
use crate::territory_text::{Placed, push_territory};
use crate::toml_fault::toml_fault;
use osn_register::{Edit, Limits, Register, Text};
use std::alloc::Global;
use toml::{Table, Value};

/// The key of the edition that a text was made of.
const EDITION: &str = "edition";

/// What a text says.
#[derive(Drop)]
pub struct RegisterText {
    /// The number of the edition that it was made of, if it names one. 0 is before the first.
    pub edition: Option<u64>,
    /// Its territories.
    pub register: Register,
}

/// Returns the number of an edition, if this number is one.
fn edition_number(number: i64) -> Option<u64>
    ensures { result ≡ spec.edition_number number }
{
    if number < 0 {
        return None;
    }
    Some(number.unsigned_abs())
}

/// Returns the value at the key of the edition.
fn edition_value(table: &Table) -> Option<&Value>
    ensures { option_map (λ v. view v.now) result
        ≡ get_member spec.edition_key (table_view table.now) }
{
    table.get(EDITION)
}

/// Returns the number of an edition, if the value is one.
fn edition_in(value: &Value) -> Option<u64>
    ensures { result ≡ option_and_then spec.edition_number (as_integer (view value.now)) }
{
    edition_number(value.as_integer()?)
}

/// Returns the edition that a text was made of, if it names one.
fn edition_of(alloc: Global, table: &Table) -> Result<Option<u64>, TextFault>
    ensures { Gives result (spec.text_edition (table_view table.now)) }
{
    let Some(value) = edition_value(table) else {
        return Ok(None);
    };
    match edition_in(value) {
        Some(edition) => Ok(Some(edition)),
        None => {
            let (code, part) = (EDITION, Part::Territory);
            Err(Place { alloc, code, part }.fault(Reason::NotEdition))
        }
    }
}

/// Adds the edits of the value at a key of a text: no edits for the key of the edition.
pub(crate) fn push_member(
    edits: &mut Vec<Placed>,
    alloc: Global,
    code: &str,
    value: &Value,
) -> Result<(), TextFault>
    ensures { MatchResult result
        (λ _. onto edits.old.items (spec.member_edits code.now (view value.now))
        ≡ Ok edits.new.items)
        (λ e. Fails e (onto edits.old.items (spec.member_edits code.now (view value.now)))) }
{
    if code == EDITION {
        return Ok(());
    }
    push_territory(edits, alloc, code, value)
}

/// Returns the edits of a text's territories, in the order of their codes.
fn edits_of(alloc: Global, table: &Table) -> Result<Vec<Placed>, TextFault>
    ensures { MatchResult result
        (λ edits. spec.text_edits (table_view table.now) ≡ Ok edits.items)
        (λ e. Fails e (spec.text_edits (table_view table.now))) }
{
    let mut edits = Vec::new(alloc);
    for (code, value) in table.iter() {
        push_member(&mut edits, alloc, code.as_str(), value)?;
    }
    Ok(edits)
}

/// Applies an edit to the register, or refuses it at its place.
fn apply(alloc: Global, register: &mut Register, part: Part, edit: &Edit) -> Result<(), TextFault>
    ensures limits { register.new.limits ≡ register.old.limits }
    ensures territories { MatchResult result
        (λ _. spec.territories_after (part, edit.now) register.old.territories
        (refusal newest_rules register.old.limits register.old.territories edit.now)
        ≡ Ok register.new.territories)
        (λ e. Fails e (spec.territories_after (part, edit.now) register.old.territories
        (refusal newest_rules register.old.limits register.old.territories edit.now))) }
{
    match register.check(edit) {
        Ok(()) => Ok(register.admit(edit)?),
        Err(refusal) => {
            let code = edit.code().as_str();
            Err(Place { alloc, code, part }.fault(Reason::Refused(refusal)))
        }
    }
}

/// Returns the register after edits in turn, from the empty one.
pub(crate) fn register_of(
    alloc: Global,
    limits: Limits,
    edits: &[Placed],
) -> Result<Register, TextFault>
    ensures limits { IfOk result (λ r. r.limits ≡ limits) }
    ensures territories { MatchResult result
        (λ r. spec.territories_after_all limits [] edits.now ≡ Ok r.territories)
        (λ e. Fails e (spec.territories_after_all limits [] edits.now)) }
{
    let mut register = Register::new(alloc, limits);
    for (part, edit) in edits {
        apply(alloc, &mut register, *part, edit)?;
    }
    Ok(register)
}

/// Returns what the table of a text says, under limits.
#[tactic(auto, unfolding(crate::specs::Text::text_says))]
fn text_of_table(alloc: Global, limits: Limits, table: &Table) -> Result<RegisterText, TextFault>
    ensures limits { IfOk result (λ said. said.register.limits ≡ limits) }
    ensures said { MatchResult result
        (λ said. spec.text_says limits (table_view table.now)
        ≡ Ok (said.edition, said.register.territories))
        (λ e. Fails e (spec.text_says limits (table_view table.now))) }
{
    let edition = edition_of(alloc, table)?;
    let edits = edits_of(alloc, table)?;
    let register = register_of(alloc, limits, &edits)?;
    Ok(RegisterText { edition, register })
}

/// Reads a text of territories, under limits.
///
/// # Errors
///
/// Returns `Toml` if the text is not TOML, and `NoMemory` if memory runs out. Returns `Key` if the
/// text doesn't describe territories: for a wrong edition, otherwise for the first wrong table in
/// order, and if all tables are right for the first refusal of the register.
pub fn parse_text(alloc: Global, limits: Limits, text: &str) -> Result<RegisterText, TextFault>
    ensures ok { IfOk result (λ said. spec.text_of_table limits text.now
        ≡ Some (Ok (said.edition, said.register.territories))) }
    ensures limits { IfOk result (λ said. said.register.limits ≡ limits) }
    ensures err { IfErr result (spec.IsFaultOf (spec.text_of_table limits text.now)) }
{
    let table = match toml::table_from_str(alloc, text) {
        Ok(table) => table,
        Err(error) => return Err(toml_fault(alloc, text, &error)),
    };
    text_of_table(alloc, limits, &table)
}
