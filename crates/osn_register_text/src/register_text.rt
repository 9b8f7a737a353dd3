//! The text of a register.
ghost use Rattle.std.specs.Prelude.{◌≡◌, ◌++◌, codes, IfOk, OnOk, string_bytes};
ghost use Rattle.osn_days.specs.Rules.{newest_rules};
ghost use Rattle.osn_register.specs.Plain.{entry_of, sources_of};
ghost use Rattle.osn_register_text.specs.Says.{SaysTerritory, SaysRegister};
ghost use Rattle.osn_register_text.specs.WrittenText as spec;

use crate::territory::push_territory;
use osn_register::Register;
use osn_territory::Territory;
use std::alloc::{AllocError, Global};
use std::fmt::Write;

/// The room that the text gets at first: that of sixteen territories with two changes each, and no
/// sources.
const ROOM: usize = 4096;

/// Appends the line of the edition of which a text is made.
#[tactic(auto, unfolding(crate::specs::WrittenText::edition_line))]
fn push_edition(out: &mut String, edition: usize) -> Result<(), AllocError>
    ensures { OnOk result (string_bytes out.new
        ≡ string_bytes out.old ++ spec.edition_line edition) }
{
    writeln!(out, "edition = {edition}")
}

/// Appends a territory, after an empty line.
fn push_next_territory(
    out: &mut String,
    register: &Register,
    code: &str,
    name: &str,
    territory: &Territory,
) -> Result<(), AllocError>
    ensures { OnOk result (string_bytes out.new ≡ string_bytes out.old ++ (codes "\n"
        ++ spec.territory_text newest_rules code.now name.now territory.now
        (sources_of code.now register.now.territories))) }
{
    out.push_str("\n")?;
    push_territory(out, register, code, name, territory)
}

/// Returns the text of a register that is made of this edition, with its territories in the order
/// in which they were added. A change is dated by the calendar that it brings, a listed Easter by
/// the one in force on its day.
///
/// # Errors
///
/// Returns `AllocError` if memory runs out.
pub fn write_text(alloc: Global, edition: usize, register: &Register) -> Result<String, AllocError>
    ensures text { IfOk result (λ s. string_bytes s
        ≡ spec.register_text newest_rules edition register.now.territories) }
    // as a law: the text is read as the register's territories with their sources, of the edition
    ensures reads_back { IfOk result (λ s.
        SaysRegister register.now (string_bytes s) edition register.now.territories) }
{
    let mut text = String::with_capacity(alloc, ROOM)?;
    push_edition(&mut text, edition)?;
    'each: for index in 0..register.limits().lands as usize {
        let Some((code, name, territory)) = register.territory_at(index) else {
            break;
        };
        push_next_territory(&mut text, register, code, name, territory)?;
    }
    Ok(text)
}

/// The room that the text of a territory gets at first: one with two changes takes some 250 bytes.
const TERRITORY_ROOM: usize = 256;

/// Appends the territory of a code, if a territory has it.
fn push_of_code(out: &mut String, register: &Register, code: &str) -> Result<(), AllocError>
    ensures { OnOk result (string_bytes out.new ≡ string_bytes out.old
        ++ spec.territories_text newest_rules
        (spec.if_there (entry_of code.now register.now.territories))) }
{
    match register.find_territory(code) {
        Some((name, territory)) => push_next_territory(out, register, code, name, territory),
        None => Ok(()),
    }
}

/// Returns the text of the territory that a register has of a code, which is made of this edition,
/// or a text without territories if it has none. A change is dated by the calendar that it brings,
/// a listed Easter by the one in force on its day.
///
/// # Errors
///
/// Returns `AllocError` if memory runs out.
#[tactic(auto, unfolding(crate::specs::WrittenText::register_text))]
pub fn write_territory(
    alloc: Global,
    edition: usize,
    register: &Register,
    code: &str,
) -> Result<String, AllocError>
    ensures text { IfOk result (λ s. string_bytes s
        ≡ spec.text_of_code newest_rules edition code.now register.now.territories) }
    // as a law: the text is read as that territory with its sources, of the edition
    ensures reads_back { IfOk result (λ s.
        SaysTerritory register.now (string_bytes s) edition code.now) }
{
    let mut text = String::with_capacity(alloc, TERRITORY_ROOM)?;
    push_edition(&mut text, edition)?;
    push_of_code(&mut text, register, code)?;
    Ok(text)
}
