//! The almanac of a territory and year, part by part.
ghost use Rattle.std.specs.Prelude.{◌≡◌, ◌++◌, None, IfOk, IfErr, OnOk, string_bytes};
ghost use Rattle.osn_days.specs.Rules.{newest_rules};
ghost use Rattle.osn_register.specs.Plain.{sources_of};
ghost use Rattle.osn_register.specs.Refusal.{IsRefusalOrNoMemory};
ghost use Rattle.osn_pages.specs.Almanac as spec;

use crate::changes::push_changes;
use crate::easters::push_easters;
use crate::figures::push_figures;
use crate::months::push_months;
use osn_days::Year;
use osn_register::{Refusal, Register};
use osn_territory::Territory;
use std::alloc::{AllocError, Global};
use std::fmt::Write;

/// The room that the text gets at first: that of a year with one Easter takes some 1,000 bytes.
const ROOM: usize = 2048;

/// Appends the heading.
#[tactic(auto, unfolding(crate::specs::Almanac::heading))]
fn push_heading(out: &mut String, name: &str, code: &str, year: Year) -> Result<(), AllocError>
    ensures { OnOk result (string_bytes out.new
        ≡ string_bytes out.old ++ spec.heading name.now code.now year) }
{
    writeln!(out, "Almanac of {} ({}) for {}", name, code, year.number())
}

/// Appends the lines of a territory's year, below the heading.
fn push_year(
    alloc: Global,
    out: &mut String,
    territory: &Territory,
    register: &Register,
    code: &str,
    year: Year,
) -> Result<(), AllocError>
    ensures { OnOk result (string_bytes out.new ≡ string_bytes out.old
        ++ spec.year_lines newest_rules territory.now
        (sources_of code.now register.now.territories) year) }
{
    push_figures(alloc, out, year)?;
    push_changes(out, territory, register, code, year)?;
    push_easters(out, territory, register, code, year)?;
    push_months(alloc, out, territory, year)
}

/// Returns the whole text of an almanac.
fn text_of(
    alloc: Global,
    register: &Register,
    code: &str,
    name: &str,
    territory: &Territory,
    year: Year,
) -> Result<String, AllocError>
    ensures { IfOk result (λ s. string_bytes s ≡ spec.heading name.now code.now year
        ++ spec.year_lines newest_rules territory.now (sources_of code.now register.now.territories)
        year) }
{
    let mut text = String::with_capacity(alloc, ROOM)?;
    push_heading(&mut text, name, code, year)?;
    push_year(alloc, &mut text, territory, register, code, year)?;
    Ok(text)
}

/// Returns the almanac of a territory and a year from 1 to 9999. It has the figures of the year,
/// the changes in it, its feasts and the first days of its months. The figures, the Easters and the
/// heading count the year from 1 January, and the months count it as the territory does.
///
/// # Errors
///
/// Those of a query of the territory's Easters, in their order: `BadCode`, `UnknownLand`,
/// `YearOffRange`. Otherwise `NoMemory` if memory runs out.
#[tactic(auto, unfolding(crate::specs::Almanac::almanac))]
pub fn almanac_text(
    alloc: Global,
    register: &Register,
    code: &str,
    year: i64,
) -> Result<String, Refusal>
    ensures lawful { OnOk result
        (spec.almanac_refusal newest_rules register.now.territories code.now year ≡ None) }
    ensures text { IfOk result
        (λ s. string_bytes s ≡ spec.almanac newest_rules register.now.territories code.now year) }
    ensures refused { IfErr result (IsRefusalOrNoMemory
        (spec.almanac_refusal newest_rules register.now.territories code.now year)) }
{
    let (name, territory) = register.territory(code)?;
    let Some(year) = Year::new(year) else {
        return Err(Refusal::YearOffRange);
    };
    Ok(text_of(alloc, register, code, name, territory, year)?)
}
