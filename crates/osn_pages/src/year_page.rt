//! The page of a year as a territory counted it.
ghost use Rattle.std.specs.Prelude.{◌≡◌, ◌++◌, None, IfOk, IfErr, OnOk, string_bytes};
ghost use Rattle.osn_days.specs.Rules.{newest_rules};
ghost use Rattle.osn_register.specs.Plain.{code_refusal, sources_of};
ghost use Rattle.osn_register.specs.Refusal.{IsRefusalOrNoMemory};
ghost use Rattle.osn_pages.specs.Heading.{pending_line};
ghost use Rattle.osn_pages.specs.YearPage as spec;

use crate::figures::push_figures;
use crate::heading::{push_pending, push_territory_heading};
use crate::page::Publication;
use crate::year_changes::push_changes;
use crate::year_days::push_days;
use crate::year_feasts::push_feasts;
use osn_days::Year;
use osn_register::{Refusal, Register};
use osn_territory::Territory;
use std::alloc::{AllocError, Global};
use std::fmt::Write;

/// The room that the text gets at first: that of a year without a change takes some 2,300 bytes.
const ROOM: usize = 4096;

/// Appends the year, the territory and the edition.
#[tactic(auto, unfolding(crate::specs::YearPage::year_heading, crate::specs::Heading::heading))]
fn push_heading(
    out: &mut String,
    year: Year,
    name: &str,
    code: &str,
    edition: usize,
) -> Result<(), AllocError>
    ensures { OnOk result (string_bytes out.new
        ≡ string_bytes out.old ++ spec.year_heading year name.now code.now edition) }
{
    write!(out, "the year {} in ", year.number())?;
    push_territory_heading(out, name, code, edition)
}

/// Appends of which year the figures are.
#[tactic(auto, unfolding(crate::specs::YearPage::figures_heading))]
fn push_figures_heading(out: &mut String, year: Year) -> Result<(), AllocError>
    ensures { OnOk result (string_bytes out.new
        ≡ string_bytes out.old ++ spec.figures_heading year) }
{
    writeln!(out, "of the year {} counted from 1 January:", year.number())
}

/// Appends the lines of a territory's year, its days first.
fn push_year(
    alloc: Global,
    out: &mut String,
    territory: &Territory,
    register: &Register,
    code: &str,
    year: Year,
) -> Result<(), AllocError>
    ensures { OnOk result (string_bytes out.new ≡ string_bytes out.old
        ++ spec.year_lines newest_rules territory.now
        (sources_of code.now register.now.territories) year) }
{
    push_days(alloc, out, territory, year)?;
    push_changes(out, territory, register, code, year)?;
    push_feasts(alloc, out, territory, register, code, year)?;
    push_figures_heading(out, year)?;
    push_figures(alloc, out, year)
}

/// Returns the whole text of a year's page.
fn text_of(
    alloc: Global,
    register: &Register,
    code: &str,
    name: &str,
    territory: &Territory,
    published: Publication,
    year: Year,
) -> Result<String, AllocError>
    ensures { IfOk result (λ s. string_bytes s
        ≡ spec.year_heading year name.now code.now published.edition
        ++ (spec.year_lines newest_rules territory.now
        (sources_of code.now register.now.territories) year ++ pending_line published.pending)) }
{
    let mut text = String::with_capacity(alloc, ROOM)?;
    push_heading(&mut text, year, name, code, published.edition)?;
    push_year(alloc, &mut text, territory, register, code, year)?;
    push_pending(&mut text, published.pending)?;
    Ok(text)
}

/// Returns the page of a year of the territory of that code as it counted the year, by what was
/// published. Its feasts are those that the territory dated in the year, and its figures those of
/// the year from 1 January.
///
/// # Errors
///
/// `BadCode` for a code that no territory can have, then `UnknownLand` if no territory has it.
/// Otherwise `NoMemory` if memory runs out.
pub fn year_page_text(
    alloc: Global,
    register: &Register,
    code: &str,
    published: Publication,
    year: Year,
) -> Result<String, Refusal>
    ensures lawful { OnOk result (code_refusal register.now.territories code.now ≡ None) }
    ensures text { IfOk result (λ s. string_bytes s
        ≡ spec.year_page newest_rules register.now.territories code.now published year) }
    ensures refused { IfErr result
        (IsRefusalOrNoMemory (code_refusal register.now.territories code.now)) }
{
    let (name, territory) = register.territory(code)?;
    Ok(text_of(alloc, register, code, name, territory, published, year)?)
}
