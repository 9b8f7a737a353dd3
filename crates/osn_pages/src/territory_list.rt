//! The page of all territories.
ghost use Rattle.std.specs.Prelude.{◌≡◌, ◌++◌, IfOk, OnOk, string_bytes};
ghost use Rattle.std.specs.List.{flat_map};
ghost use Rattle.osn_pages.specs.Territory as spec;

use crate::heading::push_pending;
use crate::page::Publication;
use osn_register::{Land, Register};
use std::alloc::{AllocError, Global};
use std::fmt::Write;

/// The room that the text gets at first: that of a page with ten territories takes some 230 bytes.
const ROOM: usize = 256;

/// Appends the heading.
#[tactic(auto, unfolding(crate::specs::Territory::list_heading))]
fn push_list_heading(out: &mut String, edition: usize) -> Result<(), AllocError>
    ensures { OnOk result (string_bytes out.new
        ≡ string_bytes out.old ++ spec.list_heading edition) }
{
    writeln!(out, "Territories, edition {}", edition)
}

/// Appends the line of a territory.
#[tactic(auto, unfolding(crate::specs::Territory::list_line))]
fn push_list_line(out: &mut String, territory: &Land) -> Result<(), AllocError>
    ensures { OnOk result (string_bytes out.new
        ≡ string_bytes out.old ++ spec.list_line territory.now) }
{
    writeln!(
        out,
        "{} ({})",
        territory.name.as_str(),
        territory.code.as_str()
    )
}

/// Appends the lines of these territories.
fn push_territories(out: &mut String, territories: &[Land]) -> Result<(), AllocError>
    ensures { OnOk result (string_bytes out.new
        ≡ string_bytes out.old ++ flat_map spec.list_line territories.now) }
{
    for territory in territories {
        push_list_line(out, territory)?;
    }
    Ok(())
}

/// Returns the page of all territories, by name and code in the order of addition.
///
/// # Errors
///
/// If memory runs out, and in no other case.
#[tactic(auto, unfolding(crate::specs::Territory::territories_page))]
pub fn territories_page(
    alloc: Global,
    register: &Register,
    published: Publication,
) -> Result<String, AllocError>
    ensures { IfOk result (λ s. string_bytes s ≡ spec.territories_page register.now.territories
        published.edition published.pending) }
{
    let mut text = String::with_capacity(alloc, ROOM)?;
    let territories = register.list_territories()?;
    push_list_heading(&mut text, published.edition)?;
    push_territories(&mut text, territories.as_slice())?;
    push_pending(&mut text, published.pending)?;
    Ok(text)
}
