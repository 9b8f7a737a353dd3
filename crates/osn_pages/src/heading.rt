//! The first line of a page, and its last one if edits are not published yet.
ghost use Rattle.std.specs.Prelude.{◌≡◌, ◌++◌, OnOk, string_bytes};
ghost use Rattle.osn_pages.specs.Heading as spec;

use std::alloc::AllocError;
use std::fmt::Write;

/// Appends the territory, by its name and code, and the edition.
///
/// # Errors
///
/// If memory runs out, and in no other case.
#[tactic(auto, unfolding(crate::specs::Heading::territory_heading))]
pub fn push_territory_heading(
    out: &mut String,
    name: &str,
    code: &str,
    edition: usize,
) -> Result<(), AllocError>
    ensures { OnOk result (string_bytes out.new
        ≡ string_bytes out.old ++ spec.territory_heading name.now code.now edition) }
{
    writeln!(out, "{} ({}), edition {}", name, code, edition)
}

/// Appends how many edits are not published yet, if any.
///
/// # Errors
///
/// If memory runs out, and in no other case.
#[tactic(auto, unfolding(crate::specs::Heading::pending_line))]
pub fn push_pending(out: &mut String, count: usize) -> Result<(), AllocError>
    ensures { OnOk result (string_bytes out.new
        ≡ string_bytes out.old ++ spec.pending_line count) }
{
    match count {
        0 => Ok(()),
        1 => out.push_str("1 edit is not published yet\n"),
        _ => writeln!(out, "{} edits are not published yet", count),
    }
}
