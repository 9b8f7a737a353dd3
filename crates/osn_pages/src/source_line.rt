//! The line that cites a source.
ghost use Rattle.std.specs.Prelude.{◌≡◌, ◌++◌, OnOk, option_map, string_bytes};
ghost use Rattle.osn_pages.specs.SourceLine as spec;

use osn_register::Source;
use std::alloc::AllocError;
use std::fmt::Write;

/// Appends the line of a source.
#[tactic(auto, unfolding(crate::specs::SourceLine::source_line))]
fn push_source_line(out: &mut String, source: &Source) -> Result<(), AllocError>
    ensures { OnOk result (string_bytes out.new
        ≡ string_bytes out.old ++ spec.source_line source.now) }
{
    writeln!(out, "(source: {})", source.as_str())
}

/// Appends the line of a source, if one is given.
///
/// # Errors
///
/// If memory runs out, and in no other case.
pub fn push_source(out: &mut String, source: Option<&Source>) -> Result<(), AllocError>
    ensures { OnOk result (string_bytes out.new ≡ string_bytes out.old
        ++ spec.source_text (option_map (λ s. s.now) source.entry)) }
{
    match source {
        Some(source) => push_source_line(out, source),
        None => Ok(()),
    }
}
