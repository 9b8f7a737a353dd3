//! A line that gives a source.
ghost use Rattle.std.specs.Prelude.{◌≡◌, ◌++◌, OnOk, option_map, string_bytes};
ghost use Rattle.osn_register_text.specs.WrittenText as spec;

use crate::toml_string::TomlString;
use osn_register::Source;
use std::alloc::AllocError;
use std::fmt::Write;

/// Appends the line of a source, if one is given.
#[tactic(auto, unfolding(crate::specs::WrittenText::source_line))]
pub(crate) fn push_source(out: &mut String, source: Option<&Source>) -> Result<(), AllocError>
    ensures { OnOk result (string_bytes out.new ≡ string_bytes out.old
        ++ spec.source_line (option_map (λ s. s.now) source.entry)) }
{
    match source {
        Some(source) => writeln!(out, "source = {}", TomlString(source.as_str())),
        None => Ok(()),
    }
}
