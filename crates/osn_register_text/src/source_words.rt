//! What the line of an edit says of the source of what it changes.
ghost use Rattle.std.specs.Prelude.{◌≡◌, ◌++◌, OnOk, option_map, string_bytes};
ghost use Rattle.osn_days.specs.Rules.{newest_rules};
ghost use Rattle.osn_register_text.specs.SourceWords as spec;

use crate::edit_day::day_numbered;
use osn_register::{Edit, Register, Source};
use std::alloc::AllocError;
use std::fmt::Write;

/// Returns the source of the period of a territory that starts on the day of a number, if there is
/// one.
fn source_on<'a>(register: &'a Register, code: &str, number: i64) -> Option<&'a Source>
    ensures { option_map (λ s. s.now) result
        ≡ spec.source_on newest_rules register.now.territories code.now number }
{
    match day_numbered(number) {
        Some(day) => register.period_source(code, day),
        None => None,
    }
}

/// Returns the present source of what an edit alters.
pub(crate) fn source_before<'a>(register: &'a Register, edit: &Edit) -> Option<&'a Source>
    ensures { option_map (λ s. s.now) result
        ≡ spec.source_before newest_rules register.now.territories edit.now }
{
    match edit {
        Edit::AlterChange { code, day, .. } => source_on(register, code.as_str(), *day),
        _ => None,
    }
}

/// Appends a source.
#[tactic(auto, unfolding(crate::specs::SourceWords::source_part))]
fn push_source_part(out: &mut String, source: &Source) -> Result<(), AllocError>
    ensures { OnOk result (string_bytes out.new
        ≡ string_bytes out.old ++ spec.source_part source.now) }
{
    write!(out, "; source: {}", source.as_str())
}

/// Appends the source that is given, or that there is no source any more.
pub(crate) fn push_source_words(
    out: &mut String,
    source: Option<&Source>,
    before: Option<&Source>,
) -> Result<(), AllocError>
    ensures { OnOk result (string_bytes out.new ≡ string_bytes out.old ++ spec.source_words
        (option_map (λ s. s.now) source.entry) (option_map (λ s. s.now) before.entry)) }
{
    match (source, before) {
        (Some(source), _) => push_source_part(out, source),
        (None, Some(_)) => out.push_str("; source removed"),
        (None, None) => Ok(()),
    }
}
