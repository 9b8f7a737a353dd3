//! How a territory reckons, in words: the parts of a regime, and those that differ from before.
ghost use Rattle.std.specs.Prelude.{◌≡◌, ◌++◌, IfOk, OnOk, string_bytes};
ghost use Rattle.std.specs.List.{flat_map};
ghost use Rattle.osn_register_text.specs.Part as spec;

use osn_computus::Rule;
use osn_days::{Calendar, Keyword};
use osn_territory::{Regime, Style};
use std::alloc::{AllocError, Global};
use std::fmt;
use std::fmt::Write;

/// A part of a regime.
#[derive(Clone, Copy)]
pub(crate) enum Part {
    /// The calendar, such as `julian calendar`.
    Calendar(Calendar),
    /// The beginning of the years, such as `years from 25 March`.
    Beginning(Style),
    /// The rule of Easter, such as `julian rule`.
    Easter(Rule),
}

impl fmt::Display for Part {
    ghost use Rattle.std.specs.Prelude.{Some};
    ghost use Rattle.osn_register_text.specs.Part.{part_words};

    ghost output = { λ x. Some (part_words x) };

    #[tactic(auto, unfolding(crate::specs::Part::part_words))]
    fn fmt<W: fmt::Write>(&self, f: &mut fmt::Formatter<W>) -> fmt::Result {
        match self {
            Part::Calendar(calendar) => write!(f, "{} calendar", calendar.word()),
            Part::Beginning(style) => f.write_str(style.beginning_of_year()),
            Part::Easter(rule) => write!(f, "{} rule", rule.word()),
        }
    }
}

/// Returns whether a regime has the part too.
fn is_part_of(regime: Regime, part: Part) -> bool
    ensures { result ≡ spec.is_part_of regime part }
{
    match part {
        Part::Calendar(calendar) => calendar.word() == regime.calendar.word(),
        Part::Beginning(style) => style.word() == regime.style.word(),
        Part::Easter(rule) => rule.word() == regime.rule.word(),
    }
}

/// Returns whether the part differs from the regime before, or there was no regime before.
fn is_other(before: Option<Regime>, part: Part) -> bool
    ensures { result ≡ spec.is_other before part }
{
    match before {
        Some(regime) => !is_part_of(regime, part),
        None => true,
    }
}

/// Returns whether a part of a regime differs from before.
pub(crate) fn is_other_regime(before: Option<Regime>, regime: Regime) -> bool
    ensures { result ≡ spec.is_other_regime before regime }
{
    is_other(before, Part::Calendar(regime.calendar))
        || is_other(before, Part::Beginning(regime.style))
        || is_other(before, Part::Easter(regime.rule))
}

/// Returns the parts of a regime that differ from before.
fn other_parts(
    alloc: Global,
    before: Option<Regime>,
    regime: Regime,
) -> Result<Vec<Part>, AllocError>
    ensures { IfOk result (λ parts. parts.items ≡ spec.other_parts before regime) }
{
    let parts = [
        Part::Calendar(regime.calendar),
        Part::Beginning(regime.style),
        Part::Easter(regime.rule),
    ];
    parts
        .iter()
        .copied()
        .filter(|part| is_other(before, *part))
        .collect(alloc)
}

/// Appends another part, after a comma.
#[tactic(auto, unfolding(crate::specs::Part::further_part))]
fn push_further_part(out: &mut String, part: Part) -> Result<(), AllocError>
    ensures { OnOk result (string_bytes out.new
        ≡ string_bytes out.old ++ spec.further_part part) }
{
    write!(out, ", {part}")
}

/// Appends more parts, each after a comma.
fn push_further_parts(out: &mut String, parts: &[Part]) -> Result<(), AllocError>
    ensures { OnOk result (string_bytes out.new
        ≡ string_bytes out.old ++ flat_map spec.further_part parts.now) }
{
    for part in parts {
        push_further_part(out, *part)?;
    }
    Ok(())
}

/// Appends parts with commas between them.
fn push_list(out: &mut String, parts: &[Part]) -> Result<(), AllocError>
    ensures { OnOk result (string_bytes out.new
        ≡ string_bytes out.old ++ spec.part_list parts.now) }
{
    match parts {
        [] => out.push_str("the same regime"),
        [first, further @ ..] => {
            write!(out, "{}", *first)?;
            push_further_parts(out, further)
        }
    }
}

/// Returns the words of what differs from before.
pub(crate) fn regime_words(
    alloc: Global,
    before: Option<Regime>,
    regime: Regime,
) -> Result<String, AllocError>
    ensures { IfOk result (λ words. string_bytes words ≡ spec.regime_words before regime) }
{
    let parts = other_parts(alloc, before, regime)?;
    let mut words = String::new(alloc);
    push_list(&mut words, parts.as_slice())?;
    Ok(words)
}
