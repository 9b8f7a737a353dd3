//! A territory in the present register and in the target one, and its sources in both.
ghost use Rattle.std.specs.Prelude.{◌≡◌, IfOk, option_map};
ghost use Rattle.osn_register_text.specs.CitedSources.{same_source};

use osn_days::{Day, Year};
use osn_register::{Register, Source, Text};
use std::alloc::{AllocError, Global};

/// The code of a territory, with the present register and the target one.
#[derive(Clone, Copy)]
pub(crate) struct TerritoryPair<'a> {
    pub(crate) alloc: Global,
    pub(crate) code: &'a str,
    pub(crate) register: &'a Register,
    pub(crate) target: &'a Register,
}

/// Returns whether two sources are equal, or neither is given.
fn are_same(one: Option<&Source>, other: Option<&Source>) -> bool
    ensures { result ≡ same_source (option_map (λ s. s.now) one.entry)
        (option_map (λ s. s.now) other.entry) }
{
    match (one, other) {
        (Some(one), Some(other)) => one.as_str() == other.as_str(),
        (None, None) => true,
        _ => false,
    }
}

/// Returns a source equal to this one, if one is given.
fn copy_of(source: Option<&Source>) -> Result<Option<Source>, AllocError>
    ensures { IfOk result (λ s. s ≡ option_map (λ s. s.now) source.entry) }
{
    match source {
        Some(source) => Ok(Some(source.copy()?)),
        None => Ok(None),
    }
}

impl TerritoryPair<'_> {
    ghost use Rattle.osn_register.specs.Answer as spec;
    ghost use Rattle.osn_register_text.specs.CitedSources.{same_period, same_easter};
    ghost use Rattle.osn_register_text.specs.PlanInside.{sources_at};

    /// Returns a copy of the code.
    pub(crate) fn code_text(self) -> Result<Text, AllocError>
        ensures { IfOk result (λ text. text ≡ self.entry.code.now) }
    {
        Text::from_str(self.alloc, self.code)
    }

    /// Returns the target source of the period that starts on a day.
    pub(crate) fn period_source(self, day: Day) -> Result<Option<Source>, AllocError>
        ensures { IfOk result (λ s. s ≡ spec.period_source (sources_at self.entry).target day) }
    {
        copy_of(self.target.period_source(self.code, day))
    }

    /// Returns the target source of the Easter that is listed for a year.
    pub(crate) fn easter_source(self, year: Year) -> Result<Option<Source>, AllocError>
        ensures { IfOk result (λ s. s ≡ spec.easter_source (sources_at self.entry).target year) }
    {
        copy_of(self.target.easter_source(self.code, year))
    }

    /// Returns whether the period that starts on a day has the target source.
    pub(crate) fn has_period_source(self, day: Day) -> bool
        ensures { result ≡ same_period (sources_at self.entry) day }
    {
        are_same(
            self.register.period_source(self.code, day),
            self.target.period_source(self.code, day),
        )
    }

    /// Returns whether the Easter that is listed for a year has the target source.
    pub(crate) fn has_easter_source(self, year: Year) -> bool
        ensures { result ≡ same_easter (sources_at self.entry) year }
    {
        are_same(
            self.register.easter_source(self.code, year),
            self.target.easter_source(self.code, year),
        )
    }
}
