//! The sources of a territory: those of its periods and those of its listed Easters.
ghost use Rattle.std.specs.Prelude.{◌≡◌, ◌<◌, Some, IfOk, OnOk, option_map, vec_len};
ghost use Rattle.std.specs.Prelude.{vec_capacity};
ghost use Rattle.osn_register.specs.Inside.{sources_in};
ghost use Rattle.osn_register.specs.Sources as spec;

use crate::source::Source;
use std::alloc::{AllocError, Global};

/// The sources of a territory. That of a period is found by the day on which the period starts,
/// that of a listed Easter by its year.
#[derive(Drop)]
pub(crate) struct Sources {
    pub(crate) periods: Vec<(u32, Source)>,
    pub(crate) easters: Vec<(u32, Source)>,
}

impl Sources {
    /// Returns the sources of a new territory: that of its opening period.
    pub(crate) fn of_opening(alloc: Global, source: &Option<Source>) -> Result<Sources, AllocError>
        ensures value { IfOk result (λ s. sources_in s ≡ spec.opening_sources source.now) }
        ensures allowed { OnOk result (spec.IsGiven source.now) }
    {
        let mut periods = Vec::new(alloc);
        if let Some(source) = Source::copy_if_given(source)? {
            periods.push((1, source))?;
        }
        Ok(Sources {
            periods,
            easters: Vec::new(alloc),
        })
    }

    pub(crate) fn copy(&self, alloc: Global) -> Result<Sources, AllocError>
        ensures { IfOk result (λ s. sources_in s ≡ sources_in self.now) }
    {
        Ok(Sources {
            periods: copy_sources(alloc, &self.periods)?,
            easters: copy_sources(alloc, &self.easters)?,
        })
    }
}

/// Returns a list of sources that is equal to this one.
fn copy_sources(alloc: Global, sources: &[(u32, Source)]) -> Result<Vec<(u32, Source)>, AllocError>
    ensures { IfOk result (λ v. v.items ≡ sources.now) }
{
    let mut copied = Vec::with_capacity(alloc, sources.len())?;
    for entry in sources {
        copied.push((entry.0, entry.1.copy()?))?;
    }
    Ok(copied)
}

/// Returns the source of a number, if one is given.
pub(crate) fn source_of(sources: &[(u32, Source)], number: u32) -> Option<&Source>
    ensures { option_map (λ s. s.now) result ≡ spec.source_of number sources.now }
{
    for entry in sources {
        if entry.0 == number {
            return Some(&entry.1);
        }
    }
    None
}

/// Takes away the source of a number.
pub(crate) fn remove(sources: &mut Vec<(u32, Source)>, number: u32)
    ensures value { sources.new.items ≡ spec.without_source number sources.old.items }
    ensures room { vec_len sources.old < vec_capacity sources.old
        → vec_len sources.new < vec_capacity sources.new }
{
    sources.retain(|entry| entry.0 != number);
}

/// Gives a number this source. There is room for one more.
pub(crate) fn insert_source(sources: &mut Vec<(u32, Source)>, number: u32, source: Source)
    requires { vec_len sources.old < vec_capacity sources.old }
    ensures { sources.new.items ≡ spec.with_source number (Some source) sources.old.items }
{
    remove(sources, number);
    sources.push_reserved((number, source));
}
