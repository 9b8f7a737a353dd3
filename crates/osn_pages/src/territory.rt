//! The lines of a territory: its periods and its listed Easters, with their sources.
ghost use Rattle.std.specs.Prelude.{◌≡◌, ◌++◌, OnOk, string_bytes};
ghost use Rattle.std.specs.List.{flat_map};
ghost use Rattle.osn_days.specs.Rules.{newest_rules};
ghost use Rattle.osn_pages.specs.Periods.{period_lines};
ghost use Rattle.osn_pages.specs.Territory as spec;

use crate::periods::push_period;
use crate::source_line::push_source;
use crate::territory_sources::TerritorySources;
use crate::words::NumberedDay;
use osn_days::{Day, Year};
use osn_territory::{Period, Territory};
use std::alloc::AllocError;
use std::fmt::Write;

/// Appends the lines of these periods.
fn push_periods(
    out: &mut String,
    sources: &TerritorySources<'_>,
    periods: &[Period],
) -> Result<(), AllocError>
    ensures { OnOk result (string_bytes out.new
        ≡ string_bytes out.old ++ flat_map (period_lines newest_rules sources.now) periods.now) }
{
    for period in periods {
        push_period(out, sources, period)?;
    }
    Ok(())
}

/// Appends the line of a year with a listed Easter.
#[tactic(auto, unfolding(crate::specs::Territory::easter_line))]
fn push_easter_line(
    out: &mut String,
    territory: &Territory,
    year: Year,
    day: Day,
) -> Result<(), AllocError>
    ensures { OnOk result (string_bytes out.new
        ≡ string_bytes out.old ++ spec.easter_line newest_rules territory.now (year, day)) }
{
    let easter = NumberedDay(territory.dated(day));
    writeln!(out, "listed Easter of {}: {}", year.number(), easter)
}

/// Appends the line of a listed Easter, and that of its source.
#[tactic(auto, unfolding(crate::specs::Territory::easter_lines))]
fn push_easter(
    out: &mut String,
    territory: &Territory,
    sources: &TerritorySources<'_>,
    year: Year,
    day: Day,
) -> Result<(), AllocError>
    ensures { OnOk result (string_bytes out.new ≡ string_bytes out.old
        ++ spec.easter_lines newest_rules territory.now sources.now (year, day)) }
{
    push_easter_line(out, territory, year, day)?;
    push_source(out, sources.of_easter(year))
}

/// Appends the lines of the listed Easters.
fn push_easters(
    out: &mut String,
    territory: &Territory,
    sources: &TerritorySources<'_>,
) -> Result<(), AllocError>
    ensures { OnOk result (string_bytes out.new ≡ string_bytes out.old ++ flat_map
        (spec.easter_lines newest_rules territory.now sources.now) territory.now.exceptions) }
{
    for (year, day) in territory.exceptions() {
        push_easter(out, territory, sources, *year, *day)?;
    }
    Ok(())
}

/// Appends the periods in order, and the listed Easters in the order of their years.
#[tactic(auto, unfolding(crate::specs::Territory::territory_lines))]
pub(crate) fn push_territory(
    out: &mut String,
    territory: &Territory,
    sources: &TerritorySources<'_>,
) -> Result<(), AllocError>
    ensures { OnOk result (string_bytes out.new
        ≡ string_bytes out.old ++ spec.territory_lines newest_rules territory.now sources.now) }
{
    push_periods(out, sources, territory.periods())?;
    push_easters(out, territory, sources)
}
