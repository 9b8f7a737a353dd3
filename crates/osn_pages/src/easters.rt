//! The Easters of the year, with their source, and the feasts that are counted from them.
ghost use Rattle.std.specs.Prelude.{◌≡◌, ◌++◌, OnOk, string_bytes};
ghost use Rattle.std.specs.List.{flat_map};
ghost use Rattle.osn_days.specs.Rules.{newest_rules};
ghost use Rattle.osn_register.specs.Plain.{sources_of};
ghost use Rattle.osn_pages.specs.Almanac as spec;

use crate::columns::{push_absent, push_day};
use crate::source_line::push_source;
use osn_days::{Day, Year};
use osn_register::Register;
use osn_territory::Territory;
use osn_written::{Feast, PRINCIPAL_FEASTS};
use std::alloc::AllocError;
use std::fmt::Write;

/// Returns the line that says whether the territory had an Easter in the year, and by what.
fn easter_heading(territory: &Territory, year: Year, easters: &[Day]) -> &'static str
    ensures { result.now ≡ spec.easter_heading territory.now year easters.now }
{
    if territory.exception(year).is_some() {
        "Easter listed\n"
    } else if easters.is_empty() {
        "Easter never\n"
    } else {
        "Easter by rule\n"
    }
}

/// Appends the line of a day that has a name, as the territory dates it.
#[tactic(auto, unfolding(crate::specs::Almanac::dated_line))]
fn push_dated(
    out: &mut String,
    territory: &Territory,
    name: &str,
    day: Day,
) -> Result<(), AllocError>
    ensures { OnOk result (string_bytes out.new
        ≡ string_bytes out.old ++ spec.dated_line newest_rules territory.now name.now day) }
{
    push_day(out, name, day)?;
    writeln!(out, "{}", territory.dated(day))
}

/// Appends the line of a feast of a year with that Easter.
fn push_feast(
    out: &mut String,
    territory: &Territory,
    easter: Day,
    feast: Feast,
) -> Result<(), AllocError>
    ensures { OnOk result (string_bytes out.new
        ≡ string_bytes out.old ++ spec.feast_line newest_rules territory.now easter feast) }
{
    match feast.day(easter) {
        Some(day) => push_dated(out, territory, feast.name(), day),
        None => push_absent(out, feast.name(), "off the line"),
    }
}

/// Appends the lines of feasts of a year with that Easter.
fn push_feasts(
    out: &mut String,
    territory: &Territory,
    easter: Day,
    feasts: &[Feast],
) -> Result<(), AllocError>
    ensures { OnOk result (string_bytes out.new ≡ string_bytes out.old
        ++ flat_map (spec.feast_line newest_rules territory.now easter) feasts.now) }
{
    for feast in feasts {
        push_feast(out, territory, easter, *feast)?;
    }
    Ok(())
}

/// Appends the feasts of each Easter.
fn push_feasts_of(
    out: &mut String,
    territory: &Territory,
    easters: &[Day],
) -> Result<(), AllocError>
    ensures { OnOk result (string_bytes out.new ≡ string_bytes out.old
        ++ flat_map (spec.feast_lines newest_rules territory.now) easters.now) }
{
    for easter in easters {
        push_feasts(out, territory, *easter, &PRINCIPAL_FEASTS)?;
    }
    Ok(())
}

/// Appends the line on the Easters of the year, that of their source, and their feasts.
pub(crate) fn push_easters(
    out: &mut String,
    territory: &Territory,
    register: &Register,
    code: &str,
    year: Year,
) -> Result<(), AllocError>
    ensures { OnOk result (string_bytes out.new ≡ string_bytes out.old
        ++ spec.easters_text newest_rules territory.now
        (sources_of code.now register.now.territories) year) }
{
    let easters = territory.easters(year)?;
    out.push_str(easter_heading(territory, year, easters.as_slice()))?;
    push_source(out, register.easter_source(code, year))?;
    push_feasts_of(out, territory, easters.as_slice())
}
