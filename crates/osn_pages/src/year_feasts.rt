//! The feasts that a territory dated in a year, as it counted the year.
ghost use Rattle.std.specs.Prelude.{◌≡◌, ◌++◌, OnOk, string_bytes};
ghost use Rattle.std.specs.List.{flat_map};
ghost use Rattle.osn_days.specs.Rules.{newest_rules};
ghost use Rattle.osn_register.specs.Plain.{sources_of};
ghost use Rattle.osn_pages.specs.YearPage as spec;

use crate::reading::push_day;
use crate::source_line::push_source;
use osn_days::Year;
use osn_register::Register;
use osn_territory::{DatedDay, Territory};
use osn_written::{Feast, FeastDay, feasts_of_year};
use std::alloc::{AllocError, Global};
use std::fmt::Write;

/// Appends the source of a listed Easter, if the feast is Easter.
fn push_feast_source(
    out: &mut String,
    register: &Register,
    code: &str,
    january_year: Year,
    feast: Feast,
) -> Result<(), AllocError>
    ensures { OnOk result (string_bytes out.new
        ≡ string_bytes out.old ++ spec.feast_source
        (sources_of code.now register.now.territories) january_year feast) }
{
    match feast {
        Feast::Easter => push_source(out, register.easter_source(code, january_year)),
        _ => Ok(()),
    }
}

/// Appends the line of a feast, and its source.
#[tactic(auto, unfolding(crate::specs::YearPage::feast_lines))]
fn push_feast_lines(
    out: &mut String,
    register: &Register,
    code: &str,
    feast: &FeastDay,
    dated: DatedDay,
) -> Result<(), AllocError>
    ensures { OnOk result (string_bytes out.new
        ≡ string_bytes out.old
        ++ spec.feast_lines (sources_of code.now register.now.territories) feast.now dated) }
{
    write!(out, "{}: ", feast.feast.name())?;
    push_day(out, dated)?;
    push_feast_source(out, register, code, feast.january_year, feast.feast)
}

/// Appends the lines of these feasts.
fn push_feasts_among(
    out: &mut String,
    territory: &Territory,
    register: &Register,
    code: &str,
    feasts: &[FeastDay],
) -> Result<(), AllocError>
    ensures { OnOk result (string_bytes out.new ≡ string_bytes out.old ++ flat_map
        (spec.feast_text newest_rules territory.now
        (sources_of code.now register.now.territories)) feasts.now) }
{
    for feast in feasts {
        push_feast_lines(out, register, code, feast, territory.dated(feast.day))?;
    }
    Ok(())
}

/// Returns whether the feast is Easter.
fn is_easter(feast: Feast) -> bool
    ensures { result ≡ spec.is_easter feast }
{
    matches!(feast, Feast::Easter)
}

/// Returns whether one of these feasts is Easter.
fn has_easter(feasts: &[FeastDay]) -> bool
    ensures { result ≡ spec.has_easter feasts.now }
{
    feasts.iter().any(|feast| is_easter(feast.feast))
}

/// Appends that no Easter fell in the year, if none of its feasts is one.
fn push_no_easter(out: &mut String, feasts: &[FeastDay]) -> Result<(), AllocError>
    ensures { OnOk result (string_bytes out.new
        ≡ string_bytes out.old ++ spec.no_easter_line feasts.now) }
{
    if has_easter(feasts) {
        return Ok(());
    }
    out.push_str("no Easter fell in that year\n")
}

/// Appends the feasts that the territory dated in the year, in order, or that it had no Easter.
pub(crate) fn push_feasts(
    alloc: Global,
    out: &mut String,
    territory: &Territory,
    register: &Register,
    code: &str,
    year: Year,
) -> Result<(), AllocError>
    ensures { OnOk result (string_bytes out.new ≡ string_bytes out.old
        ++ spec.feasts_text newest_rules territory.now
        (sources_of code.now register.now.territories) year) }
{
    let feasts = feasts_of_year(alloc, territory, year)?;
    push_feasts_among(out, territory, register, code, feasts.as_slice())?;
    push_no_easter(out, feasts.as_slice())
}
