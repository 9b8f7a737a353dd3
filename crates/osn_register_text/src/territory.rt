//! The text of a territory.
ghost use Rattle.std.specs.Prelude.{◌≡◌, ◌++◌, OnOk, string_bytes};
ghost use Rattle.std.specs.List.{flat_map};
ghost use Rattle.osn_days.specs.Rules.{newest_rules};
ghost use Rattle.osn_territory.specs.Territory.{periods_of};
ghost use Rattle.osn_register.specs.Plain.{sources_of};
ghost use Rattle.osn_register_text.specs.WrittenText as spec;

use crate::changes::push_changes;
use crate::date_table::DateTable;
use crate::source_line::push_source;
use crate::toml_string::TomlString;
use crate::word_line::push_word;
use osn_days::{Day, Keyword, Year};
use osn_register::Register;
use osn_territory::{Regime, Territory};
use std::alloc::AllocError;
use std::fmt::Write;

/// Appends the header of a territory and its name.
#[tactic(auto, unfolding(crate::specs::WrittenText::name_text))]
fn push_name(out: &mut String, code: &str, name: &str) -> Result<(), AllocError>
    ensures { OnOk result (string_bytes out.new
        ≡ string_bytes out.old ++ spec.name_text code.now name.now) }
{
    writeln!(out, "[{code}]\nname = {}", TomlString(name))
}

/// Appends the lines of a regime.
#[tactic(auto, unfolding(crate::specs::WrittenText::regime_text))]
fn push_regime(out: &mut String, regime: Regime) -> Result<(), AllocError>
    ensures { OnOk result (string_bytes out.new
        ≡ string_bytes out.old ++ spec.regime_text regime) }
{
    push_word(out, "calendar", regime.calendar.word())?;
    push_word(out, "style", regime.style.word())?;
    push_word(out, "rule", regime.rule.word())
}

/// Appends the name, the regime at first with its source, and the changes.
#[tactic(auto, unfolding(crate::specs::WrittenText::periods_text))]
fn push_periods(
    out: &mut String,
    register: &Register,
    code: &str,
    name: &str,
    territory: &Territory,
) -> Result<(), AllocError>
    ensures { OnOk result (string_bytes out.new ≡ string_bytes out.old
        ++ spec.periods_text code.now name.now (sources_of code.now register.now.territories)
        (periods_of newest_rules territory.now)) }
{
    let periods = territory.periods();
    let opening = periods[0];
    push_name(out, code, name)?;
    push_regime(out, opening.regime)?;
    push_source(out, register.period_source(code, opening.first))?;
    push_changes(out, register, code, opening.regime, &periods[1..])
}

/// Appends a year with its listed Easter.
#[tactic(auto, unfolding(crate::specs::WrittenText::listing_text))]
fn push_listing(
    out: &mut String,
    code: &str,
    territory: &Territory,
    year: Year,
    day: Day,
) -> Result<(), AllocError>
    ensures { OnOk result (string_bytes out.new
        ≡ string_bytes out.old ++ spec.listing_text code.now territory.now (year, day)) }
{
    let date = DateTable {
        calendar: territory.regime_at(day).calendar,
        day,
    };
    writeln!(
        out,
        "\n[[{code}.easters]]\nyear = {}\ndate = {date}",
        year.number()
    )
}

/// Appends a year with its listed Easter and the source of that.
#[tactic(auto, unfolding(crate::specs::WrittenText::easter_text))]
fn push_easter(
    out: &mut String,
    register: &Register,
    code: &str,
    territory: &Territory,
    year: Year,
    day: Day,
) -> Result<(), AllocError>
    ensures { OnOk result (string_bytes out.new ≡ string_bytes out.old
        ++ spec.easter_text code.now territory.now (sources_of code.now register.now.territories)
        (year, day)) }
{
    push_listing(out, code, territory, year, day)?;
    push_source(out, register.easter_source(code, year))
}

/// Appends the listed Easters, by their years.
fn push_easters(
    out: &mut String,
    register: &Register,
    code: &str,
    territory: &Territory,
) -> Result<(), AllocError>
    ensures { OnOk result (string_bytes out.new ≡ string_bytes out.old
        ++ flat_map
        (spec.easter_text code.now territory.now (sources_of code.now register.now.territories))
        territory.now.exceptions) }
{
    for (year, day) in territory.exceptions() {
        push_easter(out, register, code, territory, *year, *day)?;
    }
    Ok(())
}

/// Appends a territory, with the sources that the register has of it.
#[tactic(auto, unfolding(crate::specs::WrittenText::territory_text))]
pub(crate) fn push_territory(
    out: &mut String,
    register: &Register,
    code: &str,
    name: &str,
    territory: &Territory,
) -> Result<(), AllocError>
    ensures { OnOk result (string_bytes out.new ≡ string_bytes out.old
        ++ spec.territory_text newest_rules code.now name.now territory.now
        (sources_of code.now register.now.territories)) }
{
    push_periods(out, register, code, name, territory)?;
    push_easters(out, register, code, territory)
}
