//! The changes of a territory.
ghost use Rattle.std.specs.Prelude.{◌≡◌, ◌++◌, OnOk, string_bytes};
ghost use Rattle.osn_register.specs.Plain.{sources_of};
ghost use Rattle.osn_register_text.specs.WrittenText as spec;

use crate::date_table::DateTable;
use crate::source_line::push_source;
use crate::word_line::push_changed;
use osn_days::Keyword;
use osn_register::Register;
use osn_territory::{Period, Regime};
use std::alloc::AllocError;
use std::fmt::Write;

/// Appends what differs in a regime from the one before it.
#[tactic(auto, unfolding(crate::specs::WrittenText::changed_lines))]
fn push_changed_lines(out: &mut String, before: Regime, regime: Regime) -> Result<(), AllocError>
    ensures { OnOk result (string_bytes out.new
        ≡ string_bytes out.old ++ spec.changed_lines before regime) }
{
    push_changed(
        out,
        "calendar",
        before.calendar.word(),
        regime.calendar.word(),
    )?;
    push_changed(out, "style", before.style.word(), regime.style.word())?;
    push_changed(out, "rule", before.rule.word(), regime.rule.word())
}

/// Appends the header of a change and its date.
#[tactic(auto, unfolding(crate::specs::WrittenText::beginning_text))]
fn push_beginning(out: &mut String, code: &str, period: &Period) -> Result<(), AllocError>
    ensures { OnOk result (string_bytes out.new
        ≡ string_bytes out.old ++ spec.beginning_text code.now period.now) }
{
    let date = DateTable {
        calendar: period.regime.calendar,
        day: period.first,
    };
    writeln!(out, "\n[[{code}.changes]]\nfrom = {date}")
}

/// Appends the change with which a period begins.
#[tactic(auto, unfolding(crate::specs::WrittenText::change_text))]
fn push_change(
    out: &mut String,
    register: &Register,
    code: &str,
    before: Regime,
    period: &Period,
) -> Result<(), AllocError>
    ensures { OnOk result (string_bytes out.new ≡ string_bytes out.old
        ++ spec.change_text code.now (sources_of code.now register.now.territories) before
        period.now) }
{
    push_beginning(out, code, period)?;
    push_changed_lines(out, before, period.regime)?;
    push_source(out, register.period_source(code, period.first))
}

/// Appends the changes with which these periods begin, after one of that regime.
pub(crate) fn push_changes(
    out: &mut String,
    register: &Register,
    code: &str,
    opening: Regime,
    periods: &[Period],
) -> Result<(), AllocError>
    ensures { OnOk result (string_bytes out.new ≡ string_bytes out.old
        ++ spec.changes_text code.now (sources_of code.now register.now.territories) opening
        periods.now) }
{
    let mut before = opening;
    for period in periods {
        push_change(out, register, code, before, period)?;
        before = period.regime;
    }
    Ok(())
}
