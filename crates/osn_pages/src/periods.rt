//! The periods of a territory, a line each, and the sources of those that have one.
ghost use Rattle.std.specs.Prelude.{◌≡◌, ◌++◌, OnOk, string_bytes};
ghost use Rattle.osn_days.specs.Rules.{newest_rules};
ghost use Rattle.osn_pages.specs.Periods as spec;

use crate::source_line::push_source;
use crate::territory_sources::TerritorySources;
use crate::words::NumberedDay;
use osn_days::{Day, Keyword};
use osn_territory::{Period, dated_day};
use std::alloc::AllocError;
use std::fmt::Write;

/// Returns whether the period ends with the line.
#[tactic(auto, unfolding(crate::specs::Periods::ends_line))]
fn ends_line(period: &Period) -> bool
    ensures { result ≡ spec.ends_line newest_rules period.now }
{
    period.last == Day::LAST
}

/// Appends the days of a period: from which day and until which one, or `always`.
#[tactic(auto, unfolding(crate::specs::Periods::span))]
fn push_span(out: &mut String, period: &Period) -> Result<(), AllocError>
    ensures { OnOk result (string_bytes out.new
        ≡ string_bytes out.old ++ spec.span newest_rules period.now) }
{
    let first = NumberedDay(dated_day(period.regime, period.first));
    let last = NumberedDay(dated_day(period.regime, period.last));
    match (period.first == Day::FIRST, ends_line(period)) {
        (true, true) => out.push_str("always"),
        (true, false) => write!(out, "until {}", last),
        (false, true) => write!(out, "from {}", first),
        (false, false) => write!(out, "from {} until {}", first, last),
    }
}

/// Appends the line of a period.
#[tactic(auto, unfolding(crate::specs::Periods::period_line))]
fn push_period_line(out: &mut String, period: &Period) -> Result<(), AllocError>
    ensures { OnOk result (string_bytes out.new
        ≡ string_bytes out.old ++ spec.period_line newest_rules period.now) }
{
    push_span(out, period)?;
    let regime = period.regime;
    writeln!(
        out,
        ": {} calendar, {} style ({}), {} rule",
        regime.calendar.word(),
        regime.style.word(),
        regime.style.beginning_of_year(),
        regime.rule.word()
    )
}

/// Appends the line of a period, and that of its source.
#[tactic(auto, unfolding(crate::specs::Periods::period_lines))]
pub(crate) fn push_period(
    out: &mut String,
    sources: &TerritorySources<'_>,
    period: &Period,
) -> Result<(), AllocError>
    ensures { OnOk result (string_bytes out.new
        ≡ string_bytes out.old ++ spec.period_lines newest_rules sources.now period.now) }
{
    push_period_line(out, period)?;
    push_source(out, sources.of_period(period.first))
}
