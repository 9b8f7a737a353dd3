//! The notes on an edit that an editor may not have meant.
ghost use Rattle.std.specs.Prelude.{◌≡◌, ◌++◌, OnOk, string_bytes};
ghost use Rattle.osn_days.specs.Rules.{newest_rules};
ghost use Rattle.osn_pages.specs.Words.{weekday_words};
ghost use Rattle.osn_register_text.specs.Remark as spec;

use crate::edit_day::day_numbered;
use crate::part::is_other_regime;
use osn_days::{Calendar, Day, date_of};
use osn_territory::Regime;
use std::alloc::AllocError;
use std::fmt::Write;

/// Appends a note if a change changes nothing.
#[tactic(auto, unfolding(crate::specs::Remark::same_regime_note))]
pub(crate) fn push_same_regime(
    out: &mut String,
    code: &str,
    before: Option<Regime>,
    regime: Regime,
) -> Result<(), AllocError>
    ensures { OnOk result (string_bytes out.new
        ≡ string_bytes out.old ++ spec.same_regime_note code.now before regime) }
{
    if is_other_regime(before, regime) {
        return Ok(());
    }
    writeln!(
        out,
        "note: {code}: nothing changes on that day: write the new calendar, style or rule"
    )
}

/// Appends a note if the weekday of an Easter is not Sunday.
#[tactic(auto, unfolding(crate::specs::Remark::weekday_note))]
fn push_weekday(out: &mut String, code: &str, day: Day) -> Result<(), AllocError>
    ensures { OnOk result (string_bytes out.new
        ≡ string_bytes out.old ++ spec.weekday_note code.now (weekday_words day)) }
{
    let weekday = day.weekday().name();
    if weekday == "Sunday" {
        return Ok(());
    }
    writeln!(
        out,
        "note: {code}: Easter is a Sunday, and that day is a {weekday}"
    )
}

/// Returns whether a calendar dates the day from 21 March to 26 April of the year.
fn is_in_spring(calendar: Calendar, year: i64, day: Day) -> bool
    ensures { result ≡ spec.is_in_spring calendar year day }
{
    let date = date_of(calendar, day);
    i64::from(date.year) == year
        && ((date.month == 3 && date.day >= 21) || (date.month == 4 && date.day <= 26))
}

/// Appends the note on an Easter of a year that is not in the weeks in which Easter can be.
#[tactic(auto, unfolding(crate::specs::Remark::season_text))]
fn push_season_text(out: &mut String, code: &str, year: i64) -> Result<(), AllocError>
    ensures { OnOk result (string_bytes out.new
        ≡ string_bytes out.old ++ spec.season_text code.now year) }
{
    write!(
        out,
        "note: {code}: that day is not from 21 March to 26 April {year}, Julian or Gregorian\n"
    )
}

/// Appends the note on an Easter that is not in the weeks in which Easter can be, if the day is
/// not.
fn push_season(out: &mut String, code: &str, year: i64, day: Day) -> Result<(), AllocError>
    ensures { OnOk result (string_bytes out.new
        ≡ string_bytes out.old ++ spec.season_note code.now year day) }
{
    if is_in_spring(Calendar::Julian, year, day) || is_in_spring(Calendar::Gregorian, year, day) {
        return Ok(());
    }
    push_season_text(out, code, year)
}

/// Appends the notes on a listed Easter, if the line has its day.
pub(crate) fn push_easter_notes(
    out: &mut String,
    code: &str,
    year: i64,
    number: i64,
) -> Result<(), AllocError>
    ensures { OnOk result (string_bytes out.new ≡ string_bytes out.old
        ++ spec.easter_notes newest_rules code.now year number) }
{
    let Some(day) = day_numbered(number) else {
        return Ok(());
    };
    push_weekday(out, code, day)?;
    push_season(out, code, year, day)
}
