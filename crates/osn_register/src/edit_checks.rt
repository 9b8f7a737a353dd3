//! Why an edit of a territory is refused by what the territory holds.
ghost use Rattle.std.specs.Prelude.{◌≡◌, nat_lt, nat_le, length, [], ◌∷◌};
ghost use Rattle.osn_days.specs.Rules.{newest_rules};
ghost use Rattle.osn_register.specs.declared.refusal.Refusal.TheVariants.{StyleNeedsJulian};
ghost use Rattle.osn_register.specs.Refusal.{IsCheckOf, first_refusal};
ghost use Rattle.osn_register.specs.Plain.{add_change_refusal, alter_change_refusal};
ghost use Rattle.osn_register.specs.Plain.{drop_change_refusal, add_exception_refusal};
ghost use Rattle.osn_register.specs.Plain.{drop_exception_refusal, is_style_refused};

use crate::limits::Limits;
use crate::numbers::{day_on_line, year_in_range};
use crate::refusal::Refusal;
use osn_days::Day;
use osn_territory::{Regime, Territory};

fn has_all_changes(limits: Limits, territory: &Territory) -> bool
    ensures { result ≡ nat_lt limits.changes (length territory.now.starts) }
{
    territory.periods().len() > limits.changes as usize
}

fn has_all_exceptions(limits: Limits, territory: &Territory) -> bool
    ensures { result ≡ nat_le limits.exceptions (length territory.now.exceptions) }
{
    territory.exception_count() >= limits.exceptions as usize
}

/// Checks whether a regime has the calendar and the rule that its style requires.
pub(crate) fn check_style(regime: Regime) -> Result<(), Refusal>
    ensures { IsCheckOf
        (first_refusal ((is_style_refused newest_rules regime, StyleNeedsJulian) ∷ [])) result }
{
    if regime.lacks_julian() {
        return Err(Refusal::StyleNeedsJulian);
    }
    Ok(())
}

pub(crate) fn check_add_change(
    limits: Limits,
    territory: &Territory,
    day: i64,
    regime: Regime,
) -> Result<(), Refusal>
    ensures { IsCheckOf (add_change_refusal newest_rules limits day regime territory.now) result }
{
    let day = day_on_line(day)?;
    if day == Day::FIRST {
        return Err(Refusal::OpeningPeriod);
    }
    if territory.starts_on(day) {
        return Err(Refusal::ChangeExists);
    }
    check_style(regime)?;
    if has_all_changes(limits, territory) {
        return Err(Refusal::TooManyChanges);
    }
    Ok(())
}

pub(crate) fn check_alter_change(
    territory: &Territory,
    day: i64,
    regime: Regime,
) -> Result<(), Refusal>
    ensures { IsCheckOf (alter_change_refusal newest_rules day regime territory.now) result }
{
    let day = day_on_line(day)?;
    if !territory.starts_on(day) {
        return Err(Refusal::NoSuchChange);
    }
    check_style(regime)
}

pub(crate) fn check_drop_change(territory: &Territory, day: i64) -> Result<(), Refusal>
    ensures { IsCheckOf (drop_change_refusal newest_rules day territory.now) result }
{
    let day = day_on_line(day)?;
    if day == Day::FIRST {
        return Err(Refusal::OpeningPeriod);
    }
    if !territory.starts_on(day) {
        return Err(Refusal::NoSuchChange);
    }
    Ok(())
}

pub(crate) fn check_add_exception(
    limits: Limits,
    territory: &Territory,
    year: i64,
    day: i64,
) -> Result<(), Refusal>
    ensures { IsCheckOf (add_exception_refusal newest_rules limits year day territory.now) result }
{
    let _day = day_on_line(day)?;
    let year = year_in_range(year)?;
    if territory.exception(year).is_some() {
        return Err(Refusal::ExceptionExists);
    }
    if has_all_exceptions(limits, territory) {
        return Err(Refusal::TooManyExceptions);
    }
    Ok(())
}

pub(crate) fn check_drop_exception(territory: &Territory, year: i64) -> Result<(), Refusal>
    ensures { IsCheckOf (drop_exception_refusal newest_rules year territory.now) result }
{
    let year = year_in_range(year)?;
    if territory.exception(year).is_none() {
        return Err(Refusal::NoSuchException);
    }
    Ok(())
}
