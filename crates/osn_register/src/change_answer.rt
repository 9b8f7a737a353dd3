//! The changes of a territory, with the days about each.
ghost use Rattle.std.specs.Prelude.{◌≡◌, ◌<◌, ◌-◌, ◌++◌, Some, IfOk, OnOk};
ghost use Rattle.std.specs.List.{flat_map};
ghost use Rattle.std.specs.Option.{option_to_list};
ghost use Rattle.osn_days.specs.Rules.{newest_rules};
ghost use Rattle.osn_register.specs.Answer as spec;
ghost use Rattle.osn_register.specs.Inside.{sources_in};

use crate::answer::{Answer, FoundChange};
use crate::sources::{Sources, source_of};
use crate::territory_answer::{copy_source, found_on};
use osn_days::{Day, date_of, day_of};
use osn_territory::{Period, Territory};
use osn_written::Listing;
use std::alloc::{AllocError, Global};

/// Returns how many days the later day is after the other one, or 0 if it is not after it.
fn days_after(later: Day, other: Day) -> u32
    ensures { result ≡ later - other }
{
    if other < later {
        later.number() - other.number()
    } else {
        0
    }
}

/// Returns how many dates a change leaves out, if this day has, by the calendar before, the date of
/// its first day.
fn left_out(same: Option<Day>, first: Day) -> Option<u32>
    ensures { result ≡ spec.left_out (option_to_list same) first }
{
    match same {
        Some(same) => Some(days_after(same, first)),
        None => None,
    }
}

/// Returns how many dates come twice, if this day has, by the calendar before, the date of the
/// first day.
fn twice(same: Option<Day>, first: Day) -> Option<u32>
    ensures { result ≡ spec.twice (option_to_list same) first }
{
    match same {
        Some(same) => Some(days_after(first, same)),
        None => None,
    }
}

/// Returns the change on a day.
fn found_change(
    alloc: Global,
    territory: &Territory,
    sources: &Sources,
    before: Day,
    first: Day,
) -> Result<FoundChange, AllocError>
    requires { before ≡ first - 1 }
    ensures { IfOk result (λ c. c ≡ spec.change_on newest_rules territory.now
        (Some (sources_in sources.now)) first) }
{
    let regime_before = territory.regime_at(before);
    let regime = territory.regime_at(first);
    let same = day_of(regime_before.calendar, date_of(regime.calendar, first));
    Ok(FoundChange {
        before: found_on(alloc, territory, before)?,
        found: found_on(alloc, territory, first)?,
        left_out: left_out(same, first),
        twice: twice(same, first),
        regime_before,
        regime,
        source: copy_source(source_of(&sources.periods, first.number()))?,
    })
}

/// Appends the change with which a period begins, unless it is the opening one.
fn push_change(
    list: &mut Vec<FoundChange>,
    alloc: Global,
    territory: &Territory,
    sources: &Sources,
    period: Period,
) -> Result<(), AllocError>
    ensures { OnOk result (list.new.items ≡ list.old.items ++ spec.change_if newest_rules
        territory.now (Some (sources_in sources.now)) period) }
{
    if let Some(before) = period.first.plus(-1) {
        list.push(found_change(alloc, territory, sources, before, period.first)?)?;
    }
    Ok(())
}

/// Returns the changes with which these periods begin.
fn found_changes(
    alloc: Global,
    territory: &Territory,
    sources: &Sources,
    periods: &[Period],
) -> Result<Vec<FoundChange>, AllocError>
    ensures { IfOk result (λ v. v.items ≡ flat_map (spec.change_if newest_rules territory.now
        (Some (sources_in sources.now))) periods.now) }
{
    let mut list = Vec::with_capacity(alloc, periods.len())?;
    for period in periods {
        push_change(&mut list, alloc, territory, sources, *period)?;
    }
    Ok(list)
}

/// Returns the changes of a territory, each with its source.
pub(crate) fn changes(
    alloc: Global,
    territory: &Territory,
    sources: &Sources,
) -> Result<Answer, AllocError>
    ensures { IfOk result (λ a. a ≡ spec.changes_answer newest_rules (Some territory.now)
        (Some (sources_in sources.now))) }
{
    let changes = found_changes(alloc, territory, sources, territory.periods())?;
    Ok(Answer::Changes(Listing::new(changes)))
}
