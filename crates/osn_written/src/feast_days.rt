//! The days of a feast in a year, as a territory counted the year.
ghost use Rattle.std.specs.Prelude.{◌≡◌, ◌++◌, IfOk, OnOk, filter, filter_map, map};
ghost use Rattle.osn_days.specs.Rules.{newest_rules};
ghost use Rattle.osn_territory.specs.Dating.{dated_on};
ghost use Rattle.osn_written.specs.Feast.{feast_day};
ghost use Rattle.osn_written.specs.FeastDays as spec;
ghost use Rattle.osn_written.specs.Runs.{is_in_year, run_of_day};

use crate::any_date::Year;
use crate::feast::Feast;
use crate::runs::is_in_double_year;
use crate::union::union;
use osn_days::{Day, Year as JanuaryYear};
use osn_territory::{Run, Territory};
use std::alloc::{AllocError, Global};

/// Returns whether the territory dated a day in a year.
fn is_in_year(territory: &Territory, year: Year, day: Day) -> bool
    ensures { result ≡ is_in_year year (dated_on newest_rules territory.now day) }
{
    let dated = territory.dated(day);
    if year.is_double {
        is_in_double_year(year.first, &dated)
    } else {
        dated.label.year == i32::from(year.first)
    }
}

/// Returns the days of a feast by these Easters.
fn days_by(alloc: Global, feast: Feast, easters: &[Day]) -> Result<Vec<Day>, AllocError>
    ensures { IfOk result (λ days. days.items
        ≡ filter_map (λ easter. feast_day newest_rules easter feast) easters.now) }
{
    easters
        .iter()
        .filter_map(|easter| feast.day(*easter))
        .collect(alloc)
}

/// Appends the days of a feast by the Easters of a year from 1 January, if it has figures.
fn push_days_by_easter(
    alloc: Global,
    territory: &Territory,
    feast: Feast,
    year: u32,
    days: &mut Vec<Day>,
) -> Result<(), AllocError>
    ensures { OnOk result (days.new.items ≡ days.old.items
        ++ spec.days_by_easter newest_rules territory.now feast year) }
{
    let Some(year) = JanuaryYear::new(i64::from(year)) else {
        return Ok(());
    };
    let easters = territory.easters(year)?;
    let more = days_by(alloc, feast, easters.as_slice())?;
    days.extend_from_slice(more.as_slice())
}

/// Returns the days of a feast by the Easters of the year, of the one before it and of the one
/// after it.
fn days_about(
    alloc: Global,
    territory: &Territory,
    feast: Feast,
    year: u16,
) -> Result<Vec<Day>, AllocError>
    ensures { IfOk result (λ days. days.items
        ≡ spec.days_about newest_rules territory.now feast year) }
{
    let year = u32::from(year);
    let mut days = Vec::new(alloc);
    push_days_by_easter(alloc, territory, feast, year.saturating_sub(1), &mut days)?;
    push_days_by_easter(alloc, territory, feast, year, &mut days)?;
    push_days_by_easter(alloc, territory, feast, year + 1, &mut days)?;
    Ok(days)
}

/// Returns those of these days that the territory dated in a year, each as a run.
fn runs_in_year(
    alloc: Global,
    territory: &Territory,
    year: Year,
    days: &[Day],
) -> Result<Vec<Run>, AllocError>
    ensures { IfOk result (λ runs. runs.items ≡ map run_of_day
        (filter (λ d. is_in_year year (dated_on newest_rules territory.now d)) days.now)) }
{
    days.iter()
        .copied()
        .filter(|day| is_in_year(territory, year, *day))
        .map(|day| Run {
            first: day,
            last: day,
        })
        .collect(alloc)
}

/// Returns the days of a feast in a year as the territory counted the year, as runs in order. The
/// feast is counted from the Easters that were in force there. It may have fallen twice in the
/// year, or never.
#[tactic(auto, unfolding(crate::specs::FeastDays::feast_meant))]
pub(crate) fn feast_meant(
    alloc: Global,
    territory: &Territory,
    feast: Feast,
    year: Year,
) -> Result<Vec<Run>, AllocError>
    ensures { IfOk result (λ runs.
        runs.items ≡ spec.feast_meant newest_rules territory.now feast year) }
{
    let days = days_about(alloc, territory, feast, year.first)?;
    let runs = runs_in_year(alloc, territory, year, days.as_slice())?;
    union(alloc, runs)
}
