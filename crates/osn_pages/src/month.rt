//! The days of a month as a territory dated them.
ghost use Rattle.std.specs.Prelude.{◌≡◌, ◌++◌, map, IfOk, OnOk, string_bytes, pos};
ghost use Rattle.osn_days.specs.Rules.{newest_rules};
ghost use Rattle.osn_territory.specs.Dating.{dated_on};
ghost use Rattle.osn_territory.specs.Runs.{days_in, days_of_run, days_of_month};
ghost use Rattle.osn_pages.specs.Grid.{grids};

use crate::grid::push_grids;
use osn_days::Day;
use osn_territory::{DatedDay, Run, Territory};
use std::alloc::{AllocError, Global};

/// Appends the days of a run, as the territory dated them.
fn push_run(days: &mut Vec<DatedDay>, territory: &Territory, run: Run) -> Result<(), AllocError>
    ensures { OnOk result (days.new.items ≡ days.old.items
        ++ map (dated_on newest_rules territory.now) (days_of_run run)) }
{
    for number in run.first.number()..run.last.number() + 1 {
        days.push(territory.dated(Day::on_line(i64::from(number))))?;
    }
    Ok(())
}

/// Returns the days of these runs, as the territory dated them.
///
/// # Errors
///
/// `AllocError` if there is no memory for the list.
pub fn dated_days(
    alloc: Global,
    territory: &Territory,
    runs: &[Run],
) -> Result<Vec<DatedDay>, AllocError>
    ensures { IfOk result (λ days. days.items
        ≡ map (dated_on newest_rules territory.now) (days_in runs.now)) }
{
    let mut days = Vec::new(alloc);
    for run in runs {
        push_run(&mut days, territory, *run)?;
    }
    Ok(days)
}

/// Appends the grids of a month, or that the territory had no day of it.
pub(crate) fn push_month(
    alloc: Global,
    out: &mut String,
    territory: &Territory,
    year: u16,
    month: u8,
) -> Result<(), AllocError>
    ensures { OnOk result (string_bytes out.new ≡ string_bytes out.old
        ++ grids (map (dated_on newest_rules territory.now)
        (days_of_month newest_rules territory.now (pos year) month))) }
{
    let runs = territory.days_of_month(i32::from(year), month)?;
    let days = dated_days(alloc, territory, runs.as_slice())?;
    push_grids(alloc, out, days.as_slice())
}
