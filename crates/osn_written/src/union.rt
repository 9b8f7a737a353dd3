//! The days that any of some runs has, as runs in order.
ghost use Rattle.std.specs.Prelude.{◌≡◌, ◌≤◌, ◌++◌, ◌∷◌, [], IfOk, OnOk};
ghost use Rattle.std.specs.List.Sorted.{IsNonDecreasingBy, IsPermutation};
ghost use Rattle.osn_days.specs.Rules.{newest_rules};
ghost use Rattle.osn_written.specs.Union as spec;

use crate::runs::join_runs;
use osn_days::Day;
use osn_territory::Run;
use std::alloc::{AllocError, Global};

/// Puts runs in the order of their first days.
fn sort_by_first(runs: &mut Vec<Run>) -> Result<(), AllocError>
    ensures sorted { OnOk result (IsNonDecreasingBy (λ run. run.first) runs.new.items) }
    ensures same { IsPermutation runs.old.items runs.new.items }
{
    runs.sort_by_key(|run| run.first.number())?;
    Ok(())
}

/// Returns the first day of a run from a number on.
fn first_from(run: Run, next: u32) -> u32
    ensures { result ≡ spec.first_from run next }
{
    if next <= run.first.number() {
        run.first.number()
    } else {
        next
    }
}

/// Appends the run from a number to a last day.
fn push_from(rest: &mut Vec<Run>, first: u32, last: Day) -> Result<(), AllocError>
    requires { (1 ≤ first) × (first ≤ last) }
    ensures { OnOk result (rest.new.items
        ≡ rest.old.items ++ record { first = first; last = last } ∷ []) }
{
    rest.push(Run {
        first: Day::on_line(i64::from(first)),
        last,
    })?;
    Ok(())
}

/// Returns runs that are in the order of their first days, each without the days of the runs before
/// it.
fn without_overlap(alloc: Global, runs: &[Run]) -> Result<Vec<Run>, AllocError>
    ensures value { IfOk result (λ rest. rest.items ≡ spec.rest_from 1 runs.now) }
    ensures within { IfOk result (λ rest. spec.EndOnLine newest_rules runs.now) }
{
    let mut rest = Vec::new(alloc);
    let mut next = 1;
    for run in runs {
        let first = first_from(*run, next);
        let last = run.last.number();
        if first <= last {
            push_from(&mut rest, first, run.last)?;
            next = last + 1;
        }
    }
    Ok(rest)
}

/// Returns the days of runs in any order, as runs in order.
pub(crate) fn union(alloc: Global, mut runs: Vec<Run>) -> Result<Vec<Run>, AllocError>
    ensures { IfOk result (λ union. union.items ≡ spec.union newest_rules runs.items) }
{
    sort_by_first(&mut runs)?;
    let rest = without_overlap(alloc, runs.as_slice())?;
    join_runs(alloc, rest.as_slice())
}
