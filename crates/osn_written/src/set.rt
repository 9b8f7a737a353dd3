//! The days of a set of dates in a territory, of which one is meant.
ghost use Rattle.std.specs.Prelude.{◌≡◌, IfOk};
ghost use Rattle.osn_days.specs.Rules.{newest_rules};
ghost use Rattle.osn_written.specs.SetsMeant as spec;

use crate::any_date::{AnyDate, Extent};
use crate::finding::{NoDay, find_runs};
use crate::union::union;
use osn_territory::{Run, Territory};
use std::alloc::{AllocError, Global};

/// A date of a set that means no day in a territory, and why.
#[derive(Clone, Copy, Debug, PartialEq, Eq)]
pub struct AbsentMember {
    pub extent: Extent,
    pub reason: NoDay,
}

/// Returns whether one of the dates is approximate.
pub fn is_set_approximate(members: &[AnyDate]) -> bool
    ensures { result ≡ spec.is_set_approximate members.now }
{
    members.iter().any(|date| date.is_approximate)
}

/// Returns whether one of the dates is in doubt.
pub fn is_set_uncertain(members: &[AnyDate]) -> bool
    ensures { result ≡ spec.is_set_uncertain members.now }
{
    members.iter().any(|date| date.is_uncertain)
}

/// Returns the runs of all dates, one date after another, or the first one that means no day.
fn members_meant(
    alloc: Global,
    territory: &Territory,
    members: &[AnyDate],
) -> Result<Result<Vec<Run>, AbsentMember>, AllocError>
    ensures { IfOk result (λ found. spec.set_list_of found
        ≡ spec.members_meant newest_rules territory.now members.now) }
{
    let mut runs = Vec::new(alloc);
    for member in members {
        match find_runs(alloc, territory, member.extent)? {
            Ok(more) => runs.extend_from_slice(more.as_slice())?,
            Err(reason) => {
                let extent = member.extent;
                return Ok(Err(AbsentMember { extent, reason }));
            }
        }
    }
    Ok(Ok(runs))
}

/// Returns the days of a set of dates in a territory, of which one is meant: those that any of the
/// dates means, as runs in order. No two of the runs touch. If a date means no day, returns which
/// is the first such date, and why.
///
/// # Errors
///
/// `AllocError` if there is no memory for the list.
pub fn find_set(
    alloc: Global,
    territory: &Territory,
    members: &[AnyDate],
) -> Result<Result<Vec<Run>, AbsentMember>, AllocError>
    ensures { IfOk result (λ found. spec.set_list_of found
        ≡ spec.set_meant newest_rules territory.now members.now) }
{
    match members_meant(alloc, territory, members)? {
        Ok(runs) => Ok(Ok(union(alloc, runs)?)),
        Err(absent) => Ok(Err(absent)),
    }
}
