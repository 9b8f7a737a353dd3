//! The Easters of both rules, in order.
ghost use Rattle.std.specs.Prelude.{◌≡◌, ◌++◌, OnOk};
ghost use Rattle.osn_territory.specs.EasterSearch.{days_in_order};

use osn_days::Day;
use std::alloc::AllocError;

/// Appends one day and another, if they are there, in order to the days found so far.
pub(crate) fn push_in_order(
    one: Option<Day>,
    other: Option<Day>,
    days: &mut Vec<Day>,
) -> Result<(), AllocError>
    ensures { OnOk result (days.new.items ≡ days.old.items ++ days_in_order one other) }
{
    match (one, other) {
        (None, None) => Ok(()),
        (Some(day), None) | (None, Some(day)) => Ok(days.push(day)?),
        (Some(one), Some(other)) => {
            days.push(one.min(other))?;
            Ok(days.push(one.max(other))?)
        }
    }
}
