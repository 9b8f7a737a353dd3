//! Three days, by the years that their dates have.
ghost use Rattle.std.specs.Prelude.{◌≡◌, ◌≤◌, ◌++◌, IfSome, OnOk, nat_le, nat_lt, filter, length};
ghost use Rattle.std.specs.List.{list_any};
ghost use Rattle.std.specs.Option.{option_to_list};
ghost use Rattle.osn_territory.specs.Label.{first_two};
ghost use Rattle.osn_territory.specs.Territory.{is_empty};
ghost use Rattle.osn_territory.specs.PeriodList.{is_held};
ghost use Rattle.osn_territory.specs.LabelSearch.{AreAllWithin, days_found};

use crate::period::Period;
use osn_days::Day;
use std::alloc::AllocError;

/// The days that were found for a label in three years counted from 1 January, in order.
#[derive(Clone, Copy)]
pub(crate) struct Candidates {
    /// The day whose date is in the year before the label's.
    pub before: Option<Day>,
    /// The day whose date is in the label's year.
    pub same: Option<Day>,
    /// The day whose date is in the year after it.
    pub after: Option<Day>,
}

/// Returns whether a day was found, and is the day or after it.
fn is_from(candidate: Option<Day>, day: Day) -> bool
    ensures { result ≡ list_any (λ d. nat_le day d) (option_to_list candidate) }
{
    candidate.is_some_and(|candidate| day <= candidate)
}

/// Returns whether a day was found, and is before the day.
fn is_before(candidate: Option<Day>, day: Day) -> bool
    ensures { result ≡ list_any (λ d. nat_lt d day) (option_to_list candidate) }
{
    candidate.is_some_and(|candidate| candidate < day)
}

/// Returns whether a day was found, and is in the period.
fn is_in(candidate: Option<Day>, period: &Period) -> bool
    ensures { result ≡ list_any (is_held period.now) (option_to_list candidate) }
{
    candidate.is_some_and(|candidate| period.holds(candidate))
}

/// Appends the day to those found so far, if one was found and is in the period.
fn push_if_in(
    candidate: Option<Day>,
    period: &Period,
    days: &mut Vec<Day>,
) -> Result<(), AllocError>
    ensures { OnOk result (days.new.items ≡ days.old.items
        ++ filter (is_held period.now) (option_to_list candidate)) }
{
    match candidate {
        Some(candidate) if period.holds(candidate) => Ok(days.push(candidate)?),
        _ => Ok(()),
    }
}

impl Candidates {
    /// Returns whether no day was found.
    pub fn is_empty(&self) -> bool
        ensures { result ≡ is_empty (days_found self.now) }
    {
        self.before.is_none() && self.same.is_none() && self.after.is_none()
    }

    /// Returns whether one of them is the day or after it.
    pub fn has_from(&self, day: Day) -> bool
        ensures { result ≡ list_any (λ d. nat_le day d) (days_found self.now) }
    {
        is_from(self.before, day) || is_from(self.same, day) || is_from(self.after, day)
    }

    /// Returns whether one of them is before the day.
    pub fn has_before(&self, day: Day) -> bool
        ensures { result ≡ list_any (λ d. nat_lt d day) (days_found self.now) }
    {
        is_before(self.before, day) || is_before(self.same, day) || is_before(self.after, day)
    }

    /// Returns whether one of them is in the period.
    pub fn has_in(&self, period: &Period) -> bool
        ensures { result ≡ list_any (is_held period.now) (days_found self.now) }
    {
        is_in(self.before, period) || is_in(self.same, period) || is_in(self.after, period)
    }

    /// Appends those that are in the period to the days found so far.
    pub fn push_in(&self, period: &Period, days: &mut Vec<Day>) -> Result<(), AllocError>
        ensures { OnOk result (days.new.items ≡ days.old.items
            ++ filter (is_held period.now) (days_found self.now)) }
    {
        push_if_in(self.before, period, days)?;
        push_if_in(self.same, period, days)?;
        push_if_in(self.after, period, days)
    }

    /// Returns the first of them and the other one, if there are not three.
    pub fn pair(&self) -> [Option<Day>; 2]
        requires { length (days_found self.now) ≤ 2 }
        ensures { result ≡ first_two (days_found self.now) }
    {
        match (self.before, self.same, self.after) {
            (Some(before), same, after) => [Some(before), same.or(after)],
            (None, Some(same), after) => [Some(same), after],
            (None, None, after) => [after, None],
        }
    }
    /// Returns the first and the last of them, if there are three.
    pub fn ends(&self) -> Option<(Day, Day)>
        ensures { IfSome result (λ e. AreAllWithin e.0 e.1 self.now) }
    {
        match (self.before, self.same, self.after) {
            (Some(first), Some(_), Some(last)) => Some((first, last)),
            _ => None,
        }
    }
}
