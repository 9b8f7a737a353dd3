//! What a period reads, and what is skipped between two.
ghost use Rattle.std.specs.Prelude.{◌≡◌, ◌++◌, ◌≤◌, ◌<◌, ◌&&◌, not, IfOk, OnOk, IsSome};
ghost use Rattle.osn_days.specs.Rules.{newest_rules};
ghost use Rattle.osn_territory.specs.Label.{days_with_label};
ghost use Rattle.osn_territory.specs.Style.{is_from_easter};
ghost use Rattle.osn_territory.specs.PeriodList.{IsWithinLine};
ghost use Rattle.osn_territory.specs.LabelSearch.{IsSearch, days_found, days_read};
ghost use Rattle.osn_territory.specs.LabelSearch.{is_skipped_by_days, most_for_one, IsKnown};

use crate::candidates::Candidates;
use crate::label_search::LabelSearch;
use crate::period::Period;
use osn_days::Day;
use std::alloc::AllocError;

/// Appends the days of a period that have the label to those found so far, and returns how many
/// dates were tested for it.
pub(crate) fn read_period(
    period: &Period,
    search: &LabelSearch,
    days: &mut Vec<Day>,
) -> Result<u32, AllocError>
    requires line { IsWithinLine period.now }
    requires search { IsSearch newest_rules search.now }
    requires known { IsKnown search.now.table period.now.regime }
    ensures value { OnOk result (days.new.items
        ≡ days.old.items ++ days_read newest_rules search.now.label period.now) }
    ensures tested { IfOk result (λ n. n ≤ most_for_one search.now.table) }
{
    if !search.overlaps(period) {
        return Ok(0);
    }
    let (candidates, tested) = search.days(period.regime);
    candidates.push_in(period, days)?;
    Ok(tested)
}

/// Returns whether a label is skipped at the change from one period to the next, from the days with
/// the label under both regimes. It is skipped if the old regime has it too late or never, and the
/// new one too early or never. At least one of them must have it, and neither in its own period.
pub(crate) fn is_skipped_between(
    old: &Period,
    new: &Period,
    old_days: &Candidates,
    new_days: &Candidates,
) -> bool
    ensures { result
        ≡ is_skipped_by_days old.now new.now (days_found old_days.now) (days_found new_days.now) }
{
    let change = new.first;
    (old_days.has_from(change) || old_days.is_empty())
        && (new_days.has_before(change) || new_days.is_empty())
        && !(old_days.is_empty() && new_days.is_empty())
        && !(old_days.has_in(old) || new_days.has_in(new))
}

/// Returns whether the years of both periods begin on a date that is the same each year.
fn has_fixed_beginnings(old: &Period, new: &Period) -> bool
    ensures { result ≡ (not (is_from_easter old.now.regime.style)
        && not (is_from_easter new.now.regime.style)) }
{
    !old.regime.style.is_from_easter() && !new.regime.style.is_from_easter()
}

/// Returns whether the label is skipped at the change from one period to the next. The search has a
/// table, so no date is tested for it.
pub(crate) fn is_skipped_at(search: &LabelSearch, old: &Period, new: &Period) -> bool
    requires search { IsSearch newest_rules search.now }
    requires old { IsKnown search.now.table old.now.regime }
    requires new { IsKnown search.now.table new.now.regime }
    requires table { IsSome search.now.table }
    requires line { (1 < new.now.first) × (new.now.first ≤ newest_rules.high) }
    ensures { result ≡ is_skipped_by_days old.now new.now
        (days_with_label newest_rules old.now.regime search.now.label)
        (days_with_label newest_rules new.now.regime search.now.label) }
{
    if !search.straddles(new.first) && has_fixed_beginnings(old, new) {
        return false;
    }
    let (old_days, _) = search.days(old.regime);
    let (new_days, _) = search.days(new.regime);
    is_skipped_between(old, new, &old_days, &new_days)
}
