//! The periods that cover the line: the one that holds a day, one split in two, one altered, two
//! joined.
ghost use Rattle.std.specs.Prelude.{◌≡◌, ◌+◌, ◌<◌, ◌≤◌, true, false, length, map, OnOk, OnErr};
ghost use Rattle.std.specs.List.{HoldsAt};
ghost use Rattle.osn_days.specs.Rules.{newest_rules};
ghost use Rattle.osn_territory.specs.Territory.{CoversLine, Holds, IsWithinBinaryDigits};
ghost use Rattle.osn_territory.specs.Changes as changes;
ghost use Rattle.osn_territory.specs.PeriodList.{start_of, has_start, with_regime, without_start};

use crate::period::Period;
use crate::regime::Regime;
use osn_days::Day;
use std::alloc::AllocError;

/// Returns the place of the period that holds the day, and how many start days were tested: the
/// places that are left are halved by each test.
pub(crate) fn find_period(periods: &[Period], day: Day) -> (usize, u32)
    requires { CoversLine newest_rules periods.now }
    ensures within { result.0 < length periods.now }
    ensures holds { HoldsAt (Holds day) periods.now result.0 }
    ensures tested { IsWithinBinaryDigits result.1 (length periods.now) }
{
    let number = day.number();
    let mut low = 0;
    let mut high = periods.len();
    let mut tested = 0;
    while high - low > 1 {
        let middle = low + (high - low) / 2;
        tested += 1;
        if periods[middle].first.number() <= number {
            low = middle;
        } else {
            high = middle;
        }
    }
    (low, tested)
}

/// Returns the place of the period that starts on the day. It is not the first if the day is not
/// day 1.
fn place_of_start(periods: &[Period], day: Day) -> usize
    requires covers { CoversLine newest_rules periods.now }
    requires start { has_start day periods.now ≡ true }
    ensures within { result < length periods.now }
    ensures starts { HoldsAt (λ p. p.first ≡ day) periods.now result }
    ensures later { 1 < day → 0 < result }
{
    find_period(periods, day).0
}

/// Returns the place of the period within which the day can begin another one.
fn place_to_split(periods: &[Period], day: Day) -> usize
    requires covers { CoversLine newest_rules periods.now }
    requires apart { has_start day periods.now ≡ false }
    ensures within { result < length periods.now }
    ensures holds { HoldsAt (λ p. (p.first < day) × (day ≤ p.last)) periods.now result }
{
    find_period(periods, day).0
}

/// Returns whether a period starts on the day.
pub(crate) fn is_start(periods: &[Period], day: Day) -> bool
    requires { CoversLine newest_rules periods.now }
    ensures { result ≡ has_start day periods.now }
{
    periods[find_period(periods, day).0].first == day
}

/// Ends the period that holds the day on the day before, and begins another one there that lasts as
/// long.
pub(crate) fn split(periods: &mut Vec<Period>, day: Day, regime: Regime) -> Result<(), AllocError>
    requires covers { CoversLine newest_rules periods.old.items }
    requires apart { has_start day periods.old.items ≡ false }
    ensures covers { CoversLine newest_rules periods.new.items }
    ensures ok { OnOk result (map start_of periods.new.items
        ≡ changes.with_start day regime (map start_of periods.old.items)) }
    ensures unchanged { OnErr result (periods.new.items ≡ periods.old.items) }
{
    let place = place_to_split(periods, day);
    let last = periods[place].last;
    let started = Period {
        first: day,
        last,
        regime,
    };
    periods.insert(place + 1, started)?;
    let ended = &mut periods[place];
    ended.last = Day::on_line(day.number() as i64 - 1);
    Ok(())
}

/// Puts another regime into force from the start on the day.
pub(crate) fn alter(periods: &mut Vec<Period>, day: Day, regime: Regime)
    requires covers { CoversLine newest_rules periods.old.items }
    requires start { has_start day periods.old.items ≡ true }
    ensures covers { CoversLine newest_rules periods.new.items }
    ensures starts { map start_of periods.new.items
        ≡ with_regime day regime (map start_of periods.old.items) }
{
    let place = place_of_start(periods, day);
    let period = &mut periods[place];
    period.regime = regime;
}

/// Removes the period that starts on the day, through which the one before it goes on.
pub(crate) fn join(periods: &mut Vec<Period>, day: Day)
    requires covers { CoversLine newest_rules periods.old.items }
    requires start { has_start day periods.old.items ≡ true }
    requires later { 1 < day }
    ensures covers { CoversLine newest_rules periods.new.items }
    ensures starts { map start_of periods.new.items
        ≡ without_start day (map start_of periods.old.items) }
{
    let place = place_of_start(periods, day);
    let removed = periods.remove(place);
    let joined = &mut periods[place - 1];
    joined.last = removed.last;
}
