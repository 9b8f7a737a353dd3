//! Days that follow one another, and how those of a year or a month are found in a period. They are
//! found by numbers of the days that never fall, so that the days between two bounds are halved.
ghost use Rattle.std.specs.Prelude.{◌≡◌, ◌≤◌, ◌<◌, ◌+◌, ◌-◌, ◌++◌, ◌==◌, ℕ, OnOk, length};
ghost use Rattle.std.specs.Prelude.{filter, pos, ◌≤ℤ◌, ◌<ℤ◌, ◌-ℤ◌, ◌+ℤ◌, ◌*ℤ◌};
ghost use Rattle.std.specs.List.{range_with_len};
ghost use Rattle.osn_days.specs.Rules.{newest_rules};
ghost use Rattle.osn_days.specs.Chain.{date_of};
ghost use Rattle.osn_territory.specs.Style.{style_year};
ghost use Rattle.osn_territory.specs.PeriodList.{IsWithinLine};
ghost use Rattle.osn_territory.specs.Runs.{days_in};
ghost use Rattle.osn_territory.specs.RunKeys as keys;

use crate::period::Period;
use crate::regime::Regime;
use crate::style::Style;
use crate::style_year::date_and_year;
use osn_days::{Calendar, Day, date_of};
use std::alloc::AllocError;

/// Days of the line that follow one another, from the first to the last, both included.
#[derive(Clone, Copy, Debug, PartialEq, Eq)]
pub struct Run {
    pub first: Day,
    pub last: Day,
}

/// What days are sought: those of a year, or of one month of it.
#[derive(Clone, Copy)]
pub(crate) struct YearOrMonth {
    pub year: i32,
    pub month: Option<u8>,
}

/// How many numbers of months each year has. A month of a label may be any number below.
const MONTH_NUMBERS: i64 = 256;

/// What gives each day a number that never falls from one day to the next.
#[derive(Clone, Copy)]
pub(crate) enum Key {
    /// The year as the regime's style counts it.
    Year(Regime),
    /// The month of the date in a calendar.
    Month(Calendar),
}

impl Key {
    /// Returns the number of a day.
    fn number(self, day: Day) -> i64
        ensures { result ≡ keys.number_on newest_rules self day }
    {
        match self {
            Key::Year(regime) => i64::from(date_and_year(regime, day).1),
            Key::Month(calendar) => {
                let date = date_of(calendar, day);
                i64::from(date.year) * MONTH_NUMBERS + i64::from(date.month)
            }
        }
    }

    /// Returns the first of some days whose number is at least the bound, or the day after them.
    fn first_from(self, bound: i64, first: u32, end: u32) -> u32
        requires line { (1 ≤ first) × (first ≤ end) × (end ≤ newest_rules.high + 1) }
        ensures within { (first ≤ result) × (result ≤ end) }
        ensures below { (d : ℕ) → first ≤ d → d < result →
            keys.number_on newest_rules self d <ℤ bound }
        ensures reached { (d : ℕ) → result ≤ d → d < end →
            bound ≤ℤ keys.number_on newest_rules self d }
    {
        let mut low = first;
        let mut high = end;
        while low < high {
            let middle = low + (high - low) / 2;
            if self.number(Day::on_line(i64::from(middle))) < bound {
                low = middle + 1;
            } else {
                high = middle;
            }
        }
        low
    }

    /// Returns the first of some days that have the number, and the day after the last one that has
    /// it.
    fn days_with(self, number: i64, first: u32, end: u32) -> (u32, u32)
        requires line { (1 ≤ first) × (first ≤ end) × (end ≤ newest_rules.high + 1) }
        requires room { number <ℤ i64.MAX }
        ensures within { (first ≤ result.0) × (result.0 ≤ result.1) × (result.1 ≤ end) }
        ensures before { (d : ℕ) → first ≤ d → d < result.0 →
            keys.number_on newest_rules self d <ℤ number }
        ensures same { (d : ℕ) → result.0 ≤ d → d < result.1 →
            keys.number_on newest_rules self d ≡ number }
        ensures after { (d : ℕ) → result.1 ≤ d → d < end →
            number <ℤ keys.number_on newest_rules self d }
    {
        let start = self.first_from(number, first, end);
        (start, self.first_from(number + 1, start, end))
    }
}

/// Returns the first of the two years counted from 1 January that the days of a style's year lie
/// in.
fn january_year(style: Style, year: i32) -> i64
    ensures value { result ≡ keys.january_year style year }
    ensures near { ((year -ℤ pos 1) ≤ℤ result) × (result ≤ℤ year) }
{
    match style {
        Style::January | Style::Annunciation | Style::Easter => i64::from(year),
        Style::Nativity | Style::September | Style::Pisan => i64::from(year) - 1,
    }
}

/// Returns the numbers of a month in the two years counted from 1 January that the days of a
/// style's year lie in.
fn month_numbers(style: Style, year: i32, month: u8) -> (i64, i64)
    ensures first { result.0 ≡ keys.january_year style year *ℤ pos 256 +ℤ pos month }
    ensures second { result.1 ≡ result.0 +ℤ pos 256 }
    ensures room { result.1 <ℤ i64.MAX }
    ensures byte { month < 256 }
{
    let first = january_year(style, year) * MONTH_NUMBERS + i64::from(month);
    (first, first + MONTH_NUMBERS)
}

/// Appends the days from the first one to the one before the end, if there are any, to the runs
/// found so far.
fn push_run(first: u32, end: u32, runs: &mut Vec<Run>) -> Result<(), AllocError>
    requires line { (1 ≤ first) × (first ≤ end) × (end ≤ newest_rules.high + 1) }
    requires runs { keys.LieBetween 0 first runs.old.items }
    ensures days { OnOk result (days_in runs.new.items
        ≡ days_in runs.old.items ++ range_with_len first (end - first)) }
    ensures runs { OnOk result (keys.LieBetween 0 end runs.new.items) }
    ensures count { OnOk result (length runs.new.items ≤ length runs.old.items + 1) }
{
    if first < end {
        runs.push(Run {
            first: Day::on_line(i64::from(first)),
            last: Day::on_line(i64::from(end) - 1),
        })?;
    }
    Ok(())
}

/// Appends the days of a month, of some days in one year of the style, to the runs found so far.
fn push_month(
    regime: Regime,
    sought: (i32, u8),
    days: (u32, u32),
    runs: &mut Vec<Run>,
) -> Result<(), AllocError>
    requires line { (1 ≤ days.0) × (days.0 ≤ days.1) × (days.1 ≤ newest_rules.high + 1) }
    requires year { (d : ℕ) → days.0 ≤ d → d < days.1 →
        style_year newest_rules regime d ≡ sought.0 }
    requires runs { keys.LieBetween 0 days.0 runs.old.items }
    ensures days { OnOk result (days_in runs.new.items ≡ days_in runs.old.items
        ++ filter (λ d. (date_of regime.calendar d).month == sought.1)
        (range_with_len days.0 (days.1 - days.0))) }
    ensures runs { OnOk result (keys.LieBetween 0 days.1 runs.new.items) }
    ensures count { OnOk result (length runs.new.items ≤ length runs.old.items + 2) }
{
    let (year, month) = sought;
    let (first, end) = days;
    let numbers = month_numbers(regime.style, year, month);
    let key = Key::Month(regime.calendar);
    let one = key.days_with(numbers.0, first, end);
    let other = key.days_with(numbers.1, one.1, end);
    push_run(one.0, one.1, runs)?;
    push_run(other.0, other.1, runs)
}

/// Appends to the runs found so far those of some days in one year of the style that are sought.
fn push_in_year(
    regime: Regime,
    sought: YearOrMonth,
    days: (u32, u32),
    runs: &mut Vec<Run>,
) -> Result<(), AllocError>
    requires line { (1 ≤ days.0) × (days.0 ≤ days.1) × (days.1 ≤ newest_rules.high + 1) }
    requires year { (d : ℕ) → days.0 ≤ d → d < days.1 →
        style_year newest_rules regime d ≡ sought.year }
    requires runs { keys.LieBetween 0 days.0 runs.old.items }
    ensures days { OnOk result (days_in runs.new.items ≡ days_in runs.old.items
        ++ filter (λ d. keys.is_month sought.month (date_of regime.calendar d).month)
        (range_with_len days.0 (days.1 - days.0))) }
    ensures runs { OnOk result (keys.LieBetween 0 days.1 runs.new.items) }
    ensures count { OnOk result
        (length runs.new.items ≤ length runs.old.items + keys.most_runs sought.month) }
{
    match sought.month {
        None => push_run(days.0, days.1, runs),
        Some(month) => push_month(regime, (sought.year, month), days, runs),
    }
}

/// Appends to the runs found so far the days of a period that are sought.
pub(crate) fn push_period(
    period: &Period,
    sought: YearOrMonth,
    runs: &mut Vec<Run>,
) -> Result<(), AllocError>
    requires line { IsWithinLine period.now }
    requires runs { keys.LieBetween 0 period.now.first runs.old.items }
    ensures days { OnOk result (days_in runs.new.items
        ≡ days_in runs.old.items ++ keys.sought_in newest_rules sought period.now) }
    ensures runs { OnOk result (keys.LieBetween 0 (period.now.last + 1) runs.new.items) }
    ensures count { OnOk result
        (length runs.new.items ≤ length runs.old.items + keys.most_runs sought.month) }
{
    let end = period.last.number() + 1;
    let year = i64::from(sought.year);
    let days = Key::Year(period.regime).days_with(year, period.first.number(), end);
    push_in_year(period.regime, sought, days, runs)
}
