//! The days of a label by calendar, for all regimes of a territory together. A label is one of
//! three dates in each calendar, whatever the style.
ghost use Rattle.std.specs.Prelude.{◌≡◌, ◌+◌, ◌*◌, ◌≤◌, ◌&&◌, IfSome, Some, is_some, length};
ghost use Rattle.std.specs.Option.{option_to_list};
ghost use Rattle.osn_days.specs.Rules.{newest_rules};
ghost use Rattle.osn_days.specs.Chain.{days_with_date};
ghost use Rattle.osn_territory.specs.Label.{days_with_label};
ghost use Rattle.osn_territory.specs.LabelSearch.{date_in, days_in_year, days_found, years_of};
ghost use Rattle.osn_territory.specs.LabelSearch.{are_none_in, AreAllWithin, AreInYears, IsTable};
ghost use Rattle.osn_territory.specs.LabelSearch.{IsKnown, AreKnown, AreBetween, AllOrNone};
ghost use Rattle.osn_territory.specs.LabelSearch.{is_used, three_if};
ghost use Rattle.osn_days.specs.declared.calendar.Calendar.{Calendar};

use crate::candidates::Candidates;
use crate::label::{Label, date_in_year};
use crate::period::Period;
use crate::regime::Regime;
use crate::style_year::year_of;
use osn_days::{Calendar, Day, day_of};

/// The days of each calendar that some period of a territory uses.
#[derive(Clone, Copy)]
pub(crate) struct CandidateTable {
    pub julian: Option<Candidates>,
    pub gregorian: Option<Candidates>,
    pub swedish: Option<Candidates>,
}

/// Returns the day of a calendar with the label's month and day in a year. The date is tested, and
/// counted as one of the nine of a table.
fn dated_day(calendar: Calendar, label: Label, year: i64, tested: &mut u32) -> Option<Day>
    requires { tested.old ≤ 8 }
    ensures value { option_to_list result
        ≡ days_with_date newest_rules calendar (date_in year label) }
    ensures tested { tested.new ≤ tested.old + 1 }
{
    let date = date_in_year(label, year)?;
    *tested += 1;
    day_of(calendar, date)
}

/// Returns whether some period uses the calendar.
fn is_used(calendar: Calendar, periods: &[Period]) -> bool
    ensures { result ≡ is_used calendar periods.now }
{
    periods.iter().any(|period| period.goes_by(calendar))
}

/// Returns the days of a calendar with the label's month and day, if some period uses it.
fn used_days(
    calendar: Calendar,
    label: Label,
    periods: &[Period],
    tested: &mut u32,
) -> Option<Candidates>
    requires { tested.old ≤ 6 }
    ensures value { IfSome result (AreInYears newest_rules calendar label) }
    ensures used { is_some result ≡ is_used calendar periods.now }
    ensures tested { tested.new ≤ tested.old + three_if (is_used calendar periods.now) }
{
    if !is_used(calendar, periods) {
        return None;
    }
    let year = label.year as i64;
    Some(Candidates {
        before: dated_day(calendar, label, year - 1, tested),
        same: dated_day(calendar, label, year, tested),
        after: dated_day(calendar, label, year + 1, tested),
    })
}

/// Returns the day that was found in a year, if the regime's style counts its date as the label's.
fn day_of_label_year(candidate: Option<Day>, regime: Regime, label: Label, year: i64) -> Option<Day>
    requires { option_to_list candidate
        ≡ days_with_date newest_rules regime.calendar (date_in year label) }
    ensures { option_to_list result ≡ days_in_year newest_rules regime label year }
{
    let day = candidate?;
    let date = date_in_year(label, year)?;
    if year_of(regime, date) == label.year {
        Some(day)
    } else {
        None
    }
}

/// Returns the first and the last of days, if there are three. If no period uses the calendar, no
/// day counts: the first is then after all days, and the last before them.
fn ends_of(days: Option<Candidates>) -> Option<(Day, Day)>
    ensures { IfSome result (λ e. IfSome days (AreAllWithin e.0 e.1)) }
{
    match days {
        Some(days) => days.ends(),
        None => Some((Day::LAST, Day::FIRST)),
    }
}

/// Returns whether no day was found, or no search was made.
fn are_none(days: Option<Candidates>) -> bool
    ensures { result ≡ are_none_in days }
{
    match days {
        Some(days) => days.is_empty(),
        None => true,
    }
}

/// Returns the earlier of two first days, and the later of two last ones.
fn union(one: (Day, Day), other: (Day, Day)) -> (Day, Day)
    ensures first { (result.0 ≤ one.0) × (result.0 ≤ other.0) }
    ensures last { (one.1 ≤ result.1) × (other.1 ≤ result.1) }
{
    (one.0.min(other.0), one.1.max(other.1))
}

impl CandidateTable {
    /// Returns the table of a label for the periods of a territory. Three dates are tested for each
    /// calendar that some period uses.
    pub fn new(label: Label, periods: &[Period], tested: &mut u32) -> CandidateTable
        requires { tested.old ≡ 0 }
        ensures value { IsTable newest_rules label result }
        ensures known { AreKnown (Some result) periods.now }
        ensures tested { tested.new ≤ 3 * length periods.now }
    {
        CandidateTable {
            julian: used_days(Calendar::Julian, label, periods, tested),
            gregorian: used_days(Calendar::Gregorian, label, periods, tested),
            swedish: used_days(Calendar::Swedish, label, periods, tested),
        }
    }

    /// Returns the days of one calendar, if the table has it.
    fn in_calendar(&self, calendar: Calendar) -> Option<Candidates>
        ensures { result ≡ years_of self.now calendar }
    {
        match calendar {
            Calendar::Julian => self.julian,
            Calendar::Gregorian => self.gregorian,
            Calendar::Swedish => self.swedish,
        }
    }

    /// Returns the days that have the label under a regime whose calendar the table has. No date is
    /// tested for them.
    pub fn days(&self, regime: Regime, label: Label) -> Candidates
        requires table { IsTable newest_rules label self.now }
        requires known { IsKnown (Some self.now) regime }
        ensures { days_found result ≡ days_with_label newest_rules regime label }
    {
        let days = self.in_calendar(regime.calendar).unwrap();
        let year = label.year as i64;
        Candidates {
            before: day_of_label_year(days.before, regime, label, year - 1),
            same: day_of_label_year(days.same, regime, label, year),
            after: day_of_label_year(days.after, regime, label, year + 1),
        }
    }

    /// Returns the first and the last of the days, if each calendar of the table has three.
    fn ends(&self) -> Option<(Day, Day)>
        ensures { IfSome result (λ e. (c : Calendar) →
            IfSome (years_of self.now c) (AreAllWithin e.0 e.1)) }
    {
        let julian = ends_of(self.julian)?;
        let gregorian = ends_of(self.gregorian)?;
        let swedish = ends_of(self.swedish)?;
        Some(union(julian, union(gregorian, swedish)))
    }

    /// Returns whether no calendar has a day.
    fn is_empty(&self) -> bool
        ensures { result ≡ (are_none_in self.now.julian
            && (are_none_in self.now.gregorian && are_none_in self.now.swedish)) }
    {
        are_none(self.julian) && are_none(self.gregorian) && are_none(self.swedish)
    }

    /// Returns the ends of a range that contains all days that have the label under some regime
    /// whose calendar the table has. They are the ends of the line unless every such regime whose
    /// year begins on a fixed date has the label, or no such regime has it.
    pub fn span(&self, label: Label) -> (Day, Day)
        requires { IsTable newest_rules label self.now }
        ensures between { AreBetween newest_rules label (Some self.now) result.0 result.1 }
        ensures even { AllOrNone newest_rules label (Some self.now) result.0 result.1 }
    {
        if self.is_empty() {
            return (Day::FIRST, Day::FIRST);
        }
        match self.ends() {
            Some(ends) => ends,
            None => (Day::FIRST, Day::LAST),
        }
    }
}
