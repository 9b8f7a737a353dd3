//! The search for a label in a territory: the days with the label under each regime, and between
//! which days they lie.
ghost use Rattle.std.specs.Prelude.{◌≡◌, ◌≤◌, ◌&&◌, nat_le, nat_lt, length};
ghost use Rattle.osn_days.specs.Rules.{newest_rules};
ghost use Rattle.osn_territory.specs.Label.{days_with_label};
ghost use Rattle.osn_territory.specs.LabelSearch.{days_found, most_for_one, most_tested, IsSearch};
ghost use Rattle.osn_territory.specs.LabelSearch.{IsKnown, AreKnown, IsForFew};

use crate::candidate_table::CandidateTable;
use crate::candidates::Candidates;
use crate::label::Label;
use crate::label_days::days_of_label;
use crate::period::Period;
use crate::regime::Regime;
use osn_days::Day;

/// From this number of periods on, the days of all regimes are found together, by three dates for
/// each calendar. So no date is tested twice for two periods.
const PERIODS_FOR_A_TABLE: usize = 2;

/// The label and the table of a search in a territory. Every day that has the label under some
/// regime of the territory is from `first` to `last`.
#[derive(Clone, Copy)]
pub(crate) struct LabelSearch {
    pub label: Label,
    pub table: Option<CandidateTable>,
    pub first: Day,
    pub last: Day,
    /// How many dates were tested to begin with.
    pub tested: u32,
}

impl LabelSearch {
    /// Returns the search for a label in a territory of these periods.
    pub fn new(label: Label, periods: &[Period]) -> LabelSearch
        ensures value { IsSearch newest_rules result }
        ensures label { result.label ≡ label }
        ensures known { AreKnown result.table periods.now }
        ensures tested { result.tested ≤ most_tested result.table (length periods.now) 0 }
        ensures few { IsForFew result.table (length periods.now) }
    {
        let mut search = LabelSearch {
            label,
            table: None,
            first: Day::FIRST,
            last: Day::LAST,
            tested: 0,
        };
        if periods.len() >= PERIODS_FOR_A_TABLE {
            let table = CandidateTable::new(label, periods, &mut search.tested);
            (search.first, search.last) = table.span(label);
            search.table = Some(table);
        }
        search
    }

    /// Returns the days that have the label under a regime of the territory, and how many dates
    /// were tested to find them.
    pub fn days(&self, regime: Regime) -> (Candidates, u32)
        requires search { IsSearch newest_rules self.now }
        requires known { IsKnown self.now.table regime }
        ensures value { days_found result.0 ≡ days_with_label newest_rules regime self.now.label }
        ensures tested { result.1 ≤ most_for_one self.now.table }
    {
        match &self.table {
            Some(table) => (table.days(regime, self.label), 0),
            None => days_of_label(regime, self.label),
        }
    }

    /// Returns whether days of the period are from the first to the last.
    pub fn overlaps(&self, period: &Period) -> bool
        ensures { result ≡ (nat_le self.now.first period.now.last
            && nat_le period.now.first self.now.last) }
    {
        self.first <= period.last && period.first <= self.last
    }

    /// Returns whether a change is after the first day, and not after the last.
    pub fn straddles(&self, change: Day) -> bool
        ensures { result ≡ (nat_lt self.now.first change && nat_le change self.now.last) }
    {
        self.first < change && change <= self.last
    }
}
