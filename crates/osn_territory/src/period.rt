//! The days through which a regime is in force.
ghost use Rattle.std.specs.Prelude.{◌≡◌};
ghost use Rattle.osn_territory.specs.PeriodList.{is_held};
ghost use Rattle.osn_territory.specs.LabelSearch.{goes_by};

use crate::regime::Regime;
use osn_days::{Calendar, Day};

/// The days from `first` to `last`, both included, through which a regime is in force.
#[derive(Clone, Copy, Debug, PartialEq, Eq, Hash)]
pub struct Period {
    pub first: Day,
    pub last: Day,
    pub regime: Regime,
}

impl Period {
    /// Returns whether the day is one of the period's.
    pub(crate) fn holds(&self, day: Day) -> bool
        ensures { result ≡ is_held self.now day }
    {
        self.first <= day && day <= self.last
    }

    /// Returns whether the period uses the calendar.
    pub(crate) fn goes_by(&self, calendar: Calendar) -> bool
        ensures { result ≡ goes_by calendar self.now }
    {
        self.regime.calendar == calendar
    }
}
