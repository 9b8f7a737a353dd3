//! The days of a territory as it dates them, and its listed Easters.
ghost use Rattle.std.specs.Prelude.{◌≡◌};
ghost use Rattle.osn_days.specs.Rules.{newest_rules};
ghost use Rattle.std.specs.List.{list_any};
ghost use Rattle.osn_territory.specs.Dating as spec;
ghost use Rattle.osn_territory.specs.MonthDay.{has_month_day};

use crate::dating::{DatedDay, dated_day};
use crate::month_day::some_has_month_day;
use crate::territory::Territory;
use osn_days::{Day, Year};
use std::collections::BTreeMap;

impl Territory {
    /// Returns the day as the territory dates it, by the regime in force on it.
    pub fn dated(&self, day: Day) -> DatedDay
        ensures { result ≡ spec.dated_on newest_rules self.now day }
    {
        dated_day(self.regime_at(day), day)
    }

    /// Returns the years with a listed Easter, in ascending order, each with the day that is
    /// listed.
    pub fn exceptions(&self) -> &BTreeMap<Year, Day>
        ensures { result.now.entries ≡ self.now.exceptions }
    {
        &self.exceptions
    }

    /// Returns whether some regime of the territory has the month and day in some year, be it in
    /// force then or not.
    pub fn has_month_day(&self, month: u8, day: u8) -> bool
        ensures { result ≡ list_any (λ s. has_month_day newest_rules s.1.calendar month day)
            self.now.starts }
    {
        some_has_month_day(&self.periods, month, day)
    }
}
