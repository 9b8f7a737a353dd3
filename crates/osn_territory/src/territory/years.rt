//! The days that a territory dates in a year, and in a month of it.
ghost use Rattle.std.specs.Prelude.{◌≡◌, ◌≤◌, ◌*◌, IfOk, length, vec_len};
ghost use Rattle.osn_days.specs.Rules.{newest_rules};
ghost use Rattle.osn_territory.specs.Territory.{periods_of};
ghost use Rattle.osn_territory.specs.Runs as plain;
ghost use Rattle.osn_territory.specs.RunKeys.{days_sought, most_runs};

use crate::runs::{Run, YearOrMonth, push_period};
use crate::territory::Territory;
use std::alloc::AllocError;

impl Territory {
    /// Returns the days that the territory dates in a year, as runs in ascending order: at most one
    /// a period.
    ///
    /// # Errors
    ///
    /// `AllocError` if there is no memory for the list.
    pub fn days_of_year(&self, year: i32) -> Result<Vec<Run>, AllocError>
        ensures days { IfOk result (λ runs.
            plain.days_in runs.items ≡ plain.days_of_year newest_rules self.now year) }
        ensures runs { IfOk result (λ runs. plain.AreRuns runs.items) }
        ensures count { IfOk result (λ runs.
            vec_len runs ≤ length (periods_of newest_rules self.now)) }
    {
        self.runs_of(YearOrMonth { year, month: None })
    }

    /// Returns the days that the territory dates in a month of a year, as runs in ascending order.
    /// They are at most two a period, since a year that begins within a month has days of it at
    /// both ends.
    ///
    /// # Errors
    ///
    /// `AllocError` if there is no memory for the list.
    pub fn days_of_month(&self, year: i32, month: u8) -> Result<Vec<Run>, AllocError>
        ensures days { IfOk result (λ runs.
            plain.days_in runs.items ≡ plain.days_of_month newest_rules self.now year month) }
        ensures runs { IfOk result (λ runs. plain.AreRuns runs.items) }
        ensures count { IfOk result (λ runs.
            vec_len runs ≤ 2 * length (periods_of newest_rules self.now)) }
    {
        self.runs_of(YearOrMonth {
            year,
            month: Some(month),
        })
    }

    /// Returns the days that are sought, as runs in ascending order.
    fn runs_of(&self, sought: YearOrMonth) -> Result<Vec<Run>, AllocError>
        ensures days { IfOk result (λ runs.
            plain.days_in runs.items ≡ days_sought newest_rules self.now sought) }
        ensures runs { IfOk result (λ runs. plain.AreRuns runs.items) }
        ensures count { IfOk result (λ runs. vec_len runs
            ≤ most_runs sought.month * length (periods_of newest_rules self.now)) }
    {
        let mut runs = Vec::new(self.alloc);
        for period in self.periods() {
            push_period(period, sought, &mut runs)?;
        }
        Ok(runs)
    }
}
