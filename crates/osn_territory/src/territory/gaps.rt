//! The changes in whose gap a label lies, and labels off the line.
ghost use Rattle.std.specs.Prelude.{◌≡◌, ◌<◌, IfOk, All};
ghost use Rattle.osn_days.specs.Rules.{newest_rules};
ghost use Rattle.osn_territory.specs.LabelOrder as order;

use crate::label::Label;
use crate::label_order::{is_after, is_before};
use crate::territory::Territory;
use osn_days::Day;
use std::alloc::AllocError;

impl Territory {
    /// Returns whether the label comes after the day before a change and before the day of the
    /// change.
    fn is_in_gap(&self, label: Label, change: Day) -> bool
        ensures { result ≡ order.is_in_gap newest_rules self.now label change }
    {
        match change.plus(-1) {
            Some(day) => {
                is_after(self.regime_at(day), label, day)
                    && is_before(self.regime_at(change), label, change)
            }
            None => false,
        }
    }

    /// Returns the days of the changes at which the label is skipped and in whose gap it lies, in
    /// order. It comes after the last date before the change, and before the first date from it on.
    ///
    /// # Errors
    ///
    /// `AllocError` if there is no memory for the list.
    pub fn gaps(&self, label: Label) -> Result<Vec<Day>, AllocError>
        ensures value { IfOk result (λ days.
            days.items ≡ order.gaps newest_rules self.now label) }
        // as a law: no gap is before day 1
        ensures later { IfOk result (λ days. All (λ f. 1 < f) days.items) }
    {
        let mut days = self.skipped(label)?;
        days.retain(|change| self.is_in_gap(label, *change));
        Ok(days)
    }

    /// Returns whether the label comes before the first day of the line or after the last, by the
    /// regimes that are in force there.
    pub fn is_off_line(&self, label: Label) -> bool
        ensures { result ≡ order.is_off_line newest_rules self.now label }
    {
        is_before(self.regime_at(Day::FIRST), label, Day::FIRST)
            || is_after(self.regime_at(Day::LAST), label, Day::LAST)
    }
}
