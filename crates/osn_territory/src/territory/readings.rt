//! The days that a label names, and the changes at which it is skipped.
ghost use Rattle.std.specs.Prelude.{◌≡◌, ◌≤◌, ◌*◌, IfOk, length};
ghost use Rattle.osn_days.specs.Rules.{first_rules, newest_rules};
ghost use Rattle.osn_territory.specs.Territory as plain;
ghost use Rattle.osn_territory.specs.EarlierRules.{KeepsReading};
ghost use Rattle.osn_territory.specs.LabelSearch.{most_tested, IsSearchIn};

use crate::label::Label;
use crate::label_search::LabelSearch;
use crate::period::Period;
use crate::reading::{is_skipped_at, read_period};
use crate::territory::Territory;
use osn_days::Day;
use std::alloc::AllocError;

impl Territory {
    /// Returns the days that the territory dates with the label, in order.
    ///
    /// # Errors
    ///
    /// `AllocError` if there is no memory for the list.
    pub fn read(&self, label: Label) -> Result<Vec<Day>, AllocError>
        ensures value { IfOk result (λ days.
            days.items ≡ plain.reading newest_rules self.now label) }
        // as a law: the days that the line of the first rules has are those that the first rules
        // read
        ensures earlier_rules { IfOk result (λ days.
            KeepsReading first_rules self.now label days.items) }
    {
        let (days, _) = self.read_counted(label)?;
        Ok(days)
    }

    /// Returns the days that the territory dates with the label, in order, and how many dates were
    /// tested to find them: at most three a period.
    ///
    /// # Errors
    ///
    /// `AllocError` if there is no memory for the list.
    pub fn read_counted(&self, label: Label) -> Result<(Vec<Day>, u32), AllocError>
        ensures value { IfOk result (λ read. read.0.items
            ≡ plain.reading newest_rules self.now label) }
        ensures tested { IfOk result (λ read.
            read.1 ≤ 3 * length (plain.periods_of newest_rules self.now)) }
    {
        self.read_by(&LabelSearch::new(label, self.periods()))
    }

    /// Returns the days that are found by a search, and how many dates were tested in all.
    fn read_by(&self, search: &LabelSearch) -> Result<(Vec<Day>, u32), AllocError>
        requires search { IsSearchIn self.now search.now }
        requires tested { search.now.tested
            ≤ most_tested search.now.table (length (plain.periods_of newest_rules self.now)) 0 }
        ensures value { IfOk result (λ read.
            read.0.items ≡ plain.reading newest_rules self.now search.now.label) }
        ensures tested { IfOk result (λ read.
            read.1 ≤ 3 * length (plain.periods_of newest_rules self.now)) }
    {
        let mut days = Vec::new(self.alloc);
        let mut tested = search.tested;
        for period in &self.periods {
            tested += read_period(period, search, &mut days)?;
        }
        Ok((days, tested))
    }

    /// Returns the days of the changes at which the label is skipped, in order.
    ///
    /// # Errors
    ///
    /// `AllocError` if there is no memory for the list.
    pub fn skipped(&self, label: Label) -> Result<Vec<Day>, AllocError>
        ensures value { IfOk result (λ days. days.items
            ≡ plain.skipped newest_rules self.now label) }
        ensures explained { IfOk result (λ days.
            plain.IsExplained newest_rules self.now label days.items) }
    {
        self.skipped_by(&LabelSearch::new(label, self.periods()))
    }

    /// Returns the days of the changes at which the label of a search is skipped.
    fn skipped_by(&self, search: &LabelSearch) -> Result<Vec<Day>, AllocError>
        requires { IsSearchIn self.now search.now }
        ensures value { IfOk result (λ days.
            days.items ≡ plain.skipped newest_rules self.now search.now.label) }
        ensures explained { IfOk result (λ days.
            plain.IsExplained newest_rules self.now search.now.label days.items) }
    {
        let mut days = Vec::new(self.alloc);
        let periods: &[Period] = &self.periods;
        for i in 1..periods.len() {
            if is_skipped_at(search, &periods[i - 1], &periods[i]) {
                days.push(periods[i].first)?;
            }
        }
        Ok(days)
    }

    /// Returns the days that the territory dates with the label, and the days of the changes at
    /// which it is skipped, both in order. They are what `read` and `skipped` answer, by one
    /// search. The number says how many dates were tested to find both: at most three a period.
    ///
    /// # Errors
    ///
    /// `AllocError` if there is no memory for the lists.
    pub fn read_and_skipped(&self, label: Label) -> Result<(Vec<Day>, Vec<Day>, u32), AllocError>
        ensures read { IfOk result (λ found.
            found.0.items ≡ plain.reading newest_rules self.now label) }
        // as a law: those of them that the first rules' line has are what the first rules read
        ensures earlier_rules { IfOk result (λ found.
            KeepsReading first_rules self.now label found.0.items) }
        ensures skipped { IfOk result (λ found.
            found.1.items ≡ plain.skipped newest_rules self.now label) }
        ensures explained { IfOk result (λ found.
            plain.IsExplained newest_rules self.now label found.1.items) }
        ensures tested { IfOk result (λ found.
            found.2 ≤ 3 * length (plain.periods_of newest_rules self.now)) }
    {
        let search = LabelSearch::new(label, self.periods());
        let (days, tested) = self.read_by(&search)?;
        let skipped = self.skipped_by(&search)?;
        Ok((days, skipped, tested))
    }
}
