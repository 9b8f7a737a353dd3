//! How many rows of a table have each remark.
ghost use Rattle.std.specs.Prelude.{◌≡◌, ◌++◌, IfOk, OnOk, string_bytes};
ghost use Rattle.osn_letters.specs.Tally as spec;
ghost use Rattle.osn_letters.specs.TallyInside as inside;

use crate::remark::Remark;
use std::alloc::{AllocError, Global};
use std::collections::BTreeMap;
use std::marker::Model;

/// How many rows were written, how many of them have a remark, and for each remark that a row has,
/// how many have it. A count stays at 18,446,744,073,709,551,615 once it is there.
#[derive(Debug, Drop)]
pub struct Tally {
    rows: u64,
    remarked: u64,
    /// By the words of the remark.
    by_remark: BTreeMap<&'static str, u64>,
}

/// Appends a line: `front`, what is counted, and how many there are.
fn push_line(
    alloc: Global,
    text: &mut String,
    front: &str,
    label: &str,
    count: u64,
) -> Result<(), AllocError>
    ensures { OnOk result (string_bytes text.new
        ≡ string_bytes text.old ++ spec.count_line front.now label.now count) }
{
    let line = format!(in alloc; "{front}{label}: {count}\n")?;
    text.push_str(&line)
}

impl Model for Tally {
    ghost use Rattle.osn_letters.specs.Tally.{TallyModel};

    ghost Value = { TallyModel };

    ghost use Rattle.osn_letters.specs.TallyInside.{tally_in};

    ghost view = { tally_in };
}

impl Tally {
    /// Returns the tally of no rows.
    pub(crate) fn new(alloc: Global) -> Tally
        ensures { result ≡ inside.no_rows }
    {
        Tally {
            rows: 0,
            remarked: 0,
            by_remark: BTreeMap::new(alloc),
        }
    }

    /// Counts one more for the remark with these words.
    fn count_words(&mut self, words: &'static str) -> Result<(), AllocError>
        ensures words { OnOk result
            (self.new.by_remark ≡ inside.with_words self.old.by_remark words.now) }
        ensures rows { self.new.rows ≡ self.old.rows }
        ensures remarked { self.new.remarked ≡ self.old.remarked }
    {
        let before = self.by_remark.get(words).copied().unwrap_or(0);
        self.by_remark.insert(words, before.saturating_add(1))?;
        Ok(())
    }

    /// Counts one more for each of these remarks.
    fn count_remarks(&mut self, remarks: &[Remark]) -> Result<(), AllocError>
        ensures remarks { OnOk result
            (self.new.by_remark ≡ inside.with_remarks self.old.by_remark remarks.now) }
        ensures rows { self.new.rows ≡ self.old.rows }
        ensures remarked { self.new.remarked ≡ self.old.remarked }
    {
        for remark in remarks {
            self.count_words(remark.words())?;
        }
        Ok(())
    }

    /// Counts a row that has these remarks. If memory runs out, the counts of remarks are unknown.
    pub(crate) fn count(&mut self, remarks: &[Remark]) -> Result<(), AllocError>
        ensures { OnOk result (self.new ≡ inside.with_row self.old remarks.now) }
    {
        self.count_remarks(remarks)?;
        self.rows = self.rows.saturating_add(1);
        if !remarks.is_empty() {
            self.remarked = self.remarked.saturating_add(1);
        }
        Ok(())
    }

    /// Returns whether a row has a remark.
    pub fn has_remarks(&self) -> bool
        ensures { result ≡ spec.has_remarks self.now }
    {
        self.remarked > 0
    }

    /// Returns the tally in lines, each after `front`: `rows: 6`, `rows with a remark: 3`. For each
    /// remark that a row has, a line says how many rows have it, such as `several days: 2`. These
    /// lines are in the order of the remarks' words.
    ///
    /// # Errors
    ///
    /// If memory runs out, and in no other case.
    pub fn text(&self, alloc: Global, front: &str) -> Result<String, AllocError>
        ensures { IfOk result (λ text. string_bytes text ≡ spec.tally_text front.now self.now) }
    {
        let mut text = String::new(alloc);
        push_line(alloc, &mut text, front, "rows", self.rows)?;
        push_line(alloc, &mut text, front, "rows with a remark", self.remarked)?;
        for (words, count) in &self.by_remark {
            push_line(alloc, &mut text, front, words, *count)?;
        }
        Ok(text)
    }
}
