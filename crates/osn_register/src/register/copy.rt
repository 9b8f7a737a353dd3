//! Registers made of another one, and of edits.
ghost use Rattle.std.specs.Prelude.{◌≡◌, [], true, None, IfOk, OnOk, OnErr, ◌<◌, length};
ghost use Rattle.osn_days.specs.Rules.{newest_rules};
ghost use Rattle.osn_register.specs.Code as form;
ghost use Rattle.osn_register.specs.Inside.{sources_in};
ghost use Rattle.osn_register.specs.Sources.{HasSources};
ghost use Rattle.osn_register.specs.Plain.{after_edits, register_after, fold_takes_memory};
ghost use Rattle.osn_register.specs.Plain.{entry_of, with_entry, IsSoundTerritory};

use crate::edit::Edit;
use crate::limits::Limits;
use crate::register::{NamedTerritory, Register};
use std::alloc::{AllocError, Global};

impl Register {
    /// Returns a register equal to this one.
    ///
    /// # Errors
    ///
    /// If memory runs out. The copy of an empty register needs none.
    pub fn copy(&self) -> Result<Register, AllocError>
        ensures value { IfOk result (λ r. r ≡ self.now) }
        ensures memory { OnErr result (0 < length self.now.territories) }
    {
        let mut copied = Register::new(self.alloc, self.limits);
        for (code, entry) in &self.territories {
            copied.insert_copy(code.as_str(), entry)?;
        }
        Ok(copied)
    }

    /// Adds a copy of a territory that another register keeps under a code.
    fn insert_copy(&mut self, code: &str, entry: &NamedTerritory) -> Result<(), AllocError>
        requires absent { entry_of code.now self.old.territories ≡ None }
        requires code { form.is_code code.now ≡ true }
        requires name { form.is_name entry.now.name ≡ true }
        requires room { length self.old.territories < self.old.limits.lands }
        requires territory { IsSoundTerritory newest_rules self.old.limits entry.now.territory }
        requires sources { HasSources (sources_in entry.now.sources) }
        ensures ok { OnOk result (self.new ≡ record self.old {
          territories = with_entry self.old.territories code.now entry.now.name entry.now.territory
              (sources_in entry.now.sources);
        }) }
        ensures err { OnErr result (self.new ≡ self.old) }
    {
        let key = String::from_str(self.alloc, code)?;
        self.insert(key, entry.copy(self.alloc)?)
    }

    /// Applies edits in turn, and ignores those that are refused.
    ///
    /// # Errors
    ///
    /// If memory runs out. Refused edits need none, nor those that drop, nor those that alter and
    /// give no source. On an error some of the edits may have been applied.
    pub fn apply_all(&mut self, edits: &[Edit]) -> Result<(), AllocError>
        ensures ok { OnOk result (self.new ≡ record self.old {
          territories = after_edits newest_rules self.old.limits self.old.territories edits.now;
        }) }
        ensures memory { OnErr result
            (fold_takes_memory newest_rules self.old.limits self.old.territories edits.now ≡ true) }
    {
        for edit in edits {
            self.apply_if_lawful(edit)?;
        }
        Ok(())
    }

    /// Returns the register of edits applied in turn to the empty one. Refused edits are ignored.
    ///
    /// # Errors
    ///
    /// If memory runs out. Refused edits need none, nor those that drop, nor those that alter and
    /// give no source.
    pub fn fold(alloc: Global, limits: Limits, edits: &[Edit]) -> Result<Register, AllocError>
        ensures value { IfOk result (λ r. r ≡ register_after newest_rules limits edits.now) }
        ensures memory { OnErr result (fold_takes_memory newest_rules limits [] edits.now ≡ true) }
    {
        let mut register = Register::new(alloc, limits);
        register.apply_all(edits)?;
        Ok(register)
    }
}
