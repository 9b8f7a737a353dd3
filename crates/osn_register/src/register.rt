//! The register: its edits, and why one is refused.
ghost use Rattle.std.specs.Prelude.{◌≡◌, [], true, Some, None, IfOk, IfErr, OnOk, OnErr};
ghost use Rattle.std.specs.Prelude.{◌<◌, ◌||◌, length, is_some, option_map};
ghost use Rattle.std.specs.Prelude.{string_bytes};
ghost use Rattle.osn_days.specs.Rules.{newest_rules};
ghost use Rattle.osn_territory.specs.Territory.{of_one_regime};
ghost use Rattle.osn_territory.specs.Changes.{regime_fault};
ghost use Rattle.osn_register.specs.Code as form;
ghost use Rattle.osn_register.specs.Plain.{refusal, add_land_refusal, code_refusal, refusal_in};
ghost use Rattle.osn_register.specs.Plain.{with_entry, with_territory, effect, after_edit};
ghost use Rattle.osn_register.specs.Plain.{register_after};
ghost use Rattle.osn_register.specs.Plain.{apply_takes_memory, entry_of, territory_of, sources_of};
ghost use Rattle.osn_register.specs.Plain.{IsSoundTerritory, IsWellFormed, takes_memory};
ghost use Rattle.osn_register.specs.Refusal.{IsCheckOf, IsRefusalOrNoMemory};
ghost use Rattle.osn_register.specs.InsideChange.{change_refusal, territory_after};
ghost use Rattle.osn_register.specs.InsideChange.{change_takes_memory, sources_after};
ghost use Rattle.osn_register.specs.Inside.{sources_in};
ghost use Rattle.osn_register.specs.Lawful.{source_given};
ghost use Rattle.osn_register.specs.Sources.{HasSources, IsGiven, opening_sources};

mod copy;
mod queries;
mod sources;
mod territories;

use crate::change::TerritoryEdit;
use crate::code::{is_code, is_name};
use crate::edit::Edit;
use crate::edit_checks::{
    check_add_change, check_add_exception, check_alter_change, check_drop_change,
    check_drop_exception, check_style,
};
use crate::limits::Limits;
use crate::refusal::Refusal;
use crate::source::Source;
use crate::sources::Sources;
use crate::text::Text;
use indexmap::IndexMap;
use osn_days::{Day, Year};
use osn_territory::{Regime, Territory};
use std::alloc::{AllocError, Global};
use std::marker::Model;

/// A territory with its name and its sources, kept by its code.
#[derive(Drop)]
struct NamedTerritory {
    name: Text,
    territory: Territory,
    sources: Sources,
}

impl NamedTerritory {
    /// Returns a territory that opens with a regime.
    fn new(
        alloc: Global,
        name: &Text,
        regime: Regime,
        source: &Option<Source>,
    ) -> Result<NamedTerritory, AllocError>
        requires { regime_fault regime ≡ None }
        ensures { IfOk result (λ e. (e.name ≡ name.now) × (e.territory ≡ of_one_regime regime)
            × (sources_in e.sources ≡ opening_sources source.now)
            × IsGiven source.now) }
    {
        Ok(NamedTerritory {
            name: name.copy()?,
            territory: Territory::open(alloc, regime)?,
            sources: Sources::of_opening(alloc, source)?,
        })
    }

    fn copy(&self, alloc: Global) -> Result<NamedTerritory, AllocError>
        ensures { IfOk result (λ e. (e.name ≡ self.now.name)
            × (e.territory ≡ self.now.territory)
            × (sources_in e.sources ≡ sources_in self.now.sources)) }
    {
        Ok(NamedTerritory {
            name: self.name.copy()?,
            territory: self.territory.copy()?,
            sources: self.sources.copy(alloc)?,
        })
    }
}

/// The territories, in the order in which they were added, under limits.
#[derive(Drop)]
pub struct Register {
    alloc: Global,
    limits: Limits,
    territories: IndexMap<String, NamedTerritory>,
}

impl Model for Register {
    ghost use Rattle.osn_days.specs.Rules.{newest_rules};
    ghost use Rattle.osn_register.specs.Plain.{RegisterModel, IsWellFormed};

    ghost Value = { RegisterModel };

    ghost use Rattle.osn_register.specs.Inside.{register_in};

    ghost view = { register_in };

    ghost invariant = { λ r. IsWellFormed newest_rules (register_in r) };
}

impl Register {
    /// Returns an empty register.
    pub fn new(alloc: Global, limits: Limits) -> Register
        ensures { result ≡ register_after newest_rules limits [] }
    {
        Register {
            alloc,
            limits,
            territories: IndexMap::new(alloc),
        }
    }

    /// Returns the limits.
    pub fn limits(&self) -> Limits
        ensures value { result ≡ self.now.limits }
        ensures well_formed { IsWellFormed newest_rules self.now }
    {
        self.limits
    }

    fn has_territory(&self, code: &str) -> bool
        ensures { result ≡ is_some (entry_of code.now self.now.territories) }
    {
        self.territories.contains_key(code)
    }

    fn known_territory(&self, code: &str) -> Result<&Territory, Refusal>
        ensures test { IsCheckOf (code_refusal self.now.territories code.now) result }
        ensures value { IfOk result (λ t. territory_of code.now self.now.territories ≡ Some t.now) }
    {
        let (_, territory) = self.territory(code)?;
        Ok(territory)
    }

    /// Returns the territory of a code, with its sources.
    fn known_entry(&self, code: &str) -> Result<(&Territory, &Sources), Refusal>
        ensures test { IsCheckOf (code_refusal self.now.territories code.now) result }
        ensures territory { IfOk result (λ l.
            territory_of code.now self.now.territories ≡ Some l.0.now) }
        ensures sources { IfOk result (λ l.
            sources_of code.now self.now.territories ≡ Some (sources_in l.1.now)) }
    {
        let territory = self.known_territory(code)?;
        match self.sources(code) {
            Some(sources) => Ok((territory, sources)),
            None => Err(Refusal::UnknownLand),
        }
    }

    /// Returns the sources of the territory of a code, if some territory has it.
    fn sources(&self, code: &str) -> Option<&Sources>
        ensures { option_map (λ s. sources_in s.now) result
            ≡ sources_of code.now self.now.territories }
    {
        match self.territories.get(code) {
            Some(entry) => Some(&entry.sources),
            None => None,
        }
    }
}

impl Register {
    /// Checks whether an edit is lawful now.
    ///
    /// # Errors
    ///
    /// The first refusal that applies.
    pub fn check(&self, edit: &Edit) -> Result<(), Refusal>
        ensures { IsCheckOf (refusal newest_rules self.now.limits self.now.territories edit.now)
            result }
    {
        match edit {
            Edit::AddLand {
                code,
                name,
                regime,
                ..
            } => self.check_add_land(code.as_str(), name.as_str(), *regime),
            Edit::AddChange {
                code,
                day,
                regime,
                ..
            } => {
                let territory = self.known_territory(code.as_str())?;
                check_add_change(self.limits, territory, *day, *regime)
            }
            Edit::AlterChange {
                code,
                day,
                regime,
                ..
            } => check_alter_change(self.known_territory(code.as_str())?, *day, *regime),
            Edit::DropChange { code, day } => {
                check_drop_change(self.known_territory(code.as_str())?, *day)
            }
            Edit::AddException {
                code,
                year,
                day,
                ..
            } => {
                let territory = self.known_territory(code.as_str())?;
                check_add_exception(self.limits, territory, *year, *day)
            }
            Edit::DropException { code, year } => {
                check_drop_exception(self.known_territory(code.as_str())?, *year)
            }
        }
    }

    fn check_add_land(&self, code: &str, name: &str, regime: Regime) -> Result<(), Refusal>
        ensures { IsCheckOf
            (add_land_refusal newest_rules self.now.limits self.now.territories code.now name.now
            regime) result }
    {
        if !is_code(code) {
            return Err(Refusal::BadCode);
        }
        if !is_name(name) {
            return Err(Refusal::BadName);
        }
        if self.has_territory(code) {
            return Err(Refusal::LandExists);
        }
        check_style(regime)?;
        if self.territories.len() >= self.limits.lands as usize {
            return Err(Refusal::TooManyLands);
        }
        Ok(())
    }

    /// Applies an edit.
    ///
    /// # Errors
    ///
    /// The first refusal that applies. Otherwise `NoMemory` if memory runs out. An edit that drops
    /// needs none, nor one that alters and gives no source. On an error nothing has changed.
    pub fn apply(&mut self, edit: &Edit) -> Result<(), Refusal>
        ensures lawful { OnOk result
            (refusal newest_rules self.old.limits self.old.territories edit.now ≡ None) }
        ensures ok { OnOk result
            (self.new ≡ record self.old { territories = effect self.old.territories edit.now }) }
        ensures refused { IfErr result
            (IsRefusalOrNoMemory (refusal newest_rules self.old.limits self.old.territories
            edit.now)) }
        ensures err { OnErr result (self.new ≡ self.old) }
        ensures memory { IfErr result (λ f. f ≡ Refusal.NoMemory → takes_memory edit.now ≡ true) }
    {
        self.check(edit)?;
        Ok(self.admit(edit)?)
    }

    /// Applies a lawful edit, and ignores one that is refused.
    ///
    /// # Errors
    ///
    /// If memory runs out. A refused edit needs none. On an error nothing has changed.
    pub fn apply_if_lawful(&mut self, edit: &Edit) -> Result<(), AllocError>
        ensures ok { OnOk result (self.new ≡ record self.old {
          territories = after_edit newest_rules self.old.limits self.old.territories edit.now;
        }) }
        ensures err { OnErr result (self.new ≡ self.old) }
        ensures memory { OnErr result
            (apply_takes_memory newest_rules self.old.limits self.old.territories edit.now ≡ true) }
    {
        match self.check(edit) {
            Ok(()) => self.admit(edit),
            Err(_) => Ok(()),
        }
    }

    /// Applies an edit that `check` accepted.
    ///
    /// # Errors
    ///
    /// If memory runs out. An edit that drops needs none, nor one that alters and gives no source.
    /// On an error nothing has changed.
    pub fn admit(&mut self, edit: &Edit) -> Result<(), AllocError>
        requires { refusal newest_rules self.old.limits self.old.territories edit.now ≡ None }
        ensures ok { OnOk result
            (self.new ≡ record self.old { territories = effect self.old.territories edit.now }) }
        ensures source { OnOk result (IsGiven (source_given edit.now)) }
        ensures err { OnErr result (self.new ≡ self.old) }
        ensures memory { OnErr result (takes_memory edit.now ≡ true) }
    {
        match edit {
            Edit::AddLand {
                code,
                name,
                regime,
                source,
            } => self.add_land(code, name, *regime, source),
            Edit::AddChange {
                code,
                day,
                regime,
                source,
            } => {
                let change = TerritoryEdit::Add(Day::on_line(*day), *regime);
                self.change(code.as_str(), change, source)
            }
            Edit::AlterChange {
                code,
                day,
                regime,
                source,
            } => {
                let change = TerritoryEdit::Alter(Day::on_line(*day), *regime);
                self.change(code.as_str(), change, source)
            }
            Edit::DropChange { code, day } => {
                self.change(
                    code.as_str(),
                    TerritoryEdit::Drop(Day::on_line(*day)),
                    &None,
                )
            }
            Edit::AddException {
                code,
                year,
                day,
                source,
            } => {
                let change = TerritoryEdit::AddException(Year::in_range(*year), Day::on_line(*day));
                self.change(code.as_str(), change, source)
            }
            Edit::DropException { code, year } => {
                let change = TerritoryEdit::DropException(Year::in_range(*year));
                self.change(code.as_str(), change, &None)
            }
        }
    }

    /// Makes a lawful change in the territory of a code. The period or the listed Easter that it is
    /// of gets this source, or none.
    fn change(
        &mut self,
        code: &str,
        change: TerritoryEdit,
        source: &Option<Source>,
    ) -> Result<(), AllocError>
        requires { refusal_in self.old.territories code.now
            (change_refusal newest_rules self.old.limits change) ≡ None }
        ensures ok { OnOk result (self.new ≡ record self.old {
          territories = with_territory code.now (territory_after change)
              (sources_after change source.now) self.old.territories;
        }) }
        ensures source { OnOk result (IsGiven source.now) }
        ensures err { OnErr result (self.new ≡ self.old) }
        ensures memory { OnErr result (change_takes_memory change || is_some source.now ≡ true) }
    {
        let entry = self.territories.get_mut(code).unwrap();
        change.make(&mut entry.territory, &mut entry.sources, source)
    }

    fn add_land(
        &mut self,
        code: &Text,
        name: &Text,
        regime: Regime,
        source: &Option<Source>,
    ) -> Result<(), AllocError>
        requires absent { entry_of code.now self.old.territories ≡ None }
        requires code { form.is_code code.now ≡ true }
        requires name { form.is_name name.now ≡ true }
        requires regime { regime_fault regime ≡ None }
        requires room { length self.old.territories < self.old.limits.lands }
        ensures ok { OnOk result (self.new ≡ record self.old {
          territories = with_entry self.old.territories code.now name.now (of_one_regime regime)
              (opening_sources source.now);
        }) }
        ensures source { OnOk result (IsGiven source.now) }
        ensures err { OnErr result (self.new ≡ self.old) }
    {
        let key = String::from_str(self.alloc, code.as_str())?;
        self.insert(key, NamedTerritory::new(self.alloc, name, regime, source)?)
    }

    fn insert(&mut self, code: String, entry: NamedTerritory) -> Result<(), AllocError>
        requires absent { entry_of (string_bytes code) self.old.territories ≡ None }
        requires code { form.is_code (string_bytes code) ≡ true }
        requires name { form.is_name entry.name ≡ true }
        requires room { length self.old.territories < self.old.limits.lands }
        requires territory { IsSoundTerritory newest_rules self.old.limits entry.territory }
        requires sources { HasSources (sources_in entry.sources) }
        ensures ok { OnOk result (self.new ≡ record self.old {
          territories = with_entry self.old.territories (string_bytes code) entry.name
              entry.territory (sources_in entry.sources);
        }) }
        ensures err { OnErr result (self.new ≡ self.old) }
    {
        self.territories.insert(code, entry)?;
        Ok(())
    }
}
