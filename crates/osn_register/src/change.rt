//! Lawful changes of a territory and of its sources.
ghost use Rattle.std.specs.Prelude.{◌≡◌, ◌||◌, true, None, OnOk, OnErr, is_some};
ghost use Rattle.osn_days.specs.Rules.{newest_rules};
ghost use Rattle.osn_register.specs.declared.limits.Limits.{Limits};
ghost use Rattle.osn_register.specs.InsideChange.{change_refusal, territory_after};
ghost use Rattle.osn_register.specs.Inside.{sources_in};
ghost use Rattle.osn_register.specs.InsideChange.{change_takes_memory, number_of, sources_after};
ghost use Rattle.osn_register.specs.Sources.{IsGiven, with_source};

use crate::source::Source;
use crate::sources::{Sources, insert_source, remove};
use osn_days::{Day, Year};
use osn_territory::{Regime, Territory};
use std::alloc::AllocError;

/// What a lawful edit does in one territory.
#[derive(Clone, Copy)]
pub(crate) enum TerritoryEdit {
    Add(Day, Regime),
    Alter(Day, Regime),
    Drop(Day),
    AddException(Year, Day),
    DropException(Year),
}

impl TerritoryEdit {
    /// Makes the change. If memory runs out, nothing has changed.
    fn change(&self, territory: &mut Territory) -> Result<(), AllocError>
        requires { (limits : Limits) × (change_refusal newest_rules limits self.now territory.old
            ≡ None) }
        ensures ok { OnOk result (territory.new ≡ territory_after self.now territory.old) }
        ensures err { OnErr result (territory.new ≡ territory.old) }
        ensures memory { OnErr result (change_takes_memory self.now ≡ true) }
    {
        match *self {
            TerritoryEdit::Add(day, regime) => territory.insert_change(day, regime),
            TerritoryEdit::Alter(day, regime) => {
                territory.set_regime(day, regime);
                Ok(())
            }
            TerritoryEdit::Drop(day) => {
                territory.remove_change(day);
                Ok(())
            }
            TerritoryEdit::AddException(year, day) => territory.insert_exception(year, day),
            TerritoryEdit::DropException(year) => {
                territory.remove_exception(year);
                Ok(())
            }
        }
    }

    /// Returns the number by which the source of a change is found: that of the day on which a
    /// period starts, or that of the year of a listed Easter.
    fn number(self) -> u32
        ensures { result ≡ number_of self }
    {
        match self {
            TerritoryEdit::Add(day, _) | TerritoryEdit::Alter(day, _) | TerritoryEdit::Drop(day) =>
                day.number(),
            TerritoryEdit::AddException(year, _) | TerritoryEdit::DropException(year) => {
                year.number()
            }
        }
    }

    /// Makes the change. The period or the listed Easter that it is of gets this source, or none.
    /// If memory runs out, nothing has changed.
    fn change_with(
        self,
        territory: &mut Territory,
        sources: &mut Vec<(u32, Source)>,
        source: Option<Source>,
    ) -> Result<(), AllocError>
        requires { (limits : Limits) × (change_refusal newest_rules limits self territory.old
            ≡ None) }
        ensures ok { OnOk result ((territory.new ≡ territory_after self territory.old)
            × (sources.new.items ≡ with_source (number_of self) source sources.old.items)) }
        ensures err { OnErr result ((territory.new ≡ territory.old)
            × (sources.new.items ≡ sources.old.items)) }
        ensures memory { OnErr result (change_takes_memory self || is_some source ≡ true) }
    {
        let number = self.number();
        match source {
            Some(source) => {
                sources.reserve(1)?;
                self.change(territory)?;
                insert_source(sources, number, source);
            }
            None => {
                self.change(territory)?;
                remove(sources, number);
            }
        }
        Ok(())
    }

    /// Makes the change. The period or the listed Easter that it is of gets a copy of this source,
    /// or none. If memory runs out, nothing has changed.
    pub(crate) fn make(
        self,
        territory: &mut Territory,
        sources: &mut Sources,
        source: &Option<Source>,
    ) -> Result<(), AllocError>
        requires { (limits : Limits) × (change_refusal newest_rules limits self territory.old
            ≡ None) }
        ensures ok { OnOk result ((territory.new ≡ territory_after self territory.old)
            × (sources_in sources.new ≡ sources_after self source.now (sources_in sources.old))) }
        ensures allowed { OnOk result (IsGiven source.now) }
        ensures err { OnErr result ((territory.new ≡ territory.old)
            × (sources_in sources.new ≡ sources_in sources.old)) }
        ensures memory { OnErr result (change_takes_memory self || is_some source.now ≡ true) }
    {
        let source = Source::copy_if_given(source)?;
        match self {
            TerritoryEdit::Add(..) | TerritoryEdit::Alter(..) | TerritoryEdit::Drop(_) => {
                self.change_with(territory, &mut sources.periods, source)
            }
            TerritoryEdit::AddException(..) | TerritoryEdit::DropException(_) => {
                self.change_with(territory, &mut sources.easters, source)
            }
        }
    }
}
