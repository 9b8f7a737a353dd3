//! A territory: a list of the starts of its regimes and of the years with a listed Easter.
ghost use Rattle.std.specs.Prelude.{◌≡◌, ◌<◌, Some, None, IfOk, IfErr, OnOk, OnErr, length};
ghost use Rattle.std.specs.List.{HoldsAt};
ghost use Rattle.std.specs.Option.{option_to_list};
ghost use Rattle.osn_days.specs.Rules.{first_rules, newest_rules};
ghost use Rattle.osn_territory.specs.Territory as plain;
ghost use Rattle.osn_territory.specs.Changes as changes;
ghost use Rattle.osn_territory.specs.Easters as feast;
ghost use Rattle.osn_territory.specs.EasterSearch.{easters_in_force};
ghost use Rattle.osn_territory.specs.Exceptions as exceptions;
ghost use Rattle.osn_territory.specs.EarlierRules.{KeepsEasters};
ghost use Rattle.osn_territory.specs.Faults.{IsCheckOf, IsFaultOrNoMemory};

mod calendar;
mod dates;
mod gaps;
mod readings;
mod years;

use crate::easters::push_in_order;
use crate::fault::LandFault;
use crate::period::Period;
use crate::period_list::{alter, find_period, is_start, join, split};
use crate::regime::Regime;
use osn_computus::{Rule, easter};
use osn_days::{Day, Year};
use std::alloc::{AllocError, Global};
use std::collections::BTreeMap;
use std::marker::Model;

/// A territory: the regimes that were in force in it, each from its start day on, and the years
/// whose Easter is listed.
#[derive(Drop)]
pub struct Territory {
    alloc: Global,
    periods: Vec<Period>,
    exceptions: BTreeMap<Year, Day>,
}

impl Model for Territory {
    ghost use Rattle.osn_territory.specs.Territory.{TerritoryModel};

    ghost Value = { TerritoryModel };

    ghost use Rattle.osn_territory.specs.PeriodList.{territory_in, IsWhole};

    ghost view = { territory_in };

    ghost invariant = { IsWhole };
}

impl Territory {
    /// Returns a territory with one regime on every day of the line.
    ///
    /// # Errors
    ///
    /// `StyleNeedsJulian` for a regime that no territory takes, then `NoMemory`.
    pub fn new(alloc: Global, regime: Regime) -> Result<Territory, LandFault>
        ensures lawful { OnOk result (changes.regime_fault regime ≡ None) }
        ensures ok { IfOk result (λ t. t ≡ plain.of_one_regime regime) }
        ensures refused { IfErr result (IsFaultOrNoMemory (changes.regime_fault regime)) }
    {
        if regime.lacks_julian() {
            return Err(LandFault::StyleNeedsJulian);
        }
        Ok(Territory::open(alloc, regime)?)
    }

    /// Returns a territory with one regime on every day of the line, which a territory takes.
    ///
    /// # Errors
    ///
    /// `AllocError` if there is no memory for the first period.
    pub fn open(alloc: Global, regime: Regime) -> Result<Territory, AllocError>
        requires { changes.regime_fault regime ≡ None }
        ensures { IfOk result (λ t. t ≡ plain.of_one_regime regime) }
    {
        let mut periods = Vec::new(alloc);
        periods.push(Period {
            first: Day::FIRST,
            last: Day::LAST,
            regime,
        })?;
        Ok(Territory {
            alloc,
            periods,
            exceptions: BTreeMap::new(alloc),
        })
    }

    /// Changes the regime from a day on, until the next change or the end of the line.
    ///
    /// # Errors
    ///
    /// `OpeningPeriod` for day 1, then `ChangeExists` if a period starts on the day, then
    /// `StyleNeedsJulian` for a regime that no territory takes, then `NoMemory`.
    pub fn add_change(&mut self, day: Day, regime: Regime) -> Result<(), LandFault>
        ensures lawful { OnOk result (changes.add_fault self.old day regime ≡ None) }
        ensures ok { OnOk result (self.new ≡ changes.with_change self.old day regime) }
        ensures refused { IfErr result (IsFaultOrNoMemory (changes.add_fault self.old day regime)) }
        ensures unchanged { OnErr result (self.new ≡ self.old) }
    {
        if day == Day::FIRST {
            return Err(LandFault::OpeningPeriod);
        }
        if self.starts_on(day) {
            return Err(LandFault::ChangeExists);
        }
        if regime.lacks_julian() {
            return Err(LandFault::StyleNeedsJulian);
        }
        self.insert_change(day, regime)?;
        Ok(())
    }

    /// Changes the regime from a day on which no period starts, to one that a territory takes.
    ///
    /// # Errors
    ///
    /// `AllocError` if there is no memory for one period more; the call may be tried again.
    pub fn insert_change(&mut self, day: Day, regime: Regime) -> Result<(), AllocError>
        requires { changes.add_fault self.old day regime ≡ None }
        ensures ok { OnOk result (self.new ≡ changes.with_change self.old day regime) }
        ensures unchanged { OnErr result (self.new ≡ self.old) }
    {
        split(&mut self.periods, day, regime)
    }

    /// Alters the regime that starts on a day, on day 1 that of the opening period.
    ///
    /// # Errors
    ///
    /// `NoSuchChange` if no period starts on the day, then `StyleNeedsJulian` for a regime that no
    /// territory takes.
    pub fn alter_change(&mut self, day: Day, regime: Regime) -> Result<(), LandFault>
        ensures value { IsCheckOf (changes.alter_fault self.old day regime) result }
        ensures ok { OnOk result (self.new ≡ changes.with_altered self.old day regime) }
        ensures unchanged { OnErr result (self.new ≡ self.old) }
    {
        if !self.starts_on(day) {
            return Err(LandFault::NoSuchChange);
        }
        if regime.lacks_julian() {
            return Err(LandFault::StyleNeedsJulian);
        }
        self.set_regime(day, regime);
        Ok(())
    }

    /// Alters the regime of the period that starts on a day, to one that a territory takes.
    pub fn set_regime(&mut self, day: Day, regime: Regime)
        requires { changes.alter_fault self.old day regime ≡ None }
        ensures { self.new ≡ changes.with_altered self.old day regime }
    {
        alter(&mut self.periods, day, regime);
    }

    /// Drops the change on a day: the period before it continues to the end of the dropped one.
    ///
    /// # Errors
    ///
    /// `OpeningPeriod` for day 1, then `NoSuchChange` if no period starts on the day.
    pub fn drop_change(&mut self, day: Day) -> Result<(), LandFault>
        ensures value { IsCheckOf (changes.drop_fault self.old day) result }
        ensures ok { OnOk result (self.new ≡ changes.without_change self.old day) }
        ensures unchanged { OnErr result (self.new ≡ self.old) }
    {
        if day == Day::FIRST {
            return Err(LandFault::OpeningPeriod);
        }
        if !self.starts_on(day) {
            return Err(LandFault::NoSuchChange);
        }
        self.remove_change(day);
        Ok(())
    }

    /// Drops the change on a day on which a period starts that is not the opening one.
    pub fn remove_change(&mut self, day: Day)
        requires { changes.drop_fault self.old day ≡ None }
        ensures { self.new ≡ changes.without_change self.old day }
    {
        join(&mut self.periods, day);
    }

    /// Lists a day as the Easter of a year, in place of the rule's.
    ///
    /// # Errors
    ///
    /// `ExceptionExists` if one is listed for the year, then `NoMemory`.
    pub fn add_exception(&mut self, year: Year, day: Day) -> Result<(), LandFault>
        ensures lawful { OnOk result (exceptions.add_exception_fault self.old year ≡ None) }
        ensures ok { OnOk result (self.new ≡ exceptions.with_exception self.old year day) }
        ensures listed { OnOk result (exceptions.exception_of self.new year ≡ Some day) }
        ensures others { OnOk result (exceptions.KeepsOtherYears self.old self.new year) }
        ensures refused { IfErr result
            (IsFaultOrNoMemory (exceptions.add_exception_fault self.old year)) }
        ensures unchanged { OnErr result (self.new ≡ self.old) }
    {
        if self.exception(year).is_some() {
            return Err(LandFault::ExceptionExists);
        }
        self.insert_exception(year, day)?;
        Ok(())
    }

    /// Lists a day as the Easter of a year that has none listed.
    ///
    /// # Errors
    ///
    /// `AllocError` if there is no memory for one entry more; the call may be tried again.
    pub fn insert_exception(&mut self, year: Year, day: Day) -> Result<(), AllocError>
        requires { exceptions.add_exception_fault self.old year ≡ None }
        ensures ok { OnOk result (self.new ≡ exceptions.with_exception self.old year day) }
        ensures listed { OnOk result (exceptions.exception_of self.new year ≡ Some day) }
        ensures others { OnOk result (exceptions.KeepsOtherYears self.old self.new year) }
        ensures unchanged { OnErr result (self.new ≡ self.old) }
    {
        self.exceptions.insert(year, day)?;
        Ok(())
    }

    /// Drops the exception of a year, whose Easter is then the rule's.
    ///
    /// # Errors
    ///
    /// `NoSuchException` if no exception is listed for the year.
    pub fn drop_exception(&mut self, year: Year) -> Result<(), LandFault>
        ensures value { IsCheckOf (exceptions.drop_exception_fault self.old year) result }
        ensures ok { OnOk result (self.new ≡ exceptions.without_exception self.old year) }
        ensures gone { OnOk result (exceptions.exception_of self.new year ≡ None) }
        ensures others { OnOk result (exceptions.KeepsOtherYears self.old self.new year) }
        ensures unchanged { OnErr result (self.new ≡ self.old) }
    {
        if self.exception(year).is_none() {
            return Err(LandFault::NoSuchException);
        }
        self.remove_exception(year);
        Ok(())
    }

    /// Drops the exception that is listed for a year.
    pub fn remove_exception(&mut self, year: Year)
        requires { exceptions.drop_exception_fault self.old year ≡ None }
        ensures value { self.new ≡ exceptions.without_exception self.old year }
        ensures gone { exceptions.exception_of self.new year ≡ None }
        ensures others { exceptions.KeepsOtherYears self.old self.new year }
    {
        self.exceptions.remove(&year);
    }

    /// Returns whether a period starts on a day.
    pub fn starts_on(&self, day: Day) -> bool
        ensures { result ≡ changes.starts_on self.now day }
    {
        is_start(&self.periods, day)
    }

    /// Returns the place in `periods()`, from 0, of the period that holds a day, and how many start
    /// days were tested to find it. They are at most as many as the number of periods has binary
    /// digits.
    pub fn period_at(&self, day: Day) -> (usize, u32)
        ensures within { result.0 < length (plain.periods_of newest_rules self.now) }
        ensures holds { HoldsAt (plain.Holds day)
            (plain.periods_of newest_rules self.now) result.0 }
        ensures tested { plain.IsWithinBinaryDigits result.1
            (length (plain.periods_of newest_rules self.now)) }
    {
        find_period(&self.periods, day)
    }

    /// Returns the regime in force on a day.
    pub fn regime_at(&self, day: Day) -> Regime
        ensures { result ≡ plain.regime_at self.now day }
    {
        let (place, _) = self.period_at(day);
        self.periods()[place].regime
    }

    /// Returns the periods, in order.
    pub fn periods(&self) -> &[Period]
        ensures value { result.now ≡ plain.periods_of newest_rules self.now }
        ensures whole { plain.CoversLine newest_rules result.now }
    {
        self.periods.as_slice()
    }

    /// Returns the day that is listed as the Easter of a year.
    pub fn exception(&self, year: Year) -> Option<Day>
        ensures { result ≡ exceptions.exception_of self.now year }
    {
        self.exceptions.get(&year).copied()
    }

    /// Returns how many years have a listed exception.
    pub fn exception_count(&self) -> usize
        ensures value { result ≡ length self.now.exceptions }
        ensures ascending { exceptions.HasAscendingYears self.now }
    {
        self.exceptions.len()
    }

    /// Returns Easter of a year by a rule, if that rule is in force on the day.
    fn easter_in_force(&self, rule: Rule, year: Year) -> Option<Day>
        ensures { option_to_list result ≡ easters_in_force newest_rules self.now rule year }
    {
        let day = easter(rule, year);
        if self.regime_at(day).rule == rule {
            Some(day)
        } else {
            None
        }
    }

    /// Returns the days that were Easter of a year in the territory, in order. If a day is listed,
    /// that is this day alone. Otherwise it is each day that is the year's Easter by the rule in
    /// force on it. So a year may have none, one or two.
    ///
    /// # Errors
    ///
    /// `AllocError` if there is no memory for the list.
    pub fn easters(&self, year: Year) -> Result<Vec<Day>, AllocError>
        ensures value { IfOk result (λ days.
            days.items ≡ feast.easters newest_rules self.now year) }
        // as a law: a year of the first rules keeps its Easters
        ensures earlier_rules { IfOk result
            (λ days. KeepsEasters first_rules self.now year days.items) }
    {
        let mut days = Vec::new(self.alloc);
        if let Some(day) = self.exception(year) {
            days.push(day)?;
            return Ok(days);
        }
        let julian = self.easter_in_force(Rule::Julian, year);
        let gregorian = self.easter_in_force(Rule::Gregorian, year);
        push_in_order(julian, gregorian, &mut days)?;
        Ok(days)
    }

    /// Returns an equal territory.
    ///
    /// # Errors
    ///
    /// `AllocError` if there is no memory for as many periods and exceptions.
    pub fn copy(&self) -> Result<Territory, AllocError>
        ensures { IfOk result (λ t. t ≡ self.now) }
    {
        Ok(Territory {
            alloc: self.alloc,
            periods: self.periods.clone()?,
            exceptions: self.exceptions.clone()?,
        })
    }
}
