//! The calls of a territory that change it or refuse to, and its copy. Day 639797 is that of the
//! Calendar (New Style) Act 1750. The others are days beside the ends of the line, whose numbers
//! are Python's `toordinal` and those of the Julian day number's formula.
use crate::compare::same;
use crate::labels::day_of;
use osn_computus::Rule;
use osn_days::{Calendar, HIGH, Year};
use osn_territory::{LandFault, Period, Regime, Style, Territory};
use std::alloc::Global;
use std::process::Abort;

const JULIAN: Regime = Regime {
    calendar: Calendar::Julian,
    style: Style::January,
    rule: Rule::Julian,
};

const GREGORIAN: Regime = Regime {
    calendar: Calendar::Gregorian,
    style: Style::January,
    rule: Rule::Gregorian,
};

/// A year from Easter to Easter with another rule than the Julian one: no territory takes it.
const UNTAKEN: Regime = Regime {
    calendar: Calendar::Julian,
    style: Style::Easter,
    rule: Rule::Gregorian,
};

/// A call that changes a territory, with the number of a day or a year.
#[derive(Clone, Copy)]
enum Call {
    AddChange(u32, Regime),
    AlterChange(u32, Regime),
    DropChange(u32),
    AddException(u32, u32),
    DropException(u32),
}

fn made(territory: &mut Territory, call: Call) -> Result<(), LandFault> {
    match call {
        Call::AddChange(day, regime) => territory.add_change(day_of(day), regime),
        Call::AlterChange(day, regime) => territory.alter_change(day_of(day), regime),
        Call::DropChange(day) => territory.drop_change(day_of(day)),
        Call::AddException(year, day) => territory.add_exception(year_of(year), day_of(day)),
        Call::DropException(year) => territory.drop_exception(year_of(year)),
    }
}

fn year_of(number: u32) -> Year {
    match Year::new(i64::from(number)) {
        Some(year) => year,
        None => Year::in_range(1),
    }
}

/// Calls in turn, and what each of them returns.
const CALLS: [(Call, Result<(), LandFault>); 23] = [
    (Call::AddChange(1, UNTAKEN), Err(LandFault::OpeningPeriod)),
    (
        Call::AlterChange(1, UNTAKEN),
        Err(LandFault::StyleNeedsJulian),
    ),
    (Call::AddChange(1, GREGORIAN), Err(LandFault::OpeningPeriod)),
    (Call::DropChange(1), Err(LandFault::OpeningPeriod)),
    (Call::AddChange(639_797, GREGORIAN), Ok(())),
    (
        Call::AddChange(639_797, JULIAN),
        Err(LandFault::ChangeExists),
    ),
    (
        Call::AddChange(639_797, UNTAKEN),
        Err(LandFault::ChangeExists),
    ),
    (
        Call::AddChange(639_798, UNTAKEN),
        Err(LandFault::StyleNeedsJulian),
    ),
    (
        Call::AlterChange(639_798, UNTAKEN),
        Err(LandFault::NoSuchChange),
    ),
    (Call::AddChange(HIGH, JULIAN), Ok(())),
    (Call::AddChange(2, GREGORIAN), Ok(())),
    (Call::AlterChange(3, JULIAN), Err(LandFault::NoSuchChange)),
    (Call::AlterChange(2, JULIAN), Ok(())),
    (Call::DropChange(639_796), Err(LandFault::NoSuchChange)),
    (Call::DropChange(HIGH), Ok(())),
    (Call::AddException(9999, 1), Ok(())),
    (Call::AddException(1, HIGH), Ok(())),
    (Call::AddException(1724, 629_412), Ok(())),
    (
        Call::AddException(1724, 629_412),
        Err(LandFault::ExceptionExists),
    ),
    (Call::DropException(1725), Err(LandFault::NoSuchException)),
    (Call::DropException(1), Ok(())),
    (Call::DropException(1), Err(LandFault::NoSuchException)),
    (Call::AlterChange(1, JULIAN), Ok(())),
];

/// The periods after these calls.
const PERIODS: [(u32, u32, Regime); 3] = [
    (1, 1, JULIAN),
    (2, 639_796, JULIAN),
    (639_797, HIGH, GREGORIAN),
];

/// Returns a territory after some calls, each of which returns this.
fn changed(rt: &impl Abort, alloc: Global, calls: &[(Call, Result<(), LandFault>)]) -> Territory {
    let mut territory = Territory::new(alloc, JULIAN).expect(rt, "it is opened");
    for (call, expected) in calls {
        same(rt, made(&mut territory, *call), *expected);
    }
    territory
}

/// Checks that a territory has some periods.
fn has_periods(rt: &impl Abort, territory: &Territory, periods: &[(u32, u32, Regime)]) {
    same(rt, territory.periods().len(), periods.len());
    for (actual, (first, last, regime)) in territory.periods().iter().zip(periods) {
        let expected = Period {
            first: day_of(*first),
            last: day_of(*last),
            regime: *regime,
        };
        same(rt, *actual, expected);
    }
}

/// Checks the territory after these calls, and its copy.
fn is_changed(rt: &impl Abort, alloc: Global) {
    let territory = changed(rt, alloc, &CALLS);
    has_periods(rt, &territory, &PERIODS);
    same(rt, territory.exception_count(), 2);
    let copied = territory.copy().expect(rt, "there is memory");
    has_periods(rt, &copied, &PERIODS);
    same(rt, copied.exception_count(), 2);
}

#[test]
fn a_territory_is_changed_and_copied(rt: HostRuntime) {
    is_changed(&rt, rt.alloc());
}

#[test]
fn a_territory_is_not_opened(rt: HostRuntime) {
    let fault = Territory::new(rt.alloc(), UNTAKEN).err();
    same(&rt, fault, Some(LandFault::StyleNeedsJulian));
}
