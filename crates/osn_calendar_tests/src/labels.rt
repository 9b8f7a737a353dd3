//! Labels of years from Easter to Easter in calendars and under rules for which no territory has
//! that style. The days were found apart, by walks along every day and the table of the Julian full
//! moons.
use crate::compare::same;
use osn_computus::Rule;
use osn_days::{Calendar, Day};
use osn_territory::{Label, Regime, Style, day_of_label, dual_text, label_of};
use std::alloc::{AllocError, Global};
use std::process::Abort;

/// Returns the day of a number on the line.
pub fn day_of(number: u32) -> Day {
    Day::new(i64::from(number)).unwrap_or(Day::FIRST)
}

/// Returns the label of a year, a month and a day.
fn label(ymd: (i32, u8, u8)) -> Label {
    Label {
        year: ymd.0,
        month: ymd.1,
        day: ymd.2,
    }
}

/// Returns a regime whose years go from Easter to Easter.
fn from_easter(calendar: Calendar, rule: Rule) -> Regime {
    let style = Style::Easter;
    Regime {
        calendar,
        style,
        rule,
    }
}

/// Days beside the Julian Easter day, which begins the year whatever the calendar and the rule.
const BESIDE: [(Calendar, Rule, u32, (i32, u8, u8)); 7] = [
    (Calendar::Gregorian, Rule::Julian, 563_296, (1542, 4, 3)),
    (Calendar::Gregorian, Rule::Julian, 563_297, (1543, 4, 4)),
    (Calendar::Gregorian, Rule::Gregorian, 700_259, (1917, 3, 31)),
    (Calendar::Gregorian, Rule::Gregorian, 700_293, (1917, 5, 4)),
    (Calendar::Gregorian, Rule::Gregorian, 700_294, (1918, 5, 5)),
    (Calendar::Swedish, Rule::Julian, 622_124, (1703, 4, 16)),
    (Calendar::Swedish, Rule::Julian, 622_125, (1704, 4, 17)),
];

fn have_labels(rt: &impl Abort, rows: &[(Calendar, Rule, u32, (i32, u8, u8))]) {
    for (calendar, rule, number, ymd) in rows {
        let actual = label_of(from_easter(*calendar, *rule), day_of(*number));
        same(rt, actual, label(*ymd));
    }
}

#[test]
fn labels_beside_the_julian_easter_day(rt: HostRuntime) {
    have_labels(&rt, &BESIDE);
}

/// A Gregorian label, and its days: the least one, then the other one.
type Days = ((i32, u8, u8), [Option<u32>; 2]);

const DAYS: [Days; 3] = [
    ((1543, 4, 4), [Some(563_297), Some(563_663)]),
    ((1542, 4, 3), [Some(563_296), None]),
    ((1542, 4, 4), [None, None]),
];

fn have_days(rt: &impl Abort, rows: &[Days]) {
    for (ymd, days) in rows {
        let regime = from_easter(Calendar::Gregorian, Rule::Julian);
        let actual = day_of_label(regime, label(*ymd));
        let expected = [days[0].map(day_of), days[1].map(day_of)];
        same(rt, (ymd, actual), (ymd, expected));
    }
}

#[test]
fn days_of_labels(rt: HostRuntime) {
    have_days(&rt, &DAYS);
}

fn has_text(rt: &impl Abort, alloc: Global) -> Result<(), AllocError> {
    let regime = from_easter(Calendar::Gregorian, Rule::Julian);
    let text = dual_text(alloc, regime, day_of(563_296))?;
    same(rt, text.as_str(), "3 April 1542/3");
    Ok(())
}

#[test]
fn a_day_has_both_years(rt: HostRuntime) -> Result<(), AllocError> {
    has_text(&rt, rt.alloc())
}
