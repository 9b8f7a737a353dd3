//! The days that a written date means in a territory.
ghost use Rattle.std.specs.Prelude.{◌≡◌, IfOk, map};
ghost use Rattle.osn_days.specs.Rules.{newest_rules};
ghost use Rattle.osn_territory.specs.Dating.{dated_on};
ghost use Rattle.osn_territory.specs.Style.{is_before_25_march};
ghost use Rattle.osn_written.specs.OneDay.{AreSameDays};
ghost use Rattle.osn_written.specs.Meaning as spec;

use crate::written_date::WrittenDate;
use osn_days::{Day, Weekday};
use osn_territory::{DatedDay, Label, Territory};
use std::alloc::{AllocError, Global};

impl WrittenDate {
    /// Returns the label that the date has by its first year, or its only one.
    pub fn label(self) -> Label
        ensures { result ≡ spec.label_of self }
    {
        Label {
            year: i32::from(self.year),
            month: self.month,
            day: self.day,
        }
    }

    /// Returns the label of the same month and day in the later year.
    fn later_label(self) -> Label
        ensures { result ≡ spec.later_label self }
    {
        Label {
            year: i32::from(self.year) + 1,
            ..self.label()
        }
    }

    /// Returns whether the date is from 1 January to 24 March.
    fn is_before_25_march(self) -> bool
        ensures { result ≡ is_before_25_march self.month self.day }
    {
        self.month < 3 || self.month == 3 && self.day < 25
    }
}

/// Returns whether the year of a day, counted from 1 January, is the later one of a double date.
fn is_of_later_year(date: WrittenDate, day: DatedDay) -> bool
    ensures { result ≡ spec.is_of_later_year date day }
{
    day.january_year == i32::from(date.year) + 1
}

/// Returns the days of a label whose year, counted from 1 January, is the later one of a double
/// date, in order.
fn read_in_later_year(
    territory: &Territory,
    date: WrittenDate,
    label: Label,
) -> Result<Vec<Day>, AllocError>
    ensures { IfOk result (λ days.
        days.items ≡ spec.read_in_later_year newest_rules territory.now date label) }
{
    let mut days = territory.read(label)?;
    days.retain(|day| is_of_later_year(date, territory.dated(*day)));
    Ok(days)
}

/// Returns the days of a double date before 25 March on which the territory wrote the later year
/// alone.
fn not_counted_double(
    alloc: Global,
    territory: &Territory,
    date: WrittenDate,
) -> Result<Vec<Day>, AllocError>
    ensures { IfOk result (λ days.
        days.items ≡ spec.not_counted_double newest_rules territory.now date) }
{
    if date.is_before_25_march() {
        read_in_later_year(territory, date, date.later_label())
    } else {
        Ok(Vec::new(alloc))
    }
}

/// Returns the days that a double date means.
fn double_meant(
    alloc: Global,
    territory: &Territory,
    date: WrittenDate,
) -> Result<Vec<Day>, AllocError>
    ensures { IfOk result (λ days.
        days.items ≡ spec.double_meant newest_rules territory.now date) }
{
    let others = not_counted_double(alloc, territory, date)?;
    let mut days = read_in_later_year(territory, date, date.label())?;
    days.extend_from_slice(others.as_slice())?;
    Ok(days)
}

/// Returns the days that a date means, before any weekday is compared.
#[tactic(auto, unfolding(crate::specs::Meaning::days_meant))]
fn plain_days_meant(
    alloc: Global,
    territory: &Territory,
    date: WrittenDate,
) -> Result<Vec<Day>, AllocError>
    ensures { IfOk result (λ days.
        days.items ≡ spec.days_meant newest_rules territory.now date) }
{
    if date.is_double {
        double_meant(alloc, territory, date)
    } else {
        territory.read(date.label())
    }
}

/// Returns whether a day is on a weekday, if one is given.
pub fn is_on(given: Option<Weekday>, day: Day) -> bool
    ensures { result ≡ spec.is_on given day }
{
    match given {
        None => true,
        Some(given) => day.weekday().name() == given.name(),
    }
}

/// Returns whether a day is of the weekday that the date names, and of the one that is given beside
/// it.
pub fn has_weekday(date: WrittenDate, given: Option<Weekday>, day: &DatedDay) -> bool
    ensures { result ≡ spec.has_weekday date given day.now }
{
    is_on(date.weekday, day.day) && is_on(given, day.day)
}

/// Returns whether a double date means the day although the territory wrote the later year alone.
pub fn is_not_counted_double(date: WrittenDate, day: &DatedDay) -> bool
    ensures { result ≡ spec.is_not_counted_double date day.now }
{
    date.is_double && day.label.year != i32::from(date.year)
}

/// Returns the days as the territory dated them.
fn dated_days(
    alloc: Global,
    territory: &Territory,
    days: &[Day],
) -> Result<Vec<DatedDay>, AllocError>
    ensures { IfOk result (λ dated.
        dated.items ≡ map (dated_on newest_rules territory.now) days.now) }
{
    days.iter().map(|day| territory.dated(*day)).collect(alloc)
}

/// Returns these days as a territory dated them, whatever reckoning they were found by.
///
/// # Errors
///
/// `AllocError` if there is no memory for the list.
pub fn dated_by(
    alloc: Global,
    territory: &Territory,
    days: &[DatedDay],
) -> Result<Vec<DatedDay>, AllocError>
    ensures { IfOk result (λ dated.
        dated.items ≡ spec.dated_by newest_rules territory.now days.now) }
{
    days.iter()
        .map(|day| territory.dated(day.day))
        .collect(alloc)
}

/// Returns the days, those first that have the weekday.
fn first_by_weekday(
    alloc: Global,
    date: WrittenDate,
    given: Option<Weekday>,
    days: &[DatedDay],
) -> Result<Vec<DatedDay>, AllocError>
    ensures { IfOk result (λ ordered.
        ordered.items ≡ spec.first_by_weekday date given days.now) }
{
    let of_weekday = days.iter().filter(|day| has_weekday(date, given, day));
    let others = days.iter().filter(|day| !has_weekday(date, given, day));
    of_weekday.chain(others).copied().collect(alloc)
}

/// Returns the days that a date means in a territory, as the territory dated them. Those come first
/// that have the weekday which the date names, and the one that is given beside it.
///
/// A double date means the days whose year is its first one by the style that was in force, and is
/// the later one when counted from 1 January. Before 25 March it also means the days on which the
/// territory's own year was the later one too, such as in a territory that counted from 1 January.
///
/// # Errors
///
/// `AllocError` if there is no memory for the list.
#[tactic(auto, using(crate::proofs::OneDayFacts::same_days), unfolding(crate::specs::Meaning::meaning))]
pub fn days_meant(
    alloc: Global,
    territory: &Territory,
    date: WrittenDate,
    given: Option<Weekday>,
) -> Result<Vec<DatedDay>, AllocError>
    ensures value { IfOk result (λ days.
        days.items ≡ spec.meaning newest_rules territory.now date given) }
    // as a law: the days of the label are those that a search through every day finds
    ensures same { AreSameDays newest_rules territory.now }
{
    let days = plain_days_meant(alloc, territory, date)?;
    let dated = dated_days(alloc, territory, days.as_slice())?;
    first_by_weekday(alloc, date, given, dated.as_slice())
}
