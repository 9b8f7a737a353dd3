//! What is remarked of a date as it is written, and the days near it if it means none.
ghost use Rattle.std.specs.Prelude.{◌≡◌, IfOk, [], map};
ghost use Rattle.osn_days.specs.Rules.{newest_rules};
ghost use Rattle.osn_register.specs.Answer as answer;
ghost use Rattle.osn_register.specs.Remarks as spec;
ghost use Rattle.osn_written.specs.DateInWords.{words_of};
ghost use Rattle.osn_written.specs.MissingDate as days_of;

use crate::answer::{DayList, FoundList, RunList};
use crate::territory_answer::found_days;
use crate::text::Text;
use crate::written_answer::found_runs;
use osn_days::Weekday;
use osn_territory::Territory;
use osn_written::{
    AnyDate, DateInWords, Listing, MissingDate, Reckoning, changes_over, days_like,
    ends_in_next_year, is_extent_not_counted_double, year_without,
};
use std::alloc::{AllocError, Global};
use std::fmt::Write;

/// Texts in order.
pub type TextList = Listing<Text>;

/// How a date was read, and what is remarked of it.
#[derive(Debug, Drop)]
pub struct DateRemarks {
    /// The date in words, which are read as the same date; or each date of a set in words.
    pub read_as: TextList,
    /// The calendar that the text names. A set names none.
    pub reckoning: Option<Reckoning>,
    /// The weekday that the text names. A set names none.
    pub weekday: Option<Weekday>,
    /// Whether a year is written with three digits and no zero before them. A set has no such
    /// remark.
    pub has_year_of_three_digits: bool,
    /// Whether the date has both years, and the place dated a day of it by the later one alone. A
    /// set has no such remark.
    pub is_not_counted_double: bool,
    /// Whether the date is a range of days with one year written, and ends in the next year. A set
    /// has no such remark.
    pub ends_in_next_year: bool,
}

/// What is near a date that no day has.
#[derive(Debug, Drop)]
pub struct NearDays {
    /// The days most like the date: those with its first year alone, or those of its month and day
    /// in the nearest years.
    pub days: FoundList,
    /// The days of the changes at which the date was skipped.
    pub changes: DayList,
    /// The days of the year that lacks the date, as the place counted that year.
    pub year: RunList,
}

/// Returns a date in words.
fn in_words(alloc: Global, date: AnyDate) -> Result<Text, AllocError>
    ensures { IfOk result (λ text. text ≡ words_of date) }
{
    let mut words = String::new(alloc);
    write!(words, "{}", DateInWords(date))?;
    Ok(Text::new(words))
}

/// Returns dates in words.
fn all_in_words(alloc: Global, dates: &[AnyDate]) -> Result<Vec<Text>, AllocError>
    ensures { IfOk result (λ texts. texts.items ≡ map words_of dates.now) }
{
    let mut texts = Vec::with_capacity(alloc, dates.len())?;
    for date in dates {
        texts.push(in_words(alloc, *date)?)?;
    }
    Ok(texts)
}

/// Returns what is remarked of a date in a territory, if it is read by the reckoning of that other
/// one.
pub(crate) fn remarks_of(
    alloc: Global,
    territory: &Territory,
    reckoned: &Territory,
    date: AnyDate,
) -> Result<DateRemarks, AllocError>
    ensures { IfOk result (λ r.
        r ≡ spec.remarks_of newest_rules territory.now reckoned.now date) }
{
    let is_not_counted_double = is_extent_not_counted_double(
        alloc,
        territory,
        reckoned,
        date.extent,
    )?;
    Ok(DateRemarks {
        read_as: Listing::new(all_in_words(alloc, &[date])?),
        reckoning: date.reckoning,
        weekday: date.weekday,
        has_year_of_three_digits: date.extent.has_year_of_three_digits(),
        is_not_counted_double,
        ends_in_next_year: ends_in_next_year(alloc, reckoned, date.extent)?,
    })
}

/// Returns that dates were read in this way, and that nothing else is remarked.
fn remarks_if_read_as(texts: Vec<Text>) -> DateRemarks
    ensures { result ≡ spec.remarks_if_read_as texts.items }
{
    DateRemarks {
        read_as: Listing::new(texts),
        reckoning: None,
        weekday: None,
        has_year_of_three_digits: false,
        is_not_counted_double: false,
        ends_in_next_year: false,
    }
}

/// Returns what is remarked of a set of dates.
pub(crate) fn remarks_of_set(alloc: Global, members: &[AnyDate]) -> Result<DateRemarks, AllocError>
    ensures { IfOk result (λ r. r ≡ spec.remarks_if_read_as (map words_of members.now)) }
{
    Ok(remarks_if_read_as(all_in_words(alloc, members)?))
}

/// Returns that nothing is remarked of a text that is not read.
pub(crate) fn no_remarks(alloc: Global) -> DateRemarks
    ensures { result ≡ spec.remarks_if_read_as [] }
{
    remarks_if_read_as(Vec::new(alloc))
}

/// Returns that no days are near.
pub(crate) fn no_near_days(alloc: Global) -> NearDays
    ensures { result ≡ record { days = []; changes = []; year = [] } }
{
    NearDays {
        days: Listing::new(Vec::new(alloc)),
        changes: Listing::new(Vec::new(alloc)),
        year: Listing::new(Vec::new(alloc)),
    }
}

/// Returns the days most like a missing one, each as the territory names it.
fn found_like(
    alloc: Global,
    territory: &Territory,
    reckoned: &Territory,
    missing: MissingDate,
) -> Result<FoundList, AllocError>
    ensures { IfOk result (λ found. found ≡ map (answer.found_on newest_rules territory.now)
        (days_of.days_like newest_rules reckoned.now missing)) }
{
    let days = days_like(alloc, reckoned, missing)?;
    Ok(Listing::new(found_days(alloc, territory, days.as_slice())?))
}

/// Returns the days of the year that lacks a missing one, each as the territory names it.
fn found_year(
    alloc: Global,
    territory: &Territory,
    reckoned: &Territory,
    missing: MissingDate,
) -> Result<RunList, AllocError>
    ensures { IfOk result (λ found. found ≡ map (answer.found_run newest_rules territory.now)
        (days_of.year_without newest_rules reckoned.now missing)) }
{
    let runs = year_without(alloc, reckoned, missing)?;
    Ok(Listing::new(found_runs(alloc, territory, runs.as_slice())?))
}

/// Returns what is near a missing day by the reckoning of a territory, each day as another one
/// names it.
fn near_missing(
    alloc: Global,
    territory: &Territory,
    reckoned: &Territory,
    missing: MissingDate,
) -> Result<NearDays, AllocError>
    ensures { IfOk result (λ n.
        n ≡ answer.near_missing newest_rules territory.now reckoned.now missing) }
{
    let days = found_like(alloc, territory, reckoned, missing)?;
    let changes = changes_over(alloc, reckoned, missing)?;
    let year = found_year(alloc, territory, reckoned, missing)?;
    Ok(NearDays {
        days,
        changes: Listing::new(changes),
        year,
    })
}

/// Returns what is near a missing day, or nothing if no day is missing.
pub(crate) fn near(
    alloc: Global,
    territory: &Territory,
    reckoned: &Territory,
    missing: Option<MissingDate>,
) -> Result<NearDays, AllocError>
    ensures { IfOk result (λ n.
        n ≡ answer.near newest_rules territory.now reckoned.now missing) }
{
    match missing {
        Some(missing) => near_missing(alloc, territory, reckoned, missing),
        None => Ok(no_near_days(alloc)),
    }
}
