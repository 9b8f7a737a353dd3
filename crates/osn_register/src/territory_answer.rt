//! Answers about one territory.
ghost use Rattle.std.specs.Prelude.{◌≡◌, true, Some, None, IfOk, OnErr, All, map, option_map};
ghost use Rattle.osn_days.specs.Rules.{newest_rules};
ghost use Rattle.osn_territory.specs.Territory.{regime_at, periods_of};
ghost use Rattle.osn_territory.specs.Label.{local_label};
ghost use Rattle.osn_register.specs.Answer as spec;
ghost use Rattle.osn_register.specs.Inside.{sources_in};

use crate::answer::{Answer, Exception, Found, FoundFeast, PeriodAndSource};
use crate::source::Source;
use crate::sources::{Sources, source_of};
use crate::text::Text;
use osn_days::{Calendar, Date, Day, Year, day_of};
use osn_territory::{Label, Period, Regime, Territory, dual_text, label_of};
use osn_written::{FeastDay, Listing, feasts_of_year};
use std::alloc::{AllocError, Global};

/// Returns the period that holds a day.
fn period_on(territory: &Territory, day: Day) -> Period
    ensures value { spec.period_on (periods_of newest_rules territory.now) day ≡ Some result }
    ensures regime { result.regime ≡ regime_at territory.now day }
{
    let (place, _) = territory.period_at(day);
    territory.periods()[place]
}

/// Returns a day as a regime names it, with its label.
fn found_under(alloc: Global, regime: Regime, day: Day, label: Label) -> Result<Found, AllocError>
    requires { label ≡ local_label newest_rules regime day }
    ensures { IfOk result (λ f. f ≡ spec.found_under newest_rules regime day) }
{
    Ok(Found {
        day,
        label,
        dual: Text::new(dual_text(alloc, regime, day)?),
    })
}

/// Returns a day as the territory names it.
pub(crate) fn found_on(alloc: Global, territory: &Territory, day: Day) -> Result<Found, AllocError>
    ensures { IfOk result (λ f. f ≡ spec.found_on newest_rules territory.now day) }
{
    let regime = territory.regime_at(day);
    found_under(alloc, regime, day, label_of(regime, day))
}

/// Returns days as the territory names them.
pub(crate) fn found_days(
    alloc: Global,
    territory: &Territory,
    days: &[Day],
) -> Result<Vec<Found>, AllocError>
    ensures { IfOk result (λ v. v.items ≡ map (spec.found_on newest_rules territory.now) days.now) }
{
    let mut found = Vec::with_capacity(alloc, days.len())?;
    for day in days {
        found.push(found_on(alloc, territory, *day)?)?;
    }
    Ok(found)
}

/// Returns days that the territory dates with the label, as it names them.
fn read_days(
    alloc: Global,
    territory: &Territory,
    days: &[Day],
    label: Label,
) -> Result<Vec<Found>, AllocError>
    requires { All (λ d. label ≡ local_label newest_rules (regime_at territory.now d) d) days.now }
    ensures { IfOk result (λ v. v.items ≡ map (spec.found_on newest_rules territory.now) days.now) }
{
    let mut found = Vec::with_capacity(alloc, days.len())?;
    for day in days {
        found.push(found_under(alloc, territory.regime_at(*day), *day, label)?)?;
    }
    Ok(found)
}

/// Returns a source that is lent, as one that an answer owns.
pub(crate) fn copy_source(source: Option<&Source>) -> Result<Option<Source>, AllocError>
    ensures { IfOk result (λ s. s ≡ option_map (λ b. b.now) source.entry) }
{
    match source {
        Some(source) => Ok(Some(source.copy()?)),
        None => Ok(None),
    }
}

/// Returns a period with its source.
fn and_source(sources: &Sources, period: Period) -> Result<PeriodAndSource, AllocError>
    ensures { IfOk result (λ p. p ≡ spec.and_source (Some (sources_in sources.now)) period) }
{
    Ok(PeriodAndSource {
        period,
        source: copy_source(source_of(&sources.periods, period.first.number()))?,
    })
}

/// Returns periods, each with its source.
fn and_sources(
    alloc: Global,
    sources: &Sources,
    periods: &[Period],
) -> Result<Vec<PeriodAndSource>, AllocError>
    ensures { IfOk result (λ v.
        v.items ≡ map (spec.and_source (Some (sources_in sources.now))) periods.now) }
{
    let mut list = Vec::with_capacity(alloc, periods.len())?;
    for period in periods {
        list.push(and_source(sources, *period)?)?;
    }
    Ok(list)
}

/// Returns a day as a territory names it, with the period that holds it.
pub(crate) fn on_day(
    alloc: Global,
    territory: &Territory,
    sources: &Sources,
    day: Day,
) -> Result<Answer, AllocError>
    ensures value { IfOk result (λ a. a ≡ spec.day_answer newest_rules (Some territory.now)
        (Some (sources_in sources.now)) day) }
    ensures answered { IfOk result (λ a. spec.refusal_in a ≡ None) }
    ensures memory { OnErr result (spec.takes_memory (spec.day_answer newest_rules
        (Some territory.now) (Some (sources_in sources.now)) day) ≡ true) }
{
    let period = period_on(territory, day);
    let label = label_of(period.regime, day);
    Ok(Answer::OnDay {
        found: found_under(alloc, period.regime, day, label)?,
        period: and_source(sources, period)?,
    })
}

/// Returns the periods of a territory, each with its source.
pub(crate) fn periods(
    alloc: Global,
    territory: &Territory,
    sources: &Sources,
) -> Result<Answer, AllocError>
    ensures { IfOk result (λ a. a ≡ spec.periods_answer newest_rules (Some territory.now)
        (Some (sources_in sources.now))) }
{
    let periods = and_sources(alloc, sources, territory.periods())?;
    Ok(Answer::Periods(Listing::new(periods)))
}

/// Returns a listed Easter with its source.
fn exception(
    alloc: Global,
    territory: &Territory,
    sources: &Sources,
    year: Year,
    day: Day,
) -> Result<Exception, AllocError>
    ensures { IfOk result (λ e. e ≡ spec.exception_on newest_rules territory.now
        (Some (sources_in sources.now)) (year, day)) }
{
    Ok(Exception {
        year,
        found: found_on(alloc, territory, day)?,
        source: copy_source(source_of(&sources.easters, year.number()))?,
    })
}

/// Returns the listed Easters of a territory, each with its source.
pub(crate) fn exceptions(
    alloc: Global,
    territory: &Territory,
    sources: &Sources,
) -> Result<Answer, AllocError>
    ensures { IfOk result (λ a. a ≡ spec.exceptions_answer newest_rules (Some territory.now)
        (Some (sources_in sources.now))) }
{
    let mut list = Vec::with_capacity(alloc, territory.exception_count())?;
    for (year, day) in territory.exceptions() {
        list.push(exception(alloc, territory, sources, *year, *day)?)?;
    }
    Ok(Answer::Exceptions(Listing::new(list)))
}

/// Returns the Easters of a year in a territory.
pub(crate) fn easters(
    alloc: Global,
    territory: &Territory,
    sources: &Sources,
    year: Year,
) -> Result<Answer, AllocError>
    ensures { IfOk result (λ a. a ≡ spec.easters_answer newest_rules (Some territory.now)
        (Some (sources_in sources.now)) year) }
{
    let days = territory.easters(year)?;
    let found = found_days(alloc, territory, days.as_slice())?;
    Ok(Answer::Easters {
        found: Listing::new(found),
        listed: territory.exception(year).is_some(),
        source: copy_source(source_of(&sources.easters, year.number()))?,
    })
}

/// Returns a feast with its day as the territory names it.
fn found_feast(
    alloc: Global,
    territory: &Territory,
    feast: FeastDay,
) -> Result<FoundFeast, AllocError>
    ensures { IfOk result (λ f. f ≡ spec.found_feast newest_rules territory.now feast) }
{
    Ok(FoundFeast {
        feast: feast.feast,
        year: feast.january_year,
        found: found_on(alloc, territory, feast.day)?,
    })
}

/// Returns feasts with their days as the territory names them.
fn found_feasts(
    alloc: Global,
    territory: &Territory,
    feasts: &[FeastDay],
) -> Result<Vec<FoundFeast>, AllocError>
    ensures { IfOk result (λ v.
        v.items ≡ map (spec.found_feast newest_rules territory.now) feasts.now) }
{
    let mut found = Vec::with_capacity(alloc, feasts.len())?;
    for feast in feasts {
        found.push(found_feast(alloc, territory, *feast)?)?;
    }
    Ok(found)
}

/// Returns the principal feasts that a territory dated in a year.
pub(crate) fn feasts(alloc: Global, territory: &Territory, year: Year) -> Result<Answer, AllocError>
    ensures { IfOk result (λ a. a ≡ spec.feasts_answer newest_rules (Some territory.now) year) }
{
    let feasts = feasts_of_year(alloc, territory, year)?;
    let found = found_feasts(alloc, territory, feasts.as_slice())?;
    Ok(Answer::Feasts(Listing::new(found)))
}

/// Returns the day that has a date by a calendar, as the territory names it, if the line has one.
pub(crate) fn conversion(
    alloc: Global,
    territory: &Territory,
    calendar: Calendar,
    date: Label,
) -> Result<Answer, AllocError>
    ensures { IfOk result (λ a.
        a ≡ spec.converted_answer newest_rules (Some territory.now) calendar date) }
{
    let mut found = Vec::new(alloc);
    if let Some(day) = day_of(
        calendar,
        Date {
            year: date.year,
            month: date.month,
            day: date.day,
        },
    ) {
        found.push(found_on(alloc, territory, day)?)?;
    }
    Ok(Answer::Converted(Listing::new(found)))
}

/// Returns the reading of a label in a territory.
pub(crate) fn reading(
    alloc: Global,
    territory: &Territory,
    label: Label,
) -> Result<Answer, AllocError>
    ensures { IfOk result (λ a. a ≡ spec.reading_answer newest_rules (Some territory.now) label) }
{
    let (days, skipped, _) = territory.read_and_skipped(label)?;
    let found = read_days(alloc, territory, days.as_slice(), label)?;
    Ok(Answer::Reading {
        found: Listing::new(found),
        skipped: Listing::new(skipped),
    })
}
