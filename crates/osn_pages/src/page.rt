//! The pages on a territory: which there are, and the text of each.
ghost use Rattle.std.specs.Prelude.{◌≡◌, ◌++◌, ◌∷◌, None, IfOk, IfErr, OnOk, string_bytes, codes};
ghost use Rattle.std.specs.Fmt.{decimal};
ghost use Rattle.osn_days.specs.Rules.{newest_rules};
ghost use Rattle.osn_register.specs.Refusal.{IsRefusalOrNoMemory};
ghost use Rattle.osn_register.specs.Plain.{code_refusal};
ghost use Rattle.osn_pages.specs.DateLines.{date_lines};
ghost use Rattle.osn_pages.specs.Heading.{heading, pending_line};
ghost use Rattle.osn_pages.specs.Page as spec;
ghost use Rattle.osn_pages.specs.Remarks.{remark_lines, subject};

use crate::date_lines::push_date;
use crate::heading::{push_pending, push_territory_heading};
use crate::month::push_month;
use crate::periods::push_period;
use crate::reading::push_named_day;
use crate::remarks::{Subject, push_remarks};
use crate::territory::push_territory;
use crate::territory_sources::TerritorySources;
use osn_days::{Day, Weekday};
use osn_register::{Refusal, Register};
use osn_territory::Territory;
use osn_written::AnyDate;
use std::alloc::{AllocError, Global};
use std::fmt::Write;

/// What people may ask of a territory, and get a page on.
#[derive(Clone, Copy, Debug, PartialEq, Eq)]
pub enum Page {
    /// Which days a date means, with all that is written of it.
    Reading {
        date: AnyDate,
        /// The weekday that is given beside the date, if any.
        weekday: Option<Weekday>,
    },
    /// How the territory dated a day.
    OfDay {
        day: Day,
        /// The weekday that the date of the day names, if any.
        weekday: Option<Weekday>,
    },
    /// A month as the territory dated it.
    Month {
        /// The year as the territory counted it.
        year: u16,
        /// The month, 1 to 12.
        month: u8,
    },
    /// The periods and the listed Easters.
    Periods,
}

/// What was published when a page was asked for.
#[derive(Clone, Copy, Debug, PartialEq, Eq)]
pub struct Publication {
    /// The number of the edition, 0 before the first one.
    pub edition: usize,
    /// How many edits wait to be published.
    pub pending: usize,
}

/// What the heading of a page says, and the territory that the page is on.
#[derive(Clone, Copy)]
pub(crate) struct Place<'a> {
    pub(crate) name: &'a str,
    pub(crate) code: &'a str,
    pub(crate) territory: &'a Territory,
    pub(crate) sources: &'a TerritorySources<'a>,
    pub(crate) edition: usize,
}

/// The room that the text gets at first: that of most pages takes less than 500 bytes.
pub(crate) const ROOM: usize = 512;

/// Appends a day as the territory dated it, and the period that holds it.
fn push_day_lines(
    out: &mut String,
    territory: &Territory,
    sources: &TerritorySources<'_>,
    day: Day,
    weekday: Option<Weekday>,
) -> Result<(), AllocError>
    ensures { OnOk result (string_bytes out.new ≡ string_bytes out.old
        ++ spec.day_lines newest_rules territory.now sources.now day weekday) }
{
    push_named_day(out, weekday, territory.dated(day))?;
    let (place, _) = territory.period_at(day);
    push_period(out, sources, &territory.periods()[place])
}

/// Appends the page of a reading.
#[tactic(auto, unfolding(crate::specs::Heading::heading))]
fn push_reading_page(
    alloc: Global,
    out: &mut String,
    place: Place<'_>,
    date: AnyDate,
    given: Option<Weekday>,
) -> Result<(), AllocError>
    ensures { OnOk result (string_bytes out.new ≡ string_bytes out.old
        ++ (heading (subject date) place.entry.name.now place.entry.code.now place.entry.edition
        ++ (date_lines newest_rules place.entry.territory.now place.entry.sources.now date given
        ++ remark_lines newest_rules place.entry.name.now place.entry.territory.now date given))) }
{
    write!(out, "{} in ", Subject(date))?;
    push_territory_heading(out, place.name, place.code, place.edition)?;
    push_date(alloc, out, place.territory, place.sources, date, given)?;
    push_remarks(alloc, out, place.name, place.territory, date, given)
}

/// Appends the page of a day.
#[tactic(auto, unfolding(crate::specs::Heading::heading))]
fn push_day_page(
    out: &mut String,
    place: Place<'_>,
    day: Day,
    weekday: Option<Weekday>,
) -> Result<(), AllocError>
    ensures { OnOk result (string_bytes out.new ≡ string_bytes out.old
        ++ (heading (codes "day " ++ decimal day) place.entry.name.now place.entry.code.now
        place.entry.edition ++ spec.day_lines newest_rules place.entry.territory.now
        place.entry.sources.now day weekday)) }
{
    write!(out, "day {} in ", day.number())?;
    push_territory_heading(out, place.name, place.code, place.edition)?;
    push_day_lines(out, place.territory, place.sources, day, weekday)
}

/// Appends the lines of a page, its heading first.
#[tactic(auto, unfolding(crate::specs::Page::page_lines))]
fn push_page(
    alloc: Global,
    out: &mut String,
    place: Place<'_>,
    page: Page,
) -> Result<(), AllocError>
    ensures { OnOk result (string_bytes out.new ≡ string_bytes out.old
        ++ spec.page_lines newest_rules place.entry.name.now place.entry.territory.now
        place.entry.sources.now place.entry.code.now place.entry.edition page) }
{
    match page {
        Page::Reading { date, weekday } => push_reading_page(alloc, out, place, date, weekday),
        Page::OfDay { day, weekday } => push_day_page(out, place, day, weekday),
        Page::Month { year, month } => {
            push_territory_heading(out, place.name, place.code, place.edition)?;
            push_month(alloc, out, place.territory, year, month)
        }
        Page::Periods => {
            push_territory_heading(out, place.name, place.code, place.edition)?;
            push_territory(out, place.territory, place.sources)
        }
    }
}

/// Returns the whole text of a page.
fn text_of(
    alloc: Global,
    place: Place<'_>,
    pending: usize,
    page: Page,
) -> Result<String, AllocError>
    ensures { IfOk result (λ s. string_bytes s
        ≡ spec.page_lines newest_rules place.entry.name.now place.entry.territory.now
        place.entry.sources.now place.entry.code.now place.entry.edition page
        ++ pending_line pending) }
{
    let mut text = String::with_capacity(alloc, ROOM)?;
    push_page(alloc, &mut text, place, page)?;
    push_pending(&mut text, pending)?;
    Ok(text)
}

/// Returns the text of a page on the territory of that code, by what was published.
///
/// # Errors
///
/// `BadCode` for a code that no territory can have, then `UnknownLand` if no territory has it.
/// Otherwise `NoMemory` if memory runs out.
pub fn page_text(
    alloc: Global,
    register: &Register,
    code: &str,
    published: Publication,
    page: Page,
) -> Result<String, Refusal>
    ensures lawful { OnOk result (code_refusal register.now.territories code.now ≡ None) }
    ensures text { IfOk result (λ s. string_bytes s
        ≡ spec.page_text newest_rules register.now.territories code.now published page) }
    ensures refused { IfErr result
        (IsRefusalOrNoMemory (code_refusal register.now.territories code.now)) }

    // As a law: to each day of a period that the page of a territory lists the register answers
    // that period, with the source that the page cites.
    ensures answered { OnOk result
        (spec.AnswersPeriods newest_rules register.now.territories code.now page) }
{
    // Its contract says that the periods of each territory cover the line.
    let _limits = register.limits();
    let (name, territory) = register.territory(code)?;
    let sources = TerritorySources::new(register, code);
    let place = Place {
        name,
        code,
        territory,
        sources: &sources,
        edition: published.edition,
    };
    Ok(text_of(alloc, place, published.pending, page)?)
}
