//! The page of a set of dates, of which one is meant.
ghost use Rattle.std.specs.Prelude.{◌≡◌, ◌++◌, None, IfOk, IfErr, OnOk, is_err, string_bytes};
ghost use Rattle.osn_days.specs.Rules.{newest_rules};
ghost use Rattle.osn_grammar.specs.Reading.{members};
ghost use Rattle.osn_pages.specs.Heading.{heading, pending_line};
ghost use Rattle.osn_pages.specs.SetPage as spec;
ghost use Rattle.osn_register.specs.Plain.{code_refusal};
ghost use Rattle.osn_register.specs.Refusal.{IsRefusalOrNoMemory};
ghost use Rattle.osn_written.specs.SetsMeant.{set_meant, set_list_of};

use crate::date_lines::push_no_day;
use crate::heading::{push_pending, push_territory_heading};
use crate::page::{Place, Publication, ROOM};
use crate::remarks::push_not_sought;
use crate::runs::push_runs;
use crate::territory_sources::TerritorySources;
use osn_days::Weekday;
use osn_grammar::members_of;
use osn_register::{Refusal, Register};
use osn_territory::{Run, Territory};
use osn_written::{AbsentMember, AnyDate, Kind, find_set, is_set_approximate, is_set_uncertain};
use std::alloc::{AllocError, Global};
use std::fmt::Write;

/// Returns the line of how sure a set is, if anything is said of it.
fn set_sureness(is_approximate: bool, is_uncertain: bool) -> &'static str
    ensures { result.now ≡ spec.set_sureness is_approximate is_uncertain }
{
    match (is_approximate, is_uncertain) {
        (false, false) => "",
        (false, true) => "in doubt\n",
        (true, false) => "approximate\n",
        (true, true) => "approximate; in doubt\n",
    }
}

/// Appends the days of a set, or why it has none.
fn push_found_set(
    alloc: Global,
    out: &mut String,
    territory: &Territory,
    sources: &TerritorySources<'_>,
    outcome: Result<Vec<Run>, AbsentMember>,
) -> Result<(), AllocError>
    ensures { OnOk result (string_bytes out.new ≡ string_bytes out.old
        ++ spec.found_set_lines newest_rules territory.now sources.now (set_list_of outcome)) }
{
    match outcome {
        Ok(runs) => push_runs(out, territory, Kind::Set, runs.as_slice()),
        Err(absent) => push_no_day(alloc, out, territory, sources, absent.extent, absent.reason),
    }
}

/// Appends the days of a set, and what is remarked of it.
#[tactic(auto, unfolding(crate::specs::SetPage::set_lines))]
fn push_set(
    alloc: Global,
    out: &mut String,
    territory: &Territory,
    sources: &TerritorySources<'_>,
    members: &[AnyDate],
    given: Option<Weekday>,
) -> Result<(), AllocError>
    ensures { OnOk result (string_bytes out.new ≡ string_bytes out.old
        ++ spec.set_lines newest_rules territory.now sources.now members.now given) }
{
    let outcome = find_set(alloc, territory, members)?;
    push_found_set(alloc, out, territory, sources, outcome)?;
    out.push_str(set_sureness(is_set_approximate(members), is_set_uncertain(members)))?;
    push_not_sought(out, given)
}

/// Appends the page of a set that a text is.
#[tactic(auto, unfolding(crate::specs::Heading::heading))]
fn push_set_page(
    alloc: Global,
    out: &mut String,
    place: Place<'_>,
    text: &str,
    given: Option<Weekday>,
) -> Result<(), AllocError>
    ensures { OnOk result (string_bytes out.new ≡ string_bytes out.old
        ++ (heading text.now place.entry.name.now place.entry.code.now place.entry.edition
        ++ spec.set_lines newest_rules place.entry.territory.now place.entry.sources.now
        (members text.now) given)) }
{
    let members = members_of(alloc, text)?;
    write!(out, "{text} in ")?;
    push_territory_heading(out, place.name, place.code, place.edition)?;
    push_set(
        alloc,
        out,
        place.territory,
        place.sources,
        members.as_slice(),
        given,
    )
}

/// Returns the whole text of the page.
fn text_of_set(
    alloc: Global,
    place: Place<'_>,
    pending: usize,
    text: &str,
    given: Option<Weekday>,
) -> Result<String, AllocError>
    ensures { IfOk result (λ s. string_bytes s
        ≡ (heading text.now place.entry.name.now place.entry.code.now place.entry.edition
        ++ spec.set_lines newest_rules place.entry.territory.now place.entry.sources.now
        (members text.now) given) ++ pending_line pending) }
{
    let mut page = String::with_capacity(alloc, ROOM)?;
    push_set_page(alloc, &mut page, place, text, given)?;
    push_pending(&mut page, pending)?;
    Ok(page)
}

/// Returns the text of the page of the set of dates that a text is, on the territory of that code,
/// by what was published. A weekday may be given beside it.
///
/// # Errors
///
/// `BadCode` for a code that no territory can have, then `UnknownLand` if no territory has it.
/// Otherwise `NoMemory` if memory runs out.
pub fn set_page_text(
    alloc: Global,
    register: &Register,
    code: &str,
    published: Publication,
    text: &str,
    given: Option<Weekday>,
) -> Result<String, Refusal>
    ensures lawful { OnOk result (code_refusal register.now.territories code.now ≡ None) }
    ensures text { IfOk result (λ s. string_bytes s
        ≡ spec.set_page_text newest_rules register.now.territories code.now published text.now
        given) }
    ensures refused { IfErr result
        (IsRefusalOrNoMemory (code_refusal register.now.territories code.now)) }
{
    let (name, territory) = register.territory(code)?;
    let sources = TerritorySources::new(register, code);
    let place = Place {
        name,
        code,
        territory,
        sources: &sources,
        edition: published.edition,
    };
    Ok(text_of_set(alloc, place, published.pending, text, given)?)
}

/// Returns whether a date of the set that a text is means no day in a territory.
///
/// # Errors
///
/// `AllocError` if there is no memory for the list of days.
pub fn set_has_no_day(alloc: Global, territory: &Territory, text: &str) -> Result<bool, AllocError>
    ensures { IfOk result (λ none.
        none ≡ is_err (set_meant newest_rules territory.now (members text.now))) }
{
    let members = members_of(alloc, text)?;
    Ok(find_set(alloc, territory, members.as_slice())?.is_err())
}
