//! The texts of pages, or their answers in JSON, and whether the date of one means no day.
ghost use Rattle.std.specs.Prelude.{◌≡◌, IfOk, IfErr, OnOk, None, string_bytes};
ghost use Rattle.osn_core.specs.Edition.{edition_model};
ghost use Rattle.osn_register.specs.Plain.{code_refusal};
ghost use Rattle.osn_register.specs.Refusal.{IsRefusalOrNoMemory};
ghost use Rattle.osn_page_commands.specs.PageText as spec;

use crate::answer_line::{page_line, query_line, set_line, year_lines};
use osn_core::Edition;
use osn_days::{Weekday, Year};
use osn_pages::{
    Page, Publication, has_no_day, page_text, set_has_no_day, set_page_text, territories_page,
    year_page_text,
};
use osn_register::{BorrowedQuery, Refusal, Register};
use std::alloc::{AllocError, Global};

/// Returns the number of an edition, and how many edits are pending.
fn heading_of(edition: &Edition) -> Publication
    ensures { result ≡ spec.heading_of (edition_model edition.now) }
{
    Publication {
        edition: edition.number(),
        pending: edition.pending(),
    }
}

/// Returns a page on the territory of a code, or the line of JSON of its answer. `date` is the text
/// of its date.
pub(crate) fn entry_text(
    alloc: Global,
    edition: &Edition,
    code: &str,
    date: &str,
    page: Page,
    is_json: bool,
) -> Result<String, Refusal>
    ensures lawful { OnOk result
        (code_refusal (edition_model edition.now).territories code.now ≡ None) }
    ensures text { IfOk result (λ text. string_bytes text
        ≡ spec.entry_text (edition_model edition.now) code.now date.now page is_json) }
    ensures refused { IfErr result
        (IsRefusalOrNoMemory (code_refusal (edition_model edition.now).territories code.now)) }
{
    let register = edition.register();
    if !is_json {
        return page_text(alloc, register, code, heading_of(edition), page);
    }
    register.territory(code)?;
    Ok(page_line(alloc, edition, code, date, &page)?)
}

/// Returns the page of a year of the territory of a code, or the lines of JSON of its answers.
pub(crate) fn year_text(
    alloc: Global,
    edition: &Edition,
    code: &str,
    date: &str,
    year: Year,
    is_json: bool,
) -> Result<String, Refusal>
    ensures lawful { OnOk result
        (code_refusal (edition_model edition.now).territories code.now ≡ None) }
    ensures text { IfOk result (λ text. string_bytes text
        ≡ spec.year_text (edition_model edition.now) code.now date.now year is_json) }
    ensures refused { IfErr result
        (IsRefusalOrNoMemory (code_refusal (edition_model edition.now).territories code.now)) }
{
    let register = edition.register();
    if !is_json {
        return year_page_text(alloc, register, code, heading_of(edition), year);
    }
    register.territory(code)?;
    Ok(year_lines(alloc, edition, code, date, year)?)
}

/// Returns the page on a set of dates, or the line of JSON of its answer.
pub(crate) fn set_text(
    alloc: Global,
    edition: &Edition,
    code: &str,
    date: &str,
    weekday: Option<Weekday>,
    is_json: bool,
) -> Result<String, Refusal>
    ensures lawful { OnOk result
        (code_refusal (edition_model edition.now).territories code.now ≡ None) }
    ensures text { IfOk result (λ text. string_bytes text
        ≡ spec.set_text (edition_model edition.now) code.now date.now weekday is_json) }
    ensures refused { IfErr result
        (IsRefusalOrNoMemory (code_refusal (edition_model edition.now).territories code.now)) }
{
    let register = edition.register();
    if !is_json {
        return set_page_text(alloc, register, code, heading_of(edition), date, weekday);
    }
    register.territory(code)?;
    Ok(set_line(alloc, edition, code, date, weekday)?)
}

/// Returns the page of all territories, or the line of JSON of the answer.
pub(crate) fn territories_text(
    alloc: Global,
    edition: &Edition,
    is_json: bool,
) -> Result<String, AllocError>
    ensures { IfOk result (λ text.
        string_bytes text ≡ spec.territories_text (edition_model edition.now) is_json) }
{
    if is_json {
        query_line(alloc, edition, BorrowedQuery::Lands)
    } else {
        territories_page(alloc, edition.register(), heading_of(edition))
    }
}

/// Returns whether the date of a page means no day in the territory of the code. Other pages have
/// no date.
pub(crate) fn lacks_day(
    alloc: Global,
    register: &Register,
    code: &str,
    page: Page,
) -> Result<bool, Refusal>
    ensures value { IfOk result
        (λ lacks. lacks ≡ spec.lacks_day register.now.territories code.now page) }
    ensures refused { IfErr result
        (IsRefusalOrNoMemory (code_refusal register.now.territories code.now)) }
{
    let Page::Reading { date, .. } = page else {
        return Ok(false);
    };
    let (_, territory) = register.territory(code)?;
    Ok(has_no_day(alloc, territory, date)?)
}

/// Returns whether a date of a set means no day in the territory of the code.
pub(crate) fn lacks_set(
    alloc: Global,
    register: &Register,
    code: &str,
    date: &str,
) -> Result<bool, Refusal>
    ensures value { IfOk result (λ lacks.
        lacks ≡ spec.lacks_set register.now.territories code.now date.now) }
    ensures refused { IfErr result
        (IsRefusalOrNoMemory (code_refusal register.now.territories code.now)) }
{
    let (_, territory) = register.territory(code)?;
    Ok(set_has_no_day(alloc, territory, date)?)
}
