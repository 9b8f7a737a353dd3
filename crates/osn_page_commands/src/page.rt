//! The commands that print a page on what a journal published.
ghost use Rattle.std.specs.Prelude.{◌≡◌, IfOk, IfErr, OnOk, None, string_bytes};
ghost use Rattle.osn_lines.specs.Streams.{output_of};
ghost use Rattle.osn_core.specs.Edition.{edition_model};
ghost use Rattle.osn_register.specs.Refusal.{IsRefusalOrNoMemory};
ghost use Rattle.osn_page_commands.specs.Page as spec;
ghost use Rattle.osn_page_commands.specs.Place as places;

use crate::dates::{dates_text, some_line_fails};
use crate::page_request::Topic;
use crate::page_text::{entry_text, lacks_day, lacks_set, set_text, territories_text, year_text};
use crate::place::{Place, place_named};
use crate::place_lines::place_lines;
use crate::refusal_lines::refusal_line;
use osn_core::Edition;
use osn_lines::Sink;
use osn_pages::almanac_text;
use osn_register::Refusal;
use osn_report::{Status, print, print_or_report, report_line, report_no_memory};
use std::alloc::Global;

/// Returns what was asked for, of an edition. `date` is the text of its date.
fn text_of(
    alloc: Global,
    edition: &Edition,
    code: &str,
    date: &str,
    topic: &Topic,
) -> Result<String, Refusal>
    ensures lawful { OnOk result
        (spec.topic_refusal (edition_model edition.now).territories code.now topic.now ≡ None) }
    ensures text { IfOk result (λ text.
        string_bytes text
        ≡ spec.topic_text (edition_model edition.now) code.now date.now topic.now) }
    ensures refused { IfErr result (IsRefusalOrNoMemory
        (spec.topic_refusal (edition_model edition.now).territories code.now topic.now)) }
{
    let register = edition.register();
    match *topic {
        Topic::Almanac(year) => almanac_text(alloc, register, code, i64::from(year)),
        Topic::Year { year, is_json } => year_text(alloc, edition, code, date, year, is_json),
        Topic::Territory { page, form } => entry_text(
            alloc,
            edition,
            code,
            date,
            page,
            form.is_json,
        ),
        Topic::Set { weekday, form } => {
            set_text(alloc, edition, code, date, weekday, form.is_json)
        }
        Topic::Dates(rules) => dates_text(alloc, edition, code, rules, date),
        Topic::Territories { is_json } => Ok(territories_text(alloc, edition, is_json)?),
    }
}

/// Returns whether a date that was asked for means no day in the territory of the code, if that is
/// a refusal, or whether one of several lines is not a date.
fn lacks_strict_day(
    alloc: Global,
    edition: &Edition,
    code: &str,
    date: &str,
    topic: &Topic,
) -> Result<bool, Refusal>
    ensures value { IfOk result (λ lacks.
        lacks ≡ spec.lacks_strict_day (edition_model edition.now).territories code.now date.now
        topic.now) }
    ensures refused { IfErr result (IsRefusalOrNoMemory
        (spec.topic_refusal (edition_model edition.now).territories code.now topic.now)) }
{
    match *topic {
        Topic::Territory { page, form } if form.is_strict => {
            lacks_day(alloc, edition.register(), code, page)
        }
        Topic::Set { form, .. } if form.is_strict => {
            lacks_set(alloc, edition.register(), code, date)
        }
        Topic::Dates(rules) => some_line_fails(alloc, edition.register(), code, rules, date),
        _ => Ok(false),
    }
}

/// The text of a page, and whether a day that was asked for is missing.
struct Made {
    text: String,
    lacks_day: bool,
}

/// Returns the page that was asked for, and whether a day that was asked for is missing.
fn page_of(
    alloc: Global,
    edition: &Edition,
    code: &str,
    date: &str,
    topic: &Topic,
) -> Result<Made, Refusal>
    ensures lawful { OnOk result
        (spec.topic_refusal (edition_model edition.now).territories code.now topic.now ≡ None) }
    ensures text { IfOk result (λ made.
        string_bytes made.text
        ≡ spec.topic_text (edition_model edition.now) code.now date.now topic.now) }
    ensures lacks { IfOk result (λ made. made.lacks_day
        ≡ spec.lacks_strict_day (edition_model edition.now).territories code.now date.now
        topic.now) }
    ensures refused { IfErr result (IsRefusalOrNoMemory
        (spec.topic_refusal (edition_model edition.now).territories code.now topic.now)) }
{
    let text = text_of(alloc, edition, code, date, topic)?;
    let lacks_day = lacks_strict_day(alloc, edition, code, date, topic)?;
    Ok(Made { text, lacks_day })
}

/// Returns the status of a page that was printed, by whether a day that was asked for is missing.
fn page_status(lacks_day: bool, status: Status) -> Status
    ensures { result ≡ spec.page_status lacks_day status }
{
    match status {
        Status::Done if lacks_day => Status::Refused,
        _ => status,
    }
}

/// Prints the text of a page. For an almanac, a failure of the output is reported immediately on
/// standard error.
fn print_text_of<W: Sink, E: Sink>(
    topic: &Topic,
    text: String,
    output: &mut W,
    errors: &mut E,
) -> Status
    ensures { spec.PrintsTopicText topic.now (string_bytes text)
        (output_of W.contents W.has_failed W.holds_back output.old output.new)
        (output_of E.contents E.has_failed E.holds_back errors.old errors.new) result }
{
    match topic {
        Topic::Almanac(_) => print_or_report(Ok(text), output, errors),
        Topic::Year { .. }
        | Topic::Territory { .. }
        | Topic::Set { .. }
        | Topic::Dates(_)
        | Topic::Territories { .. } => print(Ok(text), output, errors),
    }
}

/// Prints the page that was asked for, on the territory of a code.
fn print_page_of<W: Sink, E: Sink>(
    alloc: Global,
    edition: &Edition,
    path: &str,
    code: &str,
    date: &str,
    topic: &Topic,
    output: &mut W,
    errors: &mut E,
) -> Status
    ensures { spec.PrintsPageOf (edition_model edition.now) path.now code.now date.now topic.now
        (output_of W.contents W.has_failed W.holds_back output.old output.new)
        (output_of E.contents E.has_failed E.holds_back errors.old errors.new) result }
{
    match page_of(alloc, edition, code, date, topic) {
        Ok(Made { text, lacks_day }) => {
            page_status(lacks_day, print_text_of(topic, text, output, errors))
        }
        Err(Refusal::NoMemory) => report_no_memory(errors),
        Err(refusal) => {
            let line = refusal_line(alloc, path, code, topic, refusal);
            report_line(errors, Status::Refused, line)
        }
    }
}

/// Prints the page that was asked for, on the only territory that a word names, or reports on
/// standard error that it names none or several.
fn print_page_named<W: Sink, E: Sink>(
    alloc: Global,
    edition: &Edition,
    path: &str,
    word: &str,
    date: &str,
    topic: &Topic,
    output: &mut W,
    errors: &mut E,
) -> Status
    ensures { spec.PrintsPageOn (edition_model edition.now) path.now word.now date.now topic.now
        (places.place_named word.now (edition_model edition.now).territories)
        (output_of W.contents W.has_failed W.holds_back output.old output.new)
        (output_of E.contents E.has_failed E.holds_back errors.old errors.new) result }
{
    let register = edition.register();
    match place_named(alloc, register, word) {
        Ok(Place::One(code)) => {
            let code = code.as_str();
            print_page_of(alloc, edition, path, code, date, topic, output, errors)
        }
        Ok(Place::NotOne(territories)) => {
            let lines = place_lines(alloc, path, word, territories.as_slice(), register);
            report_line(errors, Status::Refused, lines)
        }
        Err(_) => report_no_memory(errors),
    }
}

/// Prints the page that was asked for, of an edition. The word names its territory. For an almanac
/// it is a code, and the page of all territories has none.
pub(crate) fn print_page<W: Sink, E: Sink>(
    alloc: Global,
    edition: &Edition,
    path: &str,
    word: &str,
    date: &str,
    topic: &Topic,
    output: &mut W,
    errors: &mut E,
) -> Status
    ensures { spec.PrintsPageOn (edition_model edition.now) path.now word.now date.now topic.now
        (spec.place_of topic.now word.now (edition_model edition.now).territories)
        (output_of W.contents W.has_failed W.holds_back output.old output.new)
        (output_of E.contents E.has_failed E.holds_back errors.old errors.new) result }
{
    match topic {
        Topic::Almanac(_) | Topic::Territories { .. } => {
            print_page_of(alloc, edition, path, word, date, topic, output, errors)
        }
        Topic::Year { .. } | Topic::Territory { .. } | Topic::Set { .. } | Topic::Dates(_) => {
            print_page_named(alloc, edition, path, word, date, topic, output, errors)
        }
    }
}
