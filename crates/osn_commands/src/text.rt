//! The command `text`: the territories that a journal published, as a text that an editor changes.
ghost use Rattle.std.specs.Prelude.{option_map};
ghost use Rattle.osn_core.specs.Edition.{edition_model};
ghost use Rattle.osn_page_commands.specs.Editions.{OnEdition};
ghost use Rattle.osn_lines.specs.Streams.{input_of, output_of};
ghost use Rattle.osn_commands.specs.Text as spec;

use osn_core::{Edition, Object, edition_of};
use osn_files::load_journal;
use osn_lines::{Sink, Source};
use osn_page_commands::{report_edition_fault, territory_refusal_line};
use osn_register::{Limits, Register};
use osn_register_text::{write_territory, write_text};
use osn_report::{CommandFault, Status, print, report_at, report_line};
use std::alloc::Global;

/// Prints the text of the territory of a code, which is made of this edition.
fn print_territory<W: Sink, E: Sink>(
    alloc: Global,
    edition: usize,
    register: &Register,
    path: &str,
    code: &str,
    output: &mut W,
    errors: &mut E,
) -> Status
    ensures { spec.PrintsTerritory edition register.now.territories path.now code.now
        (output_of W.contents W.has_failed W.holds_back output.old output.new)
        (output_of E.contents E.has_failed E.holds_back errors.old errors.new) result }
{
    match register.territory(code) {
        Ok(_) => print(
            write_territory(alloc, edition, register, code),
            output,
            errors,
        ),
        Err(refusal) => {
            let line = territory_refusal_line(alloc, path, code, refusal);
            report_line(errors, Status::Refused, line)
        }
    }
}

/// Prints the text of an edition: of all territories, or of the one of a code.
fn print_territories<W: Sink, E: Sink>(
    alloc: Global,
    edition: &Edition,
    path: &str,
    code: Option<&str>,
    output: &mut W,
    errors: &mut E,
) -> Status
    ensures { spec.PrintsTerritories (edition_model edition.now) path.now
        (option_map (λ code. code.now) code.entry)
        (output_of W.contents W.has_failed W.holds_back output.old output.new)
        (output_of E.contents E.has_failed E.holds_back errors.old errors.new) result }
{
    let number = edition.number();
    let register = edition.register();
    match code {
        None => print(write_text(alloc, number, register), output, errors),
        Some(code) => print_territory(alloc, number, register, path, code, output, errors),
    }
}

/// Prints the text of the edition of a number, or of the newest one.
fn print_numbered<W: Sink, E: Sink>(
    alloc: Global,
    object: Object,
    number: Option<u32>,
    path: &str,
    code: Option<&str>,
    output: &mut W,
    errors: &mut E,
) -> Status
    ensures { OnEdition number object (λ edition. spec.PrintsTerritories edition path.now
        (option_map (λ code. code.now) code.entry)
        (output_of W.contents W.has_failed W.holds_back output.old output.new)
        (output_of E.contents E.has_failed E.holds_back errors.old errors.new) result)
        (output_of W.contents W.has_failed W.holds_back output.old output.new)
        (output_of E.contents E.has_failed E.holds_back errors.old errors.new) result }
{
    match edition_of(alloc, object, number) {
        Ok(edition) => print_territories(alloc, &edition, path, code, output, errors),
        Err(fault) => report_edition_fault(alloc, errors, fault),
    }
}

/// Runs the command `text`: prints the territories of an edition of the journal of this path under
/// these limits, or the one of a code, as a text that says them and the number of the edition. That
/// is the one of a number, or the newest one. The journal is read whole before anything is printed.
///
/// If no text is printed, a line on standard error reports why, and the status says so.
pub fn text_command<J: Source, W: Sink, E: Sink>(
    alloc: Global,
    limits: Limits,
    path: &str,
    journal: &mut J,
    number: Option<u32>,
    code: Option<&str>,
    output: &mut W,
    errors: &mut E,
) -> Status
    ensures { spec.PrintsText limits path.now
        (input_of J.remaining J.has_failed journal.old journal.new) number
        (option_map (λ code. code.now) code.entry)
        (output_of W.contents W.has_failed W.holds_back output.old output.new)
        (output_of E.contents E.has_failed E.holds_back errors.old errors.new) result }
{
    match load_journal(alloc, limits, journal) {
        Ok(object) => print_numbered(alloc, object, number, path, code, output, errors),
        Err(fault) => report_at(alloc, errors, path, CommandFault::File(fault)),
    }
}
