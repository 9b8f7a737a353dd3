//! The command `letters`.
ghost use Rattle.std.specs.Prelude.{◌≡◌};
ghost use Rattle.osn_core.specs.Edition.{edition_model};
ghost use Rattle.osn_page_commands.specs.Editions.{OnEdition};
ghost use Rattle.osn_lines.specs.Streams.{input_of, output_of};
ghost use Rattle.osn_page_commands.specs.Letters as spec;

use crate::edition_lines::report_edition_fault;
use crate::place_of_all::{place_fault, place_fault_lines};
use crate::table_faults::report_table;
use osn_core::{Edition, Object, edition_of};
use osn_files::load_journal;
use osn_letters::{TableSettings, Tally, write_letters};
use osn_lines::{Progress, Sink, Source};
use osn_register::Limits;
use osn_report::{CommandFault, Status, report_at, report_line, report_no_memory};
use std::alloc::Global;

/// The options of a table besides those that name its columns.
#[derive(Clone, Copy, Debug, PartialEq, Eq)]
pub struct TableRules {
    /// The number of the edition that is read, or none for the newest one.
    pub edition: Option<u32>,
    /// Whether a remark is a refusal.
    pub strict: bool,
    /// Whether the number of rows with each remark is reported.
    pub summary: bool,
}

/// Returns the status if all was written: a remark is a refusal, if that is asked for.
fn status_by(is_strict: bool, has_remarks: bool) -> Status
    ensures { result ≡ spec.status_by is_strict has_remarks }
{
    if is_strict && has_remarks {
        Status::Refused
    } else {
        Status::Done
    }
}

/// Ends a table that was written whole, and reports its tally if that is asked for.
fn end_whole<E: Sink>(alloc: Global, errors: &mut E, rules: TableRules, tally: &Tally) -> Status
    ensures { spec.ReportsEnd rules tally.now
        (output_of E.contents E.has_failed E.holds_back errors.old errors.new) result }
{
    let status = status_by(rules.strict, tally.has_remarks());
    if rules.summary {
        report_line(errors, status, tally.text(alloc, "oldstyle: letters: "))
    } else {
        status
    }
}

/// Writes the table, by an edition.
fn write_table<R: Source, W: Sink, E: Sink, P: Progress>(
    alloc: Global,
    edition: &Edition,
    settings: TableSettings<'_>,
    rules: TableRules,
    input: &mut R,
    output: &mut W,
    errors: &mut E,
    progress: &mut P,
) -> Status
    ensures { spec.WritesTable (edition_model edition.now)
        (spec.settings_model settings.entry) rules
        (input_of R.remaining R.has_failed input.old input.new)
        (output_of W.contents W.has_failed W.holds_back output.old output.new)
        (output_of E.contents E.has_failed E.holds_back errors.old errors.new) result }
{
    let number = edition.number();
    let register = edition.register();
    match write_letters(alloc, register, number, settings, input, output, progress) {
        Ok(tally) => end_whole(alloc, errors, rules, &tally),
        Err(fault) => report_table(alloc, errors, settings.names, &fault),
    }
}

/// Writes the table, by an edition, if its rows don't all have one place without a territory. The
/// path is that of the journal.
fn write_placed<R: Source, W: Sink, E: Sink, P: Progress>(
    alloc: Global,
    path: &str,
    edition: &Edition,
    settings: TableSettings<'_>,
    rules: TableRules,
    input: &mut R,
    output: &mut W,
    errors: &mut E,
    progress: &mut P,
) -> Status
    ensures { spec.WritesLetters path.now (edition_model edition.now)
        (spec.settings_model settings.entry) rules
        (input_of R.remaining R.has_failed input.old input.new)
        (output_of W.contents W.has_failed W.holds_back output.old output.new)
        (output_of E.contents E.has_failed E.holds_back errors.old errors.new) result }
{
    let register = edition.register();
    match place_fault(alloc, register, settings) {
        Ok(None) => write_table(
            alloc, edition, settings, rules, input, output, errors, progress,
        ),
        Ok(Some(reason)) => {
            let place = settings.names.place_of_all;
            let lines = place_fault_lines(alloc, path, place, reason, register);
            report_line(errors, Status::Refused, lines)
        }
        Err(_) => report_no_memory(errors),
    }
}

/// Writes the table, by the edition that the rules ask for.
fn write_numbered<R: Source, W: Sink, E: Sink, P: Progress>(
    alloc: Global,
    path: &str,
    object: Object,
    settings: TableSettings<'_>,
    rules: TableRules,
    input: &mut R,
    output: &mut W,
    errors: &mut E,
    progress: &mut P,
) -> Status
    ensures { OnEdition rules.edition object (λ edition. spec.WritesLetters path.now edition
        (spec.settings_model settings.entry) rules
        (input_of R.remaining R.has_failed input.old input.new)
        (output_of W.contents W.has_failed W.holds_back output.old output.new)
        (output_of E.contents E.has_failed E.holds_back errors.old errors.new) result)
        (output_of W.contents W.has_failed W.holds_back output.old output.new)
        (output_of E.contents E.has_failed E.holds_back errors.old errors.new) result }
{
    match edition_of(alloc, object, rules.edition) {
        Ok(edition) => write_placed(
            alloc, path, &edition, settings, rules, input, output, errors, progress,
        ),
        Err(fault) => report_edition_fault(alloc, errors, fault),
    }
}

/// Runs the command `letters`: writes the table of the input, CSV with a header, with twelve
/// columns more after its own. These say for each row what its date means, by an edition of the
/// journal of this path under these limits. The journal is read whole before the first record, and
/// the rows of each read are written before the next read. The settings name the columns that are
/// read, what separates the fields, the order of a date's three numbers and the table of places.
/// The progress shows how much of the table was read.
///
/// If all rows have one place, and that has no territory, lines on standard error report that, and
/// nothing is read or written. If it ends early, a line reports why, and the status says so. If it
/// is written whole and a remark is a refusal, `Refused` says that a row has one. If that is asked
/// for, standard error reports how many rows have each remark.
pub fn letters_command<J: Source, R: Source, W: Sink, E: Sink, P: Progress>(
    alloc: Global,
    limits: Limits,
    path: &str,
    journal: &mut J,
    settings: TableSettings<'_>,
    rules: TableRules,
    input: &mut R,
    output: &mut W,
    errors: &mut E,
    progress: &mut P,
) -> Status
    ensures { spec.PrintsLetters limits path.now
        (input_of J.remaining J.has_failed journal.old journal.new)
        (spec.settings_model settings.entry) rules
        (input_of R.remaining R.has_failed input.old input.new)
        (output_of W.contents W.has_failed W.holds_back output.old output.new)
        (output_of E.contents E.has_failed E.holds_back errors.old errors.new) result }
{
    match load_journal(alloc, limits, journal) {
        Ok(object) => write_numbered(
            alloc, path, object, settings, rules, input, output, errors, progress,
        ),
        Err(fault) => report_at(alloc, errors, path, CommandFault::File(fault)),
    }
}
