//! The command of a page over the files of a folder: the arguments are read before the journal is
//! opened by its path.
ghost use Rattle.std.specs.Prelude.{◌≡◌, IfErr, IfOk, option_map};
ghost use Rattle.osn_page_commands.specs.Editions.{OnEdition};
ghost use Rattle.osn_core.specs.Edition.{edition_model};
ghost use Rattle.osn_folder.specs.Folder.{MayFail};
ghost use Rattle.osn_invocation.specs.Invocation.{page_request};
ghost use Rattle.osn_lines.specs.Streams.{input_of, output_of};
ghost use Rattle.osn_page_commands.specs.Page as spec;
ghost use Rattle.osn_report.specs.Folders.{folders_of};

use crate::date_hint::report_word;
use crate::edition_lines::{report_edition_fault, report_edition_word};
use crate::page::print_page;
use crate::page_request::{Topic, topic_of_words};
use crate::page_words::{date_text_of, territory_word, wrong_word};
use osn_core::{Edition, Object, edition_of, edition_of_word};
use osn_files::load_journal;
use osn_folder::{Folder, OpenFailed, open_named};
use osn_invocation::PageRequest;
use osn_lines::{Sink, Source, read_all};
use osn_register::Limits;
use osn_report::{CommandFault, Failure, Status, report, report_no_memory, write_line};
use std::alloc::Global;
use std::str;

const NOT_UTF8: &str = "oldstyle: standard input is not UTF-8\n";

/// Returns the fault of a page whose journal could not be opened, by its cause.
fn open_failure(words: PageRequest<'_>, cause: OpenFailed) -> CommandFault
    ensures { result ≡ spec.open_failure (page_request words.entry) cause }
{
    match words {
        PageRequest::Almanac { .. } => CommandFault::ReadFault(cause),
        _ => CommandFault::NotOpened(cause),
    }
}

/// Prints the pages on the dates of the bytes of an input, a date a line, of an edition. The word
/// names their territory.
fn print_bytes<W: Sink, E: Sink>(
    alloc: Global,
    edition: &Edition,
    path: &str,
    word: &str,
    topic: &Topic,
    bytes: &[u8],
    output: &mut W,
    errors: &mut E,
) -> Status
    ensures { spec.PrintsBytes (edition_model edition.now) path.now word.now topic.now bytes.now
        (output_of W.contents W.has_failed W.holds_back output.old output.new)
        (output_of E.contents E.has_failed E.holds_back errors.old errors.new) result }
{
    match str::from_utf8(bytes) {
        Ok(text) => print_page(alloc, edition, path, word, text, topic, output, errors),
        Err(_) => {
            write_line(errors, NOT_UTF8);
            Status::Refused
        }
    }
}

/// Prints the pages on the dates of an input, a date a line, of an edition.
fn print_dates<R: Source, W: Sink, E: Sink>(
    alloc: Global,
    edition: &Edition,
    path: &str,
    word: &str,
    topic: &Topic,
    input: &mut R,
    output: &mut W,
    errors: &mut E,
) -> Status
    ensures { spec.PrintsDates (edition_model edition.now) path.now word.now topic.now
        (input_of R.remaining R.has_failed input.old input.new)
        (output_of W.contents W.has_failed W.holds_back output.old output.new)
        (output_of E.contents E.has_failed E.holds_back errors.old errors.new) result }
{
    match read_all(alloc, input) {
        Ok(bytes) => print_bytes(alloc, edition, path, word, topic, &bytes, output, errors),
        Err(why) => report(alloc, errors, CommandFault::from(why)),
    }
}

/// Prints what was asked for, of an edition. For dates a line each, the input has their text.
fn print_asked<R: Source, W: Sink, E: Sink>(
    alloc: Global,
    edition: &Edition,
    path: &str,
    word: &str,
    date: &str,
    topic: &Topic,
    input: &mut R,
    output: &mut W,
    errors: &mut E,
) -> Status
    ensures { spec.PrintsAsked (edition_model edition.now) path.now word.now date.now topic.now
        (input_of R.remaining R.has_failed input.old input.new)
        (output_of W.contents W.has_failed W.holds_back output.old output.new)
        (output_of E.contents E.has_failed E.holds_back errors.old errors.new) result }
{
    match topic {
        Topic::Dates(_) => print_dates(alloc, edition, path, word, topic, input, output, errors),
        _ => print_page(alloc, edition, path, word, date, topic, output, errors),
    }
}

/// Prints what was asked for, of the edition of a number, or of the newest one.
fn print_numbered<R: Source, W: Sink, E: Sink>(
    alloc: Global,
    object: Object,
    number: Option<u32>,
    path: &str,
    word: &str,
    date: &str,
    topic: &Topic,
    input: &mut R,
    output: &mut W,
    errors: &mut E,
) -> Status
    ensures { OnEdition number object (λ edition. spec.PrintsAsked edition
        path.now word.now date.now topic.now
        (input_of R.remaining R.has_failed input.old input.new)
        (output_of W.contents W.has_failed W.holds_back output.old output.new)
        (output_of E.contents E.has_failed E.holds_back errors.old errors.new) result)
        (output_of W.contents W.has_failed W.holds_back output.old output.new)
        (output_of E.contents E.has_failed E.holds_back errors.old errors.new) result }
{
    match edition_of(alloc, object, number) {
        Ok(edition) => print_asked(
            alloc, &edition, path, word, date, topic, input, output, errors,
        ),
        Err(fault) => report_edition_fault(alloc, errors, fault),
    }
}

/// Opens the journal of a path, and prints the page that the words ask for, of its edition of a
/// number, or of the newest one.
///
/// # Errors
///
/// As for `page_in_folder`.
fn numbered_page_in_folder<'a, D: Folder, R: Source, W: Sink, E: Sink>(
    alloc: Global,
    limits: Limits,
    folder: &mut D,
    journal: &'a str,
    number: Option<u32>,
    words: PageRequest<'_>,
    input: &mut R,
    output: &mut W,
    errors: &mut E,
) -> Result<Status, Failure<'a>>
    ensures ok { IfOk result (spec.RunsNumbered limits journal.now number (page_request words.entry)
        (MayFail D.File.has_failed) (folders_of D.known folder.old folder.new)
        (input_of R.remaining R.has_failed input.old input.new)
        (output_of W.contents W.has_failed W.holds_back output.old output.new)
        (output_of E.contents E.has_failed E.holds_back errors.old errors.new)) }
    ensures err { IfErr result (λ failure. spec.PageFails limits journal.now
        (page_request words.entry) (MayFail D.File.has_failed)
        (folders_of D.known folder.old folder.new) failure.path.now failure.fault
        × (output.new ≡ output.old) × (errors.new ≡ errors.old)) }
{
    let topic = match topic_of_words(alloc, words) {
        Ok(Ok(topic)) => topic,
        Ok(Err(misuse)) => {
            let word = wrong_word(words, misuse);
            return Ok(report_word(alloc, errors, misuse, word));
        }
        Err(_) => return Ok(report_no_memory(errors)),
    };
    let mut file = match open_named(folder, journal) {
        Ok(file) => file,
        Err(why) => {
            return Err(Failure {
                path: why.path,
                fault: open_failure(words, why.cause),
            });
        }
    };
    let word = territory_word(words);
    let date = date_text_of(words);
    match load_journal(alloc, limits, &mut file) {
        Ok(object) => Ok(print_numbered(
            alloc, object, number, journal, word, date, &topic, input, output, errors,
        )),
        Err(fault) => Err(Failure {
            path: journal,
            fault: CommandFault::File(fault),
        }),
    }
}

/// Runs the command `almanac`, `read`, `day`, `month`, `year` or `territory`: opens the journal of
/// a path, and prints the page that the arguments ask for, under these limits, of the edition that
/// is named or of the newest one. The journal is read whole before anything is printed. If the date
/// of `read` is `-`, each line of the input is a date, and the input is read whole after the
/// journal.
///
/// If an argument is wrong, standard error says so before a file is opened. If no page is printed,
/// standard error says why, and the status says it too. With `--strict` a date that means no day
/// has its page, and the status of a refusal. A line that is not a date has its reason in place of
/// a page, and the status of a refusal.
///
/// # Errors
///
/// Why the journal could not be opened, or makes no object. Nothing was written then.
pub fn page_in_folder<'a, D: Folder, R: Source, W: Sink, E: Sink>(
    alloc: Global,
    limits: Limits,
    folder: &mut D,
    journal: &'a str,
    edition: Option<&str>,
    words: PageRequest<'_>,
    input: &mut R,
    output: &mut W,
    errors: &mut E,
) -> Result<Status, Failure<'a>>
    ensures ok { IfOk result (spec.RunsPage limits journal.now
        (option_map (λ word. word.now) edition.entry) (page_request words.entry)
        (MayFail D.File.has_failed) (folders_of D.known folder.old folder.new)
        (input_of R.remaining R.has_failed input.old input.new)
        (output_of W.contents W.has_failed W.holds_back output.old output.new)
        (output_of E.contents E.has_failed E.holds_back errors.old errors.new)) }
    ensures err { IfErr result (λ failure. spec.PageFails limits journal.now
        (page_request words.entry) (MayFail D.File.has_failed)
        (folders_of D.known folder.old folder.new) failure.path.now failure.fault
        × (output.new ≡ output.old) × (errors.new ≡ errors.old)) }
{
    match edition_of_word(edition) {
        Ok(number) => numbered_page_in_folder(
            alloc, limits, folder, journal, number, words, input, output, errors,
        ),
        Err(word) => Ok(report_edition_word(alloc, errors, word)),
    }
}
