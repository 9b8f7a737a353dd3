//! The command `letters` over the files of a folder: the journal is opened by its path first, and
//! then the table of places.
ghost use Rattle.std.specs.Prelude.{◌≡◌, ◌∷◌, [], IfErr, IfOk, OnErr, option_map};
ghost use Rattle.osn_folder.specs.Folder.{CannotOpen, IsCauseAt, MayFail};
ghost use Rattle.osn_invocation.specs.Invocation.{letters_model};
ghost use Rattle.osn_lines.specs.Streams.{input_of, output_of};
ghost use Rattle.osn_page_commands.specs.Letters.{settings_model};
ghost use Rattle.osn_page_commands.specs.LettersFiles as spec;
ghost use Rattle.osn_report.specs.Folders.{folders_of};

use crate::date_hint::report_word;
use crate::edition_lines::report_edition_word;
use crate::letters::{TableRules, letters_command};
use crate::places::report_places;
use crate::table_words::settings_of_options;
use osn_core::edition_of_word;
use osn_folder::{Folder, OpenFailed, open_file};
use osn_invocation::LettersOptions;
use osn_letters::{TableSettings, read_places};
use osn_lines::{Progress, Sink, Source};
use osn_register::Limits;
use osn_report::{ReadProgress, Status, report_open_failure};
use std::alloc::Global;

/// Returns the options of a table besides those that name its columns, with the number of the
/// edition.
fn rules_of(options: LettersOptions<'_>, number: Option<u32>) -> TableRules
    ensures { result ≡ spec.rules_of (letters_model options.entry) number }
{
    TableRules {
        edition: number,
        strict: options.strict,
        summary: options.summary,
    }
}

/// Reads the table of places of a path. If it has no fault, does what `letters_command` does with
/// it for the journal of this name. If it could not be opened or has a fault, standard error
/// reports why, and nothing is written.
fn letters_by_places<D: Folder, R: Source, W: Sink, E: Sink, P: Progress>(
    alloc: Global,
    limits: Limits,
    folder: &mut D,
    name: &str,
    journal: &mut D::File,
    path: &str,
    settings: TableSettings<'_>,
    rules: TableRules,
    input: &mut R,
    output: &mut W,
    errors: &mut E,
    progress: &mut P,
) -> Status
    ensures { spec.PrintsByPlaces limits name.now
        (input_of D.File.remaining D.File.has_failed journal.old journal.new) path.now
        (settings_model settings.entry) rules (MayFail D.File.has_failed)
        (folders_of D.known folder.old folder.new)
        (input_of R.remaining R.has_failed input.old input.new)
        (output_of W.contents W.has_failed W.holds_back output.old output.new)
        (output_of E.contents E.has_failed E.holds_back errors.old errors.new) result }
{
    let mut table = match open_file(folder, path) {
        Ok(table) => table,
        Err(cause) => return report_open_failure(alloc, errors, path, cause),
    };
    match read_places(alloc, &mut table) {
        Ok(places) => {
            let settings = TableSettings {
                places: Some(&places),
                ..settings
            };
            letters_command(
                alloc, limits, name, journal, settings, rules, input, output, errors, progress,
            )
        }
        Err(fault) => report_places(alloc, errors, path, &fault),
    }
}

/// Opens the journal, and the table of places, if there is one, and does what `letters_command`
/// does.
fn letters_by<D: Folder, R: Source, W: Sink, E: Sink, T: Sink + Drop>(
    alloc: Global,
    limits: Limits,
    folder: &mut D,
    journal: &str,
    options: LettersOptions<'_>,
    number: Option<u32>,
    settings: TableSettings<'_>,
    input: &mut R,
    output: &mut W,
    errors: &mut E,
    terminal: Option<T>,
) -> Result<Status, OpenFailed>
    ensures ok { IfOk result (spec.PrintsTable limits journal.now
        (option_map (λ path. path.now) options.entry.places) (settings_model settings.entry)
        (spec.rules_of (letters_model options.entry) number) (MayFail D.File.has_failed)
        (folders_of D.known folder.old folder.new)
        (input_of R.remaining R.has_failed input.old input.new)
        (output_of W.contents W.has_failed W.holds_back output.old output.new)
        (output_of E.contents E.has_failed E.holds_back errors.old errors.new)) }
    ensures err { OnErr result (CannotOpen (journal.now ∷ [])
        (D.known folder.old) (D.known folder.new)
        × (output.new ≡ output.old) × (errors.new ≡ errors.old)) }
    ensures cause { IfErr result (IsCauseAt (D.known folder.old) journal.now) }
{
    let rules = rules_of(options, number);
    let mut file = open_file(folder, journal)?;
    let mut progress = ReadProgress::new(alloc, "letters", terminal);
    match options.places {
        None => Ok(letters_command(
            alloc,
            limits,
            journal,
            &mut file,
            settings,
            rules,
            input,
            output,
            errors,
            &mut progress,
        )),
        Some(path) => Ok(letters_by_places(
            alloc,
            limits,
            folder,
            journal,
            &mut file,
            path,
            settings,
            rules,
            input,
            output,
            errors,
            &mut progress,
        )),
    }
}

/// Does what the options ask for, by the edition of a number, or the newest one.
fn numbered_letters_in_folder<D: Folder, R: Source, W: Sink, E: Sink, T: Sink + Drop>(
    alloc: Global,
    limits: Limits,
    folder: &mut D,
    journal: &str,
    options: LettersOptions<'_>,
    number: Option<u32>,
    input: &mut R,
    output: &mut W,
    errors: &mut E,
    terminal: Option<T>,
) -> Result<Status, OpenFailed>
    ensures ok { IfOk result (spec.RunsNumbered limits journal.now (letters_model options.entry)
        number (MayFail D.File.has_failed) (folders_of D.known folder.old folder.new)
        (input_of R.remaining R.has_failed input.old input.new)
        (output_of W.contents W.has_failed W.holds_back output.old output.new)
        (output_of E.contents E.has_failed E.holds_back errors.old errors.new)) }
    ensures err { OnErr result (CannotOpen (journal.now ∷ [])
        (D.known folder.old) (D.known folder.new)
        × (output.new ≡ output.old) × (errors.new ≡ errors.old)) }
    ensures cause { IfErr result (IsCauseAt (D.known folder.old) journal.now) }
{
    match settings_of_options(options) {
        Ok(settings) => letters_by(
            alloc, limits, folder, journal, options, number, settings, input, output, errors,
            terminal,
        ),
        Err(wrong) => Ok(report_word(alloc, errors, wrong.misuse, wrong.argument)),
    }
}

/// Opens the journal of a path, then the table of places, if there is one, and does what
/// `letters_command` does, as the options ask. A terminal, if there is one, shows how much of the
/// table was read.
///
/// If an option is wrong, or the table of places cannot be opened or has a fault, a line on
/// standard error reports why, and nothing is written. If an option is wrong, no file is opened.
///
/// # Errors
///
/// Why the journal could not be opened. Nothing was read or written then.
pub fn letters_in_folder<D: Folder, R: Source, W: Sink, E: Sink, T: Sink + Drop>(
    alloc: Global,
    limits: Limits,
    folder: &mut D,
    journal: &str,
    options: LettersOptions<'_>,
    input: &mut R,
    output: &mut W,
    errors: &mut E,
    terminal: Option<T>,
) -> Result<Status, OpenFailed>
    ensures ok { IfOk result (spec.RunsLetters limits journal.now (letters_model options.entry)
        (MayFail D.File.has_failed) (folders_of D.known folder.old folder.new)
        (input_of R.remaining R.has_failed input.old input.new)
        (output_of W.contents W.has_failed W.holds_back output.old output.new)
        (output_of E.contents E.has_failed E.holds_back errors.old errors.new)) }
    ensures err { OnErr result (CannotOpen (journal.now ∷ [])
        (D.known folder.old) (D.known folder.new)
        × (output.new ≡ output.old) × (errors.new ≡ errors.old)) }
    ensures cause { IfErr result (IsCauseAt (D.known folder.old) journal.now) }
{
    match edition_of_word(options.edition) {
        Ok(number) => numbered_letters_in_folder(
            alloc, limits, folder, journal, options, number, input, output, errors, terminal,
        ),
        Err(argument) => Ok(report_edition_word(alloc, errors, argument)),
    }
}
