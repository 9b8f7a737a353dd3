//! The command `letters` with the file of its table: it is opened first.
ghost use Rattle.std.specs.Prelude.{◌≡◌, ◌∷◌, [], IfErr, IfOk, OnErr, option_map};
ghost use Rattle.osn_folder.specs.Folder.{CannotOpen, IsCauseAt, MayFail};
ghost use Rattle.osn_invocation.specs.Invocation.{letters_model};
ghost use Rattle.osn_lines.specs.Streams.{input_of, output_of};
ghost use Rattle.osn_report.specs.Folders.{folders_of};
ghost use Rattle.osn_commands.specs.LettersTable as spec;

use osn_folder::{Folder, OpenFailed, open_file};
use osn_invocation::LettersOptions;
use osn_lines::{Sink, Source};
use osn_page_commands::letters_in_folder;
use osn_register::Limits;
use osn_report::{Status, report_open_failure};
use std::alloc::Global;

/// Returns the file of a table that is named, unless it is standard input.
fn file_of<'a>(table: Option<&'a str>) -> Option<&'a str>
    ensures { option_map (λ path. path.now) result
        ≡ spec.file_of (option_map (λ path. path.now) table.entry) }
{
    match table {
        Some(path) if path != "-" => Some(path),
        _ => None,
    }
}

/// Does what `letters_in_folder` does with an open table. If the journal can't be opened, standard
/// error reports why.
fn letters_of_opened<D: Folder, W: Sink, E: Sink, T: Sink + Drop>(
    alloc: Global,
    limits: Limits,
    folder: &mut D,
    journal: &str,
    table: &mut D::File,
    options: LettersOptions<'_>,
    output: &mut W,
    errors: &mut E,
    terminal: Option<T>,
) -> Status
    ensures { spec.ReadsOpened limits journal.now (letters_model options.entry)
        (MayFail D.File.has_failed) (folders_of D.known folder.old folder.new)
        (input_of D.File.remaining D.File.has_failed table.old table.new)
        (output_of W.contents W.has_failed W.holds_back output.old output.new)
        (output_of E.contents E.has_failed E.holds_back errors.old errors.new) result }
{
    match letters_in_folder(
        alloc, limits, folder, journal, options, table, output, errors, terminal,
    ) {
        Ok(status) => status,
        Err(cause) => report_open_failure(alloc, errors, journal, cause),
    }
}

/// Opens the file of a table, and answers its letters. If the file can't be opened, standard error
/// reports why.
fn letters_of_file<D: Folder, W: Sink, E: Sink, T: Sink + Drop>(
    alloc: Global,
    limits: Limits,
    folder: &mut D,
    journal: &str,
    path: &str,
    options: LettersOptions<'_>,
    output: &mut W,
    errors: &mut E,
    terminal: Option<T>,
) -> Status
    ensures { spec.ReadsFile limits journal.now path.now (letters_model options.entry)
        (MayFail D.File.has_failed) (folders_of D.known folder.old folder.new)
        (output_of W.contents W.has_failed W.holds_back output.old output.new)
        (output_of E.contents E.has_failed E.holds_back errors.old errors.new) result }
{
    match open_file(folder, path) {
        Ok(mut table) => letters_of_opened(
            alloc, limits, folder, journal, &mut table, options, output, errors, terminal,
        ),
        Err(cause) => report_open_failure(alloc, errors, path, cause),
    }
}

/// Does what `letters_in_folder` does with the table of a path, which is opened first. Without a
/// path, or if it is `-`, the table is standard input. If the file of the table can't be opened, or
/// the journal after it, standard error reports why.
///
/// # Errors
///
/// Why the journal could not be opened, if the table is standard input. Nothing was read or written
/// then.
pub fn table_in_folder<D: Folder, R: Source, W: Sink, E: Sink, T: Sink + Drop>(
    alloc: Global,
    limits: Limits,
    folder: &mut D,
    journal: &str,
    table: Option<&str>,
    options: LettersOptions<'_>,
    input: &mut R,
    output: &mut W,
    errors: &mut E,
    terminal: Option<T>,
) -> Result<Status, OpenFailed>
    ensures ok { IfOk result (spec.RunsTable limits journal.now
        (option_map (λ path. path.now) table.entry) (letters_model options.entry)
        (MayFail D.File.has_failed) (folders_of D.known folder.old folder.new)
        (input_of R.remaining R.has_failed input.old input.new)
        (output_of W.contents W.has_failed W.holds_back output.old output.new)
        (output_of E.contents E.has_failed E.holds_back errors.old errors.new)) }
    ensures err { OnErr result (CannotOpen (journal.now ∷ [])
        (D.known folder.old) (D.known folder.new)
        × (output.new ≡ output.old) × (errors.new ≡ errors.old)) }
    ensures cause { IfErr result (IsCauseAt (D.known folder.old) journal.now) }
{
    match file_of(table) {
        None => letters_in_folder(
            alloc, limits, folder, journal, options, input, output, errors, terminal,
        ),
        Some(path) => Ok(letters_of_file(
            alloc, limits, folder, journal, path, options, output, errors, terminal,
        )),
    }
}
