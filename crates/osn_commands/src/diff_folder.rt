//! The command `diff` over the files of a folder: the journal is opened by its path first.
ghost use Rattle.std.specs.Prelude.{◌≡◌, ◌∷◌, [], Ok, Err, IfErr, IfOk, OnErr, nat_lt};
ghost use Rattle.osn_folder.specs.Folder.{CannotOpen, IsCauseAt, MayFail};
ghost use Rattle.osn_lines.specs.Streams.{output_of};
ghost use Rattle.osn_report.specs.Folders.{folders_of};
ghost use Rattle.osn_commands.specs.Diff as spec;

use crate::diff::diff_command;
use crate::diff_words::report_backward;
use osn_folder::{Folder, OpenFailed, open_file};
use osn_lines::Sink;
use osn_page_commands::report_edition_word;
use osn_register::Limits;
use osn_report::Status;
use osn_written::number_of;
use std::alloc::Global;

/// Returns the numbers of two words, or the first word that is not a number.
fn numbers_of<'a>(first: &'a str, second: &'a str) -> Result<(u32, u32), &'a str>
    ensures ok { IfOk result (λ numbers. spec.numbers_of first.now second.now ≡ Ok numbers) }
    ensures err { IfErr result (λ typed. spec.numbers_of first.now second.now ≡ Err typed.now) }
{
    let Some(from) = number_of(first) else {
        return Err(first);
    };
    match number_of(second) {
        Some(to) => Ok((from, to)),
        None => Err(second),
    }
}

/// Opens the journal of a path, and prints what changed from one edition to another that is not
/// earlier.
fn numbered_diff_in_folder<D: Folder, W: Sink, E: Sink>(
    alloc: Global,
    limits: Limits,
    folder: &mut D,
    journal: &str,
    from: u32,
    to: u32,
    output: &mut W,
    errors: &mut E,
) -> Result<Status, OpenFailed>
    ensures ok { IfOk result (spec.RunsInOrder (nat_lt to from) limits journal.now from to
        (MayFail D.File.has_failed) (folders_of D.known folder.old folder.new)
        (output_of W.contents W.has_failed W.holds_back output.old output.new)
        (output_of E.contents E.has_failed E.holds_back errors.old errors.new)) }
    ensures err { OnErr result (CannotOpen (journal.now ∷ [])
        (D.known folder.old) (D.known folder.new)
        × (output.new ≡ output.old) × (errors.new ≡ errors.old)) }
    ensures cause { IfErr result (IsCauseAt (D.known folder.old) journal.now) }
{
    if to < from {
        return Ok(report_backward(alloc, errors, from, to));
    }
    let mut file = open_file(folder, journal)?;
    Ok(diff_command(alloc, limits, journal, &mut file, from, to, output, errors))
}

/// Opens the journal of a path, and does what `diff_command` does for the editions that two words
/// name. If one of them is not a number, or the first one is later than the second one, standard
/// error says so, and no file is opened.
///
/// # Errors
///
/// Why the journal could not be opened. Nothing was written then.
pub fn diff_in_folder<D: Folder, W: Sink, E: Sink>(
    alloc: Global,
    limits: Limits,
    folder: &mut D,
    journal: &str,
    first: &str,
    second: &str,
    output: &mut W,
    errors: &mut E,
) -> Result<Status, OpenFailed>
    ensures ok { IfOk result (spec.RunsDiff limits journal.now first.now second.now
        (MayFail D.File.has_failed) (folders_of D.known folder.old folder.new)
        (output_of W.contents W.has_failed W.holds_back output.old output.new)
        (output_of E.contents E.has_failed E.holds_back errors.old errors.new)) }
    ensures err { OnErr result (CannotOpen (journal.now ∷ [])
        (D.known folder.old) (D.known folder.new)
        × (output.new ≡ output.old) × (errors.new ≡ errors.old)) }
    ensures cause { IfErr result (IsCauseAt (D.known folder.old) journal.now) }
{
    match numbers_of(first, second) {
        Ok((from, to)) => numbered_diff_in_folder(
            alloc, limits, folder, journal, from, to, output, errors,
        ),
        Err(typed) => Ok(report_edition_word(alloc, errors, typed)),
    }
}
