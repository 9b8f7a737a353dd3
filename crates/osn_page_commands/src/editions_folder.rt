//! The command `editions` over the files of a folder: the journal is opened by its path first.
ghost use Rattle.std.specs.Prelude.{◌≡◌, ◌∷◌, [], IfErr, IfOk, OnErr};
ghost use Rattle.osn_folder.specs.Folder.{CannotOpen, IsCauseAt, MayFail};
ghost use Rattle.osn_lines.specs.Streams.{output_of};
ghost use Rattle.osn_report.specs.Folders.{ReadsOne, folders_of};
ghost use Rattle.osn_page_commands.specs.EditionList.{PrintsEditions};

use crate::editions::editions_command;
use osn_folder::{Folder, OpenFailed, open_file};
use osn_lines::Sink;
use osn_register::Limits;
use osn_report::Status;
use std::alloc::Global;

/// Opens the journal of a path, and does what `editions_command` does.
///
/// # Errors
///
/// Why the journal could not be opened. Nothing was written then.
pub fn editions_in_folder<D: Folder, W: Sink, E: Sink>(
    alloc: Global,
    limits: Limits,
    folder: &mut D,
    journal: &str,
    output: &mut W,
    errors: &mut E,
) -> Result<Status, OpenFailed>
    ensures ok { IfOk result (λ status. ReadsOne journal.now (MayFail D.File.has_failed)
        (folders_of D.known folder.old folder.new)
        (λ file. PrintsEditions limits journal.now file
        (output_of W.contents W.has_failed W.holds_back output.old output.new)
        (output_of E.contents E.has_failed E.holds_back errors.old errors.new) status)) }
    ensures err { OnErr result (CannotOpen (journal.now ∷ [])
        (D.known folder.old) (D.known folder.new)
        × (output.new ≡ output.old) × (errors.new ≡ errors.old)) }
    ensures cause { IfErr result (IsCauseAt (D.known folder.old) journal.now) }
{
    let mut file = open_file(folder, journal)?;
    Ok(editions_command(alloc, limits, journal, &mut file, output, errors))
}
