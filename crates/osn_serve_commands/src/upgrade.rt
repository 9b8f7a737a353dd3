//! A journal that will be kept is rewritten first, if it is of a version that has no sources.
ghost use Rattle.std.specs.Prelude.{◌≡◌, ◌^◌, ◌<◌, ℕ, List, None, IfErr, IfOk, OnOk};
ghost use Rattle.std.specs.Prelude.{option_map, string_bytes};
ghost use Rattle.std.specs.Option.{MatchOption};
ghost use Rattle.osn_folder.specs.Folder.{MayFail};
ghost use Rattle.osn_files.specs.CountedPrefix.{IsCountedPrefix};
ghost use Rattle.osn_lines.specs.Streams.{output_of};
ghost use Rattle.osn_report.specs.Folders.{folders_of};
ghost use Rattle.osn_serve_commands.specs.Keep.{ReportsText, cut_text, unfinished_line};
ghost use Rattle.osn_serve_commands.specs.KeepInside.{IsUnreadKept};
ghost use Rattle.osn_serve_commands.specs.Upgrade.{CannotSaveAnew, CannotUpgrade, SavesAnew};
ghost use Rattle.osn_serve_commands.specs.Upgrade.{Upgrades};
ghost use Rattle.osn_serve_commands.specs.UpgradeInside.{IsNewest, IsOlder};

use crate::keep::cut_text;
use crate::loaded_journal::read_journal_to_keep;
use crate::saved_file::report_unsaved;
use osn_files::{CountedPrefix, LastLine, journal_text_of};
use osn_folder::{Folder, save_file};
use osn_lines::{Sink, Source};
use osn_register::Limits;
use osn_report::{CommandFault, Status, report_at, write_line};
use osn_request::Version;
use std::alloc::{AllocError, Global};

/// Puts a text in place of the file of a path, which is locked for that, whole or not at all. The
/// file must contain exactly the bytes of `loaded_bytes`.
///
/// # Errors
///
/// The status, if it isn't sure that the text is saved. Standard error reports why.
pub fn save_anew<D: Folder, E: Sink>(
    alloc: Global,
    folder: &mut D,
    path: &str,
    loaded_bytes: &[u8],
    text: &str,
    errors: &mut E,
) -> Result<(), Status>
    ensures ok { OnOk result (SavesAnew path.now loaded_bytes.now text.now
        (D.known folder.old) (D.known folder.new)) }
    ensures quiet { OnOk result (errors.new ≡ errors.old) }
    ensures err { IfErr result (CannotSaveAnew path.now loaded_bytes.now text.now
        (D.known folder.old) (D.known folder.new)
        (output_of E.contents E.has_failed E.holds_back errors.old errors.new)) }
{
    let lock = match folder.lock_to_save(path) {
        Ok(lock) => lock,
        Err(fault) => return Err(report_at(alloc, errors, path, CommandFault::Keep(fault))),
    };
    match save_file(folder, alloc, lock, path, Some(loaded_bytes), text) {
        Ok(()) => Ok(()),
        Err(fault) => Err(report_unsaved(alloc, errors, path, fault)),
    }
}

/// Returns the text on the last line of a file of which this part counts, if that line was not
/// finished.
pub fn cut_text_of(alloc: Global, part: CountedPrefix) -> Result<Option<String>, AllocError>
    requires { part.lines < 2 ^ 63 }
    ensures { IfOk result (λ text. (content : List ℕ) → IsCountedPrefix part content
        → option_map string_bytes text ≡ cut_text (unfinished_line content)) }
{
    match part.last {
        LastLine::Ended | LastLine::LacksFeed => Ok(None),
        LastLine::Unfinished => Ok(Some(cut_text(alloc, part.lines + 1)?)),
    }
}

/// Writes a text on a line that was cut off to standard error, if there is one.
pub fn report_cut<E: Sink>(errors: &mut E, text: &Option<String>)
    ensures { ReportsText (output_of E.contents E.has_failed E.holds_back errors.old errors.new)
        (option_map string_bytes text.now) }
{
    if let Some(text) = text {
        write_line(errors, text.as_str());
    }
}

/// A journal of a version that has no sources.
#[derive(Drop)]
struct OlderJournal {
    /// What its file contains.
    bytes: Vec<u8>,
    /// Its text as one of the newest version.
    text: String,
    /// The text on its last line, if that was not finished.
    cut: Option<String>,
}

/// Returns the journal that a source gives, if it is of a version that has no sources.
///
/// # Errors
///
/// Why it makes no object, or that memory ran out.
fn older_journal<J: Source>(
    alloc: Global,
    limits: Limits,
    journal: &mut J,
) -> Result<Option<OlderJournal>, CommandFault>
    ensures ok { IfOk result (λ found. MatchOption found
        (IsNewest limits (J.remaining journal.old))
        (λ older. IsOlder limits (J.remaining journal.old) older.bytes.items
        (string_bytes older.text) (option_map string_bytes older.cut))) }
    ensures err { IfErr result (λ fault. IsUnreadKept limits
        (J.remaining journal.old) (J.has_failed journal.new) fault) }
{
    let loaded_journal = read_journal_to_keep(alloc, limits, journal)?;
    if loaded_journal.version.has_sources() {
        return Ok(None);
    }
    let text = journal_text_of(alloc, Version::newest(), &loaded_journal.object)?;
    let cut = cut_text_of(alloc, loaded_journal.part)?;
    Ok(Some(OlderJournal {
        bytes: loaded_journal.bytes,
        text,
        cut,
    }))
}

/// Rewrites an older journal in its file, which must still contain what was read.
fn save_older<D: Folder, E: Sink>(
    alloc: Global,
    folder: &mut D,
    path: &str,
    older: &OlderJournal,
    errors: &mut E,
) -> Result<(), Status>
    ensures ok { OnOk result (SavesAnew path.now older.now.bytes.items
        (string_bytes older.now.text) (D.known folder.old) (D.known folder.new)) }
    ensures reports { OnOk result
        (ReportsText (output_of E.contents E.has_failed E.holds_back errors.old errors.new)
        (option_map string_bytes older.now.cut)) }
    ensures err { IfErr result (CannotSaveAnew path.now older.now.bytes.items
        (string_bytes older.now.text) (D.known folder.old) (D.known folder.new)
        (output_of E.contents E.has_failed E.holds_back errors.old errors.new)) }
{
    save_anew(
        alloc,
        folder,
        path,
        &older.bytes,
        older.text.as_str(),
        errors,
    )?;
    report_cut(errors, &older.cut);
    Ok(())
}

/// Makes the file of a path contain a journal of a version that has sources. If it contains one of
/// another version, or no line, its journal is rewritten as one of the newest version: the file is
/// as it was, or contains the journal whole. A file is made if there is none. A last line that was
/// not finished is left out, which is reported on standard error.
///
/// # Errors
///
/// The status, if it isn't sure that the journal is rewritten. Standard error reports why.
pub fn upgrade_file<D: Folder, E: Sink>(
    alloc: Global,
    limits: Limits,
    folder: &mut D,
    path: &str,
    errors: &mut E,
) -> Result<(), Status>
    ensures ok { OnOk result (Upgrades limits path.now (MayFail D.File.has_failed)
        (folders_of D.known folder.old folder.new)
        (output_of E.contents E.has_failed E.holds_back errors.old errors.new)) }
    ensures err { IfErr result (CannotUpgrade limits path.now (MayFail D.File.has_failed)
        (folders_of D.known folder.old folder.new)
        (output_of E.contents E.has_failed E.holds_back errors.old errors.new)) }
{
    let (keeper, mut journal) = match folder.keep(path) {
        Ok(file) => file,
        Err(fault) => return Err(report_at(alloc, errors, path, CommandFault::Keep(fault))),
    };
    let outcome = older_journal(alloc, limits, &mut journal);
    // The source that reads the file has its lock too.
    drop(journal);
    folder.release(path, keeper);
    match outcome {
        Ok(None) => Ok(()),
        Ok(Some(older)) => save_older(alloc, folder, path, &older, errors),
        Err(fault) => Err(report_at(alloc, errors, path, fault)),
    }
}
