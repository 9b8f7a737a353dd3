//! The command `check`: whether a text has faults, without comparing it with a journal.
ghost use Rattle.std.specs.Prelude.{◌≡◌, ◌∷◌, [], IfErr, IfOk, OnErr, length, string_bytes};
ghost use Rattle.osn_folder.specs.Folder.{CannotOpen, IsCauseAt, MayFail};
ghost use Rattle.osn_lines.specs.Streams.{input_of, output_of};
ghost use Rattle.osn_report.specs.Folders.{ReadsOne, folders_of};
ghost use Rattle.osn_commands.specs.Check as spec;

use crate::check_faults::report_faults;
use crate::text_file::{TextFileFault, report_text_fault, report_text_file};
use osn_folder::{Folder, OpenFailed, open_file};
use osn_lines::{Sink, Source, read_all};
use osn_register::{Limits, Register};
use osn_register_text::{TextFault, parse_text};
use osn_report::{Status, print, report_no_memory};
use std::alloc::{AllocError, Global};
use std::str;

/// Returns the line on a text of this many territories without a fault.
#[tactic(auto, unfolding(crate::specs::Check::checked_line))]
fn checked_line(alloc: Global, territories: usize) -> Result<String, AllocError>
    ensures { IfOk result (λ line. string_bytes line ≡ spec.checked_line territories) }
{
    match territories {
        1 => String::from_str(alloc, "no fault: 1 territory\n"),
        _ => format!(in alloc; "no fault: {territories} territories\n"),
    }
}

/// Returns the line on a text that says this register.
fn register_line(alloc: Global, register: &Register) -> Result<String, AllocError>
    ensures { IfOk result (λ line.
        string_bytes line ≡ spec.checked_line (length register.now.territories)) }
{
    let territories = register.list_territories()?;
    checked_line(alloc, territories.len())
}

/// Reports on standard error why the text of this path says no register: if that is the fault of a
/// table, with those of the other territories. Returns the status.
fn report_check<E: Sink>(
    alloc: Global,
    limits: Limits,
    path: &str,
    text: &str,
    fault: &TextFault,
    errors: &mut E,
) -> Status
    ensures { spec.ReportsCheck limits path.now text.now
        (output_of E.contents E.has_failed E.holds_back errors.old errors.new) fault.now result }
{
    match fault {
        TextFault::Key(first) => report_faults(alloc, limits, path, text, first, errors),
        TextFault::Toml(_) => report_text_fault(alloc, errors, path, fault),
        TextFault::NoMemory => report_no_memory(errors),
    }
}

/// Prints how many territories a text has, or reports its faults.
fn check_text<W: Sink, E: Sink>(
    alloc: Global,
    limits: Limits,
    path: &str,
    text: &str,
    output: &mut W,
    errors: &mut E,
) -> Status
    ensures { spec.ChecksText limits path.now text.now
        (output_of W.contents W.has_failed W.holds_back output.old output.new)
        (output_of E.contents E.has_failed E.holds_back errors.old errors.new) result }
{
    match parse_text(alloc, limits, text) {
        Ok(said) => print(register_line(alloc, &said.register), output, errors),
        Err(fault) => report_check(alloc, limits, path, text, &fault, errors),
    }
}

/// Prints how many territories the text of these bytes has, or reports its faults, or that the
/// bytes are not a text.
fn check_bytes<W: Sink, E: Sink>(
    alloc: Global,
    limits: Limits,
    path: &str,
    bytes: &[u8],
    output: &mut W,
    errors: &mut E,
) -> Status
    ensures { spec.ChecksBytes limits path.now bytes.now
        (output_of W.contents W.has_failed W.holds_back output.old output.new)
        (output_of E.contents E.has_failed E.holds_back errors.old errors.new) result }
{
    match str::from_utf8(bytes) {
        Ok(text) => check_text(alloc, limits, path, text, output, errors),
        Err(_) => report_text_file(alloc, errors, path, &TextFileFault::NotUtf8),
    }
}

/// Runs the command `check`: prints how many territories the text of this path has, under these
/// limits. The text is read whole before anything is printed.
///
/// If the text has faults, standard error reports the first one and then that of each other
/// territory that is wrong by itself, with the line on which its table begins, and how many they
/// are. The status says so. If the text is not TOML, that alone is reported.
pub fn check_command<T: Source, W: Sink, E: Sink>(
    alloc: Global,
    limits: Limits,
    path: &str,
    text: &mut T,
    output: &mut W,
    errors: &mut E,
) -> Status
    ensures { spec.PrintsCheck limits path.now
        (input_of T.remaining T.has_failed text.old text.new)
        (output_of W.contents W.has_failed W.holds_back output.old output.new)
        (output_of E.contents E.has_failed E.holds_back errors.old errors.new) result }
{
    match read_all(alloc, text) {
        Ok(bytes) => check_bytes(alloc, limits, path, &bytes, output, errors),
        Err(fault) => report_text_file(alloc, errors, path, &TextFileFault::from(fault)),
    }
}

/// Opens the text of a path, and does what `check_command` does.
///
/// # Errors
///
/// Why the text could not be opened. Nothing was written then.
pub fn check_in_folder<D: Folder, W: Sink, E: Sink>(
    alloc: Global,
    limits: Limits,
    folder: &mut D,
    text: &str,
    output: &mut W,
    errors: &mut E,
) -> Result<Status, OpenFailed>
    ensures ok { IfOk result (λ status. ReadsOne text.now (MayFail D.File.has_failed)
        (folders_of D.known folder.old folder.new)
        (λ file. spec.PrintsCheck limits text.now file
        (output_of W.contents W.has_failed W.holds_back output.old output.new)
        (output_of E.contents E.has_failed E.holds_back errors.old errors.new) status)) }
    ensures err { OnErr result (CannotOpen (text.now ∷ [])
        (D.known folder.old) (D.known folder.new)
        × (output.new ≡ output.old) × (errors.new ≡ errors.old)) }
    ensures cause { IfErr result (IsCauseAt (D.known folder.old) text.now) }
{
    let mut file = open_file(folder, text)?;
    Ok(check_command(alloc, limits, text, &mut file, output, errors))
}
