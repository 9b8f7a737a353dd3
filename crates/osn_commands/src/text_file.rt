//! The file of a text: read, and what is written to standard error if it says no register.
ghost use Rattle.std.specs.Prelude.{◌≡◌, IfErr, IfOk, string_bytes};
ghost use Rattle.osn_lines.specs.Streams.{input_of, output_of};
ghost use Rattle.osn_commands.specs.TextFile as spec;

use osn_folder::OpenFailed;
use osn_lines::{EscapedText, ReadAllFault, Sink, Source, read_all};
use osn_register::Limits;
use osn_register_text::{RegisterText, TextFault, fault_help, parse_text};
use osn_report::{Status, report_line, report_no_memory, report_open_failure};
use std::alloc::{AllocError, Global};
use std::str;

/// Why the file of a text says no register.
#[derive(Drop)]
pub(crate) enum TextFileFault {
    /// Memory ran out.
    NoMemory,
    /// The file could not be read.
    ReadFault,
    /// Its bytes are not UTF-8.
    NotUtf8,
    /// The text says no register.
    Text(TextFault),
}

impl From<ReadAllFault> for TextFileFault {
    ghost from_gives = { λ fault value. value ≡ spec.by_read fault };

    fn from(fault: ReadAllFault) -> TextFileFault {
        match fault {
            ReadAllFault::NoMemory => TextFileFault::NoMemory,
            ReadAllFault::ReadFault => TextFileFault::ReadFault,
        }
    }
}

/// Returns what these bytes say.
fn text_in(alloc: Global, limits: Limits, bytes: &[u8]) -> Result<RegisterText, TextFileFault>
    ensures ok { IfOk result
        (λ text. spec.BytesSay limits bytes.now text.edition text.register) }
    ensures err { IfErr result (spec.BytesSayNone limits bytes.now) }
{
    match str::from_utf8(bytes) {
        Ok(text) => parse_text(alloc, limits, text).map_err(TextFileFault::Text),
        Err(_) => Err(TextFileFault::NotUtf8),
    }
}

/// Returns what the text of a file says.
///
/// # Errors
///
/// Why it says no register.
pub(crate) fn read_register_text<T: Source>(
    alloc: Global,
    limits: Limits,
    text: &mut T,
) -> Result<RegisterText, TextFileFault>
    ensures ok { IfOk result
        (λ read. spec.Says limits (T.remaining text.old) read.edition read.register) }
    ensures err { IfErr result (spec.IsTextFileFault limits
        (input_of T.remaining T.has_failed text.old text.new)) }
{
    let bytes = read_all(alloc, text)?;
    text_in(alloc, limits, &bytes)
}

/// Returns the line on what is wrong with the text of this path.
fn text_line(alloc: Global, path: &str, message: &str) -> Result<String, AllocError>
    ensures { IfOk result (λ line. string_bytes line ≡ spec.text_line path.now message.now) }
{
    format!(in alloc; "oldstyle: {}: {message}\n", EscapedText(path))
}

/// Returns the line on a fault of the text of this path, and the one below it, if there is one.
fn fault_lines(alloc: Global, path: &str, fault: &TextFault) -> Result<String, AllocError>
    ensures { IfOk result (λ lines. string_bytes lines ≡ spec.fault_lines path.now fault.now) }
{
    let help = fault_help(alloc, fault)?;
    format!(in alloc; "oldstyle: {}: {fault}\n{help}", EscapedText(path))
}

/// Reports on standard error the fault in the text of this path. Returns the status.
pub(crate) fn report_text_fault<E: Sink>(
    alloc: Global,
    errors: &mut E,
    path: &str,
    fault: &TextFault,
) -> Status
    ensures { spec.ReportsText path.now
        (output_of E.contents E.has_failed E.holds_back errors.old errors.new) fault.now result }
{
    match fault {
        TextFault::NoMemory => report_no_memory(errors),
        TextFault::Toml(_) | TextFault::Key(_) => {
            report_line(errors, Status::Refused, fault_lines(alloc, path, fault))
        }
    }
}

/// Reports on standard error why the file of this path says no register. Returns the status.
pub(crate) fn report_text_file<E: Sink>(
    alloc: Global,
    errors: &mut E,
    path: &str,
    fault: &TextFileFault,
) -> Status
    ensures { spec.ReportsTextFile path.now
        (output_of E.contents E.has_failed E.holds_back errors.old errors.new) fault.now result }
{
    match fault {
        TextFileFault::NoMemory => report_no_memory(errors),
        TextFileFault::ReadFault => report_open_failure(alloc, errors, path, OpenFailed::Other),
        TextFileFault::NotUtf8 => {
            let line = text_line(alloc, path, "it is not UTF-8: save it as UTF-8");
            report_line(errors, Status::Refused, line)
        }
        TextFileFault::Text(fault) => report_text_fault(alloc, errors, path, fault),
    }
}
