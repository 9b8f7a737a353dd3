//! What is written to standard error of a text with faults: one for each territory.
ghost use Rattle.std.specs.Prelude.{◌≡◌, ◌++◌, IfOk, OnOk, string_bytes};
ghost use Rattle.std.specs.List.{flat_map};
ghost use Rattle.osn_lines.specs.Streams.{output_of};
ghost use Rattle.osn_register_text.specs.TableLine.{table_line as line_of_table};
ghost use Rattle.osn_commands.specs.CheckFaults as spec;

use osn_lines::{EscapedText, Sink};
use osn_register::Limits;
use osn_register_text::{KeyFault, further_faults, key_fault_help, table_line};
use osn_report::{Status, report_line, report_no_memory};
use std::alloc::{AllocError, Global};
use std::fmt::Write;

/// Returns the line on where the table of a code begins, if that is known.
fn place_note(alloc: Global, code: &str, line: Option<usize>) -> Result<String, AllocError>
    ensures { IfOk result (λ note. string_bytes note ≡ spec.place_note code.now line) }
{
    match line {
        Some(line) => format!(in alloc; "note: {} begins on line {line}\n", EscapedText(code)),
        None => Ok(String::new(alloc)),
    }
}

/// Returns the line on where the table of a code begins in a text, if that is found.
fn place_in_text(alloc: Global, code: &str, text: &str) -> Result<String, AllocError>
    ensures { IfOk result (λ note.
        string_bytes note ≡ spec.place_note code.now (line_of_table code.now text.now)) }
{
    let line = table_line(alloc, code, text)?;
    place_note(alloc, code, line)
}

/// Appends a fault of a text, what may be meant, and where its table begins.
fn push_fault(
    lines: &mut String,
    alloc: Global,
    path: &str,
    text: &str,
    fault: &KeyFault,
) -> Result<(), AllocError>
    ensures { OnOk result (string_bytes lines.new
        ≡ string_bytes lines.old ++ spec.fault_lines path.now text.now fault.now) }
{
    let help = key_fault_help(alloc, fault)?;
    let note = place_in_text(alloc, fault.code.as_str(), text)?;
    write!(
        lines,
        "oldstyle: {}: {fault}\n{help}{note}",
        EscapedText(path)
    )
}

/// Appends faults of a text, each as `push_fault` does.
fn push_faults(
    lines: &mut String,
    alloc: Global,
    path: &str,
    text: &str,
    faults: &[KeyFault],
) -> Result<(), AllocError>
    ensures { OnOk result (string_bytes lines.new ≡ string_bytes lines.old
        ++ flat_map (spec.fault_lines path.now text.now) faults.now) }
{
    for fault in faults {
        push_fault(lines, alloc, path, text, fault)?;
    }
    Ok(())
}

/// Appends how many faults there are.
#[tactic(auto, unfolding(crate::specs::CheckFaults::count_line))]
fn push_count(lines: &mut String, faults: usize) -> Result<(), AllocError>
    ensures { OnOk result (string_bytes lines.new
        ≡ string_bytes lines.old ++ spec.count_line faults) }
{
    match faults {
        1 => writeln!(lines, "note: 1 fault"),
        _ => writeln!(lines, "note: {faults} faults"),
    }
}

/// Returns the lines on the first fault of a text and on further ones, and their number.
fn list_of(
    alloc: Global,
    path: &str,
    text: &str,
    first: &KeyFault,
    further: &[KeyFault],
) -> Result<String, AllocError>
    ensures { IfOk result (λ lines.
        string_bytes lines ≡ spec.list_of path.now text.now first.now further.now) }
{
    let mut lines = String::new(alloc);
    push_fault(&mut lines, alloc, path, text, first)?;
    push_faults(&mut lines, alloc, path, text, further)?;
    push_count(&mut lines, further.len() + 1)?;
    Ok(lines)
}

/// Reports on standard error the first fault of the text of this path, those of the other
/// territories, and how many faults there are. Returns the status.
pub(crate) fn report_faults<E: Sink>(
    alloc: Global,
    limits: Limits,
    path: &str,
    text: &str,
    first: &KeyFault,
    errors: &mut E,
) -> Status
    ensures { spec.ReportsFaults limits path.now text.now
        (output_of E.contents E.has_failed E.holds_back errors.old errors.new) first.now result }
{
    match further_faults(alloc, limits, text, first.code.as_str()) {
        Ok(further) => {
            let lines = list_of(alloc, path, text, first, &further);
            report_line(errors, Status::Refused, lines)
        }
        Err(_) => report_no_memory(errors),
    }
}
