//! The command `diff`: what changed from one edition of a journal to another.
ghost use Rattle.std.specs.Prelude.{◌≡◌, ◌≤◌, IfOk, None, length, string_bytes};
ghost use Rattle.osn_lines.specs.Streams.{input_of, output_of};
ghost use Rattle.osn_commands.specs.Diff as spec;

use crate::diff_words::push_diff_end;
use crate::plan_fault::report_plan_fault;
use osn_core::{EditionFault, Object, register_of};
use osn_files::load_journal;
use osn_lines::{Sink, Source};
use osn_page_commands::report_edition_fault;
use osn_register::{Edit, Limits, Register};
use osn_register_text::{plan, plan_page};
use osn_report::{CommandFault, Status, print, report_at, report_no_memory};
use std::alloc::{AllocError, Global};

/// Returns the lines of the edits from one edition to another.
fn diff_text(
    alloc: Global,
    earlier: &Register,
    later: &Register,
    edits: &[Edit],
    from: u32,
    to: u32,
) -> Result<String, AllocError>
    ensures { IfOk result (λ text. string_bytes text
        ≡ spec.diff_text earlier.now.territories later.now.territories edits.now from to) }
{
    let mut text = plan_page(alloc, earlier, later, edits)?;
    push_diff_end(&mut text, edits.len(), from, to)?;
    Ok(text)
}

/// Prints the edits that change the register of one edition into that of another. The journal has
/// this path.
fn print_edits<W: Sink, E: Sink>(
    alloc: Global,
    earlier: &Register,
    later: &Register,
    path: &str,
    from: u32,
    to: u32,
    output: &mut W,
    errors: &mut E,
) -> Status
    ensures { spec.PrintsEdits earlier.now.limits earlier.now.territories later.now.territories
        path.now from to
        (output_of W.contents W.has_failed W.holds_back output.old output.new)
        (output_of E.contents E.has_failed E.holds_back errors.old errors.new) result }
{
    match plan(alloc, earlier, later) {
        Ok(edits) => print(
            diff_text(alloc, earlier, later, &edits, from, to),
            output,
            errors,
        ),
        Err(fault) => report_plan_fault(alloc, errors, path, &fault),
    }
}

/// Returns the registers of two editions that an object has.
fn registers_of(
    alloc: Global,
    object: &Object,
    from: u32,
    to: u32,
) -> Result<(Register, Register), AllocError>
    requires from { from ≤ length object.now.batches }
    requires to { to ≤ length object.now.batches }
    ensures limits { IfOk result (λ both. both.0.limits ≡ object.now.limits) }
    ensures earlier { IfOk result
        (λ both. both.0.territories ≡ spec.territories_by from object.now) }
    ensures later { IfOk result
        (λ both. both.1.territories ≡ spec.territories_by to object.now) }
{
    let earlier = register_of(alloc, object, from)?;
    let later = register_of(alloc, object, to)?;
    Ok((earlier, later))
}

/// Prints what changed between two editions that an object has.
fn print_between<W: Sink, E: Sink>(
    alloc: Global,
    object: &Object,
    path: &str,
    from: u32,
    to: u32,
    output: &mut W,
    errors: &mut E,
) -> Status
    requires from { from ≤ length object.now.batches }
    requires to { to ≤ length object.now.batches }
    ensures { spec.PrintsBetween object.now path.now from to
        (output_of W.contents W.has_failed W.holds_back output.old output.new)
        (output_of E.contents E.has_failed E.holds_back errors.old errors.new) result }
{
    match registers_of(alloc, object, from, to) {
        Ok((earlier, later)) => {
            print_edits(alloc, &earlier, &later, path, from, to, output, errors)
        }
        Err(_) => report_no_memory(errors),
    }
}

/// Returns the first of two numbers that is not an edition of a journal with this many.
fn missing_edition(editions: usize, from: u32, to: u32) -> Option<u32>
    ensures value { result ≡ spec.missing_edition editions from to }
    ensures from { (result ≡ None) → from ≤ editions }
    ensures to { (result ≡ None) → to ≤ editions }
{
    if from as usize > editions {
        Some(from)
    } else if to as usize > editions {
        Some(to)
    } else {
        None
    }
}

/// Prints what changed between two editions of an object, or reports which of them it lacks.
fn print_diff<W: Sink, E: Sink>(
    alloc: Global,
    object: &Object,
    path: &str,
    from: u32,
    to: u32,
    output: &mut W,
    errors: &mut E,
) -> Status
    ensures { spec.PrintsOrLacks (spec.missing_edition (length object.now.batches) from to)
        object.now
        path.now from to
        (output_of W.contents W.has_failed W.holds_back output.old output.new)
        (output_of E.contents E.has_failed E.holds_back errors.old errors.new) result }
{
    let newest = object.batches().len();
    match missing_edition(newest, from, to) {
        Some(number) => {
            report_edition_fault(alloc, errors, EditionFault::TooLate { number, newest })
        }
        None => print_between(alloc, object, path, from, to, output, errors),
    }
}

/// Runs the command `diff`: prints the edits that change what the journal of this path had
/// published by one edition into what it had published by another, under these limits. The journal
/// is read whole before anything is printed.
///
/// If nothing is printed, standard error reports why, and the status says so.
pub fn diff_command<J: Source, W: Sink, E: Sink>(
    alloc: Global,
    limits: Limits,
    path: &str,
    journal: &mut J,
    from: u32,
    to: u32,
    output: &mut W,
    errors: &mut E,
) -> Status
    ensures { spec.PrintsDiff limits path.now
        (input_of J.remaining J.has_failed journal.old journal.new) from to
        (output_of W.contents W.has_failed W.holds_back output.old output.new)
        (output_of E.contents E.has_failed E.holds_back errors.old errors.new) result }
{
    match load_journal(alloc, limits, journal) {
        Ok(object) => print_diff(alloc, &object, path, from, to, output, errors),
        Err(fault) => report_at(alloc, errors, path, CommandFault::File(fault)),
    }
}
