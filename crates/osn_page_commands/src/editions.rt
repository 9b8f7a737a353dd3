//! The command `editions`: a line for each edition of a journal.
ghost use Rattle.std.specs.Prelude.{◌≡◌, ◌<◌, ◌^◌, ◌+◌, ◌++◌, [], IfOk, OnOk, length, string_bytes};
ghost use Rattle.std.specs.List.{list_any, sum_by};
ghost use Rattle.osn_lines.specs.Streams.{input_of, output_of};
ghost use Rattle.osn_page_commands.specs.EditionList as spec;

use osn_core::{Batch, Object};
use osn_files::load_journal;
use osn_lines::{Sink, Source};
use osn_pages::push_pending;
use osn_register::{Edit, Limits};
use osn_report::{CommandFault, Status, print, report_at};
use std::alloc::{AllocError, Global};
use std::fmt::Write;

/// Returns whether two edits are of the same territory.
fn have_same_code(edit: &Edit, other: &Edit) -> bool
    ensures { result ≡ spec.same_code edit.now other.now }
{
    edit.code().as_str() == other.code().as_str()
}

/// Returns whether an edit is of the same territory as one of others.
fn has_code_of_any(edit: &Edit, others: &[Edit]) -> bool
    ensures { result ≡ list_any (spec.same_code edit.now) others.now }
{
    others.iter().any(|other| have_same_code(edit, other))
}

/// Appends the code of an edit, unless one of the edits before has the same.
fn push_code(out: &mut String, before: &[Edit], edit: &Edit) -> Result<(), AllocError>
    ensures { OnOk result
        (string_bytes out.new ≡ string_bytes out.old ++ spec.new_code before.now edit.now) }
{
    if has_code_of_any(edit, before) {
        return Ok(());
    }
    write!(out, " {}", edit.code().as_str())
}

/// Appends the codes of edits, each once.
#[tactic(auto, using(crate::proofs::EditionListLemmas::next_code))]
fn push_codes(out: &mut String, edits: &[Edit]) -> Result<(), AllocError>
    ensures { OnOk result
        (string_bytes out.new ≡ string_bytes out.old ++ spec.codes_after [] edits.now) }
{
    for place in 0..edits.len() {
        push_code(out, &edits[..place], &edits[place])?;
    }
    Ok(())
}

/// Appends the number of an edition, its line in the journal, and how many edits it has.
#[tactic(auto, unfolding(crate::specs::EditionList::edition_begin))]
fn push_begin(out: &mut String, number: usize, line: u64, edits: usize) -> Result<(), AllocError>
    ensures { OnOk result (string_bytes out.new
        ≡ string_bytes out.old ++ spec.edition_begin number line edits) }
{
    match edits {
        1 => write!(out, "edition {number}    line {line}    1 edit   "),
        _ => write!(out, "edition {number}    line {line}    {edits} edits   "),
    }
}

/// Appends the line of an edition.
fn push_edition(
    out: &mut String,
    number: usize,
    line: u64,
    edits: &[Edit],
) -> Result<(), AllocError>
    ensures { OnOk result (string_bytes out.new
        ≡ string_bytes out.old ++ spec.edition_line number line edits.now) }
{
    push_begin(out, number, line, edits.len())?;
    push_codes(out, edits)?;
    out.push_str("\n")
}

/// Appends the line of each edition.
#[tactic(auto, using(crate::proofs::EditionListLemmas::next_edition, std::proofs::lemmas::List::Sums::sum_by_more_le))]
fn push_editions(out: &mut String, batches: &[Batch]) -> Result<(), AllocError>
    requires { sum_by (λ b. length b) batches.now + length batches.now < 2 ^ 62 }
    ensures { OnOk result (string_bytes out.new
        ≡ string_bytes out.old ++ spec.editions_lines 0 1 batches.now) }
{
    let mut line = 1;
    for place in 0..batches.len() {
        let edits = batches[place].edits();
        line += edits.len() as u64 + 1;
        push_edition(out, place + 1, line, edits)?;
    }
    Ok(())
}

/// Returns the page of the editions of an object.
fn editions_page(alloc: Global, object: &Object) -> Result<String, AllocError>
    ensures { IfOk result (λ text. string_bytes text ≡ spec.editions_page object.now) }
{
    // The edits and the editions are no more than their limits, which are small numbers.
    let _most = object.register().limits();
    let batches = object.batches();
    let mut text = String::new(alloc);
    push_editions(&mut text, batches)?;
    push_pending(&mut text, object.pending().len())?;
    Ok(text)
}

/// Runs the command `editions`: prints a line for each edition of the journal of this path under
/// these limits, with its number, the line on which the journal publishes it, the number of its
/// edits, and the codes of their territories. The journal is read whole before anything is printed.
///
/// If nothing is printed, a line on standard error reports why, and the status says so.
pub fn editions_command<J: Source, W: Sink, E: Sink>(
    alloc: Global,
    limits: Limits,
    path: &str,
    journal: &mut J,
    output: &mut W,
    errors: &mut E,
) -> Status
    ensures { spec.PrintsEditions limits path.now
        (input_of J.remaining J.has_failed journal.old journal.new)
        (output_of W.contents W.has_failed W.holds_back output.old output.new)
        (output_of E.contents E.has_failed E.holds_back errors.old errors.new) result }
{
    match load_journal(alloc, limits, journal) {
        Ok(object) => print(editions_page(alloc, &object), output, errors),
        Err(fault) => report_at(alloc, errors, path, CommandFault::File(fault)),
    }
}
