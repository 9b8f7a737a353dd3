//! The words on what changed between two editions, beside the lines of a plan.
ghost use Rattle.std.specs.Prelude.{◌≡◌, ◌++◌, IfOk, OnOk, string_bytes};
ghost use Rattle.osn_lines.specs.Streams.{output_of};
ghost use Rattle.osn_commands.specs.DiffWords as spec;

use osn_lines::Sink;
use osn_report::{Status, report_line};
use std::alloc::{AllocError, Global};
use std::fmt::Write;

/// Appends the last line of this many changes from one edition to another.
#[tactic(auto, unfolding(crate::specs::DiffWords::diff_end))]
pub(crate) fn push_diff_end(
    out: &mut String,
    edits: usize,
    from: u32,
    to: u32,
) -> Result<(), AllocError>
    ensures { OnOk result
        (string_bytes out.new ≡ string_bytes out.old ++ spec.diff_end edits from to) }
{
    match edits {
        0 => writeln!(out, "nothing changed from edition {from} to edition {to}"),
        1 => writeln!(out, "1 edit from edition {from} to edition {to}"),
        _ => writeln!(out, "{edits} edits from edition {from} to edition {to}"),
    }
}

/// Returns the lines on an edition that is named first and is later than the second one.
#[tactic(auto, unfolding(crate::specs::DiffWords::backward_lines))]
fn backward_lines(alloc: Global, from: u32, to: u32) -> Result<String, AllocError>
    ensures { IfOk result (λ lines. string_bytes lines ≡ spec.backward_lines from to) }
{
    format!(in alloc;
        "oldstyle: edition {from} is later than edition {to}\n\
help: write the earlier edition first\n"
    )
}

/// Reports on standard error that the first of two editions is the later one. Returns the status.
pub(crate) fn report_backward<E: Sink>(alloc: Global, errors: &mut E, from: u32, to: u32) -> Status
    ensures { spec.ReportsBackward from to
        (output_of E.contents E.has_failed E.holds_back errors.old errors.new) result }
{
    report_line(errors, Status::Misused, backward_lines(alloc, from, to))
}
