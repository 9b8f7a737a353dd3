//! The words on a plan and on its publish, beside the plan's own lines.
ghost use Rattle.std.specs.Prelude.{◌≡◌, ◌++◌, IfOk, OnOk, string_bytes};
ghost use Rattle.osn_commands.specs.PlanWords as spec;

use osn_lines::EscapedText;
use osn_register::Refusal;
use osn_report::limit_hint;
use osn_request::Version;
use std::alloc::{AllocError, Global};
use std::fmt::Write;

/// Appends the last line of a plan of this many edits. The next edition has this number.
pub(crate) fn push_plan_end(out: &mut String, edits: usize, next: usize) -> Result<(), AllocError>
    ensures { OnOk result
        (string_bytes out.new ≡ string_bytes out.old ++ spec.plan_end edits next) }
{
    match edits {
        0 => out.push_str("nothing to change\n"),
        1 => writeln!(out, "1 edit: publish makes it edition {next}"),
        _ => writeln!(out, "{edits} edits: publish makes them edition {next}"),
    }
}

/// Appends that the journal of this path is new, if it has no edition.
#[tactic(auto, unfolding(crate::specs::PlanWords::new_line))]
pub(crate) fn push_new_journal(
    out: &mut String,
    path: &str,
    editions: usize,
) -> Result<(), AllocError>
    ensures { OnOk result
        (string_bytes out.new ≡ string_bytes out.old ++ spec.new_journal_line path.now editions) }
{
    match editions {
        0 => writeln!(out, "note: {} is a new journal", EscapedText(path)),
        _ => Ok(()),
    }
}

/// Appends the last line of edits that were published as the edition of this number.
pub(crate) fn push_published(out: &mut String, edition: u32) -> Result<(), AllocError>
    ensures { OnOk result
        (string_bytes out.new ≡ string_bytes out.old ++ spec.published_line edition) }
{
    writeln!(out, "published as edition {edition}")
}

/// Appends the last line of a publish of no edits, after this many editions.
pub(crate) fn push_standing(out: &mut String, editions: usize) -> Result<(), AllocError>
    ensures { OnOk result
        (string_bytes out.new ≡ string_bytes out.old ++ spec.no_change_line editions) }
{
    writeln!(out, "nothing to change: edition {editions} is the newest")
}

fn edits_word(edits: usize) -> &'static str
    ensures { result.now ≡ spec.edits_word edits }
{
    if edits == 1 { "edit" } else { "edits" }
}

/// What to do with pending edits.
const ADVICE: &str = ": publish what is pending with serve --keep and the line \
{\"op\":\"publish\"}, or remove the lines after the last publish from the journal\n";

/// Returns the line on a journal with this many pending edits, which this word names.
#[tactic(auto, unfolding(crate::specs::PlanWords::pending_text))]
fn pending_text(
    alloc: Global,
    pending: usize,
    edits: &str,
    advice: &str,
) -> Result<String, AllocError>
    ensures { IfOk result (λ line.
        string_bytes line ≡ spec.pending_text pending edits.now advice.now) }
{
    format!(in alloc; "oldstyle: publish refuses a journal with {pending} pending {edits}{advice}")
}

/// Returns the line on a journal with this many pending edits.
pub(crate) fn pending_line(alloc: Global, pending: usize) -> Result<String, AllocError>
    ensures { IfOk result (λ line. string_bytes line ≡ spec.pending_line pending) }
{
    pending_text(alloc, pending, edits_word(pending), ADVICE)
}

/// Returns the line on a journal of this path that is not there.
#[tactic(auto, unfolding(crate::specs::PlanWords::new_line))]
pub(crate) fn new_line(alloc: Global, path: &str) -> Result<String, AllocError>
    ensures { IfOk result (λ line. string_bytes line ≡ spec.new_line path.now) }
{
    format!(in alloc; "note: {} is a new journal\n", EscapedText(path))
}

/// Returns the line on edits that a publish refuses.
pub(crate) fn refused_edits_line(alloc: Global, refusal: Refusal) -> Result<String, AllocError>
    ensures { IfOk result (λ line. string_bytes line ≡ spec.refused_edits_line refusal) }
{
    let number = refusal.number();
    let name = refusal.name();
    let hint = limit_hint(refusal);
    format!(in alloc; "oldstyle: publish refuses the edits: {number} {name}{hint}\n")
}

/// Returns the line on a journal of this version that a publish rewrites.
pub(crate) fn anew_line(alloc: Global, version: Version) -> Result<String, AllocError>
    ensures { IfOk result (λ line. string_bytes line ≡ spec.anew_line version) }
{
    let number = version.number();
    format!(in alloc;
        "oldstyle: the journal is of version {number}, which has no sources: publish saves it \
as version 4\n"
    )
}

/// Returns the lines on a journal of this path and version that a publish refuses.
pub(crate) fn not_kept_line(
    alloc: Global,
    path: &str,
    version: Version,
) -> Result<String, AllocError>
    ensures { IfOk result (λ line. string_bytes line ≡ spec.not_kept_line path.now version) }
{
    let number = version.number();
    let path = EscapedText(path);
    format!(in alloc;
        "oldstyle: publish refuses a journal of version {number}: serve --keep with --upgrade \
saves it as version 4\nhelp: run oldstyle serve --keep {path} --upgrade < /dev/null, \
then publish\n"
    )
}
