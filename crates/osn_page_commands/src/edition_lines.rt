//! What is reported about an edition that a journal lacks.
ghost use Rattle.std.specs.Prelude.{◌≡◌, IfOk, string_bytes};
ghost use Rattle.osn_lines.specs.Streams.{output_of};
ghost use Rattle.osn_page_commands.specs.Editions as spec;

use osn_core::EditionFault;
use osn_lines::{EscapedText, Sink};
use osn_report::{Status, report_line, report_no_memory};
use std::alloc::{AllocError, Global};

/// Returns the line on a word that is not the number of an edition.
#[tactic(auto, unfolding(crate::specs::Editions::word_line))]
fn word_line(alloc: Global, word: &str) -> Result<String, AllocError>
    ensures { IfOk result (λ line. string_bytes line ≡ spec.word_line word.now) }
{
    let word = EscapedText(word);
    format!(in alloc; "oldstyle: {word}: an edition is a number, such as 3\n")
}

/// Reports on standard error that a word is not the number of an edition. Returns the status.
pub fn report_edition_word<E: Sink>(alloc: Global, errors: &mut E, word: &str) -> Status
    ensures { spec.ReportsEditionWord word.now
        (output_of E.contents E.has_failed E.holds_back errors.old errors.new) result }
{
    report_line(errors, Status::Misused, word_line(alloc, word))
}

/// Returns what to do about a number that is not that of an edition of the journal, whose newest
/// edition is this.
fn late_help(alloc: Global, newest: usize) -> Result<String, AllocError>
    ensures { IfOk result (λ help. string_bytes help ≡ spec.late_help newest) }
{
    match newest {
        0 => String::from_str(alloc, "help: nothing is published in the journal yet\n"),
        _ => format!(in alloc; "help: write a number from 0 to {newest}\n"),
    }
}

/// Returns the lines on a number that is not that of an edition of the journal, whose newest
/// edition is this.
#[tactic(auto, unfolding(crate::specs::Editions::late_lines))]
fn late_lines(alloc: Global, number: u32, newest: usize) -> Result<String, AllocError>
    ensures { IfOk result (λ lines. string_bytes lines ≡ spec.late_lines number newest) }
{
    let help = late_help(alloc, newest)?;
    format!(in alloc;
        "oldstyle: edition {number} is later than the newest edition, which is {newest}\n{help}"
    )
}

/// Reports on standard error why there is no such edition. Returns the status.
pub fn report_edition_fault<E: Sink>(alloc: Global, errors: &mut E, fault: EditionFault) -> Status
    ensures { spec.ReportsEditionFault fault
        (output_of E.contents E.has_failed E.holds_back errors.old errors.new) result }
{
    match fault {
        EditionFault::TooLate { number, newest } => {
            let lines = late_lines(alloc, number, newest);
            report_line(errors, Status::Refused, lines)
        }
        EditionFault::NoMemory => report_no_memory(errors),
    }
}
