//! What to do if something is refused, for which standard error has a hint.
ghost use Rattle.std.specs.Prelude.{◌≡◌};
ghost use Rattle.osn_report.specs.Hint as spec;

use osn_files::LineFault;
use osn_register::Refusal;

/// Returns how more is allowed, if the refusal is at a limit, or else an empty text.
pub fn limit_hint(refusal: Refusal) -> &'static str
    ensures { result.now ≡ spec.limit_hint refusal }
{
    match refusal {
        Refusal::TooManyLands => " (--limits lands=N allows more)",
        Refusal::TooManyChanges => " (--limits changes=N allows more)",
        Refusal::TooManyExceptions => " (--limits exceptions=N allows more)",
        Refusal::JournalFull => " (--limits edits=N allows more)",
        Refusal::EditionsFull => " (--limits editions=N allows more)",
        _ => "",
    }
}

/// Returns what to do if a line is refused, or an empty text if that has no hint.
pub(crate) fn line_hint(fault: LineFault) -> &'static str
    ensures { result.now ≡ spec.line_hint fault }
{
    match fault {
        LineFault::Register(refusal) => limit_hint(refusal),
        LineFault::Wire(_) => "",
    }
}
