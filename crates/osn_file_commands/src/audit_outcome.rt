//! The command `audit`.
ghost use Rattle.std.specs.Prelude.{◌≡◌, IfErr, IfOk, string_bytes};
ghost use Rattle.osn_lines.specs.Streams.{input_of};
ghost use Rattle.osn_file_commands.specs.Audit.{audit_line, Audits, AuditFails};

use crate::transcript_audit::audit;
use osn_lines::Source;
use osn_register::Limits;
use osn_report::CommandFault;
use std::alloc::{AllocError, Global};

/// Returns the line on this many replies.
fn agreed_line(alloc: Global, replies: u64) -> Result<String, AllocError>
    ensures { IfOk result (λ text. string_bytes text ≡ audit_line replies) }
{
    format!(in alloc; "audit: {replies} replies agree\n")
}

/// Runs the command `audit`: compares a transcript with what a journal published under these
/// limits. The text says how many replies it has, all of which agree. The journal is read whole
/// before the transcript.
///
/// # Errors
///
/// The first line that is refused, such as that of a reply that the journal does not give, or why a
/// file could not be read.
pub fn audit_command<J: Source, K: Source>(
    alloc: Global,
    limits: Limits,
    journal: &mut J,
    transcript: &mut K,
) -> Result<String, CommandFault>
    ensures ok { IfOk result (λ text. Audits limits
        (input_of J.remaining J.has_failed journal.old journal.new)
        (input_of K.remaining K.has_failed transcript.old transcript.new) (string_bytes text)) }
    ensures err { IfErr result (AuditFails limits
        (input_of J.remaining J.has_failed journal.old journal.new)
        (input_of K.remaining K.has_failed transcript.old transcript.new)) }
{
    match audit(alloc, limits, journal, transcript) {
        Ok(replies) => Ok(agreed_line(alloc, replies)?),
        Err(fault) => Err(CommandFault::File(fault)),
    }
}
