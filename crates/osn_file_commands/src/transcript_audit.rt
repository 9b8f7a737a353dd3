//! Compares a transcript with a journal.
ghost use Rattle.std.specs.Prelude.{◌≡◌, Ok, length, IfOk, IfSome};
ghost use Rattle.osn_days.specs.Rules.{newest_rules};
ghost use Rattle.osn_core.specs.Sequential.{ObjectState};
ghost use Rattle.osn_lines.specs.Lines.{lines};
ghost use Rattle.osn_files.specs.Files.{ReadsFile};
ghost use Rattle.osn_files.specs.Journal.{load};
ghost use Rattle.osn_files.specs.declared.fault.Role.TheVariants.{Transcript};
ghost use Rattle.osn_file_commands.specs.TranscriptAudit as spec;
ghost use Rattle.osn_file_commands.specs.AuditFiles.{AuditsFiles};
ghost use Rattle.osn_file_commands.specs.AuditLaw.{Agrees};

use crate::auditor::Auditor;
use osn_core::Object;
use osn_files::{FileFault, Role, load_journal, read_lines};
use osn_lines::Source;
use osn_register::Limits;
use osn_request::Version;
use std::alloc::Global;

/// Compares a transcript with an object, and returns the number of its lines.
fn audit_lines<S: Source>(
    alloc: Global,
    object: Object,
    transcript: &mut S,
) -> Result<u64, FileFault>
    ensures { ReadsFile Transcript (spec.agreed_lines object) (λ n. n) result
        S.remaining S.has_failed transcript.old transcript.new }
{
    let Ok(auditor) = Auditor::new(alloc, object) else {
        return Err(FileFault::NoMemory);
    };
    let version = Some(Version::newest());
    let (_, count) = read_lines(alloc, Role::Transcript, version, auditor, transcript)?;
    Ok(count)
}

/// Compares a transcript with the object of a journal under these limits, and returns the number of
/// its lines, all of which agree. A line of a transcript has an `ask`, which is the request of a
/// query by a reader from 1 to 64, and a `reply`. They agree if the reply names an edition of the
/// journal that is not before the reader's last one in the transcript. Written without spaces, the
/// reply must also be the reply line to the query under that edition. Edits that the journal leaves
/// pending are in no edition.
///
/// Besides the object, memory contains a register of the greatest edition that a reply named, and
/// one for each reader with a reply of an earlier edition. It also contains what `take_lines` has,
/// the value of one line, and the texts of its reply and of the expected one.
///
/// # Errors
///
/// Returns `BadLine` for the first line that is refused, with its file. The journal is loaded
/// first, as by `load_journal`, and the transcript is not read if that fails. Returns `ReadFault`
/// if a source failed, or didn't end within 4,294,967,295 reads. Returns `NoMemory` if memory runs
/// out; the line that was being read may have a fault or not.
pub fn audit<R: Source, S: Source>(
    alloc: Global,
    limits: Limits,
    journal: &mut R,
    transcript: &mut S,
) -> Result<u64, FileFault>
    ensures files { AuditsFiles limits result
        R.remaining R.has_failed journal.old journal.new
        S.remaining S.has_failed transcript.old transcript.new }

    // As a law: each line's reply is what the journal gives, and no reader's editions fall.
    ensures agrees { IfOk result (λ n. IfSome (R.remaining journal.old) (λ edits.
        IfSome (S.remaining transcript.old) (λ replies. (n ≡ length (lines replies))
        × (object : ObjectState) × (load newest_rules limits (lines edits) ≡ Ok object)
        × Agrees object (lines replies)))) }
{
    let object = load_journal(alloc, limits, journal)?;
    audit_lines(alloc, object, transcript)
}
