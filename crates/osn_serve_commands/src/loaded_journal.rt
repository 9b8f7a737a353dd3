//! What a file that will be kept contains: the journal of its lines that count.
ghost use Rattle.std.specs.Prelude.{◌≡◌, ◌^◌, ◌<◌, ℕ, List, Ok, IfOk, IfErr, OnOk, true};
ghost use Rattle.std.specs.Prelude.{false};
ghost use Rattle.osn_files.specs.CountedPrefix.{whole_bytes};
ghost use Rattle.osn_report.specs.declared.fault.CommandFault.{CommandFault};
ghost use Rattle.osn_serve_commands.specs.Keep.{IsUnread, SaysVersion, is_kept, object_of};
ghost use Rattle.osn_serve_commands.specs.KeepInside.{AreReadOf, IsHeldIn, IsUnreadKept};

use osn_core::Object;
use osn_files::{CountedPrefix, FileFault, counted_prefix, load_with_version};
use osn_lines::{Bytes, Source, read_all};
use osn_register::Limits;
use osn_report::CommandFault;
use osn_request::Version;
use std::alloc::Global;

/// What a file that will be kept contains.
#[derive(Drop)]
pub struct LoadedJournal {
    /// Its bytes.
    pub bytes: Vec<u8>,
    /// How much of them counts.
    pub part: CountedPrefix,
    /// The version that the lines that count say, or the plain one if no line counts.
    pub version: Version,
    /// The object of these lines, which is an empty one if no line counts.
    pub object: Object,
}

/// Returns the object of the lines of a journal that count, and the version that they say. If there
/// are no lines, it is an empty object and the plain version.
fn kept_object(alloc: Global, limits: Limits, lines: &[u8]) -> Result<(Object, Version), FileFault>
    ensures object { IfOk result (λ read. object_of limits lines.now ≡ Ok read.0) }
    ensures version { IfOk result (λ read. SaysVersion read.1 lines.now) }
    // For whatever follows the lines that count.
    ensures err { IfErr result (λ fault. (content : List ℕ) → lines.now ≡ whole_bytes content →
        IsUnread limits content false fault) }
{
    if lines.is_empty() {
        return Ok((Object::new(alloc, limits), Version::plain()));
    }
    load_with_version(alloc, limits, &mut Bytes::new(lines))
}

/// Returns what these bytes of a file contain. Their lines are counted and loaded.
fn held_journal(alloc: Global, limits: Limits, bytes: Vec<u8>) -> Result<LoadedJournal, FileFault>
    ensures few { IfOk result (λ journal. journal.part.lines < 2 ^ 63) }
    ensures bytes { IfOk result (λ journal. journal.bytes.items ≡ bytes.items) }
    ensures ok { IfOk result
        (λ journal. IsHeldIn limits bytes.items journal.part journal.version journal.object) }
    ensures err { IfErr result (IsUnread limits bytes.items false) }
{
    let part = counted_prefix(alloc, &bytes)?;
    let (object, version) = kept_object(alloc, limits, &bytes[..part.bytes as usize])?;
    Ok(LoadedJournal {
        bytes,
        part,
        version,
        object,
    })
}

/// Reads what a file that will be kept contains, from the source that gives it. It is read once,
/// then its lines are counted and loaded.
///
/// # Errors
///
/// Why it makes no object. Any version is read.
pub fn read_journal_to_keep<J: Source>(
    alloc: Global,
    limits: Limits,
    journal: &mut J,
) -> Result<LoadedJournal, CommandFault>
    ensures few { IfOk result (λ file. file.part.lines < 2 ^ 63) }
    ensures bytes { IfOk result (λ file. AreReadOf (J.remaining journal.old) file.bytes.items) }
    ensures ok { IfOk result
        (λ file. IsHeldIn limits file.bytes.items file.part file.version file.object) }
    ensures err { IfErr result (λ fault. IsUnreadKept limits
        (J.remaining journal.old) (J.has_failed journal.new) fault) }
{
    let bytes = read_all(alloc, journal)?;
    Ok(held_journal(alloc, limits, bytes)?)
}

/// Checks that a journal of this version is kept: one of the first version lacks styles that an
/// edit may have.
///
/// # Errors
///
/// `OlderVersion` if it is not.
pub fn check_version_to_keep(version: Version) -> Result<(), CommandFault>
    ensures ok { OnOk result (is_kept version ≡ true) }
    ensures err { IfErr result (λ fault. (fault ≡ CommandFault.OlderVersion version)
        × (is_kept version ≡ false)) }
{
    match version {
        Version::First => Err(CommandFault::OlderVersion(version)),
        Version::Second | Version::Fourth => Ok(()),
    }
}
