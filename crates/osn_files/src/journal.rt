//! Loads a journal.
ghost use Rattle.std.specs.Prelude.{◌≡◌, ℕ, List, IfOk, IfSome, None, length};
ghost use Rattle.osn_days.specs.Rules.{newest_rules};
ghost use Rattle.osn_lines.specs.Lines.{lines};
ghost use Rattle.osn_files.specs.Files.{ReadsFile};
ghost use Rattle.osn_files.specs.GreaterLimits.{LoadsUnderGreater};
ghost use Rattle.osn_files.specs.Journal.{after_object, load};
ghost use Rattle.osn_files.specs.EarlierRules.{KeepsEditions};
ghost use Rattle.osn_files.specs.LoadedText.{IsOfVersion};
ghost use Rattle.osn_files.specs.Turns.{in_turn};
ghost use Rattle.osn_files.specs.declared.fault.Role.TheVariants.{Journal};

use crate::fault::{FileFault, Role};
use crate::reading::read_file;
use osn_core::Object;
use osn_lines::Source;
use osn_register::Limits;
use osn_request::Version;
use std::alloc::Global;

/// Loads the object of a journal, which is a head and then edits and publishes, a line each. They
/// are read in the form of the head's version, and run in turn, by the newest rules, on a new
/// object of these limits. Edits after the last publish are pending.
///
/// Besides the object, memory contains what `take_lines` has, and the value of one line.
///
/// # Errors
///
/// Returns `BadLine` for the first line that is refused, or for line 1 if there is no line. Returns
/// `ReadFault` if the source failed, or didn't end within 4,294,967,295 reads, and `NoMemory` if
/// memory ran out.
#[tactic(auto, using(crate::proofs::RuleFacts::keeps_editions, crate::proofs::Greater::loads_same))]
pub fn load_journal<R: Source>(
    alloc: Global,
    limits: Limits,
    source: &mut R,
) -> Result<Object, FileFault>
    ensures file { ReadsFile Journal (load newest_rules limits) (λ object. object) result
        R.remaining R.has_failed source.old source.new }

    // Whatever the lines: a journal of the first version that the first rules load, the newest
    // rules load too. Each of its editions is the same register under both.
    ensures earlier_rules { (journal : List (List ℕ)) → KeepsEditions limits journal }

    // Whatever the lines: a journal that these limits load, greater ones load too, as the same
    // object except its limits. Each of its editions has the same territories under both.
    ensures greater { (journal : List (List ℕ)) → LoadsUnderGreater limits journal }
{
    let (object, _) = load_with_version(alloc, limits, source)?;
    Ok(object)
}

/// Returns the object of a journal, as for `load_journal`, and the version that its head says.
///
/// # Errors
///
/// As for `load_journal`.
pub fn load_with_version<R: Source>(
    alloc: Global,
    limits: Limits,
    source: &mut R,
) -> Result<(Object, Version), FileFault>
    ensures file { ReadsFile Journal (load newest_rules limits) (λ read. read.0) result
        R.remaining R.has_failed source.old source.new }
    ensures version { IfOk result (λ read. IfSome (R.remaining source.old) (λ input.
        IsOfVersion read.1 (lines input))) }
{
    let part = load_part(alloc, None, Object::new(alloc, limits), source)?;
    Ok((part.object, part.version))
}

/// What the lines of a part of a journal made.
#[derive(Drop)]
pub struct JournalPart {
    /// The object after them.
    pub object: Object,
    /// The version in whose form they were read.
    pub version: Version,
    /// How many lines the part has.
    pub lines: u64,
}

/// Returns the object that more lines of a journal make of this one. If no version is given, the
/// first of them is the head.
///
/// # Errors
///
/// As for `load_journal`. Lines are counted from 1, the first of the part.
pub fn load_part<R: Source>(
    alloc: Global,
    version: Option<Version>,
    object: Object,
    source: &mut R,
) -> Result<JournalPart, FileFault>
    ensures file { ReadsFile Journal (in_turn (after_object newest_rules) 1 version object)
        (λ part. part.object) result R.remaining R.has_failed source.old source.new }
    ensures count { IfOk result (λ part. IfSome (R.remaining source.old) (λ input.
        part.lines ≡ length (lines input))) }
    ensures head { IfOk result (λ part. version ≡ None →
        IfSome (R.remaining source.old) (λ input. IsOfVersion part.version (lines input))) }
    ensures same { IfOk result (λ part. IfSome version (λ known. part.version ≡ known)) }
{
    let file = read_file(alloc, Role::Journal, version, object, source)?;
    Ok(JournalPart {
        object: file.fold,
        version: file.version,
        lines: file.lines,
    })
}
