//! The edits of a plan, made one edition: in the object of a journal, and in its file.
ghost use Rattle.std.specs.Prelude.{◌≡◌, ◌+◌, ◌++◌, ◌∷◌, ◌^◌, ◌<◌, ℕ, List, [], Option, None, Some};
ghost use Rattle.std.specs.Prelude.{IfErr, IfOk, OnOk, length, string_bytes};
ghost use Rattle.std.specs.Io.KnownBytes.{Appends};
ghost use Rattle.std.specs.List.{All};
ghost use Rattle.osn_core.specs.Sequential.{HasLawfulSource};
ghost use Rattle.osn_files.specs.JournalText.{journal_text};
ghost use Rattle.osn_journal.specs.KeptJournal.{file_of};
ghost use Rattle.osn_lines.specs.Streams.{output_of};
ghost use Rattle.osn_register.specs.declared.edit.Edit.{Edit};
ghost use Rattle.osn_serve_commands.specs.Keep.{ReportsCut};
ghost use Rattle.osn_commands.specs.Edition.{IsNoMemoryOr, edition_refusal, with_batch};
ghost use Rattle.osn_commands.specs.Publish as spec;
ghost use Rattle.osn_commands.specs.Publish.{published_text};
ghost use Rattle.osn_commands.specs.PublishInside as inside;

use crate::plan_words::{push_new_journal, push_published};
use osn_core::Object;
use osn_files::{CountedPrefix, journal_text, with_edits, with_publish};
use osn_folder::{KeptFile, KeptFileFault};
use osn_journal::append_synced;
use osn_lines::Sink;
use osn_register::{Edit, Refusal, Register};
use osn_register_text::plan_page;
use osn_report::CommandFault;
use osn_serve_commands::{cut_unfinished, missing_text};
use std::alloc::{AllocError, Global};

/// Stages edits in turn, and publishes them. Returns the number of their edition.
///
/// # Errors
///
/// The first refusal that applies, or `NoMemory`.
pub(crate) fn make_edition(object: &mut Object, edits: Vec<Edit>) -> Result<u32, Refusal>
    ensures lawful { OnOk result (edition_refusal object.old edits.items ≡ None) }
    ensures sources { OnOk result (All HasLawfulSource edits.items) }
    ensures number { IfOk result (λ n. n ≡ length object.old.batches + 1) }
    ensures limits { OnOk result (object.new.limits ≡ object.old.limits) }
    ensures batches { OnOk result (object.new.batches
        ≡ object.old.batches ++ (object.old.pending ++ edits.items) ∷ []) }
    ensures pending { OnOk result (object.new.pending ≡ []) }
    ensures refused { IfErr result
        (IsNoMemoryOr (edition_refusal object.old edits.items)) }
{
    for edit in edits {
        object.check(&edit)?;
        object.admit(edit)?;
    }
    object.check_publish()?;
    Ok(object.make_edition()?)
}

/// Returns what is appended to a file of which this part counts: what is missing there, then the
/// lines of the edits and that of their publish.
fn edition_lines(alloc: Global, part: CountedPrefix, edits: &[Edit]) -> Result<Vec<u8>, AllocError>
    ensures { IfOk result (λ lines. inside.AreLinesOf part edits.now lines.items) }
{
    let missing = missing_text(alloc, part)?;
    with_publish(with_edits(missing, edits)?)
}

/// Returns what is printed before the line on the edition that these edits make of an object, whose
/// journal has this path.
fn begun_text(
    alloc: Global,
    path: &str,
    object: &Object,
    target: &Register,
    edits: &[Edit],
) -> Result<String, AllocError>
    ensures { IfOk result (λ text.
        string_bytes text ≡ spec.begun_text path.now object.now target.now edits.now) }
{
    let mut text = String::new(alloc);
    push_new_journal(&mut text, path, object.batches().len())?;
    let page = plan_page(alloc, object.register(), target, edits)?;
    text.push_str(page.as_str())?;
    Ok(text)
}

/// An edition that is not written yet.
#[derive(Drop)]
pub(crate) struct Edition {
    /// What the file of the journal gets.
    pub(crate) lines: Vec<u8>,
    /// What is printed once the file has it.
    pub(crate) text: String,
}

/// Returns the edits as the next edition of an object, which then has it. It is for the file of
/// this path, of which this part counts.
///
/// # Errors
///
/// The first refusal that applies, or `NoMemory`.
pub(crate) fn edition_of(
    alloc: Global,
    path: &str,
    part: CountedPrefix,
    object: &mut Object,
    target: &Register,
    edits: Vec<Edit>,
) -> Result<Edition, Refusal>
    ensures lawful { OnOk result (edition_refusal object.old edits.items ≡ None) }
    ensures sources { OnOk result (All HasLawfulSource edits.items) }
    ensures lines { IfOk result
        (λ edition. inside.AreLinesOf part edits.items edition.lines.items) }
    ensures text { IfOk result (λ edition.
        string_bytes edition.text ≡ published_text path.now object.old target.now edits.items) }
    ensures refused { IfErr result
        (IsNoMemoryOr (edition_refusal object.old edits.items)) }
{
    let lines = edition_lines(alloc, part, &edits)?;
    let mut text = begun_text(alloc, path, object, target, &edits)?;
    let number = make_edition(object, edits)?;
    push_published(&mut text, number)?;
    Ok(Edition { lines, text })
}

/// An edition, and the whole journal that has it, which is not saved yet.
#[derive(Drop)]
pub struct WholeEdition {
    /// The text of the journal.
    pub journal: String,
    /// What is printed once the journal is saved.
    pub text: String,
}

/// Returns the edits as the next edition of an object with nothing pending, which then has it, and
/// the whole journal of this path.
///
/// # Errors
///
/// The first refusal that applies, or `NoMemory`.
pub(crate) fn whole_edition_of(
    alloc: Global,
    path: &str,
    object: &mut Object,
    target: &Register,
    edits: Vec<Edit>,
) -> Result<WholeEdition, Refusal>
    requires { object.old.pending ≡ [] }
    ensures lawful { OnOk result (edition_refusal object.old edits.items ≡ None) }
    ensures sources { OnOk result (All HasLawfulSource edits.items) }
    ensures journal { IfOk result (λ edition.
        string_bytes edition.journal ≡ journal_text (with_batch object.old edits.items)) }
    ensures text { IfOk result (λ edition.
        string_bytes edition.text ≡ published_text path.now object.old target.now edits.items) }
    ensures refused { IfErr result
        (IsNoMemoryOr (edition_refusal object.old edits.items)) }
{
    let mut text = begun_text(alloc, path, object, target, &edits)?;
    let next = make_edition(object, edits)?;
    push_published(&mut text, next)?;
    let journal = journal_text(alloc, object)?;
    Ok(WholeEdition { journal, text })
}

/// Appends lines to a file of this many bytes, and returns once they are on the disk. If that
/// fails, the file is cut back.
///
/// # Errors
///
/// If the file failed.
fn append_whole<K: KeptFile>(keeper: &mut K, size: u64, lines: &[u8]) -> Result<(), KeptFileFault>
    ensures sound { OnOk result (K.fault keeper.new ≡ K.fault keeper.old) }
    ensures ok { OnOk result (Appends (K.contents keeper.old) (K.contents keeper.new) lines.now) }
    ensures disk { OnOk result (K.synced keeper.new ≡ K.contents keeper.new) }
    ensures reason { IfErr result (λ why. K.fault keeper.new ≡ Some why) }
    ensures err { IfErr result (λ _. inside.IsCutBack (inside.CanStay K.cut_back_may_fail) size
        lines.now (K.contents keeper.old) (K.contents keeper.new)) }
{
    match append_synced(keeper, lines) {
        Ok(()) => Ok(()),
        Err(fault) => {
            let _ = keeper.cut_back(size);
            Err(fault)
        }
    }
}

/// Writes the lines of an edition to the file of which this part counts, and returns once they are
/// on the disk. A last line that was not finished is cut off first, which is reported on standard
/// error.
///
/// # Errors
///
/// If the file failed; it is cut back then. If memory ran out; nothing has changed then.
pub(crate) fn write_edition<K: KeptFile, E: Sink>(
    alloc: Global,
    part: CountedPrefix,
    keeper: &mut K,
    lines: &[u8],
    errors: &mut E,
) -> Result<(), CommandFault>
    requires { part.lines < 2 ^ 63 }
    ensures ok { OnOk result ((cut : Option ℕ)
        × ReportsCut (output_of E.contents E.has_failed E.holds_back errors.old errors.new) cut
        × ((edits : List Edit) → inside.AreLinesOf part edits lines.now
        → inside.IsWritten part edits cut (file_of K.contents K.synced K.fault keeper.old)
        (file_of K.contents K.synced K.fault keeper.new))) }
    ensures err { IfErr result (λ fault. (cut : Option ℕ)
        × ReportsCut (output_of E.contents E.has_failed E.holds_back errors.old errors.new) cut
        × ((edits : List Edit) → inside.AreLinesOf part edits lines.now
        → inside.IsUnwritten (inside.CanStay K.cut_back_may_fail) part edits fault cut
        (file_of K.contents K.synced K.fault keeper.old)
        (file_of K.contents K.synced K.fault keeper.new))) }
{
    cut_unfinished(alloc, part, keeper, errors)?;
    append_whole(keeper, part.bytes, lines)?;
    Ok(())
}
