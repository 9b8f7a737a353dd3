//! The service that keeps its journal in a file.
ghost use Rattle.osn_lines.specs.Streams.{input_of, output_of};
ghost use Rattle.osn_service.specs.Serves.{ServesStore};
ghost use Rattle.osn_journal.specs.KeptJournal.{KeepsEdits, KeepsFile, file_of};
ghost use Rattle.osn_journal.specs.Laws.{DoesEachJournalGrowByLines};

use crate::kept_object::KeptObject;
use osn_core::Object;
use osn_folder::{KeptFile, KeptFileFault};
use osn_lines::{EndedEarly, Sink, Source};
use osn_service::{ServeRules, Served, ServiceFault, serve_store};
use std::alloc::Global;

/// Answers every line of the source up to its end, by these rules, from the object that is given.
/// Keeps a file, which is loaded as the object. Returns how many lines were answered.
///
/// Each edit that is taken and each publish is appended to the file, as a line of the journal,
/// before its reply is written. A publish is also on the disk before that. Nothing is appended for
/// a request that is refused. The old contents of the file are not read, and need not be what is
/// written of the object. If they end with a line feed and are loaded as the object that is given,
/// the new contents are loaded as the new object, as long as the version that the head says has
/// each edit. Version 4 has every edit. The second version has those that give no source, so the
/// rules must take no source then. The first version lacks two styles too.
///
/// # Errors
///
/// Returns the number of lines whose reply was written whole, and the cause. The cause is `Serve`
/// for what ends `serve_from` too, and `NotKept` with the fault of the file if the file failed. The
/// file may then contain the first bytes of the line of the next change. The object has changed,
/// but no reply was written.
#[tactic(auto, using(crate::proofs::JournalLemmas::each_journal_grows_by_lines))]
pub fn serve_kept<R: Source, W: Sink, K: KeptFile>(
    alloc: Global,
    object: &mut Object,
    rules: ServeRules,
    source: &mut R,
    sink: &mut W,
    keeper: &mut K,
) -> Result<Served, EndedEarly<ServiceFault<KeptFileFault>>>
    ensures serves { ServesStore rules object.old object.new
        (input_of R.remaining R.has_failed source.old source.new)
        (output_of W.contents W.has_failed W.holds_back sink.old sink.new) result }
    ensures keeps { KeepsFile rules object.old object.new (R.remaining source.old)
        (file_of K.contents K.synced K.fault keeper.old)
        (file_of K.contents K.synced K.fault keeper.new) result }
    ensures edits { KeepsEdits rules object.old object.new }
    // as a law: what a change adds to a journal is a line, by which it is loaded with that change
    ensures lines { DoesEachJournalGrowByLines }
{
    let mut store = KeptObject {
        alloc,
        object,
        keeper,
    };
    serve_store(alloc, &mut store, rules, source, sink)
}
