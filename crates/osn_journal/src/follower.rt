//! The follower: at each look at the file, the lines that have come since are answered from the
//! journal that it contains then.
ghost use Rattle.std.specs.Prelude.{◌≡◌, ◌≤◌, ◌<◌, ◌+◌, ◌^◌, true, length};
ghost use Rattle.std.specs.Prelude.{IfOk, IfErr, MatchResult, OnOk, MatchOption};
ghost use Rattle.osn_lines.specs.Streams.{output_of};
ghost use Rattle.osn_journal.specs.Follows.{Follows};
ghost use Rattle.osn_journal.specs.FollowerInside.{HasFew};
ghost use Rattle.osn_journal.specs.FollowerLaw.{DoEditionsNeverFall, DoSyncedEditionsStay};
ghost use Rattle.osn_journal.specs.RoundInside.{Answers, Comes, ComesNot, IsReadOf, IsUnreadOf};
ghost use Rattle.osn_journal.specs.RoundInside.{Loads, LoadsNot, IsUnloaded, GoesOn, IsOver};
ghost use Rattle.osn_journal.specs.RoundInside.{IsEarlyEnd};
ghost use Rattle.osn_journal.specs.Outcomes.{following};

use crate::arrivals::Arrivals;
use crate::followed_journal::FollowedJournal;
use crate::follower_fault::FollowerFault;
use crate::line_front::LineFront;
use osn_core::Object;
use osn_files::FileFault;
use osn_lines::{Bytes, EndedEarly, Sink, read_buffer};
use osn_register::Limits;
use osn_service::{ServeFault, ServeRules, Served, ServiceFault, serve_store};
use std::alloc::Global;

/// A follower between two looks.
#[derive(Drop)]
pub(crate) struct Follower {
    pub(crate) journal: FollowedJournal,
    pub(crate) requests: LineFront,
    /// How many lines were answered.
    pub(crate) lines: u64,
}

/// Request lines that have ended by a read, and whether the input has.
#[derive(Drop)]
pub(crate) struct RequestLines {
    pub(crate) text: Vec<u8>,
    pub(crate) is_last: bool,
}

/// Reads once, and returns the lines that have ended by that.
fn read_lines<A: Arrivals>(
    alloc: Global,
    front: &mut LineFront,
    arrivals: &mut A,
    buffer: &mut [u8],
) -> Result<RequestLines, ServeFault>
    requires few { HasFew front.old }
    requires buffer { length buffer.old ≡ 65536 }
    ensures buffer { length buffer.new ≡ 65536 }
    ensures few { OnOk result (HasFew front.new) }
    ensures ok { IfOk result (IsReadOf front.old front.new (A.arrived arrivals.old)
        (A.arrived arrivals.new)) }
    ensures err { IfErr result (IsUnreadOf (A.arrived arrivals.old) (A.arrived arrivals.new)) }
{
    let Ok(read) = arrivals.read(buffer) else {
        return Err(ServeFault::ReadFault);
    };
    let text = if read == 0 {
        front.end(alloc)
    } else {
        front.read(alloc, &buffer[..read])
    };
    match text {
        Ok(text) => Ok(RequestLines {
            text,
            is_last: read == 0,
        }),
        Err(_) => Err(ServeFault::NoMemory),
    }
}

/// Returns why the journal can't be loaded.
fn unloaded(fault: FileFault) -> FollowerFault
    ensures { IsUnloaded fault result }
{
    match fault {
        FileFault::NoMemory => FollowerFault::Serve(ServeFault::NoMemory),
        fault => FollowerFault::Journal(fault),
    }
}

/// Looks at the file, and takes in what it has gained.
fn look<A: Arrivals>(
    alloc: Global,
    journal: &mut FollowedJournal,
    arrivals: &mut A,
) -> Result<(), FollowerFault>
    ensures ok { OnOk result (Loads journal.old journal.new (A.arrived arrivals.old)
        (A.arrived arrivals.new)) }
    ensures err { IfErr result (LoadsNot journal.old (A.arrived arrivals.old)
        (A.arrived arrivals.new)) }
{
    let new_bytes = arrivals.look(alloc)?;
    match journal.add(alloc, &new_bytes) {
        Ok(()) => Ok(()),
        Err(fault) => Err(unloaded(fault)),
    }
}

/// Reads once and looks once.
fn receive<A: Arrivals>(
    alloc: Global,
    follower: &mut Follower,
    arrivals: &mut A,
    buffer: &mut [u8],
) -> Result<RequestLines, FollowerFault>
    requires few { HasFew follower.old.requests }
    requires buffer { length buffer.old ≡ 65536 }
    ensures buffer { length buffer.new ≡ 65536 }
    ensures few { OnOk result (HasFew follower.new.requests) }
    ensures lines { follower.new.lines ≡ follower.old.lines }
    ensures ok { IfOk result (Comes follower.old follower.new (A.arrived arrivals.old)
        (A.arrived arrivals.new)) }
    ensures err { IfErr result (ComesNot follower.old (A.arrived arrivals.old)
        (A.arrived arrivals.new)) }
{
    let lines = read_lines(alloc, &mut follower.requests, arrivals, buffer)?;
    look(alloc, &mut follower.journal, arrivals)?;
    Ok(lines)
}

/// Answers the lines of a text from an object, which stays as it is.
fn answer<W: Sink>(
    alloc: Global,
    rules: ServeRules,
    object: &mut Object,
    text: &[u8],
    sink: &mut W,
) -> Result<Served, EndedEarly<ServeFault>>
    requires read_only { rules.read_only ≡ true }
    requires few { length text.now ≤ 196608 }
    ensures same { object.new ≡ object.old }
    ensures few { MatchResult result (λ served. served.lines ≤ 196608)
        (λ end. end.lines ≤ 196608) }
    ensures answers { Answers rules object.old text.now
        (W.contents sink.old) (W.contents sink.new) result }
{
    match serve_store(alloc, object, rules, &mut Bytes::new(text), sink) {
        Ok(served) => Ok(served),
        Err(EndedEarly { lines, cause }) => match cause {
            ServiceFault::Serve(cause) => Err(EndedEarly { lines, cause }),
            ServiceFault::NotKept(never) => match never {},
        },
    }
}

/// Reads once, looks once, and answers the lines that have ended. Returns how many were answered in
/// all, or `None` if more may come.
fn answer_next<A: Arrivals, W: Sink>(
    alloc: Global,
    rules: ServeRules,
    follower: &mut Follower,
    arrivals: &mut A,
    sink: &mut W,
    buffer: &mut [u8],
) -> Result<Option<Served>, EndedEarly<FollowerFault>>
    requires read_only { rules.read_only ≡ true }
    requires few { HasFew follower.old.requests }
    requires room { follower.old.lines + 196608 < 2 ^ 64 }
    requires buffer { length buffer.old ≡ 65536 }
    ensures buffer { length buffer.new ≡ 65536 }
    ensures few { OnOk result (HasFew follower.new.requests) }
    ensures room { follower.new.lines ≤ follower.old.lines + 196608 }
    ensures goes_on { IfOk result (λ served. MatchOption served
        (GoesOn rules (A.arrived arrivals.old) (A.arrived arrivals.new) (W.contents sink.old)
        (W.contents sink.new) follower.old follower.new)
        (IsOver rules (A.arrived arrivals.old) (A.arrived arrivals.new) (W.contents sink.old)
        (W.contents sink.new) follower.old)) }
    ensures err { IfErr result (IsEarlyEnd rules (A.arrived arrivals.old)
        (A.arrived arrivals.new) (W.contents sink.old) (W.contents sink.new) follower.old) }
{
    let requests = match receive(alloc, follower, arrivals, buffer) {
        Ok(requests) => requests,
        Err(cause) => {
            return Err(EndedEarly {
                lines: follower.lines,
                cause,
            });
        }
    };
    match answer(
        alloc,
        rules,
        &mut follower.journal.object,
        &requests.text,
        sink,
    ) {
        Ok(served) => {
            follower.lines += served.lines;
            if served.refused || requests.is_last {
                return Ok(Some(Served {
                    lines: follower.lines,
                    refused: served.refused,
                }));
            }
            Ok(None)
        }
        Err(end) => Err(EndedEarly {
            lines: follower.lines + end.lines,
            cause: FollowerFault::Serve(end.cause),
        }),
    }
}

/// Answers request lines up to their end from a journal that another run keeps, and returns how
/// many. Readers are counted from 1, and no line changes anything, whatever the rules say.
///
/// After each read of the input, and before it answers a line of that, the follower looks at the
/// file once. It takes in the whole lines that the look gives. So each line is answered from the
/// published edits that the file contained at a moment after the line was read, as far as a look
/// reads. As the file only grows, no answer is from an earlier edition than one before it. With
/// `stop_at_refusal` the first line that is refused is the last to be answered.
///
/// Besides the object, memory contains what a look has found, one read and its replies, and at most
/// 131,072 bytes of a line that has not ended.
///
/// # Errors
///
/// The number of lines whose reply was written whole, and why no more. `Journal` if a line of the
/// file is refused, with its number, and `File` if the file can't be read or is another one. The
/// lines that were read since the last look are not answered then. `Serve` with `NoMemory`, with
/// `ReadFault` if the input failed or gave no end within 4,294,967,295 reads, or `WriteFault`.
#[tactic(auto, using(crate::proofs::LawLemmas::editions_never_fall, crate::proofs::LawLemmas::synced_editions_stay))]
pub fn follow<A: Arrivals, W: Sink>(
    alloc: Global,
    limits: Limits,
    rules: ServeRules,
    arrivals: &mut A,
    sink: &mut W,
) -> Result<Served, EndedEarly<FollowerFault>>
    ensures follows { Follows (following rules) limits (A.arrived arrivals.old)
        (A.arrived arrivals.new)
        (output_of W.contents W.has_failed W.holds_back sink.old sink.new) result }
    // as a law: what a file shows once it has gained more begins with what it showed
    ensures never_fall { DoEditionsNeverFall }
    // as a law: whatever a crash leaves of it shows no fewer than what was synced
    ensures stay { DoSyncedEditionsStay }
{
    let query_rules = ServeRules {
        read_only: true,
        ..rules
    };
    let Ok(mut buffer) = read_buffer(alloc) else {
        return Err(EndedEarly {
            lines: 0,
            cause: FollowerFault::Serve(ServeFault::NoMemory),
        });
    };
    let mut follower = Follower {
        journal: FollowedJournal::new(alloc, limits),
        requests: LineFront::new(alloc),
        lines: 0,
    };
    for _call in 0..u32::MAX {
        if let Some(served) = answer_next(
            alloc,
            query_rules,
            &mut follower,
            arrivals,
            sink,
            &mut buffer,
        )? {
            return Ok(served);
        }
    }
    Err(EndedEarly {
        lines: follower.lines,
        cause: FollowerFault::Serve(ServeFault::ReadFault),
    })
}
