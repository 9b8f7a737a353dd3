//! The service: every request line of a source is answered, in order.
ghost use Rattle.std.specs.Prelude.{◌≡◌, ◌≤◌, ◌<◌, ◌^◌, [], length, IfOk};
ghost use Rattle.osn_core.specs.Sequential.{ObjectState, empty_object};
ghost use Rattle.osn_lines.specs.Streams.{Input, input_of, output_of};
ghost use Rattle.osn_service.specs.Law.{MayEachInputBeCut};
ghost use Rattle.osn_service.specs.Serves.{KeepsStore, Serves, ServesStore};
ghost use Rattle.osn_service.specs.Session.{editing};
ghost use Rattle.osn_service.specs.SessionInside.{IsSame, SessionState, session_state_of};
ghost use Rattle.osn_service.specs.Sources.{KeepsSourceless};
ghost use Rattle.osn_service.specs.Store.{KeepsSince};
ghost use Rattle.osn_service.specs.TakingInside as spec;
ghost use Rattle.osn_service.specs.TakingInside.{HasKept, HasTaken, IsWithin, output_since};
ghost use Rattle.osn_service.specs.declared.rules.ServeRules.{ServeRules};

use crate::fault::{ServeFault, ServiceFault};
use crate::reply_buffer::ReplyBuffer;
use crate::rules::ServeRules;
use crate::session::Session;
use crate::stop::{Stop, UnwrittenReplies};
use crate::store::Store;
use json::Scratch;
use osn_core::Object;
use osn_lines::{EndedEarly, Sink, Source, TakeFault, take_lines};
use osn_register::Limits;
use std::alloc::Global;

/// What was answered if nothing failed.
#[derive(Clone, Copy, Debug, PartialEq, Eq)]
pub struct Served {
    /// The number of lines that were answered.
    pub lines: u64,
    /// Whether the last of them was refused and ended the service.
    pub refused: bool,
}

/// Why no more lines were taken, if no write failed and each change was kept.
#[derive(Clone, Copy)]
pub(crate) enum End {
    /// There are no more lines.
    AtEnd,
    /// The last line was refused and ended the service.
    AtRefusal,
    /// Memory ran out, or the source failed.
    ByFault(ServeFault),
}

/// How many lines were taken, and why no more.
#[derive(Clone, Copy)]
pub(crate) struct LinesTaken {
    pub(crate) lines: u64,
    pub(crate) end: End,
}

/// Returns the result of taking lines that ended early, after this many lines.
fn early_end<F>(
    lines: u64,
    cause: TakeFault<Stop<F>>,
) -> Result<LinesTaken, EndedEarly<ServiceFault<F>>>
    requires few { lines < 2 ^ 63 }
    requires within { IsWithin lines cause }
    ensures { result ≡ spec.early_end lines cause }
{
    match cause {
        TakeFault::NoMemory | TakeFault::Stopped(Stop::NoMemory) => Ok(LinesTaken {
            lines,
            end: End::ByFault(ServeFault::NoMemory),
        }),
        TakeFault::ReadFault => Ok(LinesTaken {
            lines,
            end: End::ByFault(ServeFault::ReadFault),
        }),
        TakeFault::Stopped(Stop::Refused) => Ok(LinesTaken {
            lines: lines + 1,
            end: End::AtRefusal,
        }),
        TakeFault::Stopped(Stop::WriteFailed(UnwrittenReplies { unwritten })) => Err(EndedEarly {
            lines: lines - unwritten,
            cause: ServiceFault::Serve(ServeFault::WriteFault),
        }),
        TakeFault::Stopped(Stop::NotKept(why)) => Err(EndedEarly {
            lines,
            cause: ServiceFault::NotKept(why),
        }),
    }
}

/// Answers every line of the source up to its end. The replies to the last ones wait then.
fn take_all<R: Source, W: Sink, S: Store>(
    session: &mut Session<'_, '_, '_, W, S>,
    source: &mut R,
) -> Result<LinesTaken, EndedEarly<ServiceFault<S::Fault>>>
    requires text { session.old.buffer.now.text.items ≡ [] }
    requires ends { session.old.buffer.now.ends.items ≡ [] }
    ensures same { IsSame session.old session.new }
    ensures lent { KeepsSince S.lends session.old.store.now session.new.store.now }
    ensures sources { KeepsSourceless session.old.rules (S.state session.old.store.now)
        (S.state session.new.store.now) }
    ensures takes { HasTaken session.old.rules
        (session_state_of W.contents W.has_failed S.state session.old)
        (session_state_of W.contents W.has_failed S.state session.new)
        (W.holds_back session.new.sink.now)
        (input_of R.remaining R.has_failed source.old source.new) result }
    ensures keeps { HasKept S.has_kept S.has_lost session.old.rules (S.state session.old.store.now)
        session.old.store.now session.new.store.now
        (input_of R.remaining R.has_failed source.old source.new) result }
{
    match take_lines(session.alloc, session, source) {
        Ok(lines) => Ok(LinesTaken {
            lines,
            end: End::AtEnd,
        }),
        Err(EndedEarly { lines, cause }) => early_end(lines, cause),
    }
}

/// Writes the replies that wait, if no write has failed. Returns how many lines were answered, if
/// no more had to be.
fn write_rest<W: Sink, S: Store>(
    sink: &mut W,
    buffer: &mut ReplyBuffer,
    outcome: Result<LinesTaken, EndedEarly<ServiceFault<S::Fault>>>,
) -> Result<Served, EndedEarly<ServiceFault<S::Fault>>>
    requires { IfOk outcome (λ outcome. length buffer.old.ends.items ≤ outcome.lines) }
    // For any lines that were taken, and any rules.
    ensures serves { (rules : ServeRules) (initial : SessionState) (object : ObjectState)
        (i : Input)
        → HasTaken rules initial (record {
          object = object;
          written = W.contents sink.old;
          failed = W.has_failed sink.old;
          buffer = buffer.old;
        }) (W.holds_back sink.old) i outcome →
        ServesStore rules initial.object object i (output_since initial (W.contents sink.new)
        (W.has_failed sink.new) (W.holds_back sink.new)) result }
    ensures keeps { (rules : ServeRules) (s : ObjectState) (old : S) (new : S) (i : Input) →
        HasKept S.has_kept S.has_lost rules s old new i outcome →
        KeepsStore S.has_kept S.has_lost rules s old new i result }
{
    let LinesTaken { lines, end } = outcome?;
    if let Err(UnwrittenReplies { unwritten }) = buffer.write(sink) {
        return Err(EndedEarly {
            lines: lines - unwritten,
            cause: ServiceFault::Serve(ServeFault::WriteFault),
        });
    }
    match end {
        End::AtEnd => Ok(Served {
            lines,
            refused: false,
        }),
        End::AtRefusal => Ok(Served {
            lines,
            refused: true,
        }),
        End::ByFault(cause) => Err(EndedEarly {
            lines,
            cause: ServiceFault::Serve(cause),
        }),
    }
}

/// Answers every line of the source up to its end, and writes each reply. Returns their number.
fn run<R: Source, W: Sink, S: Store>(
    session: &mut Session<'_, '_, '_, W, S>,
    source: &mut R,
) -> Result<Served, EndedEarly<ServiceFault<S::Fault>>>
    requires text { session.old.buffer.now.text.items ≡ [] }
    requires ends { session.old.buffer.now.ends.items ≡ [] }
    ensures same { IsSame session.old session.new }
    ensures lent { KeepsSince S.lends session.old.store.now session.new.store.now }
    ensures sources { KeepsSourceless session.old.rules (S.state session.old.store.now)
        (S.state session.new.store.now) }
    ensures serves { ServesStore session.old.rules (S.state session.old.store.now)
        (S.state session.new.store.now)
        (input_of R.remaining R.has_failed source.old source.new)
        (output_of W.contents W.has_failed W.holds_back session.old.sink.now session.new.sink.now)
        result }
    ensures keeps { KeepsStore S.has_kept S.has_lost session.old.rules
        (S.state session.old.store.now) session.old.store.now session.new.store.now
        (input_of R.remaining R.has_failed source.old source.new) result }
{
    let outcome = take_all(session, source);
    write_rest::<W, S>(session.sink, session.buffer, outcome)
}

/// Answers every line of the source up to its end, by these rules, from the store that is given.
/// Returns how many were answered.
///
/// What is written is the text of each outcome of the sequential object run on the requests of the
/// lines read, in order, and nothing else. The pieces in which the bytes come make no difference.
/// The reply to a line that is not a request is its fault, and the line leaves the object. So does
/// an edit that gives a source, if the rules take none: if no edit of the object gave one before,
/// none does then. Replies wait until more must be read, a line will change the object, or 65,536
/// bytes of them wait. The reply to a change is written only after the store has kept it.
///
/// # Errors
///
/// The number of lines whose reply was written whole, and why no more. It is `Serve` for what ends
/// `serve_from` too, and `NotKept` if the store could not keep what the next line changed.
pub fn serve_store<R: Source, W: Sink, S: Store>(
    alloc: Global,
    store: &mut S,
    rules: ServeRules,
    source: &mut R,
    sink: &mut W,
) -> Result<Served, EndedEarly<ServiceFault<S::Fault>>>
    requires { S.lends store.old store.old }
    ensures lent { S.lends store.old store.new }
    ensures sources { KeepsSourceless rules (S.state store.old) (S.state store.new) }
    ensures serves { ServesStore rules (S.state store.old) (S.state store.new)
        (input_of R.remaining R.has_failed source.old source.new)
        (output_of W.contents W.has_failed W.holds_back sink.old sink.new) result }
    ensures keeps { KeepsStore S.has_kept S.has_lost rules (S.state store.old) store.old store.new
        (input_of R.remaining R.has_failed source.old source.new) result }
{
    let mut scratch = Scratch::new(alloc);
    let mut buffer = ReplyBuffer::new(alloc);
    run(
        &mut Session {
            alloc,
            scratch: &mut scratch,
            rules,
            store,
            sink,
            buffer: &mut buffer,
        },
        source,
    )
}

/// Answers every line of the source up to its end, from the object that is given, for readers that
/// are counted from 1. Returns the number of lines. What is written, and when, `serve_store` says.
///
/// # Errors
///
/// The number of lines whose reply was written whole, and why no more. `NoMemory` if memory ran
/// out. `ReadFault` if the source failed or gave no end within 4,294,967,295 reads. `WriteFault` if
/// the sink failed or did not take a text within as many writes. The object is in the state after
/// those lines, or after a failed write one line later.
#[tactic(auto, using(crate::proofs::LawLemmas::each_input_may_be_cut))]
pub fn serve_from<R: Source, W: Sink>(
    alloc: Global,
    object: &mut Object,
    readers: u32,
    source: &mut R,
    sink: &mut W,
) -> Result<u64, EndedEarly<ServeFault>>
    ensures serves { Serves (editing readers) object.old object.new
        (input_of R.remaining R.has_failed source.old source.new)
        (output_of W.contents W.has_failed W.holds_back sink.old sink.new) result }
    // as a law: an input may be cut between its lines and answered in parts
    ensures cut { MayEachInputBeCut }
{
    match serve_store(alloc, object, ServeRules::editing(readers), source, sink) {
        Ok(served) => Ok(served.lines),
        Err(EndedEarly { lines, cause }) => match cause {
            ServiceFault::Serve(cause) => Err(EndedEarly { lines, cause }),
            ServiceFault::NotKept(never) => match never {},
        },
    }
}

/// Answers every line of the source up to its end, from an empty object, as `serve_from` does.
///
/// # Errors
///
/// As `serve_from`. The object is dropped then, so what is sent again must begin with the first
/// line.
pub fn serve<R: Source, W: Sink>(
    alloc: Global,
    limits: Limits,
    readers: u32,
    source: &mut R,
    sink: &mut W,
) -> Result<u64, EndedEarly<ServeFault>>
    // The contract is about an object that is dropped at the end.
    ensures { (object : ObjectState) × Serves (editing readers) (empty_object limits) object
        (input_of R.remaining R.has_failed source.old source.new)
        (output_of W.contents W.has_failed W.holds_back sink.old sink.new) result }
{
    let mut object = Object::new(alloc, limits);
    serve_from(alloc, &mut object, readers, source, sink)
}
