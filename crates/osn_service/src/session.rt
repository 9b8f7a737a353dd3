//! What answers request lines: a store, and a sink for the replies.
//!
//! What waits is written before a line that changes the object, so that of the lines whose replies
//! wait only the first has changed it.
ghost use Rattle.std.specs.Prelude.{◌≡◌, ◌<◌, ℕ, List, Ok, Err, length, IfErr, IfOk, MatchResult};
ghost use Rattle.std.specs.Prelude.{true, None, OnOk, OnErr};
ghost use Rattle.osn_days.specs.Rules.{newest_rules};
ghost use Rattle.osn_core.specs.Sequential.{reply_at};
ghost use Rattle.osn_lines.specs.Faults.{WriteFails};
ghost use Rattle.osn_lines.specs.Lines.{IsLine};
ghost use Rattle.osn_service.specs.Outcome.{explained_if, is_refused};
ghost use Rattle.osn_service.specs.ReplyText.{reply_line};
ghost use Rattle.osn_request.specs.LineQuery.{line_query};
ghost use Rattle.osn_request.specs.LineRequest.{as_request};
ghost use Rattle.osn_request.specs.Request.{Fails};
ghost use Rattle.osn_request.specs.declared.request.RequestError.TheVariants.{NoMemory};
ghost use Rattle.osn_service.specs.Change.{change_outcome, change_after};
ghost use Rattle.osn_service.specs.RequestInside.{IsReadOf, WantsMemory};
ghost use Rattle.osn_service.specs.ServiceInside.{full, Pushes, Settles, WritesSome};
ghost use Rattle.osn_service.specs.Session as spec;
ghost use Rattle.osn_service.specs.SessionInside.{Answers, session_state};

use crate::outcome::Outcome;
use crate::reply_buffer::ReplyBuffer;
use crate::rules::ServeRules;
use crate::stop::{Stop, UnwrittenReplies};
use crate::store::{Change, Store};
use json::Scratch;
use osn_core::Reply;
use osn_lines::{Line, LineTaker, Sink};
use osn_register::Text;
use osn_request::{
    LineObject, LineQuery, LineRequest, RequestError, WireFault, line_request_of, object_of,
    unknown_member, value_of_line,
};
use std::alloc::{AllocError, Global};

/// Returns the outcome of a line, with a message for people if the rules say so.
fn outcome_by(rules: ServeRules, outcome: Outcome) -> Outcome
    ensures { result ≡ explained_if rules.explains outcome }
{
    if rules.explains {
        outcome.explained()
    } else {
        outcome
    }
}

/// Adds the reply to a line that changes nothing, and returns whether it was refused.
fn push_outcome(
    alloc: Global,
    rules: ServeRules,
    buffer: &mut ReplyBuffer,
    outcome: Outcome,
) -> Result<bool, AllocError>
    ensures refused { IfOk result (λ refused.
        refused ≡ is_refused (explained_if rules.explains outcome)) }
    ensures ok { OnOk result (Pushes buffer.old buffer.new
        (reply_line (explained_if rules.explains outcome))) }
    ensures err { OnErr result (buffer.new.text.items ≡ buffer.old.text.items) }
    ensures err_ends { OnErr result (buffer.new.ends.items ≡ buffer.old.ends.items) }
{
    let outcome = outcome_by(rules, outcome);
    let is_refusal = outcome.is_refused();
    buffer.push(alloc, outcome)?;
    Ok(is_refusal)
}

/// Makes a change that is not refused, after what waits is written, and adds its reply, which is
/// taken back if the change fails. Returns whether it was refused.
#[tactic(auto, using(crate::proofs::OutcomeLemmas::made_is_not_refused))]
fn change<W: Sink, S: Store>(
    alloc: Global,
    rules: ServeRules,
    store: &mut S,
    sink: &mut W,
    buffer: &mut ReplyBuffer,
    change: Change,
) -> Result<bool, Stop<S::Fault>>
    ensures { Answers S.lends S.has_kept S.has_lost
        (explained_if rules.explains (change_outcome (S.state store.old) change))
        (change_after (S.state store.old) change)
        (session_state W.contents W.has_failed S.state store.old sink.old buffer.old)
        (session_state W.contents W.has_failed S.state store.new sink.new buffer.new)
        (W.holds_back sink.new) store.old store.new result }
{
    let number = match store.check(&change) {
        Ok(number) => number,
        Err(refusal) => return Ok(push_outcome(alloc, rules, buffer, Outcome::Refused(refusal))?),
    };
    buffer.write(sink)?;
    buffer.push(alloc, outcome_by(rules, change.outcome(number)))?;
    match store.make(change) {
        Ok(()) => Ok(false),
        Err(fault) => {
            buffer.clear();
            Err(Stop::from(fault))
        }
    }
}

/// Returns the reply to a query of a line.
fn reply_to<S: Store>(alloc: Global, store: &S, query: LineQuery<'_>) -> Result<Reply, AllocError>
    ensures { IfOk result (λ r. r ≡ reply_at newest_rules (S.state store.now).limits
        (S.state store.now).batches (line_query query.entry)) }
{
    match query {
        LineQuery::Plain(query) => store.ask(query),
        LineQuery::Written { .. } => store.ask(query.to_query(alloc)?.borrow()),
    }
}

/// Adds the reply to a query, and returns whether it was refused.
fn ask<S: Store>(
    alloc: Global,
    rules: ServeRules,
    store: &S,
    reader: u32,
    query: LineQuery<'_>,
    buffer: &mut ReplyBuffer,
) -> Result<bool, AllocError>
    ensures refused { IfOk result (λ refused. refused ≡ is_refused (explained_if rules.explains
        (spec.ask_outcome (S.state store.now) reader (line_query query.entry)))) }
    ensures ok { OnOk result (Pushes buffer.old buffer.new
        (reply_line (explained_if rules.explains
        (spec.ask_outcome (S.state store.now) reader (line_query query.entry))))) }
    ensures err { OnErr result (buffer.new.text.items ≡ buffer.old.text.items) }
    ensures err_ends { OnErr result (buffer.new.ends.items ≡ buffer.old.ends.items) }
{
    let reply = reply_to(alloc, store, query)?;
    push_outcome(alloc, rules, buffer, Outcome::Replied { reader, reply })
}

/// Returns what a line asks for, if the rules accept it.
fn allowed_request(
    rules: ServeRules,
    request: LineRequest<'_>,
) -> Result<LineRequest<'_>, WireFault>
    ensures { MatchResult result
        (λ r. spec.allowed_request rules.read_only rules.takes_sources
        (Ok (as_request request.entry))
        ≡ Ok (as_request r))
        (λ f. spec.allowed_request rules.read_only rules.takes_sources
        (Ok (as_request request.entry))
        ≡ Err f) }
{
    match request {
        LineRequest::Stage(_) | LineRequest::Publish if rules.read_only => {
            Err(WireFault::ReadOnly)
        }
        LineRequest::Stage(edit) if !rules.takes_sources && edit.source().is_some() => {
            Err(WireFault::NeedsUpgrade)
        }
        request => Ok(request),
    }
}

/// Returns the request of a line of which this was read, or the fault as which it was read. It
/// requires memory only for a line that has a request.
fn request_in<'a>(
    alloc: Global,
    rules: ServeRules,
    object: &'a Result<LineObject<'_>, RequestError>,
) -> Result<LineRequest<'a>, RequestError>
    ensures request { (whole : List ℕ) → IsReadOf whole object.now → MatchResult result
        (λ r. spec.line_request rules whole ≡ Ok (as_request r))
        (λ e. Fails e (spec.line_request rules whole)) }
    ensures memory { IfErr result (λ e. e ≡ NoMemory → (whole : List ℕ) → IsReadOf whole object.now
        → WantsMemory rules.readers whole object.now) }
{
    match object {
        Ok(object) => Ok(allowed_request(rules, line_request_of(alloc, rules.readers, object)?)?),
        Err(error) => Err(*error),
    }
}

/// Answers a line by its object: adds the reply to its request, or to its first fault, which leaves
/// the object. Returns whether it was refused.
fn answer_read<W: Sink, S: Store>(
    alloc: Global,
    rules: ServeRules,
    store: &mut S,
    sink: &mut W,
    buffer: &mut ReplyBuffer,
    object: &Result<LineObject<'_>, RequestError>,
) -> Result<bool, Stop<S::Fault>>
    ensures { (whole : List ℕ) → IsReadOf whole object.now → spec.refused_member rules whole ≡ None
        → Answers S.lends S.has_kept S.has_lost
        (spec.line_outcome rules (S.state store.old) whole)
        (spec.line_after rules (S.state store.old) whole)
        (session_state W.contents W.has_failed S.state store.old sink.old buffer.old)
        (session_state W.contents W.has_failed S.state store.new sink.new buffer.new)
        (W.holds_back sink.new) store.old store.new result }
{
    match request_in(alloc, rules, object) {
        Ok(LineRequest::Stage(edit)) => {
            change(alloc, rules, store, sink, buffer, Change::Stage(edit))
        }
        Ok(LineRequest::Publish) => change(alloc, rules, store, sink, buffer, Change::Publish),
        Ok(LineRequest::Ask { reader, query }) => {
            Ok(ask(alloc, rules, store, reader, query, buffer)?)
        }
        Err(RequestError::Fault(fault)) => {
            Ok(push_outcome(alloc, rules, buffer, Outcome::Fault(fault))?)
        }
        Err(RequestError::NoMemory) => Err(Stop::NoMemory),
    }
}

/// Answers a line, whose first member that its request doesn't have is refused, and otherwise as
/// `answer_read`. Such members are found in the value of the line.
fn answer_strictly<W: Sink, S: Store>(
    alloc: Global,
    rules: ServeRules,
    store: &mut S,
    sink: &mut W,
    buffer: &mut ReplyBuffer,
    line: Line<'_>,
) -> Result<bool, Stop<S::Fault>>
    requires { rules.strict_members ≡ true }
    ensures { (whole : List ℕ) → IsLine line.entry whole → Answers S.lends S.has_kept S.has_lost
        (spec.line_outcome rules (S.state store.old) whole)
        (spec.line_after rules (S.state store.old) whole)
        (session_state W.contents W.has_failed S.state store.old sink.old buffer.old)
        (session_state W.contents W.has_failed S.state store.new sink.new buffer.new)
        (W.holds_back sink.new) store.old store.new result }
{
    let value = match value_of_line(alloc, line) {
        Ok(value) => value,
        Err(RequestError::Fault(fault)) => {
            return Ok(push_outcome(alloc, rules, buffer, Outcome::Fault(fault))?);
        }
        Err(RequestError::NoMemory) => return Err(Stop::NoMemory),
    };
    if let Some(name) = unknown_member(&value) {
        let name = Text::from_str(alloc, name)?;
        return Ok(push_outcome(alloc, rules, buffer, Outcome::UnknownMember(name))?);
    }
    let object = Ok(LineObject::Tree(value));
    answer_read(alloc, rules, store, sink, buffer, &object)
}

/// Answers a line, as `answer_read` or `answer_strictly`. Its object is kept until the reply is
/// made, since a query borrows from it.
fn answer<W: Sink, S: Store>(
    alloc: Global,
    scratch: &mut Scratch,
    rules: ServeRules,
    store: &mut S,
    sink: &mut W,
    buffer: &mut ReplyBuffer,
    line: Line<'_>,
) -> Result<bool, Stop<S::Fault>>
    ensures { (whole : List ℕ) → IsLine line.entry whole → Answers S.lends S.has_kept S.has_lost
        (spec.line_outcome rules (S.state store.old) whole)
        (spec.line_after rules (S.state store.old) whole)
        (session_state W.contents W.has_failed S.state store.old sink.old buffer.old)
        (session_state W.contents W.has_failed S.state store.new sink.new buffer.new)
        (W.holds_back sink.new) store.old store.new result }
{
    if rules.strict_members {
        return answer_strictly(alloc, rules, store, sink, buffer, line);
    }
    let object = object_of(alloc, scratch, line);
    answer_read(alloc, rules, store, sink, buffer, &object)
}

/// Writes what waits if enough waits to be written, so that less waits then.
fn make_room<W: Sink>(sink: &mut W, buffer: &mut ReplyBuffer) -> Result<(), UnwrittenReplies>
    ensures ok { OnOk result
        (Settles (W.contents sink.old) (W.contents sink.new) buffer.old buffer.new) }
    ensures room { OnOk result (length buffer.new.text.items < full) }
    ensures sound { OnOk result (W.has_failed sink.new ≡ W.has_failed sink.old) }
    ensures err { IfErr result (λ failed.
        WritesSome (W.contents sink.old) (W.contents sink.new) buffer.old failed.unwritten) }
    ensures reason { OnErr result
        (WriteFails (W.has_failed sink.old) (W.has_failed sink.new) buffer.old.text.items) }
{
    if buffer.is_full() {
        return buffer.write(sink);
    }
    Ok(())
}

/// A store and a sink, with the replies that wait, the rules, and what reads lines. It owns no
/// memory, so that what it borrows is known again once it is gone.
#[derive(Drop)]
pub(crate) struct Session<'a, 'b, 'c, W, S> {
    pub(crate) alloc: Global,
    pub(crate) scratch: &'c mut Scratch,
    pub(crate) rules: ServeRules,
    pub(crate) store: &'a mut S,
    pub(crate) sink: &'b mut W,
    pub(crate) buffer: &'c mut ReplyBuffer,
}

impl<'a, 'b, 'c, W: Sink, S: Store> LineTaker for Session<'a, 'b, 'c, W, S> {
    ghost use Rattle.osn_service.specs.SessionInside.{HasServed, HasStopped, IsReady};

    type Stop = Stop<S::Fault>;

    ghost after = { HasServed W.contents W.has_failed W.holds_back S.state S.lends S.has_kept
        S.has_lost };

    ghost stopped = { HasStopped W.contents W.has_failed W.holds_back S.state S.lends S.has_kept
        S.has_lost };

    ghost is_ready = { IsReady W.holds_back };

    fn take(&mut self, line: Line<'_>) -> Result<(), Stop<S::Fault>> {
        make_room(self.sink, self.buffer)?;
        let is_refusal = answer(
            self.alloc,
            self.scratch,
            self.rules,
            self.store,
            self.sink,
            self.buffer,
            line,
        )?;
        if is_refusal && self.rules.stop_at_refusal {
            return Err(Stop::Refused);
        }
        Ok(())
    }

    fn before_read(&mut self) -> Result<(), Stop<S::Fault>> {
        Ok(self.buffer.write(self.sink)?)
    }
}
