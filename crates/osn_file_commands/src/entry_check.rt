//! A line of a transcript, compared with the journal.
ghost use Rattle.std.specs.Prelude.{◌≡◌, ◌<◌, ◌≤◌, ◌-◌, Ok, Err, IfOk, IfErr, OnOk, is_ok};
ghost use Rattle.std.specs.Prelude.{true, false, length, slice_set, take};
ghost use Rattle.serde_json.specs.View.{view};
ghost use Rattle.serde_json.specs.Written.{has_float as spec_has_float};
ghost use Rattle.osn_days.specs.Rules.{newest_rules};
ghost use Rattle.osn_core.specs.Sequential.{reply_at};
ghost use Rattle.osn_service.specs.declared.outcome.Outcome.TheVariants.{Replied};
ghost use Rattle.osn_request.specs.LineQuery.{line_query};
ghost use Rattle.osn_request.specs.Request.{Fails};
ghost use Rattle.osn_request.specs.declared.request.RequestError.TheVariants.{NoMemory};
ghost use Rattle.osn_file_commands.specs.TranscriptAudit as spec;
ghost use Rattle.osn_file_commands.specs.AuditInside.{entry_model};

use crate::audit_followers::Followers;
use crate::float::has_float;
use crate::transcript_line::TranscriptLine;
use osn_core::{MOST_READERS, Reply};
use osn_request::{LineQuery, RequestError, WireFault};
use osn_service::{Outcome, push_reply};
use serde_json::Value;
use std::alloc::{AllocError, Global};

/// Returns whether a reply without floats, written without spaces, has this line.
fn has_line(alloc: Global, reply: &Value, line: &[u8]) -> Result<bool, AllocError>
    requires { spec_has_float (view reply.now) ≡ false }
    ensures { IfOk result (λ b. b ≡ spec.has_line (view reply.now) line.now) }
{
    let mut text = reply.to_vec(alloc)?;
    text.push(b'\n')?;
    Ok(text.as_slice() == line)
}

/// Returns the reply that an entry should have. The entry's edition is then the reader's last one.
fn reply_due(
    alloc: Global,
    followers: &mut Followers,
    entry: &TranscriptLine,
) -> Result<Reply, AllocError>
    requires from_one { 0 < entry.now.reader }
    requires known { entry.now.reader ≤ MOST_READERS }
    requires edition { spec.known_edition (length followers.old.object.batches)
        (spec.last_of followers.old.last entry.now.reader) entry.now.edition
        ≡ Ok entry.now.edition }
    ensures reply { IfOk result (λ r. r ≡ reply_at newest_rules followers.old.object.limits
        (take entry.now.edition followers.old.object.batches) (line_query entry.now.query)) }
    ensures last { OnOk result (followers.new.last
        ≡ slice_set followers.old.last (entry.now.reader - 1) entry.now.edition) }
    ensures object { followers.new.object ≡ followers.old.object }
{
    match entry.query {
        LineQuery::Plain(query) => followers.ask(entry.reader, entry.edition, query),
        LineQuery::Written { .. } => {
            let query = entry.query.to_query(alloc)?;
            followers.ask(entry.reader, entry.edition, query.borrow())
        }
    }
}

/// Returns the reply that the reader of an entry should have. The entry's edition is then the
/// reader's last one.
fn outcome_due(
    alloc: Global,
    followers: &mut Followers,
    entry: &TranscriptLine,
) -> Result<Outcome, AllocError>
    requires from_one { 0 < entry.now.reader }
    requires known { entry.now.reader ≤ MOST_READERS }
    requires edition { spec.known_edition (length followers.old.object.batches)
        (spec.last_of followers.old.last entry.now.reader) entry.now.edition
        ≡ Ok entry.now.edition }
    ensures outcome { IfOk result (λ o. o ≡ Replied entry.now.reader (reply_at newest_rules
        followers.old.object.limits (take entry.now.edition followers.old.object.batches)
        (line_query entry.now.query))) }
    ensures last { OnOk result (followers.new.last
        ≡ slice_set followers.old.last (entry.now.reader - 1) entry.now.edition) }
    ensures object { followers.new.object ≡ followers.old.object }
{
    let reply = reply_due(alloc, followers, entry)?;
    Ok(Outcome::Replied {
        reader: entry.reader,
        reply,
    })
}

/// Replaces the line by that of the reply that an entry should have. The entry's edition is then
/// the reader's last one.
fn put_line_due(
    alloc: Global,
    followers: &mut Followers,
    line: &mut Vec<u8>,
    entry: &TranscriptLine,
) -> Result<(), AllocError>
    requires from_one { 0 < entry.now.reader }
    requires known { entry.now.reader ≤ MOST_READERS }
    requires edition { spec.known_edition (length followers.old.object.batches)
        (spec.last_of followers.old.last entry.now.reader) entry.now.edition
        ≡ Ok entry.now.edition }
    ensures line { OnOk result (line.new.items
        ≡ spec.line_due followers.old.object (entry_model entry.now)) }
    ensures last { OnOk result (followers.new.last
        ≡ slice_set followers.old.last (entry.now.reader - 1) entry.now.edition) }
    ensures object { followers.new.object ≡ followers.old.object }
{
    let outcome = outcome_due(alloc, followers, entry)?;
    line.clear();
    push_reply(alloc, &outcome, line)
}

/// Checks that an entry may be compared with the journal: its reader may be given its edition now,
/// and its reply has no float. This takes no memory.
fn check_entry(followers: &Followers, entry: &TranscriptLine) -> Result<(), WireFault>
    requires from_one { 0 < entry.now.reader }
    requires known { entry.now.reader ≤ MOST_READERS }
    ensures fault { IfErr result (λ f. spec.after_entry followers.now.object
        followers.now.last (entry_model entry.now) ≡ Err f) }
    ensures checked { OnOk result (is_ok
        (spec.entry_if_valid followers.now.object followers.now.last
        (entry_model entry.now)) ≡ true) }
    ensures edition { OnOk result (spec.known_edition (length followers.now.object.batches)
        (spec.last_of followers.now.last entry.now.reader) entry.now.edition
        ≡ Ok entry.now.edition) }
    ensures no_float { OnOk result (spec_has_float (view entry.now.reply.now) ≡ false) }
{
    followers.check(entry.reader, entry.edition)?;
    if has_float(entry.reply) {
        return Err(WireFault::WrongReply);
    }
    Ok(())
}

/// Compares an entry with the journal. The expected line replaces the one before.
///
/// # Errors
/// Returns the entry's fault, or `NoMemory` for an entry that `check_entry` accepts.
pub(crate) fn take_entry(
    alloc: Global,
    followers: &mut Followers,
    expected_line: &mut Vec<u8>,
    entry: &TranscriptLine,
) -> Result<(), RequestError>
    requires from_one { 0 < entry.now.reader }
    requires known { entry.now.reader ≤ MOST_READERS }
    ensures ok { OnOk result (spec.after_entry followers.old.object followers.old.last
        (entry_model entry.now) ≡ Ok followers.new.last) }
    ensures err { IfErr result (λ e. Fails e (spec.after_entry followers.old.object
        followers.old.last (entry_model entry.now))) }
    ensures memory { IfErr result (λ e.
        e ≡ NoMemory → is_ok (spec.entry_if_valid followers.old.object
        followers.old.last (entry_model entry.now)) ≡ true) }
    ensures object { OnOk result (followers.new.object ≡ followers.old.object) }
{
    check_entry(followers, entry)?;
    put_line_due(alloc, followers, expected_line, entry)?;
    if !has_line(alloc, entry.reply, expected_line)? {
        return Err(RequestError::Fault(WireFault::WrongReply));
    }
    Ok(())
}
