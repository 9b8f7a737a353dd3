//! What a line of a transcript says.
ghost use Rattle.std.specs.Prelude.{◌≡◌, ◌<◌, ◌≤◌, MatchResult, IfOk, Ok, Err};
ghost use Rattle.serde_json.specs.View.{view};
ghost use Rattle.osn_request.specs.LineObject.{line_data};
ghost use Rattle.osn_file_commands.specs.TranscriptAudit as spec;
ghost use Rattle.osn_file_commands.specs.AuditInside.{entry_model};

use osn_core::MOST_READERS;
use osn_files::line_question_in;
use osn_request::{LineObject, LineQuery, Member, WireFault, whole_at};
use serde_json::Value;

/// Returns a member that is an object.
fn object_at<'a>(object: &'a LineObject<'_>, member: Member) -> Result<&'a Value, WireFault>
    ensures { MatchResult result
        (λ v. spec.object_at member (line_data object.now) ≡ Ok (view v.now))
        (λ f. spec.object_at member (line_data object.now) ≡ Err f) }
{
    match object.object(member.name()) {
        Some(value) => Ok(value),
        None => Err(WireFault::BadField(member)),
    }
}

/// Returns the edition that a reply names.
fn edition_of(reply: &Value) -> Result<u32, WireFault>
    ensures { result ≡ spec.edition_of (view reply.now) }
{
    let edition = whole_at(reply, Member::Edition)?;
    if edition < 0 || edition > 4_294_967_295 {
        return Err(WireFault::BadField(Member::Edition));
    }
    Ok(edition as u32)
}

/// Who asked what, the edition that the reply names, and the reply.
#[derive(Drop)]
pub(crate) struct TranscriptLine<'a> {
    pub(crate) reader: u32,
    pub(crate) query: LineQuery<'a>,
    pub(crate) edition: u32,
    pub(crate) reply: &'a Value,
}

/// Returns what the object of a line says, borrowed from it.
#[tactic(auto, unfolding(crate::specs::TranscriptAudit::entry_in))]
pub(crate) fn entry_in<'a>(object: &'a LineObject<'_>) -> Result<TranscriptLine<'a>, WireFault>
    ensures entry { MatchResult result
        (λ e. spec.entry_in (line_data object.now) ≡ Ok (entry_model e))
        (λ f. spec.entry_in (line_data object.now) ≡ Err f) }
    ensures reader { IfOk result (λ e. (0 < e.reader) × (e.reader ≤ MOST_READERS)) }
{
    let ask = object_at(object, Member::Ask)?;
    let (reader, query) = line_question_in(ask)?;
    let reply = object_at(object, Member::Reply)?;
    let edition = edition_of(reply)?;
    Ok(TranscriptLine {
        reader,
        query,
        edition,
        reply,
    })
}
