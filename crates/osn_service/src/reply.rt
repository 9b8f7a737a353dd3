//! A reply line: the compact text of a JSON value, and a line feed.
ghost use Rattle.std.specs.Prelude.{◌≡◌, ◌++◌, IfOk, OnOk, OnErr, string_bytes};
ghost use Rattle.osn_service.specs.declared.outcome.Outcome.TheVariants.{Staged, Published};
ghost use Rattle.osn_service.specs.ReplyText.{refused_data, fault_data, outcome_data, line_of};
ghost use Rattle.osn_service.specs.ReplyText.{reply_line, unknown_member_data};
ghost use Rattle.osn_service.specs.OutText.{out_line};
ghost use Rattle.osn_service.specs.Transcript.{transcript_line};
ghost use Rattle.serde_json.specs.Written.{compact_text};

mod answer;
mod change;
mod date;
mod feast;
mod figures;
mod found;
mod period;
mod rejection;
mod step_out;
mod transcript_record;
mod write_json;
mod written;

use crate::line_writer::LineWriter;
use crate::outcome::Outcome;
use answer::write_reply;
use osn_core::{Out, Reply};
use osn_register::Query;
use osn_request::WireFault;
use std::alloc::{AllocError, Global};
use std::mem;
use transcript_record::TranscriptRecord;
use write_json::WriteJson;

/// The room that a reply line gets at first: that of a day takes some 300 bytes.
const ROOM: usize = 512;

/// Writes a refusal or a fault by its number and name.
pub(crate) fn write_refused(out: &mut LineWriter, number: u8, name: &str) -> Result<(), AllocError>
    ensures text { OnOk result (out.new.text
        ≡ out.old.text ++ compact_text (refused_data number name.now)) }
    ensures before { out.new.before ≡ out.old.before }
{
    out.push_number(r#"{"fault":"#, u32::from(number))?;
    out.push_text(r#","name":"#, name)?;
    out.push("}")
}

/// Writes a fault, with the member that it names.
fn write_fault(out: &mut LineWriter, fault: WireFault) -> Result<(), AllocError>
    ensures text { OnOk result (out.new.text
        ≡ out.old.text ++ compact_text (fault_data fault)) }
    ensures before { out.new.before ≡ out.old.before }
{
    match fault {
        WireFault::BadField(member) => {
            out.push_number(r#"{"fault":"#, u32::from(fault.number()))?;
            out.push_text(r#","field":"#, member.name())?;
            out.push_text(r#","name":"#, fault.name())?;
            out.push("}")
        }
        _ => write_refused(out, fault.number(), fault.name()),
    }
}

/// Writes the fault of a member that a request doesn't have.
fn write_unknown_member(out: &mut LineWriter, name: &str) -> Result<(), AllocError>
    ensures text { OnOk result (out.new.text
        ≡ out.old.text ++ compact_text (unknown_member_data name.now)) }
    ensures before { out.new.before ≡ out.old.before }
{
    out.push_number(r#"{"fault":"#, 34)?;
    out.push_text(r#","field":"#, name)?;
    out.push(r#","name":"BadField"}"#)
}

pub(crate) fn write_staged(out: &mut LineWriter, pending: u32) -> Result<(), AllocError>
    ensures text { OnOk result (out.new.text
        ≡ out.old.text ++ compact_text (outcome_data (Staged pending))) }
    ensures before { out.new.before ≡ out.old.before }
{
    out.push_number(r#"{"ok":"staged","pending":"#, pending)?;
    out.push("}")
}

pub(crate) fn write_published(out: &mut LineWriter, edition: u32) -> Result<(), AllocError>
    ensures text { OnOk result (out.new.text
        ≡ out.old.text ++ compact_text (outcome_data (Published edition))) }
    ensures before { out.new.before ≡ out.old.before }
{
    out.push_number(r#"{"edition":"#, edition)?;
    out.push(r#","ok":"published"}"#)
}

impl WriteJson for Outcome {
    ghost json_value = { outcome_data };

    fn write_json(&self, out: &mut LineWriter) -> Result<(), AllocError> {
        match self {
            Outcome::Staged(pending) => write_staged(out, *pending),
            Outcome::Published(edition) => write_published(out, *edition),
            Outcome::Refused(refusal) => write_refused(out, refusal.number(), refusal.name()),
            Outcome::Fault(fault) => write_fault(out, *fault),
            Outcome::Replied { reader, reply } => write_reply(out, *reader, reply),
            Outcome::UnknownMember(name) => write_unknown_member(out, name.as_str()),
            Outcome::Explained(rejection) => rejection.write_json(out),
        }
    }
}

/// Writes a value's line: its compact text, and a line feed.
fn write_line<J: WriteJson>(out: &mut LineWriter, value: &J) -> Result<(), AllocError>
    ensures text { OnOk result (out.new.text ≡ out.old.text ++ line_of (J.json_value value.now)) }
    ensures before { out.new.before ≡ out.old.before }
{
    value.write_json(out)?;
    out.push("\n")
}

/// Returns a value's line as a text.
fn line_text<J: WriteJson>(alloc: Global, value: &J) -> Result<String, AllocError>
    ensures { IfOk result (λ s. string_bytes s ≡ line_of (J.json_value value.now)) }
{
    let mut out = LineWriter::new(alloc, Vec::with_capacity(alloc, ROOM)?);
    write_line(&mut out, value)?;
    Ok(unsafe { String::from_utf8_unchecked(out.into_bytes()) })
}

/// Returns the reply line of an outcome, with its line feed.
///
/// # Errors
/// Returns `AllocError` if memory runs out.
#[tactic(auto, unfolding(crate::specs::ReplyText::reply_line))]
pub fn reply_text(alloc: Global, outcome: &Outcome) -> Result<String, AllocError>
    ensures { IfOk result (λ s. string_bytes s ≡ reply_line outcome.now) }
{
    line_text(alloc, outcome)
}

/// Returns the line of what a step of the core gave, with its line feed.
///
/// # Errors
/// Returns `AllocError` if memory runs out.
#[tactic(auto, unfolding(crate::specs::OutText::out_line))]
pub fn out_text(alloc: Global, out: &Out) -> Result<String, AllocError>
    ensures { IfOk result (λ s. string_bytes s ≡ out_line out.now) }
{
    line_text(alloc, out)
}

/// Returns the line of a transcript, with its line feed: the query of a reader, and the reply to
/// it.
///
/// # Errors
/// Returns `AllocError` if memory runs out.
#[tactic(auto, unfolding(crate::specs::Transcript::transcript_line))]
pub fn transcript_text(
    alloc: Global,
    reader: u32,
    query: &Query,
    reply: &Reply,
) -> Result<String, AllocError>
    ensures { IfOk result (λ s.
        string_bytes s ≡ transcript_line reader query.now reply.now) }
{
    let record = TranscriptRecord {
        reader,
        query,
        reply,
    };
    line_text(alloc, &record)
}

/// Appends the reply line of an outcome, or leaves the bytes as they were.
///
/// # Errors
/// Returns `AllocError` if memory runs out.
#[tactic(auto, unfolding(crate::specs::ReplyText::reply_line))]
pub fn push_reply(alloc: Global, outcome: &Outcome, out: &mut Vec<u8>) -> Result<(), AllocError>
    ensures ok { OnOk result (out.new.items ≡ out.old.items ++ reply_line outcome.now) }
    ensures err { OnErr result (out.new.items ≡ out.old.items) }
{
    let mut line = LineWriter::new(alloc, mem::replace(out, Vec::new(alloc)));
    let write_result = write_line(&mut line, outcome);
    *out = match write_result {
        Ok(()) => line.into_bytes(),
        Err(_) => line.into_before(),
    };
    write_result
}
