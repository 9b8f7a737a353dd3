//! A refusal or a fault with a message for people, as a reply reports it.
ghost use Rattle.std.specs.Prelude.{◌≡◌, ◌++◌, OnOk};
ghost use Rattle.serde_json.specs.Written.{compact_text};
ghost use Rattle.osn_request.specs.declared.wire_fault.WireFault.TheVariants.{BadField};
ghost use Rattle.osn_service.specs.RejectionText as spec;
ghost use Rattle.osn_service.specs.declared.outcome.Rejection.TheVariants as rejections;

use crate::line_writer::LineWriter;
use crate::outcome::Rejection;
use crate::reply::write_json::WriteJson;
use osn_register::Refusal;
use osn_request::{
    Member, WireFault, fault_message, query_message, refusal_message, unknown_member_message,
};
use std::alloc::AllocError;

/// Writes a refusal or a fault by its number, its message and its name.
fn write_message(
    out: &mut LineWriter,
    number: u8,
    message: &str,
    name: &str,
) -> Result<(), AllocError>
    ensures text { OnOk result (out.new.text
        ≡ out.old.text ++ compact_text (spec.message_data number message.now name.now)) }
    ensures before { out.new.before ≡ out.old.before }
{
    out.push_number(r#"{"fault":"#, u32::from(number))?;
    out.push_text(r#","message":"#, message)?;
    out.push_text(r#","name":"#, name)?;
    out.push("}")
}

/// Writes the fault that names a member.
fn write_bad_field(out: &mut LineWriter, member: Member) -> Result<(), AllocError>
    ensures text { OnOk result (out.new.text
        ≡ out.old.text ++ compact_text (spec.fault_message_data (BadField member))) }
    ensures before { out.new.before ≡ out.old.before }
{
    let fault = WireFault::BadField(member);
    out.push_number(r#"{"fault":"#, u32::from(fault.number()))?;
    out.push_text(r#","field":"#, member.name())?;
    out.push_text(r#","message":"#, fault_message(fault))?;
    out.push_text(r#","name":"#, fault.name())?;
    out.push("}")
}

/// Writes the refusal of a reader's query.
fn write_refused_query(
    out: &mut LineWriter,
    reader: u32,
    edition: u32,
    refusal: Refusal,
) -> Result<(), AllocError>
    ensures text { OnOk result (out.new.text ≡ out.old.text
        ++ compact_text (spec.rejection_data (rejections.Query reader edition refusal))) }
    ensures before { out.new.before ≡ out.old.before }
{
    out.push_number(r#"{"edition":"#, edition)?;
    out.push_number(r#","fault":"#, u32::from(refusal.number()))?;
    out.push_text(r#","message":"#, query_message(refusal))?;
    out.push_text(r#","name":"#, refusal.name())?;
    out.push_number(r#","reader":"#, reader)?;
    out.push("}")
}

/// Writes the fault of a line.
fn write_fault_message(out: &mut LineWriter, fault: WireFault) -> Result<(), AllocError>
    ensures text { OnOk result (out.new.text
        ≡ out.old.text ++ compact_text (spec.fault_message_data fault)) }
    ensures before { out.new.before ≡ out.old.before }
{
    match fault {
        WireFault::BadField(member) => write_bad_field(out, member),
        _ => write_message(out, fault.number(), fault_message(fault), fault.name()),
    }
}

/// Writes the fault of a member that a request doesn't have.
fn write_unknown_member(out: &mut LineWriter, name: &str) -> Result<(), AllocError>
    ensures text { OnOk result (out.new.text
        ≡ out.old.text ++ compact_text (spec.rejection_data (rejections.Member name.now))) }
    ensures before { out.new.before ≡ out.old.before }
{
    out.push_number(r#"{"fault":"#, 34)?;
    out.push_text(r#","field":"#, name)?;
    out.push_text(r#","message":"#, unknown_member_message())?;
    out.push(r#","name":"BadField"}"#)
}

impl WriteJson for Rejection {
    ghost use Rattle.osn_service.specs.RejectionText.{rejection_data};

    ghost json_value = { rejection_data };

    fn write_json(&self, out: &mut LineWriter) -> Result<(), AllocError> {
        match self {
            Rejection::Change(refusal) => {
                write_message(
                    out,
                    refusal.number(),
                    refusal_message(*refusal),
                    refusal.name(),
                )
            }
            Rejection::Line(fault) => write_fault_message(out, *fault),
            Rejection::Member(name) => write_unknown_member(out, name.as_str()),
            Rejection::Query {
                reader,
                edition,
                refusal,
            } => write_refused_query(out, *reader, *edition, *refusal),
        }
    }
}
