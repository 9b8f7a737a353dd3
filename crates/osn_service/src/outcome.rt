//! What became of a line.
ghost use Rattle.std.specs.Prelude.{◌≡◌};
ghost use Rattle.osn_register.specs.Answer.{refusal_in};
ghost use Rattle.osn_service.specs.Outcome as spec;

use osn_core::Reply;
use osn_register::{Answer, Refusal, Text};
use osn_request::WireFault;

/// What became of a line.
#[derive(Debug, Drop)]
pub enum Outcome {
    /// The edit was staged; this many are pending now.
    Staged(u32),
    /// The pending edits became this edition.
    Published(u32),
    /// The edit or the publish was refused.
    Refused(Refusal),
    /// The line is not a request.
    Fault(WireFault),
    /// The line has a member of this name, which its request doesn't have.
    UnknownMember(Text),
    /// The reply to this reader's query.
    Replied { reader: u32, reply: Reply },
    /// One of the refusals and faults above, in a reply with a message for people.
    Explained(Rejection),
}

/// What a reply with a message for people reports.
#[derive(Debug, Drop)]
pub enum Rejection {
    /// The edit or the publish was refused.
    Change(Refusal),
    /// The line is not a request.
    Line(WireFault),
    /// The line has a member of this name, which its request doesn't have.
    Member(Text),
    /// The query of this reader was refused, at this edition.
    Query {
        reader: u32,
        edition: u32,
        refusal: Refusal,
    },
}

/// Returns the refusal that an answer is, if it is one.
fn refusal_of(answer: &Answer) -> Option<Refusal>
    ensures { result ≡ refusal_in answer.now }
{
    match answer {
        Answer::Refused(refusal) => Some(*refusal),
        _ => None,
    }
}

/// Returns the outcome of a query, with a message if it was refused.
fn explained_reply(reader: u32, reply: Reply) -> Outcome
    ensures { result ≡ spec.explained_reply reader reply (refusal_in reply.answer) }
{
    match refusal_of(&reply.answer) {
        Some(refusal) => Outcome::Explained(Rejection::Query {
            reader,
            edition: reply.edition,
            refusal,
        }),
        None => Outcome::Replied { reader, reply },
    }
}

impl Outcome {
    /// Returns whether the reply is a refusal, or the fault of its line.
    pub fn is_refused(&self) -> bool
        ensures { result ≡ spec.is_refused self.now }
    {
        match self {
            Outcome::Staged(_) | Outcome::Published(_) => false,
            Outcome::Refused(_)
            | Outcome::Fault(_)
            | Outcome::UnknownMember(_)
            | Outcome::Explained(_) => true,
            Outcome::Replied { reply, .. } => matches!(reply.answer, Answer::Refused(_)),
        }
    }

    /// Returns the outcome with a message for people, if it is a refusal or a fault.
    pub(crate) fn explained(self) -> Outcome
        ensures { result ≡ spec.explained self }
    {
        match self {
            Outcome::Refused(refusal) => Outcome::Explained(Rejection::Change(refusal)),
            Outcome::Fault(fault) => Outcome::Explained(Rejection::Line(fault)),
            Outcome::UnknownMember(name) => Outcome::Explained(Rejection::Member(name)),
            Outcome::Replied { reader, reply } => explained_reply(reader, reply),
            outcome => outcome,
        }
    }
}
