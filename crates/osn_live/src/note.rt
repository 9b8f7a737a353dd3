//! A note from an editor to a reader of what is published.
ghost use Rattle.std.specs.Prelude.{◌≡◌, length};
ghost use Rattle.osn_live.specs.Running.{note_of};

use crate::history::Certificate;
use osn_register::Limits;
use std::marker::Model;

/// What was published when the editor made it. A reader that has learnt it answers from at least
/// this.
#[derive(Drop)]
pub struct Note {
    limits: Limits,
    certificate: Certificate,
}

impl Model for Note {
    ghost use Rattle.osn_live.specs.Running.{NoteState, note_of};

    ghost Value = { NoteState };

    ghost view = { λ n. note_of n.limits n.certificate };
}

impl Note {
    pub(crate) fn new(limits: Limits, certificate: Certificate) -> Note
        ensures { result ≡ note_of limits certificate }
    {
        Note {
            limits,
            certificate,
        }
    }

    /// Returns the edition: how many batches were published.
    pub fn edition(&self) -> u32
        ensures { result ≡ length self.now.batches }
    {
        self.certificate.len()
    }

    pub(crate) fn into_certificate(self) -> Certificate
        ensures { result ≡ record { batches = self.batches; book = self.origin.book } }
    {
        self.certificate
    }
}
