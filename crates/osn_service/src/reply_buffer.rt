//! Replies that wait to be written.
ghost use Rattle.std.specs.Prelude.{◌≡◌, [], false, length, nat_le, IfErr, OnOk, OnErr};
ghost use Rattle.osn_lines.specs.Faults.{WriteFails};
ghost use Rattle.osn_service.specs.ReplyText.{reply_line};
ghost use Rattle.osn_service.specs.ServiceInside.{full, Pushes, Writes, WritesSome};

use crate::outcome::Outcome;
use crate::reply::push_reply;
use crate::stop::UnwrittenReplies;
use osn_lines::{Sink, write_all};
use std::alloc::{AllocError, Global};

/// What waits is written once it has this many bytes.
const FULL: usize = 65_536;

/// Replies one after another, and where each ends.
#[derive(Drop)]
pub(crate) struct ReplyBuffer {
    pub(crate) text: Vec<u8>,
    pub(crate) ends: Vec<usize>,
}

impl ReplyBuffer {
    /// Returns a buffer with no reply.
    pub(crate) fn new(alloc: Global) -> ReplyBuffer
        ensures text { result.text.items ≡ [] }
        ensures ends { result.ends.items ≡ [] }
    {
        ReplyBuffer {
            text: Vec::new(alloc),
            ends: Vec::new(alloc),
        }
    }

    /// Returns whether enough waits to be written.
    pub(crate) fn is_full(&self) -> bool
        ensures { result ≡ nat_le full (length self.now.text.items) }
    {
        self.text.len() >= FULL
    }

    /// Adds the reply line of an outcome.
    pub(crate) fn push(&mut self, alloc: Global, outcome: Outcome) -> Result<(), AllocError>
        ensures ok { OnOk result (Pushes self.old self.new (reply_line outcome)) }
        ensures err { OnErr result (self.new.text.items ≡ self.old.text.items) }
        ensures err_ends { OnErr result (self.new.ends.items ≡ self.old.ends.items) }
    {
        self.ends.reserve(1)?;
        push_reply(alloc, &outcome, &mut self.text)?;
        self.ends.push_reserved(self.text.len());
        Ok(())
    }

    /// Takes every reply back.
    pub(crate) fn clear(&mut self)
        ensures text { self.new.text.items ≡ [] }
        ensures ends { self.new.ends.items ≡ [] }
    {
        self.text.clear();
        self.ends.clear();
    }

    /// Writes all that waits, so that nothing waits then.
    pub(crate) fn write<W: Sink>(&mut self, sink: &mut W) -> Result<(), UnwrittenReplies>
        ensures ok { OnOk result
            (Writes (W.contents sink.old) (W.contents sink.new) self.old self.new) }
        ensures passed { OnOk result (W.holds_back sink.new ≡ false) }
        ensures sound { OnOk result (W.has_failed sink.new ≡ W.has_failed sink.old) }
        ensures err { IfErr result (λ failed. WritesSome (W.contents sink.old)
            (W.contents sink.new) self.old failed.unwritten) }
        ensures reason { OnErr result
            (WriteFails (W.has_failed sink.old) (W.has_failed sink.new) self.old.text.items) }
    {
        match write_all(sink, &self.text) {
            Ok(()) => {
                self.clear();
                Ok(())
            }
            Err(bytes) => {
                let whole = self.ends.iter().filter(|end| **end <= bytes).count();
                let unwritten = (self.ends.len() - whole) as u64;
                Err(UnwrittenReplies { unwritten })
            }
        }
    }
}
