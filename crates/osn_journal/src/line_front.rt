//! What has come of a request line that has not ended yet.
ghost use Rattle.std.specs.Prelude.{◌≡◌, ◌++◌, ◌≤◌, ◌<◌, ◌+◌, ℕ, List, [], length, IfOk, OnOk};
ghost use Rattle.osn_lines.specs.LastLineFeed.{ended_bytes, unended_bytes};
ghost use Rattle.osn_journal.specs.FollowerInside.{HasFew, IsFrontOf, GivesSameLines};
ghost use Rattle.osn_journal.specs.Outcomes.{with_feed};

use osn_lines::{LONGEST_LINE, ended_length};
use std::alloc::{AllocError, Global};
use std::mem;

/// The bytes that have come after the last line feed. For a line that is too long they may lack
/// some, but are too long as well.
#[derive(Drop)]
pub(crate) struct LineFront {
    bytes: Vec<u8>,
}

impl LineFront {
    /// Returns a line of which nothing has come.
    pub(crate) fn new(alloc: Global) -> LineFront
        ensures { result.bytes.items ≡ [] }
    {
        LineFront {
            bytes: Vec::new(alloc),
        }
    }

    /// Adds bytes, and returns the lines that have ended by them.
    fn add(&mut self, more: &[u8]) -> Result<Vec<u8>, AllocError>
        ensures ended { IfOk result (λ bytes.
            bytes.items ≡ ended_bytes (self.old.bytes.items ++ more.now)) }
        ensures rest { OnOk result
            (self.new.bytes.items ≡ unended_bytes (self.old.bytes.items ++ more.now)) }
    {
        self.bytes.extend_from_slice(more)?;
        let whole_length = ended_length(&self.bytes);
        let rest = self.bytes.split_off(whole_length)?;
        Ok(mem::replace(&mut self.bytes, rest))
    }

    /// Adds bytes that were read, and returns the lines that have ended by them. A line that is too
    /// long already takes no more bytes before it ends.
    pub(crate) fn read(&mut self, alloc: Global, more: &[u8]) -> Result<Vec<u8>, AllocError>
        requires few { length more.now ≤ 65536 }
        requires front { HasFew self.old }
        ensures few { OnOk result (HasFew self.new) }
        ensures ended { IfOk result (λ bytes. length bytes.items ≤ 196608) }
        ensures lines { IfOk result (λ bytes. (pending_bytes : List ℕ) →
            IsFrontOf pending_bytes self.old →
            GivesSameLines bytes.items (ended_bytes (pending_bytes ++ more.now))) }
        ensures rest { OnOk result ((pending_bytes : List ℕ) → IsFrontOf pending_bytes self.old →
            IsFrontOf (unended_bytes (pending_bytes ++ more.now)) self.new) }
    {
        if self.bytes.len() > LONGEST_LINE && ended_length(more) == 0 {
            return Ok(Vec::new(alloc));
        }
        self.add(more)
    }

    /// Ends the last line, if there is one, and returns it with its line feed.
    pub(crate) fn end(&mut self, alloc: Global) -> Result<Vec<u8>, AllocError>
        requires front { HasFew self.old }
        ensures few { OnOk result (HasFew self.new) }
        ensures ended { IfOk result (λ bytes. length bytes.items ≤ 196608) }
        ensures lines { IfOk result (λ bytes. (pending_bytes : List ℕ) →
            IsFrontOf pending_bytes self.old →
            GivesSameLines bytes.items (ended_bytes (with_feed pending_bytes))) }
        ensures rest { OnOk result ((pending_bytes : List ℕ) → IsFrontOf pending_bytes self.old →
            IsFrontOf (unended_bytes (with_feed pending_bytes)) self.new) }
    {
        if self.bytes.is_empty() {
            return Ok(Vec::new(alloc));
        }
        self.add(b"\n")
    }
}
