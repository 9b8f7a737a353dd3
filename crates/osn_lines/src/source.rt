//! What bytes are read from.
ghost use Rattle.std.specs.Prelude.{◌≡◌, ◌<◌, ◌≤◌, ℕ, List, Option, Bool, true, is_ok};
ghost use Rattle.std.specs.Prelude.{if◌then◌else◌, IfOk, length};
ghost use Rattle.std.specs.Io.{ReadsAtMost};
ghost use Rattle.std.specs.Io.KnownBytes.{ReadConsumes};

use std::alloc::{AllocError, Global};

/// A read that failed. Its source is failed from then on.
#[derive(Clone, Copy, Debug, PartialEq, Eq)]
pub struct ReadFailed;

/// What bytes are read from, one call at a time, and what notes that a call failed.
pub trait Source {
    // The bytes that reads will give from here on, if they are known.
    ghost remaining: { Self → Option (List ℕ) };

    // Whether a read has ever failed.
    ghost has_failed: { Self → Bool };

    /// Reads once. Returns `Ok(n)` for n bytes at the beginning of `buffer`, and `Ok(0)` for a
    /// buffer with room at the end of the input. Only a read that fails marks the source as failed,
    /// and it stays so.
    fn read(&mut self, buffer: &mut [u8]) -> Result<usize, ReadFailed>
        ensures bound { ReadsAtMost result buffer.new }
        ensures bytes { ReadConsumes (remaining self.old) (remaining self.new) result buffer.new }
        ensures failed { has_failed self.new
            ≡ (if is_ok result then has_failed self.old else true) };

    /// Returns whether a read has ever failed.
    fn failed(&self) -> bool
        ensures { result ≡ has_failed self.now };

    /// Returns how many bytes of room are useful for a read: from 1 to 65,536.
    fn room(&self) -> usize
        ensures some { 0 < result }
        ensures most { result ≤ 65536 }
    {
        MOST_ROOM
    }
}

/// The most bytes that are read at once.
pub(crate) const MOST_ROOM: usize = 65_536;

/// Returns a buffer of this many bytes.
pub(crate) fn buffer_of(alloc: Global, room: usize) -> Result<Vec<u8>, AllocError>
    ensures { IfOk result (λ buffer. length buffer.items ≡ room) }
{
    vec![in alloc; 0u8; room]
}

/// Returns a buffer to read a source into, of 65,536 bytes.
///
/// # Errors
///
/// Returns `AllocError` if memory runs out.
pub fn read_buffer(alloc: Global) -> Result<Vec<u8>, AllocError>
    ensures { IfOk result (λ buffer. length buffer.items ≡ 65536) }
{
    buffer_of(alloc, MOST_ROOM)
}
