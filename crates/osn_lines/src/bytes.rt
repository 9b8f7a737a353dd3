//! Bytes in memory as a source.
ghost use Rattle.std.specs.Prelude.{◌≡◌, Some};

use crate::source::{MOST_ROOM, ReadFailed, Source};

/// Bytes in memory as a source, which never fails.
#[derive(Clone, Copy, Debug, Drop)]
pub struct Bytes<'a> {
    rest: &'a [u8],
}

impl<'a> Bytes<'a> {
    ghost use Rattle.osn_lines.specs.Bytes.{rest_of};

    /// Returns a source of all of these bytes.
    pub fn new(bytes: &'a [u8]) -> Bytes<'a>
        ensures { rest_of result ≡ bytes.now }
    {
        Bytes { rest: bytes }
    }
}

impl<'a> Source for Bytes<'a> {
    ghost use Rattle.std.specs.Prelude.{false};
    ghost use Rattle.osn_lines.specs.Bytes.{rest_of};

    ghost remaining = { λ b. Some (rest_of b) };

    ghost has_failed = { λ _. false };

    fn read(&mut self, buffer: &mut [u8]) -> Result<usize, ReadFailed> {
        let count = self.rest.len().min(buffer.len());
        buffer[..count].copy_from_slice(&self.rest[..count]);
        self.rest = &self.rest[count..];
        Ok(count)
    }

    fn failed(&self) -> bool {
        false
    }

    fn room(&self) -> usize {
        self.rest.len().clamp(1, MOST_ROOM)
    }
}
