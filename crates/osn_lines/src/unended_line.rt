//! The beginning of a line that has not ended, from one piece to the next.
ghost use Rattle.std.specs.Prelude.{◌≡◌, ◌<◌, ℕ, List, [], ◌++◌, length, true, false, OnOk};
ghost use Rattle.osn_lines.specs.Inside.{Holds};
ghost use Rattle.osn_lines.specs.Lines.{IsLine};

use crate::line::{LONGEST_LINE, Line};
use std::alloc::{AllocError, Global};

/// The beginning of a line that has not ended: its bytes, or that they were too many.
#[derive(Drop)]
pub(crate) struct UnendedLine {
    bytes: Vec<u8>,
    is_too_long: bool,
}

impl UnendedLine {
    /// Returns one without bytes.
    pub(crate) fn new(alloc: Global) -> UnendedLine
        ensures { Holds result [] }
    {
        UnendedLine {
            bytes: Vec::new(alloc),
            is_too_long: false,
        }
    }

    /// Returns whether no bytes were added.
    pub(crate) fn is_empty(&self) -> bool
        ensures nothing { result ≡ true → Holds self.now [] }
        ensures empty { result ≡ true → (line : List ℕ) → Holds self.now line → line ≡ [] }
        ensures some { result ≡ false → (line : List ℕ) → Holds self.now line → 0 < length line }
    {
        self.bytes.is_empty() && !self.is_too_long
    }

    /// Adds the next bytes.
    pub(crate) fn add(&mut self, more: &[u8]) -> Result<(), AllocError>
        ensures { OnOk result ((line : List ℕ) → Holds self.old line →
            Holds self.new (line ++ more.now)) }
    {
        if self.is_too_long || self.bytes.len() + more.len() > LONGEST_LINE {
            self.is_too_long = true;
            return Ok(());
        }
        self.bytes.extend_from_slice(more)
    }

    /// Returns the line, if no more bytes follow.
    pub(crate) fn as_line(&self) -> Line<'_>
        ensures { (line : List ℕ) → Holds self.now line → IsLine result line }
    {
        if self.is_too_long {
            return Line::TooLong;
        }
        Line::Whole(&self.bytes)
    }

    /// Clears the bytes.
    pub(crate) fn clear(&mut self)
        ensures { Holds self.new [] }
    {
        self.bytes.clear();
        self.is_too_long = false;
    }
}
