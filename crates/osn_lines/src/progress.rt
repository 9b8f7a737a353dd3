//! Counts how much of an input was read.

/// Counts the bytes of an input while it is read.
pub trait Progress {
    /// Counts bytes that were read.
    fn count(&mut self, bytes: usize);
}
