//! How taking lines ends early.

use std::fmt::Display;
use thiserror::Error;

/// An end before the end of the input: the number of lines before it, and the cause.
#[derive(Debug, Drop, Error)]
#[error("after {lines} lines {cause}")]
#[error_bound(C: Display)]
pub struct EndedEarly<C> {
    /// The number of lines that were done before.
    pub lines: u64,
    /// The cause of the end.
    pub cause: C,
}

/// Why not every line was taken.
#[derive(Debug, Drop)]
pub enum TakeFault<S> {
    /// Memory ran out.
    NoMemory,
    /// The source failed, or gave no end within 4,294,967,295 reads.
    ReadFault,
    /// The taker stopped: at the line after those that it took, or between two lines.
    Stopped(S),
}
