//! How far the standby is with the last batch.

/// How far the standby is with the last batch.
#[derive(Drop, Clone, Copy)]
pub enum Phase {
    /// The standby has all edits, published and pending.
    Ready,
    /// The standby lacks the last batch, and readers may still be in it.
    Draining,
    /// No reader is in the standby, and it takes in the last batch.
    Claimed,
}
