//! The steps of the editor and of the readers, and what each gives.
use osn_register::{Answer, Edit, Query, Refusal};

/// The reply to a query: the edition that was read, and its answer.
#[derive(Debug, Drop)]
pub struct Reply {
    pub edition: u32,
    pub answer: Answer,
}

/// One step of the editor or of a reader. Readers are counted from 1.
#[derive(Debug, Drop)]
pub enum Step {
    /// A reader that is idle notes a query and the live side.
    Look { reader: u32, query: Query },
    /// A reader marks the side that it noted.
    Pin { reader: u32 },
    /// A reader enters the side that it marked, if that one is still live. Otherwise it gives the
    /// mark up and notes the live side.
    Check { reader: u32 },
    /// A reader gets the answer of the side that it entered.
    Answer { reader: u32 },
    /// A reader that was answered gives its mark up.
    Leave { reader: u32 },
    /// The editor stages an edit.
    Stage(Edit),
    /// The editor publishes what is pending: the standby becomes the live side.
    Publish,
    /// The editor takes the standby, which no reader marks.
    Claim,
    /// The standby takes in the next edit that it lacks, or is ready if it lacks none.
    Absorb,
}

/// What a step gives.
#[derive(Debug, Drop)]
pub enum Out {
    /// The step is not enabled, or names no reader. Nothing has changed.
    NotNow,
    /// The step was taken.
    Moved,
    /// The side that the reader marked is not the live one now. It noted that one.
    Again,
    /// The reader is in the side that it marked.
    Entered,
    /// The standby lacks nothing more.
    Ready,
    /// The edit was staged; this many are pending now.
    Staged { pending: u32 },
    /// The pending edits became this edition.
    Published { edition: u32 },
    /// The edit or the publish was refused. Nothing has changed.
    Refused(Refusal),
    /// The reader got this reply.
    Replied { reader: u32, reply: Reply },
}
