//! The state of a reader, and how its steps change it.
ghost use Rattle.std.specs.Prelude.{◌≡◌, ◌==◌, true, IfOk, OnOk, OnErr};
ghost use Rattle.osn_register.specs.Query.{names_territory};
ghost use Rattle.osn_core.specs.Control.{look, pin, entering, check, leave, marks};

use crate::step::Out;
use osn_register::Query;
use std::alloc::AllocError;

/// The state of a reader. A side is 0 or 1.
#[derive(Drop)]
pub enum ReaderState {
    /// The reader has no open query, and marks no side.
    Idle,
    /// The reader has noted this query, and this side, which was live then.
    Noted {
        query: Query,
        side: u8,
    },
    /// The reader marks this side, and has not seen yet whether it is still live.
    Marked {
        query: Query,
        side: u8,
    },
    /// The reader is in this side, which has these editions, and waits for its answer.
    Entered {
        query: Query,
        side: u8,
        edition: u32,
    },
    /// The reader was answered, and is still in this side.
    Answered {
        side: u8,
        edition: u32,
    },
}

impl ReaderState {
    /// Notes a query and the live side, if the reader is idle.
    ///
    /// # Errors
    ///
    /// If memory runs out.
    pub fn look(&mut self, query: &Query, live: u8) -> Result<Out, AllocError>
        ensures out { IfOk result (λ o. o ≡ (look live query.now self.old).out) }
        ensures ok { OnOk result (self.new ≡ (look live query.now self.old).at) }
        ensures err { OnErr result (self.new ≡ self.old) }
        ensures memory { OnErr result (names_territory query.now ≡ true) }
        ensures idle { OnErr result (self.old ≡ ReaderState.Idle) }
    {
        match self {
            ReaderState::Idle => {
                self.put(ReaderState::Noted {
                    query: query.copy()?,
                    side: live,
                });
                Ok(Out::Moved)
            }
            _ => Ok(Out::NotNow),
        }
    }

    /// Marks the side that was noted, if one was.
    pub fn pin(&mut self) -> Out
        ensures out { result ≡ (pin self.old).out }
        ensures after { self.new ≡ (pin self.old).at }
    {
        match std::mem::replace(self, ReaderState::Idle) {
            ReaderState::Noted { query, side } => {
                self.put(ReaderState::Marked { query, side });
                Out::Moved
            }
            other => {
                self.put(other);
                Out::NotNow
            }
        }
    }

    /// Enters the side that was marked, if it is still the live one, which has that many editions.
    /// Otherwise it notes the live side.
    pub fn check(&mut self, live: u8, edition: u32) -> Out
        ensures out { result ≡ (check live edition self.old).out }
        ensures after { self.new ≡ (check live edition self.old).at }
    {
        match std::mem::replace(self, ReaderState::Idle) {
            ReaderState::Marked { query, side } => self.enter(query, side, live, edition),
            other => {
                self.put(other);
                Out::NotNow
            }
        }
    }

    /// Enters a side that was marked, if that one is live; otherwise notes the live side.
    fn enter(&mut self, query: Query, side: u8, live: u8, edition: u32) -> Out
        ensures out { result ≡ (entering (side == live) live edition query side).out }
        ensures after { self.new ≡ (entering (side == live) live edition query side).at }
    {
        if side == live {
            self.put(ReaderState::Entered {
                query,
                side,
                edition,
            });
            Out::Entered
        } else {
            self.put(ReaderState::Noted { query, side: live });
            Out::Again
        }
    }

    /// Gives the mark up, if the reader was answered.
    pub fn leave(&mut self) -> Out
        ensures out { result ≡ (leave self.old).out }
        ensures after { self.new ≡ (leave self.old).at }
    {
        match self {
            ReaderState::Answered { .. } => {
                self.put(ReaderState::Idle);
                Out::Moved
            }
            _ => Out::NotNow,
        }
    }

    /// Puts the reader in another state.
    pub fn put(&mut self, state: ReaderState)
        ensures { self.new ≡ state }
    {
        *self = state;
    }

    /// Returns whether it marks a side.
    pub fn marks(&self, other: u8) -> bool
        ensures { result ≡ marks other self.now }
    {
        match self {
            ReaderState::Idle => false,
            ReaderState::Noted { .. } => false,
            ReaderState::Marked { side, .. } => *side == other,
            ReaderState::Entered { side, .. } => *side == other,
            ReaderState::Answered { side, .. } => *side == other,
        }
    }
}
