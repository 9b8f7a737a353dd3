//! The states of all readers of a core.
ghost use Rattle.std.specs.Prelude.{◌≡◌, ◌+◌, ◌<◌, ◌≤◌, length, true, None, IfOk, OnOk, OnErr};
ghost use Rattle.std.specs.Prelude.{MatchOption, option_map};
ghost use Rattle.osn_core.specs.Control.{all_idle, reader_at, look, pin, check, leave, out_at};
ghost use Rattle.osn_core.specs.Control.{readers_after, is_marked, set_reader};
ghost use Rattle.osn_core.specs.Machine.{step_takes_memory};

use crate::reader::ReaderState;
use crate::step::{Out, Step};
use osn_register::Query;
use std::alloc::{AllocError, Global};
use std::marker::Model;

/// The readers of a core, the first counted 1.
#[derive(Drop)]
pub struct Readers {
    states: Vec<ReaderState>,
}

impl Model for Readers {
    ghost use Rattle.std.specs.Prelude.{List};
    ghost use Rattle.osn_core.specs.declared.reader.ReaderState.{ReaderState};

    ghost Value = { List ReaderState };

    ghost view = { λ r. r.states.items };
}

impl Readers {
    /// Returns this many idle readers.
    pub fn new(alloc: Global, readers: u32) -> Result<Readers, AllocError>
        ensures { IfOk result (λ r. r ≡ all_idle readers) }
    {
        let mut states = Vec::new(alloc);
        for _ in 0..readers {
            states.push(ReaderState::Idle)?;
        }
        Ok(Readers { states })
    }

    /// Returns the index of a reader in the list, if there is such a reader.
    fn index(&self, reader: u32) -> Option<usize>
        ensures { MatchOption result (reader_at self.now reader ≡ None)
            (λ i. (reader ≡ i + 1) × (i < length self.now)) }
    {
        if reader == 0 {
            return None;
        }
        let index = (reader - 1) as usize;
        if index < self.states.len() {
            Some(index)
        } else {
            None
        }
    }

    /// Returns the state of a reader, if there is such a reader.
    pub fn get(&self, reader: u32) -> Option<&ReaderState>
        ensures { option_map (λ r. r.now) result ≡ reader_at self.now reader }
    {
        let index = self.index(reader)?;
        self.states.get(index)
    }

    /// Puts a reader, which must be in the list, in another state.
    pub fn set(&mut self, reader: u32, state: ReaderState)
        requires one { 0 < reader }
        requires there { reader ≤ length self.old }
        ensures { self.new ≡ set_reader self.old reader state }
    {
        self.states[(reader - 1) as usize].put(state);
    }

    /// Takes a reader's step `Look`, while this side is live.
    ///
    /// # Errors
    ///
    /// If memory runs out. On an error nothing has changed.
    pub fn look(&mut self, reader: u32, query: &Query, live: u8) -> Result<Out, AllocError>
        ensures out { IfOk result
            (λ o. o ≡ out_at (look live query.now) (reader_at self.old reader)) }
        ensures ok { OnOk result (self.new ≡
            readers_after (look live query.now) (reader_at self.old reader) self.old reader) }
        ensures err { OnErr result (self.new ≡ self.old) }
        ensures memory { OnErr result (step_takes_memory (Step.Look reader query.now)
            (out_at (look live query.now) (reader_at self.old reader)) ≡ true) }
    {
        match self.index(reader) {
            Some(index) => self.states[index].look(query, live),
            None => Ok(Out::NotNow),
        }
    }

    /// Takes a reader's step `Pin`, of the side that it noted.
    pub fn pin(&mut self, reader: u32) -> Out
        ensures out { result ≡ out_at pin (reader_at self.old reader) }
        ensures after { self.new ≡ readers_after pin (reader_at self.old reader) self.old reader }
    {
        match self.index(reader) {
            Some(index) => self.states[index].pin(),
            None => Out::NotNow,
        }
    }

    /// Takes a reader's step `Check`, while this side is live and has that many editions.
    pub fn check(&mut self, reader: u32, live: u8, edition: u32) -> Out
        ensures out { result ≡ out_at (check live edition) (reader_at self.old reader) }
        ensures after { self.new
            ≡ readers_after (check live edition) (reader_at self.old reader) self.old reader }
    {
        match self.index(reader) {
            Some(index) => self.states[index].check(live, edition),
            None => Out::NotNow,
        }
    }

    /// Takes a reader's step `Leave`.
    pub fn leave(&mut self, reader: u32) -> Out
        ensures out { result ≡ out_at leave (reader_at self.old reader) }
        ensures after { self.new ≡ readers_after leave (reader_at self.old reader) self.old reader }
    {
        match self.index(reader) {
            Some(index) => self.states[index].leave(),
            None => Out::NotNow,
        }
    }

    /// Returns whether a reader marks a side.
    pub fn marks(&self, side: u8) -> bool
        ensures { result ≡ is_marked side self.now }
    {
        self.states.iter().any(|state| state.marks(side))
    }
}
