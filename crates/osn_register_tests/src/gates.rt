//! What the gate of a desk is given: whose item, which item, before it and after it, in order. Also
//! a gate that is closed to each item in turn.
use crate::compare::same;
use crate::desks::desk;
use osn_live::{DeskFault, Gate};
use std::alloc::Global;
use std::process::Abort;
use std::sync::Wait;
use std::sync::atomic::AtomicU64;
use std::sync::atomic::Ordering::SeqCst;
use std::thread::Threads;

/// How many readers there are, and how many questions each has: as many as the editor has commands.
const READERS: u32 = 2;

const ITEMS: usize = 3;

/// The calls of one participant so far, and how many of them came out of order.
#[derive(Drop)]
struct Calls {
    count: AtomicU64,
    astray: AtomicU64,
}

impl Calls {
    fn none() -> Calls {
        Calls {
            count: AtomicU64::new(0),
            astray: AtomicU64::new(0),
        }
    }

    /// Counts a call before an item, with side 0, or after it, with side 1.
    fn note(&self, index: usize, side: u64) {
        let place = (index as u64).saturating_mul(2).saturating_add(side);
        if self.count.fetch_add(1, SeqCst) != place {
            self.astray.store(1, SeqCst);
        }
    }

    /// Returns how many there were, and how many of them came out of order.
    fn counted(&self) -> (u64, u64) {
        (self.count.load(SeqCst), self.astray.load(SeqCst))
    }
}

/// Counts every call of the editor and of two readers, and is closed to one item.
#[derive(Drop)]
struct Noting {
    closed: (u32, usize),
    editor: Calls,
    first: Calls,
    second: Calls,
}

impl Noting {
    fn new(closed: (u32, usize)) -> Noting {
        Noting {
            closed,
            editor: Calls::none(),
            first: Calls::none(),
            second: Calls::none(),
        }
    }

    /// Returns the calls of one participant.
    fn of(&self, who: u32) -> &Calls {
        match who {
            0 => &self.editor,
            1 => &self.first,
            _ => &self.second,
        }
    }
}

impl Gate for Noting {
    fn before(&self, who: u32, index: usize) -> bool {
        self.of(who).note(index, 0);
        (who, index) != self.closed
    }

    fn after(&self, who: u32, index: usize) {
        self.of(who).note(index, 1);
    }
}

/// Returns how many calls are due of a participant: two for each item. After the first call for the
/// item that the gate is closed to there are no more.
fn due(who: u32, closed: (u32, usize)) -> u64 {
    let (one, item) = closed;
    let items = if who == one { item } else { ITEMS };
    let last = if who == one { 1 } else { 0 };
    (items as u64).saturating_mul(2).saturating_add(last)
}

/// Checks that a gate that is closed to one item, or to none, is given all items before that, and
/// that the others still work through all of theirs.
fn is_called<R: Threads + Wait + Abort>(
    rt: &R,
    alloc: Global,
    closed: (u32, usize),
    expected: Option<DeskFault>,
) {
    let gate = Noting::new(closed);
    let fault = desk(rt, alloc, &gate, READERS, ITEMS).err();
    same(rt, (closed, fault), (closed, expected));
    for who in 0..=READERS {
        let calls = gate.of(who).counted();
        same(
            rt,
            (closed, who, calls),
            (closed, who, (due(who, closed), 0)),
        );
    }
}

#[test]
fn a_gate_is_called_for_every_item(rt: HostRuntime) {
    is_called(&rt, rt.alloc(), (u32::MAX, 0), None);
}

#[test]
fn a_gate_is_closed_to_each_item_in_turn(rt: HostRuntime) {
    for who in 0..=READERS {
        for index in 0..ITEMS {
            is_called(&rt, rt.alloc(), (who, index), Some(DeskFault::GateClosed));
        }
    }
}
