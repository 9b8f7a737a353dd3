//! The numbers of readers of a core, of a replay and of a running register.
use crate::compare::same;
use osn_core::{Core, Step, replay};
use osn_live::{OpenFault, open};
use osn_register::{Limits, Refusal};
use std::alloc::Global;
use std::process::Abort;
use std::sync::Wait;

/// Numbers of readers, and whether they are refused.
const COUNTS: [(u32, bool); 5] = [
    (0, true),
    (1, false),
    (64, false),
    (65, true),
    (u32::MAX, true),
];

/// Returns why no register of that many readers is opened.
fn not_opened<R: Wait>(rt: &R, alloc: Global, readers: u32) -> Option<OpenFault> {
    match open(rt, alloc, Limits::standard(), readers) {
        Ok((editor, _readers)) => {
            editor.close(rt);
            None
        }
        Err(fault) => Some(fault),
    }
}

/// Checks which numbers of readers are refused.
fn are_refused<R: Wait + Abort>(rt: &R, alloc: Global, rows: &[(u32, bool)]) {
    for (readers, is_refused) in rows {
        let made = Core::new(alloc, Limits::standard(), *readers).err();
        let run = replay(alloc, Limits::standard(), *readers, &[Step::Publish]).err();
        let expected = if *is_refused {
            Some(Refusal::BadCount)
        } else {
            None
        };
        same(rt, (readers, made, run), (readers, expected, expected));
        let opened = not_opened(rt, alloc, *readers);
        let expected = if *is_refused {
            Some(OpenFault::BadCount)
        } else {
            None
        };
        same(rt, (readers, opened), (readers, expected));
    }
}

#[test]
fn readers_are_1_to_64(rt: HostRuntime) {
    are_refused(&rt, rt.alloc(), &COUNTS);
}
