//! What the faults of the running register say.
use crate::compare::same;
use osn_live::{AskFault, DeskFault, OpenFault, PublishFault};
use std::alloc::{AllocError, Global};
use std::fmt::Display;
use std::process::Abort;

/// The numbers of a broken history differ, so that each is found in its place.
const DESKS: [(DeskFault, &str); 5] = [
    (DeskFault::NoMemory, "memory ran out"),
    (
        DeskFault::HistoryBroken {
            reader: 2,
            last: 4,
            editions: 3,
        },
        "reader 2 saw edition 4, but there are 3 editions",
    ),
    (DeskFault::BadCount, "the number of readers is not 1 to 64"),
    (
        DeskFault::NoPlace,
        "there is no room for a reader, or no thread",
    ),
    (DeskFault::GateClosed, "the gate was closed"),
];

const OPENINGS: [(OpenFault, &str); 3] = [
    (OpenFault::NoMemory, "memory ran out; nothing was opened"),
    (OpenFault::BadCount, "the number of readers is not 1 to 64"),
    (
        OpenFault::NoPlace,
        "there is no room for a reader; nothing was opened",
    ),
];

const PUBLISHES: [(PublishFault, &str); 3] = [
    (PublishFault::NothingPending, "nothing is pending"),
    (
        PublishFault::EditionsFull,
        "there are as many editions as the limit allows",
    ),
    (
        PublishFault::NoMemory,
        "memory ran out; the pending edits are kept",
    ),
];

const QUESTIONS: [(AskFault, &str); 2] = [
    (AskFault::NoMemory, "memory ran out"),
    (AskFault::NoPlace, "the editor was closed"),
];

/// Checks that each fault says its words.
fn say<F: Display>(
    rt: &impl Abort,
    alloc: Global,
    rows: &[(F, &'static str)],
) -> Result<(), AllocError> {
    for (fault, words) in rows {
        same(rt, fault.to_string(alloc)?.as_str(), *words);
    }
    Ok(())
}

#[test]
fn each_fault_says_what_it_is(rt: HostRuntime) -> Result<(), AllocError> {
    say(&rt, rt.alloc(), &DESKS)?;
    say(&rt, rt.alloc(), &OPENINGS)?;
    say(&rt, rt.alloc(), &PUBLISHES)?;
    say(&rt, rt.alloc(), &QUESTIONS)
}
