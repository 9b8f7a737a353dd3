//! What a terminal shows of a long input: after each 64 MiB, how much was read.
use crate::support::compare::same;
use crate::support::text_of;
use osn_lines::{Plain, Progress};
use osn_report::ReadProgress;
use std::alloc::Global;
use std::process::Abort;

/// 64 MiB in bytes.
const STEP: usize = 67_108_864;

/// The number of bytes of each read, and what is printed about all of them.
const READS: [(&[usize], &str); 6] = [
    (&[STEP - 1], ""),
    (&[STEP - 1, 1], "oldstyle: 64 MiB of the table read\n"),
    (
        &[STEP, STEP - 1, 0, 1],
        "oldstyle: 64 MiB of the table read\noldstyle: 128 MiB of the table read\n",
    ),
    (
        &[STEP + STEP / 2, STEP / 2 - 1, 1],
        "oldstyle: 96 MiB of the table read\noldstyle: 128 MiB of the table read\n",
    ),
    (
        &[5 * STEP + STEP / 64, 1],
        "oldstyle: 321 MiB of the table read\n",
    ),
    (
        &[usize::MAX, usize::MAX],
        "oldstyle: 17592186044415 MiB of the table read\n",
    ),
];

fn are_printed(rt: &impl Abort, alloc: Global, rows: &[(&[usize], &'static str)]) {
    for (reads, wanted) in rows {
        let mut printed = Vec::new(alloc);
        let mut progress = ReadProgress::new(alloc, "table", Some(Plain::new(&mut printed)));
        for bytes in *reads {
            progress.count(*bytes);
        }
        drop(progress);
        same(rt, text_of(rt, &printed), *wanted);
    }
}

#[test]
fn each_64_mebibytes_are_printed(rt: HostRuntime) {
    are_printed(&rt, rt.alloc(), &READS);
}
