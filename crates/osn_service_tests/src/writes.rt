//! How often replies are written: together for one read, and in parts if they are many.
use crate::support::compare::same;
use crate::support::failing::{FailingSink, FailingSource, SOUND};
use osn_register::Limits;
use osn_wire::serve;
use std::alloc::Global;
use std::process::Abort;

const QUERIES: &str = "{\"op\":\"lands\",\"reader\":1}\n{\"op\":\"lands\",\"reader\":2}\nx\n";

/// Lines, and how often they come. How many bytes a read gives at most, and the number of writes.
///
/// The reply to an empty line has 30 bytes, so that 65,536 bytes of them wait after the first
/// 2,185, and then after the next 2,185.
const WRITES: [(&str, usize, usize, usize); 3] = [
    (QUERIES, 1, usize::MAX, 1),
    (QUERIES, 1, 1, 3),
    ("\n", 5_000, usize::MAX, 3),
];

fn are_written(rt: &impl Abort, alloc: Global, rows: &[(&str, usize, usize, usize)]) {
    for (lines, count, step, wanted) in rows {
        let text = lines.repeat(alloc, *count).expect(rt, "there is memory");
        let mut source = FailingSource::new(text.as_bytes(), (usize::MAX, *step));
        let mut sink = FailingSink::new(alloc, SOUND);
        let served = serve(alloc, Limits::standard(), 8, &mut source, &mut sink);
        same(rt, (served.is_ok(), sink.writes), (true, *wanted));
    }
}

#[test]
fn replies_are_written_together(rt: HostRuntime) {
    are_written(&rt, rt.alloc(), &WRITES);
}
