//! The command `serve` over streams that fail midway: how it ends, and what it has written then.
use crate::support::compare::same;
use crate::support::failing::{Course, FailingSink, FailingSource, SOUND};
use crate::support::text_of;
use osn_lines::Plain;
use osn_register::Limits;
use osn_report::Status;
use osn_serve_commands::serve_command;
use osn_wire::ServeRules;
use std::alloc::Global;
use std::process::Abort;

/// A journal of one edition.
const JOURNAL: &str = r#"{"journal":2}
{"calendar":"julian","code":"RM","name":"Rome","op":"add_land","rule":"julian","style":"january"}
{"op":"publish"}
"#;

/// Lines that end after 60, 77 and 103 bytes.
const READ: &str = r#"{"op":"add_exception","code":"RM","year":1582,"day":577736}
{"op":"publish"}
{"op":"lands","reader":1}
"#;

/// What is written for them. The replies end after 28, 59 and 133 bytes.
const WRITTEN: &str = r#"{"ok":"staged","pending":1}
{"edition":2,"ok":"published"}
{"answer":{"lands":[{"code":"RM","name":"Rome"}]},"edition":2,"reader":1}
"#;

/// How the service ends, and what it prints on standard error.
type End = (Status, &'static str);

const DONE: End = (Status::Done, "");

const NO_JOURNAL: End = (
    Status::ReadFault,
    "oldstyle: read fault\nnote: a.journal: read fault\n",
);

const NOT_READ: End = (Status::ReadFault, "oldstyle: read fault\n");

const NOT_WRITTEN: End = (Status::WriteFault, "oldstyle: write fault\n");

/// The courses of the journal, the input and the output. How the service ends then, how many bytes
/// of replies were taken and how many of them passed on, and how many editions were published.
type Row = (Course, Course, Course, End, (usize, usize, usize));

/// The journal has 129 bytes. One read of the input gives all lines. The first reply is written
/// before the second line, which changes the register too, and the others before the next read.
const ROWS: [Row; 17] = [
    (SOUND, SOUND, SOUND, DONE, (133, 133, 1)),
    ((0, 1), SOUND, SOUND, NO_JOURNAL, (0, 0, 0)),
    ((129, 1), SOUND, SOUND, NO_JOURNAL, (0, 0, 0)),
    ((130, 1), SOUND, SOUND, DONE, (133, 133, 1)),
    (SOUND, (0, 1), SOUND, NOT_READ, (0, 0, 0)),
    (SOUND, (59, 1), SOUND, NOT_READ, (0, 0, 0)),
    (SOUND, (60, 1), SOUND, NOT_READ, (28, 28, 0)),
    (SOUND, (102, 1), SOUND, NOT_READ, (59, 59, 1)),
    (SOUND, (103, 1), SOUND, NOT_READ, (133, 133, 1)),
    (SOUND, (2, 50), SOUND, NOT_READ, (59, 59, 1)),
    (SOUND, SOUND, (0, 50), NOT_WRITTEN, (0, 0, 0)),
    (SOUND, SOUND, (1, 50), NOT_WRITTEN, (28, 0, 0)),
    (SOUND, SOUND, (2, 50), NOT_WRITTEN, (78, 28, 1)),
    (SOUND, SOUND, (3, 50), NOT_WRITTEN, (128, 28, 1)),
    (SOUND, SOUND, (4, 50), NOT_WRITTEN, (133, 28, 1)),
    (SOUND, SOUND, (5, 50), DONE, (133, 133, 1)),
    (SOUND, SOUND, (9, 0), NOT_WRITTEN, (0, 0, 0)),
];

/// Checks how the service ends over these streams. A journal to save is left only if it is done.
fn ends(rt: &impl Abort, alloc: Global, row: Row) {
    let (journal, input, output, (status, printed), expected) = row;
    let mut sink = FailingSink::new(alloc, output);
    let mut errors = Plain::new(Vec::new(alloc));
    let left = serve_command(
        alloc,
        Limits::standard(),
        "a.journal",
        &mut Some(FailingSource::new(JOURNAL.as_bytes(), journal)),
        ServeRules::editing(8),
        true,
        &mut FailingSource::new(READ.as_bytes(), input),
        &mut sink,
        &mut errors,
    );
    let errors = errors.into_inner();
    let courses = (journal, input, output);
    let actual = (sink.bytes.len(), sink.passed, left.editions);
    same(rt, (courses, actual), (courses, expected));
    same(
        rt,
        Some(sink.bytes.as_slice()),
        WRITTEN.as_bytes().get(..expected.0),
    );
    same(rt, (left.status, text_of(rt, &errors)), (status, printed));
    same(rt, left.journal.is_some(), status == Status::Done);
}

fn all_end(rt: &impl Abort, alloc: Global, rows: &[Row]) {
    for row in rows {
        ends(rt, alloc, *row);
    }
}

#[test]
fn streams_that_fail_midway(rt: HostRuntime) {
    all_end(&rt, rt.alloc(), &ROWS);
}
