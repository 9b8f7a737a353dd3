//! A register that is folded from edits, and its copy. Edits and queries are read from their lines,
//! and answers compared as theirs.
use crate::compare::same;
use crate::register_lines::{edit_of, line_of, query_of};
use osn_core::Reply;
use osn_register::{Edit, Limits, Register};
use osn_test_texts::joined;
use std::alloc::Global;
use std::process::Abort;

/// The edits of Great Britain, with a second addition of it among them.
const EDITS: [&str; 4] = [
    r#"{"op":"add_land","code":"GB","name":"Great Britain","calendar":"julian",
  "style":"annunciation","rule":"julian"}"#,
    r#"{"op":"add_change","code":"GB","day":639551,"calendar":"julian","style":"january",
  "rule":"julian"}"#,
    r#"{"op":"add_land","code":"GB","name":"Great Britain","calendar":"julian",
  "style":"annunciation","rule":"julian"}"#,
    r#"{"op":"add_change","code":"GB","day":639797,"calendar":"gregorian","style":"january",
  "rule":"gregorian"}"#,
];

/// What its register is asked, and its answers.
const BRITAIN: [(&str, &str); 4] = [
    (
        r#"{"op":"read","reader":1,"code":"GB","year":1731,"month":2,"day":11}"#,
        r#"{"answer":{"days":[{"day":632287,"dual":"11 February 1731/2","gregorian":"1732-02-22",
  "jdn":2353712,"julian":"1732-02-11","label":"1731-02-11","weekday":"Friday"}],"skipped":[]},
  "edition":0,"reader":1}
"#,
    ),
    (
        r#"{"op":"read","reader":1,"code":"GB","year":1752,"month":9,"day":3}"#,
        "{\"answer\":{\"days\":[],\"skipped\":[639797]},\"edition\":0,\"reader\":1}\n",
    ),
    (
        r#"{"op":"periods","reader":1,"code":"GB"}"#,
        r#"{"answer":{"periods":[{"calendar":"julian","first":1,"last":639550,"rule":"julian",
  "style":"annunciation"},{"calendar":"julian","first":639551,"last":639796,"rule":"julian",
  "style":"january"},{"calendar":"gregorian","first":639797,"last":3652059,"rule":"gregorian",
  "style":"january"}]},"edition":0,"reader":1}
"#,
    ),
    (
        r#"{"op":"lands","reader":1}"#,
        r#"{"answer":{"lands":[{"code":"GB","name":"Great Britain"}]},"edition":0,"reader":1}
"#,
    ),
];

/// The territories once Rome is added.
const WITH_ROME: [(&str, &str); 1] = [(
    r#"{"op":"lands","reader":1}"#,
    r#"{"answer":{"lands":[{"code":"GB","name":"Great Britain"},{"code":"RM","name":"Rome"}]},
  "edition":0,"reader":1}
"#,
)];

const ROME: &str = r#"{"op":"add_land","code":"RM","name":"Rome","calendar":"julian",
  "style":"january","rule":"julian"}"#;

/// Returns what a register, as edition 0, answers to the query of a line.
fn answered(rt: &impl Abort, alloc: Global, register: &Register, line: &str) -> String {
    let query = query_of(rt, alloc, line);
    let answer = register.answer(&query).expect(rt, line);
    line_of(rt, alloc, Reply { edition: 0, answer })
}

/// Checks the answers of a register to the queries of lines.
fn answers(
    rt: &impl Abort,
    alloc: Global,
    register: &Register,
    rows: &[(&'static str, &'static str)],
) {
    for (line, expected) in rows {
        let actual = answered(rt, alloc, register, line);
        let expected = joined(alloc, expected).expect(rt, line);
        same(rt, (*line, actual.as_str()), (*line, expected.as_str()));
    }
}

/// Returns the edits of lines.
fn edits_of(rt: &impl Abort, alloc: Global, lines: &[&str]) -> Vec<Edit> {
    let mut edits = Vec::new(alloc);
    for line in lines {
        edits.push(edit_of(rt, alloc, line)).expect(rt, line);
    }
    edits
}

/// Checks that a copy of the register of edits answers as it does, and is apart from it.
fn is_copied(rt: &impl Abort, alloc: Global, edits: &[Edit]) {
    let register = Register::fold(alloc, Limits::standard(), edits).expect(rt, "memory");
    let mut copied = register.copy().expect(rt, "memory");
    answers(rt, alloc, &copied, &BRITAIN);
    copied
        .apply(&edit_of(rt, alloc, ROME))
        .expect(rt, "it is added");
    answers(rt, alloc, &copied, &WITH_ROME);
    answers(rt, alloc, &register, &BRITAIN);
}

#[test]
fn a_register_is_folded_and_copied(rt: HostRuntime) {
    is_copied(&rt, rt.alloc(), &edits_of(&rt, rt.alloc(), &EDITS));
}
