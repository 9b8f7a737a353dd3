//! Edits, queries and objects that are read from their lines, and texts of the state of a register.
use osn_core::Object;
use osn_files::{journal_text, load_journal};
use osn_lines::Plain;
use osn_register::{Edit, Limits, Query, Register};
use osn_request::{Request, read_request};
use osn_test_texts::joined;
use std::process::Abort;

/// A published edition: a territory with changes, an exception and sources, and one with none.
pub(crate) const JOURNAL: &str = r#"{"journal":4}
{"op":"add_land","code":"GB","name":"Great Britain","calendar":"julian","style":"annunciation",
  "rule":"julian"}
{"op":"add_change","code":"GB","day":639551,"calendar":"julian","style":"january",
  "rule":"julian"}
{"op":"add_change","code":"GB","day":639797,"calendar":"gregorian","style":"january",
  "rule":"gregorian","source":"24 Geo. II c. 23"}
{"op":"add_exception","code":"GB","year":1753,"day":640010,"source":"a rubric"}
{"op":"add_land","code":"FR","name":"France","calendar":"julian","style":"easter","rule":"julian"}
{"op":"publish"}
"#;

/// An edit of each kind, of which each may follow those before it. The last two drop something, and
/// are applied without memory.
pub(crate) const EDITS: [&str; 6] = [
    r#"{"op":"add_land","code":"RM","name":"Rome","calendar":"julian","style":"january",
  "rule":"julian"}"#,
    r#"{"op":"add_change","code":"FR","day":577736,"calendar":"gregorian","style":"january",
  "rule":"gregorian"}"#,
    r#"{"op":"alter_change","code":"GB","day":639551,"calendar":"gregorian","style":"january",
  "rule":"gregorian","source":"an act"}"#,
    r#"{"op":"add_exception","code":"FR","year":1724,"day":629412}"#,
    r#"{"op":"drop_change","code":"GB","day":639551}"#,
    r#"{"op":"drop_exception","code":"GB","year":1753}"#,
];

/// A query of each kind whose answer takes memory.
pub(crate) const QUERIES: [&str; 8] = [
    r#"{"op":"read","reader":1,"code":"GB","year":1731,"month":2,"day":11}"#,
    r#"{"op":"read","reader":1,"code":"FR","year":1543,"month":4,"day":1}"#,
    r#"{"op":"read","reader":1,"code":"GB","year":1752,"month":9,"day":3}"#,
    r#"{"op":"day","reader":1,"code":"GB","day":639797}"#,
    r#"{"op":"easter","reader":1,"code":"GB","year":1753}"#,
    r#"{"op":"lands","reader":1}"#,
    r#"{"op":"periods","reader":1,"code":"GB"}"#,
    r#"{"op":"written","reader":1,"code":"GB","date":"11 February 1731/2","weekday":"Friday"}"#,
];

/// The queries whose answers show the state of a register.
const STATE_QUERIES: [&str; 5] = [
    r#"{"op":"lands","reader":1}"#,
    r#"{"op":"periods","reader":1,"code":"GB"}"#,
    r#"{"op":"periods","reader":1,"code":"FR"}"#,
    r#"{"op":"easter","reader":1,"code":"GB","year":1753}"#,
    r#"{"op":"easter","reader":1,"code":"FR","year":1724}"#,
];

/// Returns the edit of a line.
pub(crate) fn edit_of<R: AllocGlobal + Abort>(rt: &R, line: &str) -> Edit {
    match read_request(rt.alloc(), 1, line.as_bytes()).expect(rt, line) {
        Request::Stage(edit) => edit,
        _ => panic!(rt; "{line} is not an edit"),
    }
}

/// Returns the query of a line.
pub(crate) fn query_of<R: AllocGlobal + Abort>(rt: &R, line: &str) -> Query {
    match read_request(rt.alloc(), 1, line.as_bytes()).expect(rt, line) {
        Request::Ask { query, .. } => query,
        _ => panic!(rt; "{line} is not a query"),
    }
}

/// Returns the object of a journal.
pub(crate) fn loaded<R: AllocGlobal + Abort>(rt: &R, journal: &str) -> Object {
    let text = joined(rt.alloc(), journal).expect(rt, "there is memory");
    let mut source = Plain::new(text.as_bytes());
    load_journal(rt.alloc(), Limits::standard(), &mut source).expect(rt, "a journal")
}

/// Returns a text of the answer to the query of a line.
fn answer_text<R: AllocGlobal + Abort>(rt: &R, register: &Register, line: &str) -> String {
    let answer = register.answer(&query_of(rt, line)).expect(rt, line);
    format!(in rt.alloc(); "{answer:?}\n").expect(rt, line)
}

/// Adds a text of the state of a register.
pub(crate) fn push_register<R: AllocGlobal + Abort>(
    rt: &R,
    register: &Register,
    text: &mut String,
) {
    for line in STATE_QUERIES {
        let answer = answer_text(rt, register, line);
        text.push_str(answer.as_str()).expect(rt, line);
    }
}

/// Returns a text of the state of an object.
pub(crate) fn object_text<R: AllocGlobal + Abort>(rt: &R, object: &Object) -> String {
    let mut text = journal_text(rt.alloc(), object).expect(rt, "there is memory");
    push_register(rt, object.register(), &mut text);
    text
}
