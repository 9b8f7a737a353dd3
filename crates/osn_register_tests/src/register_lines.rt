//! Edits, queries and replies as lines.
use osn_core::Reply;
use osn_register::{Edit, Query};
use osn_request::{Request, read_request};
use osn_service::{Outcome, reply_text};
use std::alloc::Global;
use std::process::Abort;

/// Returns the edit of a line.
pub fn edit_of(rt: &impl Abort, alloc: Global, line: &str) -> Edit {
    match read_request(alloc, 1, line.as_bytes()).expect(rt, line) {
        Request::Stage(edit) => edit,
        _ => panic!(rt; "{line} is not an edit"),
    }
}

/// Returns the query of a line.
pub fn query_of(rt: &impl Abort, alloc: Global, line: &str) -> Query {
    match read_request(alloc, 1, line.as_bytes()).expect(rt, line) {
        Request::Ask { query, .. } => query,
        _ => panic!(rt; "{line} is not a query"),
    }
}

/// Returns the line of a reply to the first reader.
pub fn line_of(rt: &impl Abort, alloc: Global, reply: Reply) -> String {
    reply_text(alloc, &Outcome::Replied { reader: 1, reply }).expect(rt, "memory")
}
