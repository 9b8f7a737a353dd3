//! The calls of the object that a register and its editions are in.
use crate::register_lines::{EDITS, JOURNAL, QUERIES, edit_of, loaded, object_text, query_of};
use crate::scarce::{Change, is_sound};
use osn_core::{Object, Reply};
use osn_register::{Edit, Query, Refusal};
use std::process::Abort;
use std::sync::Wait;

/// An edit that is pending before the first edition, for which the list of editions grows.
const PENDING: &str = r#"{"journal":4}
{"op":"add_land","code":"RM","name":"Rome","calendar":"julian","style":"january","rule":"julian"}
"#;

#[derive(Clone, Copy)]
enum Call<'a> {
    Stage(&'a Edit),
    Publish,
    Ask(&'a Query),
}

#[derive(Debug, Drop)]
enum Outcome {
    Counted(Result<u32, Refusal>),
    Replied(Reply),
}

/// Returns the result of a stage or a publish, or `None` if it lacks memory.
fn counted(answer: Result<u32, Refusal>) -> Option<Outcome> {
    match answer {
        Err(Refusal::NoMemory) => None,
        answer => Some(Outcome::Counted(answer)),
    }
}

/// Returns the reply to a query, or `None` if it lacks memory.
fn replied(object: &Object, query: &Query) -> Option<Outcome> {
    match object.ask(query) {
        Ok(reply) => Some(Outcome::Replied(reply)),
        Err(_) => None,
    }
}

impl Change for Call<'_> {
    type On = Object;

    type Answer = Outcome;

    fn on<R: Wait + AllocGlobal + Abort>(&self, rt: &R) -> Object {
        match *self {
            Call::Stage(_) | Call::Ask(_) => loaded(rt, JOURNAL),
            Call::Publish => loaded(rt, PENDING),
        }
    }

    fn make<R: Wait + AllocGlobal + Abort>(&self, _rt: &R, on: &mut Object) -> Option<Outcome> {
        match *self {
            Call::Stage(edit) => counted(on.stage(edit)),
            Call::Publish => counted(on.publish()),
            Call::Ask(query) => replied(on, query),
        }
    }

    fn text<R: Wait + AllocGlobal + Abort>(&self, rt: &R, on: &mut Object) -> String {
        object_text(rt, on)
    }

    fn end<R: Wait + AllocGlobal + Abort>(&self, _rt: &R, _on: Object) {}
}

/// Checks the edits of lines, each staged.
fn are_staged<R: Wait + AllocGlobal + Abort>(rt: &R, lines: &[&str]) {
    for line in lines {
        let edit = edit_of(rt, line);
        is_sound(rt, &Call::Stage(&edit));
    }
}

#[test]
fn an_edit_is_staged(rt: HostRuntime) {
    are_staged(&rt, &EDITS);
}

#[test]
fn edits_are_published(rt: HostRuntime) {
    is_sound(&rt, &Call::Publish);
}

/// Checks the queries of lines.
fn ask_all<R: Wait + AllocGlobal + Abort>(rt: &R, lines: &[&str]) {
    for line in lines {
        let query = query_of(rt, line);
        is_sound(rt, &Call::Ask(&query));
    }
}

#[test]
fn a_query_is_asked(rt: HostRuntime) {
    ask_all(&rt, &QUERIES);
}
