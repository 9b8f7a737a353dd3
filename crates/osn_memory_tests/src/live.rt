//! The calls of the running register.
use crate::register_lines::{EDITS, JOURNAL, QUERIES, edit_of, query_of};
use crate::scarce::{Change, is_sound};
use osn_core::{Command, Reply};
use osn_files::read_script;
use osn_lines::Plain;
use osn_live::{AskFault, Editor, PublishFault, Reader, open};
use osn_register::{Edit, Limits, Query, Refusal};
use osn_test_texts::joined;
use std::process::Abort;
use std::sync::Wait;

/// An editor and a reader.
struct Running {
    editor: Editor,
    reader: Reader,
}

/// Returns the commands of the journal.
fn script<R: AllocGlobal + Abort>(rt: &R) -> Vec<Command> {
    let text = joined(rt.alloc(), JOURNAL).expect(rt, "there is memory");
    read_script(rt.alloc(), &mut Plain::new(text.as_bytes())).expect(rt, "a script")
}

/// Does what commands say, which must succeed.
fn run_script<R: Wait + Abort>(rt: &R, editor: &mut Editor, commands: &[Command]) {
    for command in commands {
        match command {
            Command::Stage(edit) => {
                editor.stage(edit).expect(rt, "it is staged");
            }
            Command::Publish => {
                editor.publish(rt).expect(rt, "it is published");
            }
        }
    }
}

/// Stages the edits of lines, which must succeed.
fn stage_all<R: AllocGlobal + Abort>(rt: &R, editor: &mut Editor, lines: &[&str]) {
    for line in lines {
        editor.stage(&edit_of(rt, line)).expect(rt, line);
    }
}

/// Returns a running register of one reader, with the edition of the journal, and with the edits of
/// lines pending.
fn begun<R: Wait + AllocGlobal + Abort>(rt: &R, lines: &[&str]) -> Running {
    let opened = open(rt, rt.alloc(), Limits::standard(), 1);
    let (mut editor, mut readers) = opened.expect(rt, "there is memory");
    run_script(rt, &mut editor, &script(rt));
    stage_all(rt, &mut editor, lines);
    let reader = readers.pop().expect(rt, "a reader");
    Running { editor, reader }
}

/// Returns a text of the reply to the reader for the query of a line.
fn reply_text<R: AllocGlobal + Abort>(rt: &R, reader: &mut Reader, line: &str) -> String {
    let reply = reader.ask(&query_of(rt, line)).expect(rt, line);
    format!(in rt.alloc(); "{reply:?}\n").expect(rt, line)
}

#[derive(Clone, Copy)]
enum Call<'a> {
    Stage(&'a Edit),
    Publish,
    Ask(&'a Query),
}

#[derive(Debug, Drop)]
enum Outcome {
    Staged(Result<u32, Refusal>),
    Published(Result<u32, PublishFault>),
    Replied(Result<Reply, AskFault>),
}

fn staged(editor: &mut Editor, edit: &Edit) -> Option<Outcome> {
    match editor.stage(edit) {
        Err(Refusal::NoMemory) => None,
        answer => Some(Outcome::Staged(answer)),
    }
}

fn published<R: Wait>(rt: &R, editor: &mut Editor) -> Option<Outcome> {
    match editor.publish(rt) {
        Ok(note) => Some(Outcome::Published(Ok(note.edition()))),
        Err(PublishFault::NoMemory) => None,
        Err(fault) => Some(Outcome::Published(Err(fault))),
    }
}

fn replied(reader: &mut Reader, query: &Query) -> Option<Outcome> {
    match reader.ask(query) {
        Err(AskFault::NoMemory | AskFault::NoPlace) => None,
        answer => Some(Outcome::Replied(answer)),
    }
}

impl Change for Call<'_> {
    type On = Running;

    type Answer = Outcome;

    fn on<R: Wait + AllocGlobal + Abort>(&self, rt: &R) -> Running {
        match *self {
            Call::Stage(_) | Call::Ask(_) => begun(rt, &[]),
            Call::Publish => begun(rt, &EDITS),
        }
    }

    fn make<R: Wait + AllocGlobal + Abort>(&self, rt: &R, on: &mut Running) -> Option<Outcome> {
        match *self {
            Call::Stage(edit) => staged(&mut on.editor, edit),
            Call::Publish => published(rt, &mut on.editor),
            Call::Ask(query) => replied(&mut on.reader, query),
        }
    }

    fn text<R: Wait + AllocGlobal + Abort>(&self, rt: &R, on: &mut Running) -> String {
        let mut text = String::new(rt.alloc());
        for line in QUERIES {
            let reply = reply_text(rt, &mut on.reader, line);
            text.push_str(reply.as_str()).expect(rt, line);
        }
        text
    }

    fn end<R: Wait + AllocGlobal + Abort>(&self, rt: &R, on: Running) {
        let Running { editor, reader: _ } = on;
        editor.close(rt);
    }
}

/// Checks the edits of lines, each staged.
fn are_staged<R: Wait + AllocGlobal + Abort>(rt: &R, lines: &[&str]) {
    for line in lines {
        let edit = edit_of(rt, line);
        is_sound(rt, &Call::Stage(&edit));
    }
}

#[test]
fn an_edit_is_staged_live(rt: HostRuntime) {
    are_staged(&rt, &EDITS);
}

#[test]
fn edits_are_published_live(rt: HostRuntime) {
    is_sound(&rt, &Call::Publish);
}

/// Checks the queries of lines, each asked of a reader.
fn ask_all<R: Wait + AllocGlobal + Abort>(rt: &R, lines: &[&str]) {
    for line in lines {
        let query = query_of(rt, line);
        is_sound(rt, &Call::Ask(&query));
    }
}

#[test]
fn a_reader_is_asked(rt: HostRuntime) {
    ask_all(&rt, &QUERIES);
}
