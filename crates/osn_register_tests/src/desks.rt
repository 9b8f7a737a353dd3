//! Desks, at which an editor and readers work at the same time.
use crate::compare::same;
use crate::live::{NONE, ONE};
use crate::register_lines::line_of;
use osn_core::{Command, Reply};
use osn_files::read_script;
use osn_lines::Plain;
use osn_live::{DeskFault, Gate, OpenGate, run_desk};
use osn_register::{Limits, Query};
use std::alloc::Global;
use std::process::Abort;
use std::sync::Wait;
use std::sync::atomic::AtomicU64;
use std::sync::atomic::Ordering::SeqCst;
use std::thread;
use std::thread::Threads;

/// A script of one edition, whose refused command is ignored.
const SCRIPT: &str = r#"{"journal":1}
{"op":"add_land","code":"RM","name":"Rome","calendar":"julian","style":"january","rule":"julian"}
{"op":"publish"}
{"op":"publish"}
"#;

fn script(rt: &impl Abort, alloc: Global) -> Vec<Command> {
    read_script(alloc, &mut Plain::new(SCRIPT.as_bytes())).expect(rt, "a script")
}

/// Returns that many questions for the territories.
fn questions(rt: &impl Abort, alloc: Global, count: usize) -> Vec<Query> {
    let mut list = Vec::new(alloc);
    for _ in 0..count {
        list.push(Query::Lands).expect(rt, "memory");
    }
    list
}

/// Returns that many lists of that many questions.
fn lists(rt: &impl Abort, alloc: Global, count: u32, each: usize) -> Vec<Vec<Query>> {
    let mut lists = Vec::new(alloc);
    for _ in 0..count {
        lists.push(questions(rt, alloc, each)).expect(rt, "memory");
    }
    lists
}

pub type DeskReplies = Result<Vec<Vec<Reply>>, DeskFault>;

/// Returns the replies of a desk to this many readers, who ask this many questions each.
pub fn desk<R: Threads + Wait + Abort, G: Gate + Sync>(
    rt: &R,
    alloc: Global,
    gate: &G,
    readers: u32,
    each: usize,
) -> DeskReplies {
    let commands = script(rt, alloc);
    let lists = lists(rt, alloc, readers, each);
    run_desk(rt, alloc, Limits::standard(), gate, &commands, &lists)
}

/// Checks that a reply is the one of its edition.
fn is_possible(rt: &impl Abort, alloc: Global, reply: Reply) {
    let expected = if reply.edition == 0 { NONE } else { ONE };
    same(rt, line_of(rt, alloc, reply).as_str(), expected);
}

/// Checks that one reader's replies are as many as its questions and the two possible ones, and no
/// edition is below the one before it.
fn are_possible(rt: &impl Abort, alloc: Global, replies: Vec<Reply>, each: usize) {
    same(rt, replies.len(), each);
    let mut last = 0;
    for reply in replies {
        assert!(rt; last <= reply.edition);
        last = reply.edition;
        is_possible(rt, alloc, reply);
    }
}

/// Checks a desk of that many readers, who ask that many questions each.
fn works<R: Threads + Wait + Abort, G: Gate + Sync>(
    rt: &R,
    alloc: Global,
    gate: &G,
    readers: u32,
    each: usize,
) {
    let all = desk(rt, alloc, gate, readers, each).expect(rt, "it works");
    same(rt, all.len(), readers as usize);
    for replies in all {
        are_possible(rt, alloc, replies, each);
    }
}

#[test]
fn readers_work_while_the_editor_does(rt: HostRuntime) {
    works(&rt, rt.alloc(), &OpenGate, 64, 20);
}

/// Waits for a number to be reached, for at most 1,000,000,000 turns.
fn reached(number: &AtomicU64, least: u64) -> bool {
    for _ in 0..1_000_000_000u64 {
        if number.load(SeqCst) >= least {
            return true;
        }
        thread::yield_now();
    }
    false
}

/// The editor publishes after the reader has the reply to its first question, and the reader asks
/// its second one after that.
#[derive(Drop)]
struct Turns {
    edited: AtomicU64,
    questions: AtomicU64,
}

impl Gate for Turns {
    fn before(&self, who: u32, index: usize) -> bool {
        if index != 1 {
            true
        } else if who == 0 {
            reached(&self.questions, 1)
        } else {
            reached(&self.edited, 2)
        }
    }

    fn after(&self, who: u32, _index: usize) {
        if who == 0 {
            self.edited.fetch_add(1, SeqCst);
        } else {
            self.questions.fetch_add(1, SeqCst);
        }
    }
}

/// Checks that the replies of the only reader are of these editions.
fn are_of<R: Threads + Wait + Abort>(rt: &R, alloc: Global, gate: &Turns, editions: &[u32]) {
    let all = desk(rt, alloc, gate, 1, editions.len()).expect(rt, "it works");
    same(rt, all.len(), 1);
    for replies in all {
        same(rt, replies.len(), editions.len());
        for (reply, edition) in replies.into_iter().zip(editions.iter()) {
            same(rt, reply.edition, *edition);
            is_possible(rt, alloc, reply);
        }
    }
}

#[test]
fn later_questions_are_answered_from_later_editions(rt: HostRuntime) {
    let gate = Turns {
        edited: AtomicU64::new(0),
        questions: AtomicU64::new(0),
    };
    are_of(&rt, rt.alloc(), &gate, &[0, 1]);
}

/// Two items, each of which waits for the other one to begin.
#[derive(Drop)]
struct Meeting {
    one: (u32, usize),
    two: (u32, usize),
    one_came: AtomicU64,
    two_came: AtomicU64,
}

impl Gate for Meeting {
    fn before(&self, who: u32, index: usize) -> bool {
        if (who, index) == self.one {
            self.one_came.store(1, SeqCst);
            reached(&self.two_came, 1)
        } else if (who, index) == self.two {
            self.two_came.store(1, SeqCst);
            reached(&self.one_came, 1)
        } else {
            true
        }
    }

    fn after(&self, _who: u32, _index: usize) {}
}

fn meeting_of(one: (u32, usize), two: (u32, usize)) -> Meeting {
    Meeting {
        one,
        two,
        one_came: AtomicU64::new(0),
        two_came: AtomicU64::new(0),
    }
}

#[test]
fn two_readers_meet(rt: HostRuntime) {
    works(&rt, rt.alloc(), &meeting_of((1, 1), (2, 1)), 2, 2);
}

#[test]
fn the_editor_and_a_reader_meet(rt: HostRuntime) {
    works(&rt, rt.alloc(), &meeting_of((0, 0), (1, 0)), 1, 2);
}

/// A gate that is closed to the first reader.
#[derive(Drop)]
struct Closed;

impl Gate for Closed {
    fn before(&self, who: u32, _index: usize) -> bool {
        who != 1
    }

    fn after(&self, _who: u32, _index: usize) {}
}

/// Checks the number and the name of the fault of a desk whose readers ask one question each.
fn fails<R: Threads + Wait + Abort, G: Gate + Sync>(
    rt: &R,
    alloc: Global,
    gate: &G,
    readers: u32,
    expected: (u8, &'static str),
) {
    let fault = desk(rt, alloc, gate, readers, 1).err();
    let actual = fault.map(|fault| (fault.number(), fault.name()));
    same(rt, actual, Some(expected));
}

#[test]
fn a_desk_fails(rt: HostRuntime) {
    fails(&rt, rt.alloc(), &OpenGate, 0, (92, "BadCount"));
    fails(&rt, rt.alloc(), &OpenGate, 65, (92, "BadCount"));
    fails(&rt, rt.alloc(), &Closed, 1, (94, "GateClosed"));
}
