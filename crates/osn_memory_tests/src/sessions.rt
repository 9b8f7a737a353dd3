//! Sessions of the service.
use crate::register_lines::{JOURNAL, loaded, object_text};
use crate::scarce::{Ample, Change, is_sound};
use osn_core::Object;
use osn_lines::{EndedEarly, Plain};
use osn_register::Limits;
use osn_service::{ServeFault, serve, serve_from};
use osn_test_texts::joined;
use std::alloc::Global;
use std::process::Abort;
use std::sync::Wait;
use std::{mem, str};

/// How many readers there are.
const READERS: u32 = 8;

/// Bytes that replies take with no growth of memory.
const ROOM: usize = 8_192;

/// Requests of each kind, of which some are refused.
const REQUESTS: &str = r#"{"op":"add_land","code":"RM","name":"Rome","calendar":"julian",
  "style":"january","rule":"julian"}
{"op":"add_change","code":"RM","day":577736,"calendar":"gregorian","style":"january",
  "rule":"gregorian","source":"Inter gravissimas"}
{"op":"add_exception","code":"RM","year":1724,"day":629412}
{"op":"add_land","code":"RM","name":"Rome","calendar":"julian","style":"january","rule":"julian"}
{"op":"publish"}
{"op":"read","reader":1,"code":"RM","year":1582,"month":10,"day":4}
{"op":"easter","reader":8,"code":"RM","year":1724}
{"op":"figures","reader":1,"year":1954}
{"op":"lands","reader":1}
{"op":"periods","reader":1,"code":"RM"}
{"op":"written","reader":1,"code":"RM","date":"4 October 1582","weekday":"Thursday"}
no request
{"op":"publish"}
{"op":"drop_exception","code":"RM","year":1724}
{"op":"publish"}
"#;

type Served = Result<u64, EndedEarly<ServeFault>>;

/// An object, the replies that a service has written, and to how many lines.
#[derive(Drop)]
struct Session {
    object: Object,
    replies: Vec<u8>,
    lines: u64,
}

impl Session {
    /// Serves all requests from an empty object, which is dropped.
    fn begin(&mut self, alloc: Global, requests: &str) -> Served {
        let mut source = Plain::new(requests.as_bytes());
        let mut replies = mem::replace(&mut self.replies, Vec::new(alloc));
        replies.clear();
        let mut sink = Plain::new(replies);
        let served = serve(alloc, Limits::standard(), READERS, &mut source, &mut sink);
        self.replies = sink.into_inner();
        self.lines = 0;
        served
    }

    /// Serves the requests that were not answered, from the object.
    fn go_on(&mut self, alloc: Global, requests: &str) -> Served {
        let mut source = Plain::new(after_lines(requests, self.lines).as_bytes());
        let mut sink = Plain::new(mem::replace(&mut self.replies, Vec::new(alloc)));
        let served = serve_from(alloc, &mut self.object, READERS, &mut source, &mut sink);
        self.replies = sink.into_inner();
        served
    }

    /// Counts the lines to which a service replied. Returns `None` if it lacks memory.
    fn note(&mut self, served: Served) -> Option<Served> {
        match served {
            Ok(lines) => {
                self.lines = self.lines.saturating_add(lines);
                Some(Ok(self.lines))
            }
            Err(
                EndedEarly {
                    lines,
                    cause: ServeFault::NoMemory,
                },
            ) => {
                self.lines = self.lines.saturating_add(lines);
                None
            }
            Err(ended_early) => Some(Err(ended_early)),
        }
    }

    /// Returns whether the replies are whole, as many as the lines that were counted, and the first
    /// of all replies.
    fn are_first(&self, rt: &impl Abort, all: &str) -> bool {
        let replies = str::from_utf8(&self.replies).expect(rt, "it is UTF-8");
        let is_whole = replies.is_empty() || replies.ends_with('\n');
        let count = replies.lines().count() as u64;
        is_whole && all.starts_with(replies) && count == self.lines
    }
}

/// Returns the rest of a text after as many lines.
fn after_lines(text: &str, lines: u64) -> &str {
    let mut rest = text;
    for _line in 0..lines {
        match rest.split_once('\n') {
            Some((_, later)) => rest = later,
            None => return "",
        }
    }
    rest
}

/// A session from an empty object, which is dropped, or from an object that is kept. The latter
/// continues after the lines that were answered.
#[derive(Drop)]
struct Serve<'a> {
    requests: &'a str,
    keeps: bool,
}

impl Change for Serve<'_> {
    type On = Session;

    type Answer = Served;

    fn on<R: Wait + AllocGlobal + Abort>(&self, rt: &R) -> Session {
        let replies = Vec::<u8>::with_capacity(rt.alloc(), ROOM);
        Session {
            object: loaded(rt, JOURNAL),
            replies: replies.expect(rt, "there is memory"),
            lines: 0,
        }
    }

    fn make<R: Wait + AllocGlobal + Abort>(&self, rt: &R, on: &mut Session) -> Option<Served> {
        if self.keeps {
            let served = on.go_on(rt.alloc(), self.requests);
            on.note(served)
        } else {
            let served = on.begin(rt.alloc(), self.requests);
            on.note(served)
        }
    }

    fn text<R: Wait + AllocGlobal + Abort>(&self, rt: &R, on: &mut Session) -> String {
        let replies = str::from_utf8(&on.replies).expect(rt, "it is UTF-8");
        let mut text = String::from_str(rt.alloc(), replies).expect(rt, "there is memory");
        let object = object_text(rt, &on.object);
        text.push_str(object.as_str()).expect(rt, "there is memory");
        text
    }

    fn end<R: Wait + AllocGlobal + Abort>(&self, _rt: &R, _on: Session) {}

    fn stands<R: Wait + AllocGlobal + Abort>(
        &self,
        rt: &R,
        on: &mut Session,
        ample: &Ample,
    ) -> bool {
        on.are_first(rt, ample.after.as_str())
    }
}

/// Checks a session from an object that is kept, or from none.
fn is_served<R: Wait + AllocGlobal + Abort>(rt: &R, keeps: bool) {
    let requests = joined(rt.alloc(), REQUESTS).expect(rt, "there is memory");
    let requests = requests.as_str();
    is_sound(rt, &Serve { requests, keeps });
}

#[test]
fn a_session_is_served(rt: HostRuntime) {
    is_served(&rt, false);
}

#[test]
fn a_session_goes_on(rt: HostRuntime) {
    is_served(&rt, true);
}
