//! Calls that do wrong when memory is scarce, each of which is detected.
use crate::scarce::{
    ANSWERS_OTHERWISE, CHANGES_FIRST, Change, NEVER_REFUSED, STAYS_REFUSED, Wrong, tried,
};
use std::process::Abort;
use std::sync::Wait;

/// What a call does when memory is scarce.
#[derive(Clone, Copy)]
enum Manner {
    /// It does all that it must.
    Right,
    /// It has changed something when it is refused.
    ChangesFirst,
    /// It returns another result.
    AnswersOtherwise,
    /// It needs no memory.
    WantsNone,
    /// Once it lacks memory, it always does.
    StaysRefused,
}

/// Appends a text to a text in that manner.
#[derive(Drop)]
struct Append {
    manner: Manner,
}

/// What is appended: more than an allocator may have kept beside the text.
const MORE: &str = "a text of some bytes, which the text before it has no room for";

impl Change for Append {
    type On = (String, bool);

    type Answer = u32;

    fn on<R: Wait + AllocGlobal + Abort>(&self, rt: &R) -> (String, bool) {
        let text = String::from_str(rt.alloc(), "a text");
        (text.expect(rt, "there is memory"), false)
    }

    fn make<R: Wait + AllocGlobal + Abort>(&self, _rt: &R, on: &mut (String, bool)) -> Option<u32> {
        let (text, was_refused) = on;
        if matches!(self.manner, Manner::WantsNone) {
            return Some(1);
        }
        if matches!(self.manner, Manner::ChangesFirst) {
            text.clear();
        }
        if *was_refused && matches!(self.manner, Manner::StaysRefused) {
            return None;
        }
        if text.push_str(MORE).is_ok() {
            return Some(1);
        }
        *was_refused = true;
        if matches!(self.manner, Manner::AnswersOtherwise) {
            return Some(2);
        }
        None
    }

    fn text<R: Wait + AllocGlobal + Abort>(&self, rt: &R, on: &mut (String, bool)) -> String {
        String::from_str(rt.alloc(), on.0.as_str()).expect(rt, "there is memory")
    }

    fn end<R: Wait + AllocGlobal + Abort>(&self, _rt: &R, _on: (String, bool)) {}
}

/// Each manner, and what is wrong with a call of that manner.
const MANNERS: [(Manner, Result<(), Wrong>); 5] = [
    (Manner::Right, Ok(())),
    (Manner::ChangesFirst, Err(CHANGES_FIRST)),
    (Manner::AnswersOtherwise, Err(ANSWERS_OTHERWISE)),
    (Manner::WantsNone, Err(NEVER_REFUSED)),
    (Manner::StaysRefused, Err(STAYS_REFUSED)),
];

/// Checks what is wrong with calls of each manner.
fn are_found_out<R: Wait + AllocGlobal + Abort>(rt: &R, rows: &[(Manner, Result<(), Wrong>)]) {
    for (manner, wanted) in rows {
        let manner = *manner;
        assert_eq!(rt; tried(rt, &Append { manner }), *wanted);
    }
}

#[test]
fn a_call_that_goes_wrong_is_found_out(rt: HostRuntime) {
    are_found_out(&rt, &MANNERS);
}
