//! Calls with scarce memory, compared with the same calls with ample memory.
use crate::scarce::change::Change;
use crate::scarce::scarce_memory::ScarceMemory;
use std::process::Abort;
use std::sync::Wait;

/// How many bytes more are left to a call than to the one before: as few as the smallest block that
/// an allocator gives.
const STEP: usize = 32;

/// How often a call is made at most.
const MOST_TRIALS: usize = 65_536;

/// What a call does with ample memory.
#[derive(Drop)]
pub struct Ample {
    /// A text of the state, before the call, of what it was made on.
    pub before: String,
    /// What it returned.
    pub answer: String,
    /// A text of the state after the call.
    pub after: String,
}

/// What is wrong with a call, in words.
pub type Wrong = &'static str;

pub const ANSWERS_OTHERWISE: Wrong = "it returns another result than with ample memory";

pub const CHANGES_OTHERWISE: Wrong = "it leaves another state than with ample memory";

pub const CHANGES_FIRST: Wrong = "it was refused, and has changed something";

pub const STAYS_REFUSED: Wrong = "it was refused, and is again with ample memory";

pub const NEVER_REFUSED: Wrong = "it never was refused";

pub const ALWAYS_REFUSED: Wrong = "it is refused however much memory is left";

/// Returns what a call does with ample memory.
fn ample_of<R: Wait + AllocGlobal + Abort, C: Change>(rt: &R, call: &C) -> Ample {
    let mut on = call.on(rt);
    let before = call.text(rt, &mut on);
    let answer = call.make(rt, &mut on).expect(rt, "there is memory");
    let answer = format!(in rt.alloc(); "{answer:?}").expect(rt, "there is memory");
    let after = call.text(rt, &mut on);
    call.end(rt, on);
    Ample {
        before,
        answer,
        after,
    }
}

/// Checks that a call returned and did what it does with ample memory.
fn is_ample<R: Wait + AllocGlobal + Abort, C: Change>(
    rt: &R,
    call: &C,
    on: &mut C::On,
    answer: C::Answer,
    ample: &Ample,
) -> Result<(), Wrong> {
    let answer = format!(in rt.alloc(); "{answer:?}").expect(rt, "there is memory");
    let is_same = answer.as_str() == ample.answer.as_str();
    let stands = call.text(rt, on).as_str() == ample.after.as_str();
    if !is_same {
        Err(ANSWERS_OTHERWISE)
    } else if !stands {
        Err(CHANGES_OTHERWISE)
    } else {
        Ok(())
    }
}

/// Checks the state after a refusal, and that the call does what it does with ample memory when it
/// is made again.
fn is_made_again<R: Wait + AllocGlobal + Abort, C: Change>(
    rt: &R,
    call: &C,
    on: &mut C::On,
    ample: &Ample,
) -> Result<(), Wrong> {
    if !call.stands(rt, on, ample) {
        return Err(CHANGES_FIRST);
    }
    match call.make(rt, on) {
        Some(answer) => is_ample(rt, call, on, answer, ample),
        None => Err(STAYS_REFUSED),
    }
}

/// Returns whether a call on this is refused when about that many bytes are left.
fn is_refused_on<R: Wait + AllocGlobal + Abort, C: Change>(
    rt: &R,
    call: &C,
    on: &mut C::On,
    (memory, room): (&mut ScarceMemory, usize),
    ample: &Ample,
) -> Result<bool, Wrong> {
    memory.leave(room);
    let answer = call.make(rt, on);
    memory.give_back();
    match answer {
        Some(answer) => is_ample(rt, call, on, answer, ample).map(|()| false),
        None => is_made_again(rt, call, on, ample).map(|()| true),
    }
}

/// Returns whether a call is refused when about that many bytes are left.
fn is_refused<R: Wait + AllocGlobal + Abort, C: Change>(
    rt: &R,
    call: &C,
    memory: &mut ScarceMemory,
    room: usize,
    ample: &Ample,
) -> Result<bool, Wrong> {
    let mut on = call.on(rt);
    let refused = is_refused_on(rt, call, &mut on, (memory, room), ample);
    call.end(rt, on);
    refused
}

/// Makes a call with more and more memory until it is not refused.
fn tried_in<R: Wait + AllocGlobal + Abort, C: Change>(
    rt: &R,
    call: &C,
    memory: &mut ScarceMemory,
    ample: &Ample,
) -> Result<(), Wrong> {
    for trial in 0..MOST_TRIALS {
        if !is_refused(rt, call, memory, trial * STEP, ample)? {
            return if trial == 0 {
                Err(NEVER_REFUSED)
            } else {
                Ok(())
            };
        }
    }
    Err(ALWAYS_REFUSED)
}

/// Refuses the growths of memory of a call in turn, the first one first, until the call has enough:
/// it is made when nothing is left, then when a little is, then when a little more is. What it is
/// made on is made again each time. A growth that finds room in what the call itself has given back
/// is not refused.
///
/// # Errors
///
/// Returns what is wrong with the call.
pub fn tried<R: Wait + AllocGlobal + Abort, C: Change>(rt: &R, call: &C) -> Result<(), Wrong> {
    let ample = ample_of(rt, call);
    let mut memory = ScarceMemory::new(rt);
    tried_in(rt, call, &mut memory, &ample)
}

/// Checks that nothing is wrong with a call.
pub fn is_sound<R: Wait + AllocGlobal + Abort, C: Change>(rt: &R, call: &C) {
    assert_eq!(rt; tried(rt, call), Ok(()));
}
