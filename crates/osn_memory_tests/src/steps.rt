//! The steps of the machine of two copies.
use crate::register_lines::push_register;
use crate::scarce::{Change, is_sound};
use osn_core::{Core, Out, Step};
use osn_files::read_schedule;
use osn_lines::Plain;
use osn_register::Limits;
use osn_test_texts::joined;
use std::process::Abort;
use std::sync::Wait;

/// A schedule of one reader.
const STEPS: &str = r#"{"step":"stage","op":"add_land","code":"RM","name":"Rome",
  "calendar":"julian","style":"january","rule":"julian"}
{"step":"publish"}
{"step":"look","op":"periods","reader":1,"code":"RM"}
{"step":"pin","reader":1}
{"step":"check","reader":1}
{"step":"answer","reader":1}
{"step":"leave","reader":1}
{"step":"claim"}
{"step":"absorb"}
{"step":"absorb"}
{"step":"stage","op":"add_land","code":"GB","name":"Great Britain","calendar":"julian",
  "style":"annunciation","rule":"julian"}
{"step":"publish"}
{"step":"look","op":"lands","reader":1}
{"step":"pin","reader":1}
{"step":"check","reader":1}
{"step":"answer","reader":1}
"#;

/// The places of steps that take memory, one of each kind at least.
const PLACES: [usize; 7] = [0, 1, 2, 5, 8, 10, 15];

/// Returns the steps of the schedule.
fn steps<R: AllocGlobal + Abort>(rt: &R) -> Vec<Step> {
    let text = joined(rt.alloc(), STEPS).expect(rt, "there is memory");
    let mut source = Plain::new(text.as_bytes());
    read_schedule(rt.alloc(), 1, &mut source).expect(rt, "a schedule")
}

/// The step at a place, after those before it.
#[derive(Drop)]
struct TakeStep<'a> {
    steps: &'a [Step],
    place: usize,
}

impl Change for TakeStep<'_> {
    type On = Core;

    type Answer = Out;

    fn on<R: Wait + AllocGlobal + Abort>(&self, rt: &R) -> Core {
        let core = Core::new(rt.alloc(), Limits::standard(), 1);
        let mut core = core.expect(rt, "there is memory");
        for step in self.steps.iter().take(self.place) {
            core.step(step).expect(rt, "there is memory");
        }
        core
    }

    fn make<R: Wait + AllocGlobal + Abort>(&self, _rt: &R, on: &mut Core) -> Option<Out> {
        on.step(self.steps.get(self.place)?).ok()
    }

    fn text<R: Wait + AllocGlobal + Abort>(&self, rt: &R, on: &mut Core) -> String {
        let mut text = String::new(rt.alloc());
        push_register(rt, on.side(0), &mut text);
        push_register(rt, on.side(1), &mut text);
        text
    }

    fn end<R: Wait + AllocGlobal + Abort>(&self, _rt: &R, _on: Core) {}
}

/// Checks the steps at these places.
fn are_taken<R: Wait + AllocGlobal + Abort>(rt: &R, steps: &[Step], places: &[usize]) {
    for place in places {
        let place = *place;
        is_sound(rt, &TakeStep { steps, place });
    }
}

#[test]
fn a_step_is_taken(rt: HostRuntime) {
    are_taken(&rt, &steps(&rt), &PLACES);
}
