//! The call that applies an edit to a register.
use crate::register_lines::{EDITS, JOURNAL, edit_of, loaded, push_register};
use crate::scarce::{Change, is_sound};
use osn_register::{Edit, Refusal, Register};
use std::process::Abort;
use std::sync::Wait;

#[derive(Drop)]
struct Apply<'a> {
    edit: &'a Edit,
}

impl Change for Apply<'_> {
    type On = Register;

    type Answer = Result<(), Refusal>;

    fn on<R: Wait + AllocGlobal + Abort>(&self, rt: &R) -> Register {
        let object = loaded(rt, JOURNAL);
        object.register().copy().expect(rt, "there is memory")
    }

    fn make<R: Wait + AllocGlobal + Abort>(
        &self,
        _rt: &R,
        on: &mut Register,
    ) -> Option<Result<(), Refusal>> {
        match on.apply(self.edit) {
            Err(Refusal::NoMemory) => None,
            answer => Some(answer),
        }
    }

    fn text<R: Wait + AllocGlobal + Abort>(&self, rt: &R, on: &mut Register) -> String {
        let mut text = String::new(rt.alloc());
        push_register(rt, on, &mut text);
        text
    }

    fn end<R: Wait + AllocGlobal + Abort>(&self, _rt: &R, _on: Register) {}
}

/// Checks the edits of lines, each applied to a register.
fn are_applied<R: Wait + AllocGlobal + Abort>(rt: &R, lines: &[&str]) {
    for line in lines {
        let edit = edit_of(rt, line);
        is_sound(rt, &Apply { edit: &edit });
    }
}

#[test]
fn an_edit_is_applied(rt: HostRuntime) {
    are_applied(&rt, &EDITS[..4]);
}
