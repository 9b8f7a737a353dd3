//! The call that loads a journal.
use crate::register_lines::{JOURNAL, object_text};
use crate::scarce::{Change, is_sound};
use osn_core::Object;
use osn_files::{FileFault, load_journal};
use osn_lines::Plain;
use osn_register::Limits;
use osn_test_texts::joined;
use std::process::Abort;
use std::sync::Wait;

/// Loads a journal, and puts the object in place of none.
#[derive(Drop)]
struct LoadJournal<'a> {
    text: &'a str,
}

impl Change for LoadJournal<'_> {
    type On = Option<Object>;

    type Answer = Result<(), FileFault>;

    fn on<R: Wait + AllocGlobal + Abort>(&self, _rt: &R) -> Option<Object> {
        None
    }

    fn make<R: Wait + AllocGlobal + Abort>(
        &self,
        rt: &R,
        on: &mut Option<Object>,
    ) -> Option<Result<(), FileFault>> {
        let mut source = Plain::new(self.text.as_bytes());
        match load_journal(rt.alloc(), Limits::standard(), &mut source) {
            Ok(object) => {
                *on = Some(object);
                Some(Ok(()))
            }
            Err(FileFault::NoMemory) => None,
            Err(fault) => Some(Err(fault)),
        }
    }

    fn text<R: Wait + AllocGlobal + Abort>(&self, rt: &R, on: &mut Option<Object>) -> String {
        match on {
            Some(object) => object_text(rt, object),
            None => String::new(rt.alloc()),
        }
    }

    fn end<R: Wait + AllocGlobal + Abort>(&self, _rt: &R, _on: Option<Object>) {}
}

#[test]
fn a_journal_is_loaded(rt: HostRuntime) {
    let text = joined(rt.alloc(), JOURNAL).expect(&rt, "there is memory");
    is_sound(&rt, &LoadJournal { text: &text });
}
