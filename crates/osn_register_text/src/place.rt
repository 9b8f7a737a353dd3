//! A table of a text by its place, to which its faults belong.

use crate::fault::{KeyFault, Reason, TextFault, ValueFault};
use crate::key::{Key, Part};
use osn_register::Text;
use std::alloc::Global;

/// The territory of a code, or a part of it.
#[derive(Clone, Copy)]
pub(crate) struct Place<'a> {
    pub(crate) alloc: Global,
    pub(crate) code: &'a str,
    pub(crate) part: Part,
}

impl<'a> Place<'a> {
    ghost use Rattle.osn_register_text.specs.Field as field;
    ghost use Rattle.osn_register_text.specs.Inside.{Means, place_of};

    /// Returns what is wrong with the table.
    pub(crate) fn fault(self, reason: Reason) -> TextFault
        ensures { Means result (field.fault_of (place_of self.entry) reason) }
    {
        match Text::from_str(self.alloc, self.code) {
            Ok(code) => TextFault::Key(KeyFault {
                code,
                part: self.part,
                reason,
            }),
            Err(_) => TextFault::NoMemory,
        }
    }

    /// Returns what is wrong with the value at a key of the table.
    pub(crate) fn fault_at(self, key: Key, fault: ValueFault) -> TextFault
        ensures { Means result (field.fault_at (place_of self.entry) key fault) }
    {
        self.fault(Reason::Value(key, fault))
    }
}
