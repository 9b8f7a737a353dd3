//! The rule over what is published and what each seat of it knows: only where it comes from.
ghost use Rattle.osn_live.specs.InsideProtocol.{Keeps, Finds};
ghost use Rattle.std.specs.Prelude.{None};

use crate::edition::Edition;
use crate::history::History;
use atomic_table::{Join, Split};
use crossbeam_utils::rule::{Outcome, Protocol};
use osn_register::Limits;

/// The limits and the history that an editor, its notes and its readers share. No value of it is
/// made.
pub struct Origin {
    pub limits: Limits,
    pub book: History,
}

/// What a seat knows.
pub type View = Option<Origin>;

/// What is published has the origin that each seat knows.
pub struct OneOrigin;

impl Protocol<Edition, View> for OneOrigin {
    ghost holds = { Keeps };

    ghost first = { None };
}

/// The step of a reader that enters, and of a publish: it finds the origin.
pub struct FindOrigin;

impl Outcome<Edition, View> for FindOrigin {
    ghost then = { Finds };
}

/// How the editor hands what it knows to a new reader.
pub struct ShareOrigin;

impl Split<View> for ShareOrigin {
    ghost left = { λ v. v };

    ghost right = { λ v. v };
}

impl Join<View> for ShareOrigin {
    ghost both = { λ v w. w };

    ghost spent = { None };
}
