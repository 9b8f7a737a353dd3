//! The running register: one editor, and readers that never wait. What the crate promises to those
//! above: a reader's answer is the definition's under a beginning of the published batches. That
//! beginning contains all that the reader saw and learnt of.
#![tactic(auto)]

mod desk;
mod edition;
mod editor;
mod faults;
mod gate;
mod history;
mod note;
mod opening;
mod protocol;
mod reader;
mod turns;
mod work;
mod work_fault;

pub use desk::run_desk;
pub use editor::Editor;
pub use faults::{AskFault, DeskFault, OpenFault, PublishFault};
pub use gate::{Gate, OpenGate};
pub use note::Note;
pub use opening::open;
pub use reader::Reader;
