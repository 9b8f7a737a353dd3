//! Files of lines. A journal, which keeps an object, is read and written. Scripts, question files
//! and schedules are read, and what else a `LineFold` makes of lines. The crate guarantees that
//! each call that reads returns what the definition makes of the lines, however the bytes come, or
//! the first fault with its line. What `journal_text` writes of an object is loaded as that object
//! again, its pending edits included. `head_line`, `with_edit`, `with_edits` and `with_publish`
//! write the lines of which that text consists.
#![tactic(auto)]

mod command_line;
mod fault;
mod journal;
mod last_line;
mod lists;
mod question_line;
mod questions;
mod reading;
mod running;
mod schedule;
mod script;
mod step_line;
mod stop;
mod version;
mod whole_lines;
mod written;

pub use fault::{FileFault, LineFault, Role};
pub use journal::{JournalPart, load_journal, load_part, load_with_version};
pub use last_line::LastLine;
pub use question_line::{line_question_in, question_in};
pub use questions::read_questions;
pub use reading::{LineFold, read_lines};
pub use schedule::read_schedule;
pub use script::read_script;
pub use stop::LineStop;
pub use whole_lines::{CountedPrefix, counted_prefix};
pub use written::{
    give_source, head_line, journal_text, journal_text_of, with_edit, with_edits, with_publish,
};
