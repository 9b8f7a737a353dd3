//! Lines of bytes: what they are read from and written to, how they are cut, the loop that gives
//! each line to what takes lines, and how a message quotes the text of a user. The crate guarantees
//! that `take_lines` gives exactly the lines of the input, in order, in whatever pieces the bytes
//! come. If it ends early, it returns the number of lines and why. `read_all` has all bytes of an
//! input in memory. `EscapedText` escapes what a terminal acts on, and `is_near` decides which name
//! a
//! mistyped word may be meant for.
#![tactic(auto)]

mod bytes;
mod escape;
mod fault;
mod last_line_feed;
mod line;
mod near;
mod pieces;
mod plain;
mod progress;
mod sink;
mod source;
mod stream;
mod taker;
mod unended_line;
mod whole;

pub use bytes::Bytes;
pub use escape::{EscapedLines, EscapedText};
pub use fault::{EndedEarly, TakeFault};
pub use last_line_feed::ended_length;
pub use line::{LONGEST_LINE, Line};
pub use near::is_near;
pub use plain::Plain;
pub use progress::Progress;
pub use sink::{Sink, WriteFailed, write_all};
pub use source::{ReadFailed, Source, read_buffer};
pub use stream::take_lines;
pub use taker::LineTaker;
pub use whole::{ReadAllFault, read_all};
