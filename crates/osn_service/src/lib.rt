//! The service over streams of bytes: the lines of a stream, a request read from each, and the
//! reply to it as a JSON line. What the crate promises to those above: `serve` writes, in order,
//! the text of each outcome of the sequential object run on the requests of the lines read. It
//! writes nothing else. `serve_store` does so for whatever keeps an object, and says what it keeps.
//! The line of a reply, of a step's out and of a transcript is the compact text of the definition's
//! JSON value, with a line feed.
#![tactic(auto)]

mod fault;
mod line_writer;
mod outcome;
mod reply;
mod reply_buffer;
mod rules;
mod service;
mod session;
mod stop;
mod store;

pub use fault::{ServeFault, ServiceFault};
pub use outcome::{Outcome, Rejection};
pub use reply::{out_text, push_reply, reply_text, transcript_text};
pub use rules::ServeRules;
pub use service::{Served, serve, serve_from, serve_store};
pub use store::{Change, Store, StoreFault};
