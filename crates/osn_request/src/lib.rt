//! Reads a request line: the JSON object of a line, what it asks for, and then an edit, or a query
//! and the reader who asks it. It has what lines of requests, replies and files have in common too:
//! the versions of the rules and the words of each, the names of members, why a line is refused,
//! and how a member is written, token by token. Messages for people are here too, since commands
//! print some of them and the service writes them in replies. The crate guarantees that each call
//! that reads returns what the definition says of the value that `serde_json` reads, or the line's
//! first fault. A version has the words of its rules, the tokens of a member are its definition,
//! and so is each message.
#![tactic(auto)]

mod fault_messages;
mod member;
mod refusal_messages;
mod request;
mod version;
mod wire_fault;
mod write_json;

pub use fault_messages::{fault_message, unknown_member_message};
pub use member::Member;
pub use refusal_messages::{query_message, refusal_message};
pub use request::{
    EditOp, FlatObject, JsonObject, LineObject, LineQuery, LineRequest, Op, QueryOp, Request,
    RequestError, edit_of, line_query_of, line_request_of, object_in, object_of, op_of, query_of,
    read_request, reader_in, request_of_line, text_at, text_of, unknown_member, value_of_line,
    whole_at,
};
pub use version::Version;
pub use wire_fault::WireFault;
pub use write_json::{write_signed, write_text};
