//! The public names of lines, requests, replies, the service, files, the kept journal, audits and
//! the almanac, for callers that name one crate. It has no code of its own, and no crate of the
//! program uses it.
#![tactic(auto)]

pub use osn_file_commands::audit;
pub use osn_files::{
    FileFault, LineFault, Role, head_line, journal_text, journal_text_of, load_journal,
    read_questions, read_schedule, read_script, with_edit, with_publish,
};
pub use osn_journal::serve_kept;
pub use osn_lines::{
    EndedEarly, LONGEST_LINE, Line, LineTaker, Plain, ReadFailed, Sink, Source, TakeFault,
    WriteFailed, take_lines, write_all,
};
pub use osn_pages::almanac_text;
pub use osn_request::{Member, Request, RequestError, Version, WireFault, read_request};
pub use osn_service::{
    Outcome, Rejection, ServeFault, ServeRules, Served, ServiceFault, out_text, reply_text, serve,
    serve_from, serve_store, transcript_text,
};
