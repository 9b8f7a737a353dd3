//! The commands over files of lines: `audit`, `replay` and `desk`. What the crate promises to those
//! above: a command makes the text that its definition says for what it reads, or returns why it
//! makes none, and at which file. `audit` returns the number of lines of a transcript, or the first
//! fault with its file and its line. If it returns a number, each line is a query with exactly the
//! reply that the journal gives under the edition that the reply names.
#![tactic(auto)]

mod audit_follower;
mod audit_followers;
mod audit_outcome;
mod auditor;
mod desk;
mod entry_check;
mod float;
mod in_folder;
mod replay;
mod transcript;
mod transcript_audit;
mod transcript_line;

pub use audit_outcome::audit_command;
pub use desk::desk_command;
pub use in_folder::{audit_in_folder, desk_in_folder, replay_in_folder};
pub use replay::replay_command;
pub use transcript_audit::audit;
