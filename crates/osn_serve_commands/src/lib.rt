//! The command `serve`: answers request lines, and saves, keeps or follows the journal. What the
//! crate promises to those above: the lines are answered as the service does, from the object that
//! the journal contains. The journal that results is saved whole or not at all. One that is kept
//! has each change before its reply is written, and one that another run keeps is followed. One of
//! an older version is rewritten, whole or not at all.
#![tactic(auto)]

mod follow;
mod in_folder;
mod keep;
mod loaded_journal;
mod mode;
mod save;
mod saved_file;
mod serve;
mod target;
mod upgrade;

pub use follow::follow_command;
pub use in_folder::serve_in_folder;
pub use keep::{cut_unfinished, keep_command, missing_text};
pub use loaded_journal::{LoadedJournal, check_version_to_keep, read_journal_to_keep};
pub use serve::{ServeResult, initial_object, serve_command};
pub use target::{SaveTarget, TargetFault, report_target, save_target};
pub use upgrade::{cut_text_of, report_cut, save_anew, upgrade_file};
