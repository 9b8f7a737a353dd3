//! `run`, which does what a command line asks for over the files of a folder, and the commands of
//! the register as a text: `text` prints it, `plan` prints the edits that change a journal into
//! what a text says, and `publish` makes them one edition. What the crate promises to the program
//! above: the command that the arguments ask for is run, under the limits and with the files that
//! they name, or the fault of the arguments is reported. A publish leaves the file of the journal
//! with the whole edition, or as it was, also if the journal is new or is rewritten. A command that
//! ends early reports why in one line on standard error.
#![tactic(auto)]

mod check;
mod check_faults;
mod command_words;
mod completion_script;
mod diff;
mod diff_folder;
mod diff_words;
mod display;
mod edition;
mod help;
mod hindrance_cause;
mod in_folder;
mod journal;
mod kept_journal;
mod letters_table;
mod limits;
mod new_journal;
mod note;
mod plan;
mod plan_fault;
mod plan_words;
mod program;
mod publish;
mod publish_edits;
mod since;
mod text;
mod text_file;

pub use check::{check_command, check_in_folder};
pub use command_words::first_plain_word;
pub use diff::diff_command;
pub use diff_folder::diff_in_folder;
pub use display::report_no_words;
pub use edition::WholeEdition;
pub use in_folder::{plan_in_folder, text_in_folder};
pub use kept_journal::publish_in_folder;
pub use letters_table::table_in_folder;
pub use new_journal::{takes_text, text_alone};
pub use plan::{PlanEnd, plan_command};
pub use program::run;
pub use publish::publish_command;
pub use publish_edits::NeedsRewrite;
pub use since::PublishRequest;
pub use text::text_command;
