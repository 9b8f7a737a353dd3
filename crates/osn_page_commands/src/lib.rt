//! The commands that print pages, and the one that writes tables of letters. What the crate
//! promises to those above: a command writes what its definition says about what it reads, and ends
//! with the status of what happened. It reports in one line on standard error why it ended early.
#![tactic(auto)]

mod answer_line;
mod conversion;
mod date_advice;
mod date_hint;
mod dates;
mod day_number;
mod edition_lines;
mod editions;
mod editions_folder;
mod in_folder;
mod letters;
mod letters_files;
mod month_word;
mod order;
mod page;
mod page_request;
mod page_text;
mod page_words;
mod place;
mod place_lines;
mod place_of_all;
mod places;
mod read_request;
mod refusal_lines;
mod table_faults;
mod table_words;

pub use conversion::convert_command;
pub use edition_lines::{report_edition_fault, report_edition_word};
pub use editions::editions_command;
pub use editions_folder::editions_in_folder;
pub use in_folder::page_in_folder;
pub use letters::{TableRules, letters_command};
pub use letters_files::letters_in_folder;
pub use refusal_lines::territory_refusal_line;
