//! What a command line asks for: its grammar, the command with the files and numbers of its
//! arguments, and the completions for a shell. The crate guarantees that `parse_arguments` takes
//! what
//! the grammar takes and returns what the grammar finds in it. An error is of a kind that the
//! grammar gives. `command_line` builds exactly that grammar, and the completions have a row for
//! each command, option and argument that it takes, and no other row.
#![tactic(auto)]

mod argument;
mod commands;
mod common;
mod dates;
mod file_words;
mod grammar;
mod invocation;
mod letters;
mod pages;
mod register_text;
mod rows;
mod shell;
mod shell_texts;
mod values;

pub use grammar::command_line;
pub use invocation::{CommandWords, Invocation, PageRequest, ServeOptions, parse_arguments};
pub use letters::{DateOptions, LettersOptions};
pub use rows::completions;
pub use shell::{Shell, shell_named};
