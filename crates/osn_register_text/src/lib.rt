//! The register as a text in TOML, as an editor writes one: read, planned and written. The crate
//! guarantees that the register that is read is that of the text's edits, in turn, or that the
//! first fault is returned, with its place, and then those of the other territories. A text that is
//! written is its definition, line by line, and says the edition and the territories of which it
//! was written. Each edit of a plan is lawful in its turn and changes what differs. After them each
//! target territory is as in the target, with its sources, and every other one as before.
//! `plan_page` prints them, each in words and dates.
#![tactic(auto)]

mod advice;
mod change_days;
mod changes;
mod date_table;
mod day_field;
mod edit_day;
mod edit_line;
mod exceptions;
mod fault;
mod field;
mod key;
mod line;
mod names;
mod nearest;
mod other_faults;
mod page;
mod pair;
mod parse;
mod part;
mod place;
mod plan_changes;
mod plan_fault;
mod planning;
mod register_text;
mod remark;
mod source_line;
mod source_words;
mod table_place;
mod territories;
mod territory;
mod territory_text;
mod toml_fault;
mod toml_string;
mod trial;
mod word_line;

pub use advice::{fault_help, key_fault_help};
pub use fault::{KeyFault, Reason, TextFault, TomlFault, ValueFault};
pub use key::{Key, Part};
pub use other_faults::further_faults;
pub use page::plan_page;
pub use parse::{RegisterText, parse_text};
pub use plan_fault::PlanFault;
pub use planning::plan;
pub use register_text::{write_territory, write_text};
pub use table_place::table_line;
