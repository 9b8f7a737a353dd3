//! How a command of the program ends: its status, what it writes to standard error, and the text
//! that it prints. What the crate promises to those above: each fault has one status and one line,
//! by which it is reported. A refusal, whose line takes memory, may be reported as NoMemory.
#![tactic(auto)]

mod explanation;
mod failure;
mod fault;
mod fault_report;
mod hint;
mod misuse;
mod open_failure;
mod output;
mod printing;
mod progress;
mod status;

pub use explanation::report_at;
pub use failure::{Failure, failure_of_two};
pub use fault::CommandFault;
pub use fault_report::{refusal_number_line, report, report_line, report_no_memory, write_line};
pub use hint::limit_hint;
pub use misuse::{Misuse, misuse_line, report_misuse};
pub use open_failure::report_open_failure;
pub use output::{StandardOutput, WriteCause, end_output};
pub use printing::{print, print_or_report, print_text};
pub use progress::{ProgressSource, ReadProgress};
pub use status::Status;
