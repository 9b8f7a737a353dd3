//! How the texts of tests are written, for each crate of tests. Nothing here may end the process.
#![tactic(auto)]

mod broken_lines;

pub use broken_lines::joined;
