//! A file of cases.
use crate::expected::Expected;

/// A command, the text that is given to it, and what it is expected to leave.
#[derive(Drop)]
pub(crate) struct Step {
    /// The number of its line in the file, from 1 on.
    pub line: usize,
    pub words: Vec<String>,
    pub given: Vec<u8>,
    pub expected: Expected,
}

/// A case with its title and the number of its line.
#[derive(Drop)]
pub(crate) struct Case<'a> {
    pub line: usize,
    pub title: &'a str,
    pub steps: Vec<Step>,
}

/// What a file has: the steps that each of its cases begins with, and the cases.
#[derive(Drop)]
pub(crate) struct CaseFile<'a> {
    pub head: Vec<Step>,
    pub cases: Vec<Case<'a>>,
}
