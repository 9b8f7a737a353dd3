//! A file of cases, read into its steps.
use crate::case_file::{Case, CaseFile, Step};
use crate::escapes::push_line;
use crate::expected::Expected;
use crate::words::words_of;
use std::alloc::{AllocError, Global};
use thiserror::Error;

/// Why a file is not a file of cases, with the number of the line.
#[derive(Debug, Drop, Error)]
pub(crate) enum CaseFault {
    /// A line comes before any command.
    #[error("line {0}: the line belongs to no command, and a comment begins with '# '")]
    NoCommand(usize),
    /// The text that is given to the last command doesn't end.
    #[error("line {0}: the line {1} is missing")]
    NoEnd(usize, String),
    #[error("line {0}: there is no case, which begins with '== ' and its title")]
    NoCase(usize),
    #[error("no memory")]
    NoMemory(#[from] AllocError),
}

/// What was read of the lines so far, and where the next one belongs.
#[derive(Drop)]
struct Reading<'a> {
    alloc: Global,
    file: CaseFile<'a>,
    /// The line that ends the text that is given to the last command.
    end: Option<String>,
    line: usize,
}

impl<'a> Reading<'a> {
    fn begin_case(&mut self, title: &'a str) -> Result<(), AllocError> {
        self.file.cases.push(Case {
            line: self.line,
            title,
            steps: Vec::new(self.alloc),
        })?;
        Ok(())
    }

    /// Returns the steps of the last case, or those before the first one.
    fn steps(&mut self) -> &mut Vec<Step> {
        match self.file.cases.last_mut() {
            Some(case) => &mut case.steps,
            None => &mut self.file.head,
        }
    }

    fn add_step(&mut self, command: &str) -> Result<(), AllocError> {
        let mut line = Vec::new(self.alloc);
        push_line(&mut line, command)?;
        let text = String::from_utf8_lossy(self.alloc, &line)?;
        let words = words_of(self.alloc, text.as_str().trim_end())?;
        if let [.., mark, end] = words.as_slice()
            && mark.as_str() == "<<"
        {
            self.end = Some(end.clone()?);
        }
        let step = Step {
            line: self.line,
            words,
            given: Vec::new(self.alloc),
            expected: Expected::new(self.alloc),
        };
        self.steps().push(step)?;
        Ok(())
    }

    /// Takes a line of a text that is given to the last command, whose last line is `end`.
    fn take_given(&mut self, end: String, line: &str) -> Result<(), AllocError> {
        if line == end.as_str() {
            return Ok(());
        }
        self.end = Some(end);
        match self.steps().last_mut() {
            Some(step) => push_line(&mut step.given, line),
            None => Ok(()),
        }
    }

    /// Takes a line of input for the last command, or of what it is expected to leave.
    fn take_answer(&mut self, line: &str) -> Result<(), CaseFault> {
        let number = self.line;
        let Some(step) = self.steps().last_mut() else {
            return match line {
                "" => Ok(()),
                _ => Err(CaseFault::NoCommand(number)),
            };
        };
        if line == ">" {
            push_line(&mut step.given, "")?;
        } else if let Some(given) = line.strip_prefix("> ") {
            push_line(&mut step.given, given)?;
        } else {
            step.expected.add(number, line)?;
        }
        Ok(())
    }

    fn take(&mut self, line: &'a str) -> Result<(), CaseFault> {
        self.line = self.line.saturating_add(1);
        if let Some(end) = self.end.take() {
            self.take_given(end, line)?;
        } else if let Some(title) = line.strip_prefix("== ") {
            self.begin_case(title)?;
        } else if let Some(command) = line.strip_prefix("$ ") {
            self.add_step(command)?;
        } else if !line.starts_with("# ") {
            self.take_answer(line)?;
        }
        Ok(())
    }
}

/// Reads a file of cases.
///
/// # Errors
///
/// Returns why it is not such a file, or that memory ran out.
pub(crate) fn read_cases<'a>(alloc: Global, text: &'a str) -> Result<CaseFile<'a>, CaseFault> {
    let mut reading = Reading {
        alloc,
        file: CaseFile {
            head: Vec::new(alloc),
            cases: Vec::new(alloc),
        },
        end: None,
        line: 0,
    };
    for line in text.lines() {
        reading.take(line)?;
    }
    let Reading {
        file,
        end,
        line,
        ..
    } = reading;
    match end {
        Some(end) => Err(CaseFault::NoEnd(line, end)),
        None if file.cases.is_empty() => Err(CaseFault::NoCase(line)),
        None => Ok(file),
    }
}
