//! What a command is expected to leave: its output, its text on standard error and its status.
use crate::escapes::push_line;
use std::alloc::{AllocError, Global};

/// Bytes that are expected, and the numbers of the lines of the file that have them.
#[derive(Drop)]
pub(crate) struct Stream {
    pub bytes: Vec<u8>,
    pub lines: Vec<usize>,
}

impl Stream {
    fn new(alloc: Global) -> Stream {
        Stream {
            bytes: Vec::new(alloc),
            lines: Vec::new(alloc),
        }
    }

    fn add(&mut self, number: usize, line: &str) -> Result<(), AllocError> {
        push_line(&mut self.bytes, line)?;
        self.lines.push(number)?;
        Ok(())
    }
}

/// What a command is expected to leave.
#[derive(Drop)]
pub(crate) struct Expected {
    pub output: Stream,
    pub errors: Stream,
    pub status: u8,
    /// Empty lines that belong to the output only if more of it follows.
    blanks: usize,
}

/// Returns the status of a line such as `[2]`.
fn status_of(line: &str) -> Option<u8> {
    line.strip_prefix('[')?
        .strip_suffix(']')?
        .parse::<u8>()
        .ok()
}

impl Expected {
    /// Returns no output, and status 0.
    pub(crate) fn new(alloc: Global) -> Expected {
        Expected {
            output: Stream::new(alloc),
            errors: Stream::new(alloc),
            status: 0,
            blanks: 0,
        }
    }

    /// Adds the line of this number: a status, a line of standard error after `!`, or a line of
    /// output.
    ///
    /// # Errors
    ///
    /// Returns `AllocError` if memory runs out.
    pub(crate) fn add(&mut self, number: usize, line: &str) -> Result<(), AllocError> {
        if line.is_empty() {
            self.blanks = self.blanks.saturating_add(1);
            return Ok(());
        }
        let blanks = self.blanks;
        self.blanks = 0;
        if let Some(status) = status_of(line) {
            self.status = status;
            return Ok(());
        }
        if line == "!" {
            return self.errors.add(number, "");
        }
        if let Some(text) = line.strip_prefix("! ") {
            return self.errors.add(number, text);
        }
        for _blank in 0..blanks {
            self.output.add(number, "")?;
        }
        self.output.add(number, line)
    }
}
