//! The state of a file's last line: whether its line feed is there, or it was not finished.
ghost use Rattle.std.specs.Prelude.{◌≡◌, ◌≤◌, IfOk, length, nat_eq};
ghost use Rattle.std.specs.List.{starts_with};
ghost use Rattle.osn_request.specs.Version.{plain_version};
ghost use Rattle.osn_files.specs.JournalText.{line_text};
ghost use Rattle.osn_files.specs.LastLine as spec;
ghost use Rattle.osn_files.specs.Version.{head_data};

use crate::written::head_line;
use json::Scratch;
use osn_lines::{LONGEST_LINE, Line};
use osn_request::{RequestError, WireFault, object_of};
use std::alloc::{AllocError, Global};

/// The state of a file's last line.
#[derive(Clone, Copy, Debug, PartialEq, Eq)]
pub enum LastLine {
    /// Its line feed is there, or there is no line.
    Ended,
    /// Its line feed is missing, and it counts as a line.
    LacksFeed,
    /// It was not finished, and does not count as a line.
    Unfinished,
}

/// Returns whether a line is not JSON text.
fn is_no_json(alloc: Global, line: &[u8]) -> Result<bool, AllocError>
    requires { length line.now ≤ LONGEST_LINE }
    ensures { IfOk result (λ no. no ≡ spec.is_no_json line.now) }
{
    let mut scratch = Scratch::new(alloc);
    match object_of(alloc, &mut scratch, Line::Whole(line)) {
        Ok(_) => Ok(false),
        Err(RequestError::Fault(fault)) => Ok(fault == WireFault::NotJson),
        Err(RequestError::NoMemory) => Err(AllocError),
    }
}

/// Returns whether bytes are a prefix of the head of a new journal.
fn is_head_front(alloc: Global, bytes: &[u8]) -> Result<bool, AllocError>
    ensures { IfOk result (λ is.
        is ≡ starts_with nat_eq (line_text (head_data plain_version)) bytes.now) }
{
    let head = head_line(alloc)?;
    Ok(head.starts_with(bytes))
}

/// Returns whether bytes after this many lines are a line that was not finished.
fn is_unfinished(alloc: Global, lines: u64, bytes: &[u8]) -> Result<bool, AllocError>
    requires { length bytes.now ≤ LONGEST_LINE }
    ensures { IfOk result (λ is. is ≡ spec.is_unfinished lines bytes.now) }
{
    if lines == 0 && !is_head_front(alloc, bytes)? {
        return Ok(false);
    }
    is_no_json(alloc, bytes)
}

/// Returns the state of the last line, by the lines that a line feed ends and the bytes after them.
pub(crate) fn state_of(alloc: Global, lines: u64, line: &[u8]) -> Result<LastLine, AllocError>
    ensures { IfOk result (λ last. last ≡ spec.last_line lines line.now) }
{
    if line.is_empty() {
        return Ok(LastLine::Ended);
    }
    if line.len() > LONGEST_LINE {
        return Ok(LastLine::LacksFeed);
    }
    if is_unfinished(alloc, lines, line)? {
        return Ok(LastLine::Unfinished);
    }
    Ok(LastLine::LacksFeed)
}
