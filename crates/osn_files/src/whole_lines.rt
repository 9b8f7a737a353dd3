//! The lines of a file that count.
ghost use Rattle.std.specs.Prelude.{◌≡◌, ◌+◌, ◌^◌, ◌<◌, IfOk};
ghost use Rattle.osn_files.specs.CountedPrefix as spec;

use crate::last_line::{LastLine, state_of};
use osn_lines::ended_length;
use std::alloc::{AllocError, Global};

/// How much of a file counts: the lines that a line feed ends, and a last one that lacks it, unless
/// that was not finished.
#[derive(Clone, Copy, Debug, PartialEq, Eq)]
pub struct CountedPrefix {
    /// How many bytes the lines that count have.
    pub bytes: u64,
    /// How many lines count.
    pub lines: u64,
    /// The state of the last line.
    pub last: LastLine,
}

/// Returns how many lines a line feed ends.
fn ended_count(bytes: &[u8]) -> u64
    ensures { result ≡ spec.ended_count bytes.now }
{
    bytes.iter().filter(|byte| **byte == b'\n').count() as u64
}

/// Returns how much of a file counts, by the state of its last line. The file has this many bytes,
/// and this many of them are bytes of ended lines.
fn part_by(last: LastLine, lines: u64, whole_length: usize, bytes: usize) -> CountedPrefix
    requires { lines + 1 < 2 ^ 64 }
    ensures bytes { result.bytes ≡ spec.by_last last whole_length bytes }
    ensures lines { result.lines ≡ spec.by_last last lines (lines + 1) }
    ensures last { result.last ≡ last }
{
    match last {
        LastLine::LacksFeed => CountedPrefix {
            bytes: bytes as u64,
            lines: lines + 1,
            last,
        },
        LastLine::Ended | LastLine::Unfinished => CountedPrefix {
            bytes: whole_length as u64,
            lines,
            last,
        },
    }
}

/// Returns how much counts of the bytes of a file.
///
/// # Errors
///
/// Returns `AllocError` if there is no memory for the value of the last line.
pub fn counted_prefix(alloc: Global, bytes: &[u8]) -> Result<CountedPrefix, AllocError>
    ensures ok { IfOk result (λ part. spec.IsCountedPrefix part bytes.now) }
    // Another line can be counted.
    ensures few { IfOk result (λ part. part.lines < 2 ^ 63) }
{
    let whole_length = ended_length(bytes);
    let lines = ended_count(bytes);
    let last = state_of(alloc, lines, &bytes[whole_length..])?;
    Ok(part_by(last, lines, whole_length, bytes.len()))
}
