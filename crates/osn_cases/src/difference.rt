//! The first difference between what a command left and what is expected of it.
ghost use Rattle.std.specs.Prelude.{◌≡◌, IfNone, IfOk};

use crate::actual::Actual;
use crate::case_file::Step;
use crate::escapes::shown;
use crate::expected::Stream;
use std::alloc::{AllocError, Global};

/// The first difference: the number of its line in the file, and the texts there.
#[derive(Drop)]
pub(crate) struct Difference {
    pub line: usize,
    pub expected: String,
    pub actual: String,
}

/// Returns the line of some bytes at this place, as a case shows it, after what a case has before
/// it.
fn line_at(alloc: Global, bytes: &[u8], place: usize, mark: &str) -> Result<String, AllocError> {
    match bytes.split_inclusive(|byte| *byte == b'\n').nth(place) {
        Some(line) => format!(in alloc; "{mark}{}", shown(alloc, line)?),
        None => String::from_str(alloc, "(nothing)"),
    }
}

/// Returns the number of whole lines with which both texts begin.
fn same_lines(left: &[u8], right: &[u8]) -> usize {
    let same = left
        .iter()
        .zip(right.iter())
        .take_while(|(left, right)| left == right);
    same.filter(|(byte, _)| **byte == b'\n').count()
}

/// Returns the first line of a stream that differs, if one does.
fn stream_difference(
    alloc: Global,
    step: &Step,
    expected: &Stream,
    actual: &[u8],
    mark: &str,
) -> Result<Option<Difference>, AllocError>
    ensures { IfOk result (λ found. IfNone found (expected.now.bytes.items ≡ actual.now)) }
{
    if expected.bytes.as_slice() == actual {
        return Ok(None);
    }
    let place = same_lines(&expected.bytes, actual);
    Ok(Some(Difference {
        line: expected.lines.get(place).copied().unwrap_or(step.line),
        expected: line_at(alloc, &expected.bytes, place, mark)?,
        actual: line_at(alloc, actual, place, mark)?,
    }))
}

/// Returns the first difference of what a command left, if there is one: in its text on standard
/// error, its output or its status.
///
/// # Errors
///
/// Returns `AllocError` if memory runs out.
pub(crate) fn difference_of(
    alloc: Global,
    step: &Step,
    actual: &Actual,
) -> Result<Option<Difference>, AllocError>
    ensures errors { IfOk result (λ found. IfNone found
        (step.now.expected.errors.bytes.items ≡ actual.now.errors.items)) }
    ensures output { IfOk result (λ found. IfNone found
        (step.now.expected.output.bytes.items ≡ actual.now.output.items)) }
    ensures status { IfOk result (λ found. IfNone found
        (step.now.expected.status ≡ actual.now.status)) }
{
    let expected = &step.expected;
    let errors = stream_difference(alloc, step, &expected.errors, &actual.errors, "! ")?;
    if let Some(difference) = errors {
        return Ok(Some(difference));
    }
    let output = stream_difference(alloc, step, &expected.output, &actual.output, "")?;
    if let Some(difference) = output {
        return Ok(Some(difference));
    }
    if expected.status == actual.status {
        return Ok(None);
    }
    Ok(Some(Difference {
        line: step.line,
        expected: format!(in alloc; "[{}]", expected.status)?,
        actual: format!(in alloc; "[{}]", actual.status)?,
    }))
}
