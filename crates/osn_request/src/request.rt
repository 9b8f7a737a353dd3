//! Reads one line into a request, or returns its first fault.
ghost use Rattle.std.specs.Prelude.{◌≡◌, ◌<◌, ℕ, List, length, MatchResult, IfErr, IfOk, Ok, Err};
ghost use Rattle.std.specs.Prelude.{Some};
ghost use Rattle.std.specs.Str.{IsUtf8};
ghost use Rattle.serde_json.specs.Read.{read};
ghost use Rattle.serde_json.specs.View.{view};
ghost use Rattle.osn_request.specs.Version.{newest_version};
ghost use Rattle.osn_lines.specs.Lines.{IsLine};
ghost use Rattle.osn_request.specs.LineObject.{line_data};
ghost use Rattle.osn_request.specs.Request as spec;
ghost use Rattle.osn_request.specs.declared.request.RequestError.TheVariants.{NoMemory};

mod edit;
mod field;
mod flat;
mod json_object;
mod line_object;
mod line_query;
mod line_request;
mod op;
mod query;
mod unknown;

use crate::wire_fault::WireFault;
pub use edit::edit_of;
pub use field::{text_at, whole_at};
pub use flat::FlatObject;
use flat::flat_object_of;
use json::Scratch;
pub use json_object::JsonObject;
pub use line_object::LineObject;
pub use line_query::LineQuery;
pub use line_request::{LineRequest, line_request_of};
pub use op::{EditOp, Op, QueryOp, op_of};
use osn_lines::{LONGEST_LINE, Line};
use osn_register::{Edit, Query};
pub use query::{line_query_of, query_of, reader_in};
use serde_json::Value;
use std::alloc::{AllocError, Global};
use std::str;
pub use unknown::unknown_member;

/// What a line asks for.
#[derive(Debug, Drop)]
pub enum Request {
    /// To stage an edit.
    Stage(Edit),
    /// To publish what is pending.
    Publish,
    /// To answer a reader's query. Readers are counted from 1.
    Ask { reader: u32, query: Query },
}

/// Why no request was read.
#[derive(Clone, Copy, Debug, Drop)]
pub enum RequestError {
    /// A growth of memory was refused.
    NoMemory,
    /// The line is not a request.
    Fault(WireFault),
}

impl From<AllocError> for RequestError {
    ghost use Rattle.std.specs.Prelude.{◌≡◌};
    ghost use Rattle.osn_request.specs.declared.request.RequestError.TheVariants.{NoMemory};

    ghost from_gives = { λ _ e. e ≡ NoMemory };

    fn from(_: AllocError) -> RequestError {
        RequestError::NoMemory
    }
}

impl From<WireFault> for RequestError {
    ghost use Rattle.std.specs.Prelude.{◌≡◌};
    ghost use Rattle.osn_request.specs.declared.request.RequestError.TheVariants.{Fault};

    ghost from_gives = { λ f e. e ≡ Fault f };

    fn from(fault: WireFault) -> RequestError {
        RequestError::Fault(fault)
    }
}

/// Returns the value of a text that is JSON.
fn value_of(alloc: Global, text: &str) -> Result<Value, RequestError>
    ensures text { MatchResult result
        (λ _. 0 < length text.now)
        (λ e. e ≡ NoMemory → 0 < length text.now) }
    ensures value { MatchResult result
        (λ v. read text.now ≡ Some (view v))
        (λ e. spec.Fails e (spec.no_value (read text.now))) }
{
    match Value::from_str(alloc, text) {
        Ok(value) => Ok(value),
        Err(error) if error.is_memory() => Err(RequestError::NoMemory),
        Err(_) => Err(RequestError::Fault(WireFault::NotJson)),
    }
}

/// Returns the value of a text that is an object.
fn tree_of(alloc: Global, text: &str) -> Result<Value, RequestError>
    ensures object { MatchResult result
        (λ v. spec.object_in (read text.now) ≡ Ok (view v))
        (λ e. spec.Fails e (spec.object_in (read text.now))) }
    ensures text { MatchResult result
        (λ _. 0 < length text.now)
        (λ e. e ≡ NoMemory → 0 < length text.now) }
{
    let value = value_of(alloc, text)?;
    if !value.is_object() {
        return Err(RequestError::Fault(WireFault::NotObject));
    }
    Ok(value)
}

/// Returns the object of a text. The scratch serves one text after another, and grows to the length
/// of the longest one. The object may borrow from it.
///
/// # Errors
/// Returns `NotJson`, `NotObject` or `NoMemory`. An empty text takes no memory.
pub fn object_in<'a>(
    alloc: Global,
    scratch: &'a mut Scratch,
    text: &'a str,
) -> Result<LineObject<'a>, RequestError>
    ensures object { MatchResult result
        (λ o. spec.object_in (read text.now) ≡ Ok (line_data o))
        (λ e. spec.Fails e (spec.object_in (read text.now))) }
    ensures text { MatchResult result
        (λ _. 0 < length text.now)
        (λ e. e ≡ NoMemory → 0 < length text.now) }
{
    match flat_object_of(text, scratch)? {
        Some(object) => Ok(LineObject::Flat(object)),
        None => Ok(LineObject::Tree(tree_of(alloc, text)?)),
    }
}

/// Returns the text of a line that is not too long.
fn text_of_whole(line: &[u8]) -> Result<&str, WireFault>
    ensures object { MatchResult result
        (λ text. spec.object_in (spec.value_of line.now) ≡ spec.object_in (read text.now))
        (λ f. spec.object_in (spec.value_of line.now) ≡ Err f) }
    ensures text { IfOk result (λ text. (text.now ≡ line.now) × IsUtf8 line.now) }
{
    match str::from_utf8(line) {
        Ok(text) => Ok(text),
        Err(_) => Err(WireFault::NotJson),
    }
}

/// Returns the text of a line, whose object is that of the line.
///
/// # Errors
/// Returns `LineTooLong`, or `NotJson` for a line that is not UTF-8.
pub fn text_of<'a>(line: Line<'a>) -> Result<&'a str, WireFault>
    ensures object { (whole : List ℕ) → IsLine line.entry whole → MatchResult result
        (λ text. spec.object_of whole ≡ spec.object_in (read text.now))
        (λ f. spec.object_of whole ≡ Err f) }
    ensures readable { (whole : List ℕ) → IsLine line.entry whole →
        IfOk result (λ text. 0 < length text.now → spec.IsReadable whole) }
    ensures text { (whole : List ℕ) → IsLine line.entry whole →
        IfOk result (λ text. text.now ≡ whole) }
{
    match line {
        Line::Whole(bytes) => text_of_whole(bytes),
        Line::TooLong => Err(WireFault::LineTooLong),
    }
}

/// Returns the object of a line. The scratch serves one line after another, and grows to the length
/// of the longest one. The object may borrow from it.
///
/// # Errors
/// Returns the first fault of the line, or `NoMemory`. Only a line that is a text, not empty and
/// not too long takes memory.
pub fn object_of<'a>(
    alloc: Global,
    scratch: &'a mut Scratch,
    line: Line<'a>,
) -> Result<LineObject<'a>, RequestError>
    ensures object { (whole : List ℕ) → IsLine line.entry whole → MatchResult result
        (λ o. spec.object_of whole ≡ Ok (line_data o))
        (λ e. spec.Fails e (spec.object_of whole)) }
    ensures memory { (whole : List ℕ) → IsLine line.entry whole → MatchResult result
        (λ _. spec.IsReadable whole)
        (λ e. e ≡ NoMemory → spec.IsReadable whole) }
{
    let text = text_of(line)?;
    object_in(alloc, scratch, text)
}

/// Returns the object of a line as a value, as `object_of` does, without a scratch.
///
/// # Errors
/// Returns the first fault of the line, or `NoMemory`. Only a line that is a text, not empty and
/// not too long takes memory.
pub fn value_of_line(alloc: Global, line: Line<'_>) -> Result<Value, RequestError>
    ensures object { (whole : List ℕ) → IsLine line.entry whole → MatchResult result
        (λ v. spec.object_of whole ≡ Ok (view v))
        (λ e. spec.Fails e (spec.object_of whole)) }
    ensures memory { (whole : List ℕ) → IsLine line.entry whole → MatchResult result
        (λ _. spec.IsReadable whole)
        (λ e. e ≡ NoMemory → spec.IsReadable whole) }
{
    let text = text_of(line)?;
    tree_of(alloc, text)
}

/// Returns the request of a line, with this many readers. The scratch serves one line after
/// another, as for `object_of`.
///
/// # Errors
/// Returns the first fault of the line, or `NoMemory`. Only a line that is a text, not empty and
/// not too long takes memory.
pub fn request_of_line(
    alloc: Global,
    scratch: &mut Scratch,
    readers: u32,
    line: Line<'_>,
) -> Result<Request, RequestError>
    ensures request { (whole : List ℕ) → IsLine line.entry whole →
        spec.Gives result (spec.request newest_version readers whole) }
    ensures memory { (whole : List ℕ) → IsLine line.entry whole →
        IfErr result (λ e. e ≡ NoMemory → spec.IsReadable whole) }
{
    let object = object_of(alloc, scratch, line)?;
    Ok(line_request_of(alloc, readers, &object)?.to_request(alloc)?)
}

/// Returns the request of a line of these bytes, as `request_of_line`, with a scratch of its own.
///
/// # Errors
/// Returns the first fault of the line, or `NoMemory`. Only a line that is a text, not empty and
/// not too long takes memory.
pub fn read_request(alloc: Global, readers: u32, line: &[u8]) -> Result<Request, RequestError>
    ensures request { spec.Gives result (spec.request newest_version readers line.now) }
    ensures memory { IfErr result (λ e. e ≡ NoMemory → spec.IsReadable line.now) }
{
    let mut scratch = Scratch::new(alloc);
    if line.len() > LONGEST_LINE {
        return request_of_line(alloc, &mut scratch, readers, Line::TooLong);
    }
    request_of_line(alloc, &mut scratch, readers, Line::Whole(line))
}
