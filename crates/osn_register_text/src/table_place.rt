//! The line of a text on which the table of a territory begins.
ghost use Rattle.std.specs.Prelude.{◌≡◌, ◌+◌, ◌<◌, ◌^◌, IfOk, IfSome};
ghost use Rattle.std.specs.List.{position};
ghost use Rattle.std.specs.Str.Lines.{lines};
ghost use Rattle.osn_register_text.specs.TableLine as spec;

use std::alloc::{AllocError, Global};

/// Returns whether a line begins with the header of a table, or with the key of a table in one
/// line.
fn begins_table(header: &str, key: &str, line: &str) -> bool
    ensures { result ≡ spec.begins_table header.now key.now line.now }
{
    line.as_bytes().starts_with(header.as_bytes()) || line.as_bytes().starts_with(key.as_bytes())
}

/// Returns the place of the first such line among those of a text.
fn place_of_line(header: &str, key: &str, text: &str) -> Option<usize>
    ensures place { result ≡ position (spec.begins_table header.now key.now) (lines text.now) }
    ensures fits { IfSome result (λ place. place + 1 < 2 ^ 64) }
{
    text.lines()
        .position(|line| begins_table(header, key, line))
}

/// Returns the first such line of a text, counted from 1.
fn line_with(header: &str, key: &str, text: &str) -> Option<usize>
    ensures { result ≡ spec.line_with header.now key.now text.now }
{
    Some(place_of_line(header, key, text)? + 1)
}

/// Returns the line, counted from 1, on which the table of this code begins in a text, such as
/// `[GB]` or `GB = {`. Returns `None` if no line begins so, as with a code in quotes.
///
/// # Errors
///
/// Returns `AllocError` if memory runs out.
pub fn table_line(alloc: Global, code: &str, text: &str) -> Result<Option<usize>, AllocError>
    ensures { IfOk result (λ line. line ≡ spec.table_line code.now text.now) }
{
    let header = format!(in alloc; "[{code}]")?;
    let key = format!(in alloc; "{code} =")?;
    Ok(line_with(header.as_str(), key.as_str(), text))
}
