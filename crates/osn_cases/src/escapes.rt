//! The bytes of a line of a case, and the line that shows some bytes.
use std::alloc::{AllocError, Global};

/// A line that ends in this has escapes.
const ESCAPED: &str = " (esc)";

/// A line that ends in this has no line feed.
const NO_FEED: &str = " (no-eol)";

/// The escapes of one letter, and their bytes.
const LETTERS: [(char, u8); 5] = [
    ('t', b'\t'),
    ('r', b'\r'),
    ('n', b'\n'),
    ('0', 0),
    ('e', 27),
];

/// Returns the byte of an escape whose backslash was taken off, and what follows it. An escape is
/// one of the letters, or `x` and two hexadecimal digits.
fn escaped(text: &str) -> Option<(u8, &str)> {
    for (letter, byte) in LETTERS {
        if let Some(rest) = text.strip_prefix(letter) {
            return Some((byte, rest));
        }
    }
    let digits = text.strip_prefix('x')?;
    let byte = u8::from_str_radix(digits.get(..2)?, 16).ok()?;
    Some((byte, digits.get(2..)?))
}

/// Adds the bytes of a text with escapes. What is not an escape is kept as it is.
fn push_escaped(bytes: &mut Vec<u8>, text: &str) -> Result<(), AllocError> {
    let mut is_plain = true;
    for part in text.split('\\') {
        if is_plain {
            bytes.extend_from_slice(part.as_bytes())?;
            is_plain = false;
        } else if let Some((byte, rest)) = escaped(part) {
            bytes.push(byte)?;
            bytes.extend_from_slice(rest.as_bytes())?;
        } else {
            bytes.push(b'\\')?;
            bytes.extend_from_slice(part.as_bytes())?;
            is_plain = part.is_empty();
        }
    }
    Ok(())
}

/// Adds the bytes of a line of a case, with a line feed unless it has none.
///
/// # Errors
///
/// Returns `AllocError` if memory runs out.
pub(crate) fn push_line(bytes: &mut Vec<u8>, line: &str) -> Result<(), AllocError> {
    let (text, feed) = match line.strip_suffix(NO_FEED) {
        Some(text) => (text, ""),
        None => (line, "\n"),
    };
    match text.strip_suffix(ESCAPED) {
        Some(text) => push_escaped(bytes, text)?,
        None => bytes.extend_from_slice(text.as_bytes())?,
    }
    bytes.extend_from_slice(feed.as_bytes())
}

/// Returns the line of a case that shows some bytes, which are those of one line.
///
/// # Errors
///
/// Returns `AllocError` if memory runs out.
pub(crate) fn shown(alloc: Global, bytes: &[u8]) -> Result<String, AllocError> {
    let (line, mark) = match bytes {
        [line @ .., b'\n'] => (line, ""),
        _ => (bytes, NO_FEED),
    };
    let mut text = String::from_utf8_lossy(alloc, line)?;
    if text
        .as_str()
        .chars()
        .any(|character| character.is_control())
    {
        text = escaped_text(alloc, text.as_str())?;
        text.push_str(ESCAPED)?;
    }
    text.push_str(mark)?;
    Ok(text)
}

/// Returns a text with its backslashes and its control characters as escapes.
fn escaped_text(alloc: Global, text: &str) -> Result<String, AllocError> {
    let mut escaped = String::new(alloc);
    for character in text.chars() {
        if character == '\\' {
            escaped.push_str("\\\\")?;
        } else if character.is_ascii_control() {
            write!(escaped, "\\x{:02x}", character as u32)?;
        } else {
            escaped.push(character)?;
        }
    }
    Ok(escaped)
}
