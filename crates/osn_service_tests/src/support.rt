//! What the tests share: values compared, texts, and streams that fail.
pub mod compare;
pub mod failing;

use std::process::Abort;
use std::str;

/// Returns the text of bytes, which must be one.
pub fn text_of<'a>(rt: &impl Abort, bytes: &'a [u8]) -> &'a str {
    str::from_utf8(bytes).expect(rt, "it is UTF-8")
}
