//! Texts whose lines are broken.
use std::alloc::{AllocError, Global};

/// Returns a text with its broken lines whole again: what begins with two spaces is the rest of the
/// line before.
///
/// # Errors
///
/// Returns `AllocError` if memory runs out.
pub fn joined(alloc: Global, text: &str) -> Result<String, AllocError> {
    text.replace(alloc, "\n  ", "")
}
