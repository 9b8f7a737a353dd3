//! A text that an edit, a query or an answer owns.
ghost use Rattle.std.specs.Prelude.{◌≡◌, string_bytes, IfOk, IsUtf8};

use std::alloc::{AllocError, Global};
use std::marker::Model;

/// A text of an edit, a query or an answer. Contracts see its bytes of UTF-8.
#[derive(Debug, Drop)]
pub struct Text {
    text: String,
}

impl Model for Text {
    ghost use Rattle.std.specs.Prelude.{List, ℕ, string_bytes, IsUtf8};

    ghost Value = { List ℕ };

    ghost view = { λ t. string_bytes t.text };

    ghost invariant = { λ t. IsUtf8 (string_bytes t.text) };
}

impl Text {
    /// Returns the text that was moved in.
    pub fn new(text: String) -> Text
        ensures { result ≡ string_bytes text }
    {
        Text { text }
    }

    /// Returns a text of the same bytes.
    ///
    /// # Errors
    ///
    /// If memory runs out.
    pub fn from_str(alloc: Global, text: &str) -> Result<Text, AllocError>
        ensures { IfOk result (λ t. t ≡ text.now) }
    {
        Ok(Text {
            text: String::from_str(alloc, text)?,
        })
    }

    /// Returns the allocator of its memory.
    pub(crate) fn allocator(&self) -> Global {
        *self.text.allocator()
    }

    /// Returns the text, to read.
    pub fn as_str(&self) -> &str
        ensures value { result.now ≡ self.now }
        ensures utf8 { IsUtf8 self.now }
    {
        self.text.as_str()
    }

    /// Returns the text, moved out.
    pub fn into_string(self) -> String
        ensures { string_bytes result ≡ self }
    {
        self.text
    }

    /// Returns a text equal to this one.
    ///
    /// # Errors
    ///
    /// If memory runs out.
    pub fn copy(&self) -> Result<Text, AllocError>
        ensures { IfOk result (λ t. t ≡ self.now) }
    {
        Ok(Text {
            text: self.text.clone()?,
        })
    }
}
