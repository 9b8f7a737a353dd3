//! The source of a territory's reckoning, as the editor cites it.
ghost use Rattle.std.specs.Prelude.{◌≡◌, true, IfOk, OnErr, is_some};
ghost use Rattle.osn_register.specs.Sources.{IsGiven, is_source};

use crate::code::are_name_bytes;
use crate::text::Text;
use std::alloc::{AllocError, Global};
use std::marker::Model;

/// The source of a territory's reckoning: a statute, a bull or a book, as the editor cites it. It
/// has 1 to 1,000 bytes of UTF-8, none a control byte.
#[derive(Debug, Drop)]
pub struct Source {
    text: Text,
}

impl Model for Source {
    ghost use Rattle.std.specs.Prelude.{◌≡◌, List, ℕ, true};
    ghost use Rattle.osn_register.specs.Sources.{is_source};

    ghost Value = { List ℕ };

    ghost view = { λ s. s.text };

    ghost invariant = { λ s. is_source s.text ≡ true };
}

impl Source {
    /// Returns whether a text may be a source.
    pub fn is_source(text: &str) -> bool
        ensures { result ≡ is_source text.now }
    {
        let bytes = text.as_bytes();
        if bytes.is_empty() || bytes.len() > 1000 {
            return false;
        }
        are_name_bytes(bytes)
    }

    /// Returns the source of this text.
    ///
    /// # Errors
    ///
    /// If memory runs out.
    pub fn from_str(alloc: Global, text: &str) -> Result<Source, AllocError>
        requires { is_source text.now ≡ true }
        ensures { IfOk result (λ s. s ≡ text.now) }
    {
        Ok(Source {
            text: Text::from_str(alloc, text)?,
        })
    }

    /// Returns the text, to read.
    pub fn as_str(&self) -> &str
        ensures value { result.now ≡ self.now }
        ensures allowed { is_source self.now ≡ true }
    {
        self.text.as_str()
    }

    /// Returns a source equal to this one.
    ///
    /// # Errors
    ///
    /// If memory runs out.
    pub fn copy(&self) -> Result<Source, AllocError>
        ensures value { IfOk result (λ s. s ≡ self.now) }
        ensures allowed { is_source self.now ≡ true }
    {
        Ok(Source {
            text: self.text.copy()?,
        })
    }

    /// Returns a copy of a source that may be missing.
    ///
    /// # Errors
    ///
    /// If memory runs out, and only if there is a source.
    pub fn copy_if_given(source: &Option<Source>) -> Result<Option<Source>, AllocError>
        ensures value { IfOk result (λ s. s ≡ source.now) }
        ensures allowed { IsGiven source.now }
        ensures memory { OnErr result (is_some source.now ≡ true) }
    {
        match source {
            Some(source) => Ok(Some(source.copy()?)),
            None => Ok(None),
        }
    }
}
