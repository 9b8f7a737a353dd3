//! A reader or a writer of std as a source or a sink.
ghost use Rattle.std.specs.Prelude.{◌≡◌, false};

use crate::sink::{Sink, WriteFailed};
use crate::source::{ReadFailed, Source};
use std::io::{Read, Write};

/// A reader as a source, or a writer as a sink. Each error of the reader or writer is a failed
/// call, an interrupted one too, since it isn't tried again. A write that takes none of some bytes
/// is a failed call.
#[derive(Debug, Drop)]
pub struct Plain<T> {
    inner: T,
    failed: bool,
}

impl<T> Plain<T> {
    ghost use Rattle.osn_lines.specs.Plain.{inner_of, failed_of};

    /// Returns one that hasn't failed.
    pub fn new(inner: T) -> Plain<T>
        ensures inner { inner_of result ≡ inner }
        ensures failed { failed_of result ≡ false }
    {
        Plain {
            inner,
            failed: false,
        }
    }

    /// Returns the reader or writer inside.
    pub fn into_inner(self) -> T
        ensures { result ≡ inner_of self }
    {
        self.inner
    }
}

impl<T: Read> Source for Plain<T> {
    ghost use Rattle.osn_lines.specs.Plain.{inner_of, failed_of};

    ghost remaining = { λ p. T.remaining (inner_of p) };

    ghost has_failed = { failed_of };

    fn read(&mut self, buffer: &mut [u8]) -> Result<usize, ReadFailed> {
        match self.inner.read(buffer) {
            Ok(n) => Ok(n),
            Err(_) => {
                self.failed = true;
                Err(ReadFailed)
            }
        }
    }

    fn failed(&self) -> bool {
        self.failed
    }
}

impl<T: Write> Sink for Plain<T> {
    ghost use Rattle.osn_lines.specs.Plain.{inner_of, failed_of};

    ghost contents = { λ p. T.contents (inner_of p) };

    ghost has_failed = { failed_of };

    fn write(&mut self, bytes: &[u8]) -> Result<usize, WriteFailed> {
        match self.inner.write(bytes) {
            Ok(n) if n > 0 || bytes.is_empty() => Ok(n),
            _ => {
                self.failed = true;
                Err(WriteFailed)
            }
        }
    }

    fn flush(&mut self) -> Result<(), WriteFailed> {
        match self.inner.flush() {
            Ok(()) => Ok(()),
            Err(_) => {
                self.failed = true;
                Err(WriteFailed)
            }
        }
    }

    fn failed(&self) -> bool {
        self.failed
    }
}
