//! A source and a sink of the tests. Their bytes are not known beforehand, they give and take few
//! bytes in a call, and each call fails from a chosen one on.
ghost use Rattle.std.specs.Prelude.{None};

use osn_lines::{ReadFailed, Sink, Source, WriteFailed};
use std::alloc::Global;

/// The course of a stream: how many reads or writes succeed, and how many bytes each of them gives
/// or takes at most. Each call after them fails.
pub type Course = (usize, usize);

/// A course on which every call succeeds, with all bytes at once.
pub const SOUND: Course = (usize::MAX, usize::MAX);

/// Returns whether the next read or write succeeds, and counts it if so.
fn goes_on(course: &mut Course) -> bool {
    match course.0.checked_sub(1) {
        Some(sound) => {
            course.0 = sound;
            true
        }
        None => false,
    }
}

/// Gives bytes.
#[derive(Drop)]
pub struct FailingSource<'a> {
    left: &'a [u8],
    course: Course,
    failed: bool,
}

impl<'a> FailingSource<'a> {
    pub fn new(bytes: &'a [u8], course: Course) -> FailingSource<'a> {
        FailingSource {
            left: bytes,
            course,
            failed: false,
        }
    }
}

impl Source for FailingSource<'_> {
    ghost remaining = { λ _. None };

    ghost has_failed = { λ s. s.failed };

    fn read(&mut self, buffer: &mut [u8]) -> Result<usize, ReadFailed> {
        if !goes_on(&mut self.course) {
            self.failed = true;
            return Err(ReadFailed);
        }
        let count = self.course.1.min(self.left.len()).min(buffer.len());
        buffer[..count].copy_from_slice(&self.left[..count]);
        self.left = &self.left[count..];
        Ok(count)
    }

    fn failed(&self) -> bool {
        self.failed
    }
}

/// Takes bytes, and notes how many of them were passed on.
#[derive(Drop)]
pub struct FailingSink {
    pub bytes: Vec<u8>,
    pub passed: usize,
    pub writes: usize,
    course: Course,
    failed: bool,
}

impl FailingSink {
    pub fn new(alloc: Global, course: Course) -> FailingSink {
        FailingSink {
            bytes: Vec::new(alloc),
            passed: 0,
            writes: 0,
            course,
            failed: false,
        }
    }
}

impl Sink for FailingSink {
    ghost contents = { λ _. None };

    ghost has_failed = { λ s. s.failed };

    fn write(&mut self, bytes: &[u8]) -> Result<usize, WriteFailed> {
        self.writes = self.writes.saturating_add(1);
        let count = self.course.1.min(bytes.len());
        let takes_nothing = count == 0 && !bytes.is_empty();
        if takes_nothing
            || !goes_on(&mut self.course)
            || self.bytes.extend_from_slice(&bytes[..count]).is_err()
        {
            self.failed = true;
            return Err(WriteFailed);
        }
        Ok(count)
    }

    fn flush(&mut self) -> Result<(), WriteFailed> {
        if self.course.0 == 0 {
            self.failed = true;
            return Err(WriteFailed);
        }
        self.passed = self.bytes.len();
        Ok(())
    }

    fn failed(&self) -> bool {
        self.failed
    }
}
