//! A terminal on which the first line of a page is its title.
ghost use Rattle.std.specs.Prelude.{◌≡◌, ◌≤◌, ◌<◌, IfOk, if◌then◌else◌, length, true};
ghost use Rattle.std.specs.Io.{WritesAtMost};
ghost use Rattle.std.specs.Result.{is_ok};

use osn_lines::{Sink, WriteFailed};

const BOLD: &[u8] = b"\x1b[1m";

const REGULAR: &[u8] = b"\x1b[0m";

/// What is written next.
#[derive(Clone, Copy, Debug, PartialEq, Eq)]
enum Part {
    /// The beginning of the title.
    Start,
    /// The rest of the title.
    Title,
    /// The lines after it.
    Rest,
}

/// A sink that shows the first line in bold letters, if it is the title of a page. Its contents are
/// those of the sink inside if there is no title, or once it was written. Before, they are unknown.
#[derive(Drop)]
pub(crate) struct Titled<S> {
    inner: S,
    part: Part,
}

impl<S> Titled<S> {
    ghost use Rattle.std.specs.Prelude.{not};
    ghost use Rattle.oldstyle.specs.Title.{inner_of, is_plain};

    /// Returns a sink to which a page is written, that has a title or not.
    pub(crate) fn new(inner: S, has_title: bool) -> Titled<S>
        ensures inner { inner_of result ≡ inner }
        ensures plain { is_plain result ≡ not has_title }
    {
        let part = if has_title { Part::Start } else { Part::Rest };
        Titled { inner, part }
    }

    /// Returns the sink inside.
    pub(crate) fn inner(&self) -> &S
        ensures { result.now ≡ inner_of self.now }
    {
        &self.inner
    }
}

/// Returns how many of these bytes are before a line feed that is not the first of them.
fn title_length(bytes: &[u8]) -> usize
    ensures bound { result ≤ length bytes.now }
    ensures some { 0 < length bytes.now → 0 < result }
{
    match bytes.iter().position(|byte| *byte == b'\n') {
        Some(0) | None => bytes.len(),
        Some(count) => count,
    }
}

impl<S: Sink> Titled<S> {
    ghost use Rattle.oldstyle.specs.Title.{inner_of};

    /// Changes the letters of what is written next.
    fn change_to(&mut self, part: Part, letters: &[u8]) -> Result<(), WriteFailed>
        ensures { S.has_failed (inner_of self.new)
            ≡ (if is_ok result then S.has_failed (inner_of self.old) else true) }
    {
        self.inner.write(letters)?;
        self.part = part;
        Ok(())
    }

    /// Begins the title, if nothing was written before.
    fn begin_title(&mut self) -> Result<(), WriteFailed>
        ensures { S.has_failed (inner_of self.new)
            ≡ (if is_ok result then S.has_failed (inner_of self.old) else true) }
    {
        match self.part {
            Part::Start => self.change_to(Part::Title, BOLD),
            _ => Ok(()),
        }
    }

    /// Ends the title, if the next byte is the end of its line.
    fn end_title(&mut self, bytes: &[u8]) -> Result<(), WriteFailed>
        ensures { S.has_failed (inner_of self.new)
            ≡ (if is_ok result then S.has_failed (inner_of self.old) else true) }
    {
        if self.part == Part::Title && bytes.first() == Some(&b'\n') {
            return self.change_to(Part::Rest, REGULAR);
        }
        Ok(())
    }

    /// Writes once, as long as the title may not have ended.
    fn write_title(&mut self, bytes: &[u8]) -> Result<usize, WriteFailed>
        ensures bound { WritesAtMost result bytes.now }
        ensures some { IfOk result (λ n. 0 < length bytes.now → 0 < n) }
        ensures failed { S.has_failed (inner_of self.new)
            ≡ (if is_ok result then S.has_failed (inner_of self.old) else true) }
    {
        self.begin_title()?;
        self.end_title(bytes)?;
        match self.part {
            Part::Title => self.inner.write(&bytes[..title_length(bytes)]),
            _ => self.inner.write(bytes),
        }
    }
}

impl<S: Sink> Sink for Titled<S> {
    ghost use Rattle.std.specs.Prelude.{None};
    ghost use Rattle.oldstyle.specs.Title.{inner_of, is_plain};

    ghost contents = { λ p. if is_plain p then S.contents (inner_of p) else None };

    ghost has_failed = { λ p. S.has_failed (inner_of p) };

    ghost holds_back = { λ p. S.holds_back (inner_of p) };

    fn write(&mut self, bytes: &[u8]) -> Result<usize, WriteFailed> {
        match self.part {
            Part::Rest => self.inner.write(bytes),
            _ => self.write_title(bytes),
        }
    }

    fn flush(&mut self) -> Result<(), WriteFailed> {
        self.inner.flush()
    }

    fn failed(&self) -> bool {
        self.inner.failed()
    }
}
