//! How far a long run is, for people who wait at a terminal.

use osn_lines::{Progress, ReadFailed, Sink, Source, write_all};
use std::alloc::Global;

const MEBIBYTE: u64 = 1 << 20;

/// After how many mebibytes it is printed again.
const STEP: u64 = 64;

/// How much of an input was read, which is printed to a terminal if there is one. Nothing depends
/// on that output: if it can't be written, it is left out.
#[derive(Drop)]
pub struct ReadProgress<P> {
    alloc: Global,
    /// What is read, as the terminal shows it.
    what: &'static str,
    /// The bytes that were read.
    bytes_read: u64,
    terminal: Option<P>,
}

impl<P: Sink> ReadProgress<P> {
    /// Returns the progress of an input of which nothing was read.
    pub fn new(alloc: Global, what: &'static str, terminal: Option<P>) -> ReadProgress<P> {
        ReadProgress {
            alloc,
            what,
            bytes_read: 0,
            terminal,
        }
    }
}

impl<P: Sink> Progress for ReadProgress<P> {
    fn count(&mut self, bytes: usize) {
        let before = self.bytes_read / MEBIBYTE / STEP;
        self.bytes_read = self.bytes_read.saturating_add(bytes as u64);
        let mebibytes = self.bytes_read / MEBIBYTE;
        if mebibytes / STEP == before {
            return;
        }
        let what = self.what;
        let line = format!(in self.alloc; "oldstyle: {mebibytes} MiB of the {what} read\n");
        if let (Some(terminal), Ok(line)) = (&mut self.terminal, line) {
            let _ = write_all(terminal, line.as_bytes());
        }
    }
}

/// A source that prints how much of it was read.
#[derive(Drop)]
pub struct ProgressSource<S, P> {
    source: S,
    progress: ReadProgress<P>,
}

impl<S, P: Sink> ProgressSource<S, P> {
    ghost use Rattle.std.specs.Prelude.{◌≡◌};
    ghost use Rattle.osn_report.specs.ProgressSource.{source_of};

    /// Returns a source that prints this progress.
    pub fn new(source: S, progress: ReadProgress<P>) -> ProgressSource<S, P>
        ensures { source_of result ≡ source }
    {
        ProgressSource { source, progress }
    }
}

impl<S: Source, P: Sink> Source for ProgressSource<S, P> {
    ghost use Rattle.osn_report.specs.ProgressSource.{source_of};

    ghost remaining = { λ w. S.remaining (source_of w) };

    ghost has_failed = { λ w. S.has_failed (source_of w) };

    fn read(&mut self, buffer: &mut [u8]) -> Result<usize, ReadFailed> {
        let bytes = self.source.read(buffer)?;
        self.progress.count(bytes);
        Ok(bytes)
    }

    fn failed(&self) -> bool {
        self.source.failed()
    }
}
