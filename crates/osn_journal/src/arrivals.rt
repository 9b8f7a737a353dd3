//! What arrives: request lines, and what a file has gained.
ghost use Rattle.std.specs.Prelude.{◌≡◌, ◌<◌, ◌∷◌, [], ℕ, List, Option, None, take, length, IfOk};
ghost use Rattle.std.specs.Prelude.{OnErr};
ghost use Rattle.std.specs.Io.{ReadsAtMost};
ghost use Rattle.std.specs.Io.KnownBytes.{Appends, ReadConsumes};
ghost use Rattle.osn_folder.specs.FollowedFile.{IsOfWholeLines};
ghost use Rattle.osn_journal.specs.Arrivals.{Arrival, Arrive, Gained, arrival_of};

use osn_folder::{FollowFault, FollowedFile};
use osn_lines::{ReadFailed, Source};
use std::alloc::Global;

/// Request lines, and a file to which another run appends meanwhile. One value has both, so that it
/// can be known in which order they came.
pub trait Arrivals {
    // What has arrived so far, in order, if that is known.
    ghost arrived: { Self → Option (List Arrival) };

    // The bytes of request lines that reads will give from here on, if they are known.
    ghost remaining: { Self → Option (List ℕ) } = { λ _. None };

    // The lines of the file that looks have given so far, if they are known.
    ghost contents: { Self → Option (List ℕ) } = { λ _. None };

    /// Reads bytes of request lines once: `Ok(n)` for n bytes at the beginning of `buffer`, and
    /// `Ok(0)` for a buffer with room at the end of the input.
    fn read(&mut self, buffer: &mut [u8]) -> Result<usize, ReadFailed>
        ensures bound { ReadsAtMost result buffer.new }
        ensures ok { IfOk result (λ n. Arrive (arrived self.old) (arrived self.new)
            (arrival_of (take n buffer.new) ∷ [])) }
        ensures err { OnErr result (Arrive (arrived self.old) (arrived self.new) []) }
        ensures bytes { ReadConsumes (remaining self.old) (remaining self.new) result buffer.new }
        ensures unlooked { contents self.new ≡ contents self.old };

    /// Returns the lines that the file contains now after those of the looks before, in order.
    /// There are none if there has been no file yet. A last line without its line feed waits, and
    /// so may what is more than a look reads.
    ///
    /// # Errors
    ///
    /// Why that isn't known, or that the file is no longer the one that was read so far.
    fn look(&mut self, alloc: Global) -> Result<Vec<u8>, FollowFault>
        ensures lines { IfOk result (λ bytes. IsOfWholeLines bytes.items) }
        ensures few { IfOk result (λ bytes. length bytes.items < 4294967295) }
        ensures ok { IfOk result (λ bytes. Arrive (arrived self.old) (arrived self.new)
            (Gained bytes.items ∷ [])) }
        ensures err { OnErr result (Arrive (arrived self.old) (arrived self.new) []) }
        ensures gained { IfOk result
            (λ bytes. Appends (contents self.old) (contents self.new) bytes.items) }
        ensures ungained { OnErr result (contents self.new ≡ contents self.old) }
        ensures unread { remaining self.new ≡ remaining self.old };
}

/// A source of request lines, and a file of a folder. In which order they come is not known.
#[derive(Drop)]
pub struct Feed<'a, R, F> {
    requests: &'a mut R,
    file: F,
}

impl<'a, R: Source, F: FollowedFile> Feed<'a, R, F> {
    /// Returns the arrivals of this source and this file. Reads give what the source gives from
    /// here on, and the looks go on from the lines that were read of the file so far.
    pub fn new(requests: &'a mut R, file: F) -> Feed<'a, R, F>
        ensures remaining { ⟦<Feed<'a, R, F> as Arrivals>⟧.remaining result
            ≡ R.remaining requests.old }
        ensures contents { ⟦<Feed<'a, R, F> as Arrivals>⟧.contents result ≡ F.contents file }
    {
        Feed { requests, file }
    }
}

impl<'a, R: Source, F: FollowedFile> Arrivals for Feed<'a, R, F> {
    ghost use Rattle.std.specs.Prelude.{None};

    ghost arrived = { λ _. None };

    ghost remaining = { λ feed. R.remaining feed.requests.now };

    ghost contents = { λ feed. F.contents feed.file };

    fn read(&mut self, buffer: &mut [u8]) -> Result<usize, ReadFailed> {
        self.requests.read(buffer)
    }

    fn look(&mut self, alloc: Global) -> Result<Vec<u8>, FollowFault> {
        self.file.look(alloc)
    }
}
