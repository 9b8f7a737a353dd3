//! What bytes are written to.
ghost use Rattle.std.specs.Prelude.{◌≡◌, ◌<◌, ◌≤◌, ℕ, List, Option, Bool, true, false, is_ok};
ghost use Rattle.std.specs.Prelude.{length, take, IfOk, IfErr, OnOk, OnErr, if◌then◌else◌};
ghost use Rattle.std.specs.Io.{WritesAtMost};
ghost use Rattle.std.specs.Io.KnownBytes.{Appends, Keeps, WriteAppends};
ghost use Rattle.osn_lines.specs.Faults.{WriteFails};

/// A write that failed. Its sink is failed from then on.
#[derive(Clone, Copy, Debug, PartialEq, Eq)]
pub struct WriteFailed;

/// What bytes are written to, one call at a time, and what notes that a call failed.
pub trait Sink {
    // The bytes that have been written, if they are known.
    ghost contents: { Self → Option (List ℕ) };

    // Whether a write has ever failed.
    ghost has_failed: { Self → Bool };

    // Whether some of the bytes that have been written are known to be held back.
    ghost holds_back: { Self → Bool } = { λ _. false };

    /// Writes once. Returns `Ok(n)` if the first n bytes were taken, at least one unless there are
    /// no bytes. A write that takes none of them fails. Only a write that fails marks the sink as
    /// failed, and it stays so.
    fn write(&mut self, bytes: &[u8]) -> Result<usize, WriteFailed>
        ensures bound { WritesAtMost result bytes.now }
        ensures some { IfOk result (λ n. 0 < length bytes.now → 0 < n) }
        ensures bytes { WriteAppends (contents self.old) (contents self.new) result bytes.now }
        ensures failed { has_failed self.new
            ≡ (if is_ok result then has_failed self.old else true) };

    /// Passes on all bytes that the sink still holds back. A call that fails marks the sink as
    /// failed, and it stays so.
    fn flush(&mut self) -> Result<(), WriteFailed>
        ensures bytes { Keeps (contents self.old) (contents self.new) }
        ensures passed { OnOk result (holds_back self.new ≡ false) }
        ensures failed { has_failed self.new
            ≡ (if is_ok result then has_failed self.old else true) };

    /// Returns whether a write has ever failed.
    fn failed(&self) -> bool
        ensures { result ≡ has_failed self.now };
}

/// Writes all the bytes, and passes them on.
///
/// # Errors
///
/// Returns `Err(n)` if the sink took the first n of them and then failed, or if 4,294,967,295 calls
/// of it did not suffice.
pub fn write_all<W: Sink>(sink: &mut W, bytes: &[u8]) -> Result<(), usize>
    ensures ok { OnOk result (Appends (W.contents sink.old) (W.contents sink.new) bytes.now) }
    ensures passed { OnOk result (W.holds_back sink.new ≡ false) }
    ensures err { IfErr result (λ n. (n ≤ length bytes.now)
        × Appends (W.contents sink.old) (W.contents sink.new) (take n bytes.now)) }
    ensures sound { OnOk result (W.has_failed sink.new ≡ W.has_failed sink.old) }
    ensures reason { OnErr result
        (WriteFails (W.has_failed sink.old) (W.has_failed sink.new) bytes.now) }
{
    let mut count = 0;
    for _call in 0..u32::MAX {
        if count == bytes.len() {
            return match sink.flush() {
                Ok(()) => Ok(()),
                Err(_) => Err(count),
            };
        }
        match sink.write(&bytes[count..]) {
            Ok(n) => count += n,
            Err(_) => return Err(count),
        }
    }
    Err(count)
}
