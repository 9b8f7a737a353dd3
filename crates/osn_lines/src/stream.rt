//! Gives all lines of a source to a taker, each as soon as it is read.
ghost use Rattle.std.specs.Prelude.{◌≡◌, ◌+◌, ◌^◌, ◌<◌, ◌⊎◌, ℕ, List, Some, length};
ghost use Rattle.std.specs.Prelude.{IfOk, IfErr, OnOk, ⊤, [], ◌∷◌};
ghost use Rattle.std.specs.Io.KnownBytes.{IsAtEnd};
ghost use Rattle.osn_lines.specs.Faults.{MatchFault, IsReadFault};
ghost use Rattle.osn_lines.specs.Inside.{IsUnended};
ghost use Rattle.osn_lines.specs.Lines.{lines};
ghost use Rattle.osn_lines.specs.Takers.{Takes, Stops, TakesAll, TakesFirst, TakesEnded};
ghost use Rattle.osn_lines.specs.Takers.{HasKeptUp, StopsAfter};

use crate::fault::{EndedEarly, TakeFault};
use crate::pieces::{take_line, take_piece};
use crate::source::{Source, buffer_of};
use crate::taker::LineTaker;
use crate::unended_line::UnendedLine;
use std::alloc::Global;

/// Gives the taker the bytes after the last line feed as a line, if there are any, after this many
/// lines.
fn take_rest<T: LineTaker>(
    taker: &mut T,
    partial_line: &mut UnendedLine,
    count: u64,
) -> Result<u64, EndedEarly<TakeFault<T::Stop>>>
    requires { count + 1 < 2 ^ 64 }
    ensures takes { IfOk result (λ n. (part : List ℕ) → IsUnended partial_line.old part →
        Takes T.after taker.old taker.new (lines part) × (n ≡ count + length (lines part))) }
    ensures fault { IfErr result (λ end. (end.lines ≡ count) × MatchFault end.cause
        (taker.new ≡ taker.old)
        ⊥
        (λ why. (part : List ℕ) → IsUnended partial_line.old part →
        (lines part ≡ part ∷ [])
        × Stops T.after T.stopped taker.old taker.new (Some part) why)) }
{
    if partial_line.is_empty() {
        return Ok(count);
    }
    match take_line(taker, partial_line, &[]) {
        Ok(()) => Ok(count + 1),
        Err(cause) => Err(EndedEarly {
            lines: count,
            cause,
        }),
    }
}

/// Gives every line of the source to the taker, in order, up to the end of the input. Returns their
/// number.
///
/// Each line is given as soon as its line feed is read, and the bytes after the last line feed at
/// the end of the input. `before_read` is called before each read. Besides what the taker uses,
/// memory contains one read of at most 65,536 bytes, and at most 65,536 bytes of a line that hasn't
/// ended yet.
///
/// # Errors
///
/// Returns the number of lines that were taken, and the cause: `NoMemory` if memory ran out here,
/// `ReadFault` if the source failed or didn't end within 4,294,967,295 reads, and `Stopped` if the
/// taker stopped. No line is given after that, not even one that a failed read cut short.
pub fn take_lines<T: LineTaker, R: Source>(
    alloc: Global,
    taker: &mut T,
    source: &mut R,
) -> Result<u64, EndedEarly<TakeFault<T::Stop>>>
    ensures takes { IfOk result (TakesAll T.after taker.old taker.new (R.remaining source.old)) }
    ensures end { OnOk result (IsAtEnd (R.remaining source.new)) }
    ensures fault { IfErr result (λ end. MatchFault end.cause
        (TakesFirst T.after taker.old taker.new (R.remaining source.old) end.lines)
        (TakesEnded T.after taker.old taker.new (R.remaining source.old) (R.remaining source.new)
        end.lines)
        (StopsAfter T.after T.stopped taker.old taker.new (R.remaining source.old) end.lines)) }

    // Each line that ended before the last 65,536 bytes that were read was taken.
    ensures recent { IfErr result (λ end.
        HasKeptUp (R.remaining source.old) (R.remaining source.new) end.lines) }

    // Another line can be counted.
    ensures few { IfErr result (λ end. end.lines < 2 ^ 63) }

    // The taker was ready for the read that failed.
    ensures waits { IfErr result (λ end. MatchFault end.cause ⊤
        ((R.has_failed source.new ≡ R.has_failed source.old) ⊎ T.is_ready taker.new)
        (λ _. ⊤)) }

    // The source failed, or gave no end in 4,294,967,295 reads, if the fault is a read fault, and
    // otherwise it did not fail.
    ensures sound { OnOk result (R.has_failed source.new ≡ R.has_failed source.old) }
    ensures reason { IfErr result (λ end. MatchFault end.cause
        (R.has_failed source.new ≡ R.has_failed source.old)
        (IsReadFault (R.has_failed source.new) (R.remaining source.old))
        (λ _. R.has_failed source.new ≡ R.has_failed source.old)) }
{
    let Ok(mut buffer) = buffer_of(alloc, source.room()) else {
        return Err(EndedEarly {
            lines: 0,
            cause: TakeFault::NoMemory,
        });
    };
    let mut partial_line = UnendedLine::new(alloc);
    let mut lines = 0;
    for _call in 0..u32::MAX {
        if let Err(why) = taker.before_read() {
            return Err(EndedEarly {
                lines,
                cause: TakeFault::Stopped(why),
            });
        }
        let Ok(read) = source.read(&mut buffer) else {
            return Err(EndedEarly {
                lines,
                cause: TakeFault::ReadFault,
            });
        };
        if read == 0 {
            return take_rest(taker, &mut partial_line, lines);
        }
        if let Err(cause) = take_piece(taker, &mut partial_line, &buffer[..read], &mut lines) {
            return Err(EndedEarly { lines, cause });
        }
    }
    Err(EndedEarly {
        lines,
        cause: TakeFault::ReadFault,
    })
}
