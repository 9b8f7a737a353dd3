//! Cuts the bytes that were read into lines, and gives each line to the taker.
ghost use Rattle.std.specs.Prelude.{◌≡◌, ◌+◌, ◌^◌, ◌<◌, ◌≤◌, ℕ, List, [], ◌∷◌, ◌++◌, ⊤, Some};
ghost use Rattle.std.specs.Prelude.{length, OnOk, IfErr};
ghost use Rattle.osn_lines.specs.Faults.{MatchFault};
ghost use Rattle.osn_lines.specs.Inside.{Holds, IsUnended, IsTaken, IsStopped};
ghost use Rattle.osn_lines.specs.Takers.{Takes, Stops};

use crate::fault::TakeFault;
use crate::line::{LONGEST_LINE, Line};
use crate::taker::LineTaker;
use crate::unended_line::UnendedLine;
use memchr::memchr;

/// Gives the taker a line of which `partial_line` is the beginning and `end` the end.
pub(crate) fn take_line<T: LineTaker>(
    taker: &mut T,
    partial_line: &mut UnendedLine,
    end: &[u8],
) -> Result<(), TakeFault<T::Stop>>
    requires { length end.now ≤ LONGEST_LINE }
    ensures takes { OnOk result ((part : List ℕ) → Holds partial_line.old part →
        Takes T.after taker.old taker.new ((part ++ end.now) ∷ [])) }
    ensures empty { OnOk result (Holds partial_line.new []) }
    ensures fault { IfErr result (λ fault. MatchFault fault
        (taker.new ≡ taker.old)
        ⊥
        (λ why. (part : List ℕ) → Holds partial_line.old part →
        Stops T.after T.stopped taker.old taker.new (Some (part ++ end.now)) why)) }
{
    if partial_line.is_empty() {
        return match taker.take(Line::Whole(end)) {
            Ok(()) => Ok(()),
            Err(why) => Err(TakeFault::Stopped(why)),
        };
    }
    let Ok(()) = partial_line.add(end) else {
        return Err(TakeFault::NoMemory);
    };
    match taker.take(partial_line.as_line()) {
        Ok(()) => {
            partial_line.clear();
            Ok(())
        }
        Err(why) => Err(TakeFault::Stopped(why)),
    }
}

/// Gives the taker the lines that end in this piece, and keeps the beginning of the next line.
/// Counts each line that is taken.
pub(crate) fn take_piece<T: LineTaker>(
    taker: &mut T,
    partial_line: &mut UnendedLine,
    piece: &[u8],
    lines: &mut u64,
) -> Result<(), TakeFault<T::Stop>>
    requires piece { length piece.now ≤ LONGEST_LINE }
    requires count { lines.old + length piece.now < 2 ^ 64 }
    ensures takes { OnOk result ((part : List ℕ) → IsUnended partial_line.old part →
        IsTaken T.after taker.old taker.new (part ++ piece.now) lines.old lines.new
        (IsUnended partial_line.new)) }
    ensures count { lines.new ≤ lines.old + length piece.now }
    ensures fault { IfErr result (λ fault. MatchFault fault
        ((part : List ℕ) → IsUnended partial_line.old part →
        IsTaken T.after taker.old taker.new (part ++ piece.now) lines.old lines.new (λ _. ⊤))
        ⊥
        (λ why. (part : List ℕ) → IsUnended partial_line.old part →
        IsStopped T.after T.stopped taker.old taker.new (part ++ piece.now) lines.old lines.new
        why)) }
{
    let mut from = 0;
    while let Some(index) = memchr(b'\n', &piece[from..]) {
        let end = from + index;
        take_line(taker, partial_line, &piece[from..end])?;
        *lines += 1;
        from = end + 1;
    }
    match partial_line.add(&piece[from..]) {
        Ok(()) => Ok(()),
        Err(_) => Err(TakeFault::NoMemory),
    }
}
