//! What takes lines.
ghost use Rattle.std.specs.Prelude.{ℕ, List, [], ◌∷◌, Option, Some, None, OnOk, IfErr, ⊤};
ghost use Rattle.osn_lines.specs.Lines.{IsLine};
ghost use Rattle.osn_lines.specs.Takers.{Takes, Rests, Stops};

use crate::line::Line;

/// What takes one line after another, and may stop. It defines `after` and `stopped`: what it has
/// become by the lines that it took, and what a stop shows.
pub trait LineTaker {
    /// Why it stops.
    type Stop;

    // `after initial taken now`: from `initial` it became `now`, once it took these lines.
    ghost after: { Self → List (List ℕ) → Self → Type 0 };

    // `stopped initial taken at now why`: from `initial` it took these lines, and stopped at this
    // line, or between two lines if no line is given. It is `now`, and has this reason.
    ghost stopped: { Self → List (List ℕ) → Option (List ℕ) → Self → Self.Stop → Type 0 };

    // Whether it is ready for a wait.
    ghost is_ready: { Self → Type 0 } = { λ _. ⊤ };

    /// Takes a line.
    ///
    /// # Errors
    ///
    /// Returns why it stops here. No other line is given to it then.
    fn take(&mut self, line: Line<'_>) -> Result<(), Self::Stop>
        ensures takes { OnOk result ((whole : List ℕ) → IsLine line.entry whole →
            Takes after self.old self.new (whole ∷ [])) }
        ensures stop { IfErr result (λ why. (whole : List ℕ) → IsLine line.entry whole →
            Stops after stopped self.old self.new (Some whole) why) };

    /// Makes ready for a wait. It is called before each read, and more input may take long to come.
    ///
    /// # Errors
    ///
    /// Returns why it stops here.
    fn before_read(&mut self) -> Result<(), Self::Stop>
        ensures ready { OnOk result (Rests after self.old self.new) }
        ensures waits { OnOk result (is_ready self.new) }
        ensures stop { IfErr result (λ why. Stops after stopped self.old self.new None why) };
}
