//! Epacts, and how they are written.
ghost use Rattle.std.specs.Prelude.{◌≡◌, IfOk, string_bytes};
ghost use Rattle.osn_computus.specs.FigureTexts as spec;

use std::alloc::{AllocError, Global};

/// An epact of the Gregorian reckoning, by the second canon of *Inter gravissimas*: the age of the
/// moon on 1 January, in days.
#[derive(Clone, Copy, Debug, PartialEq, Eq, Hash)]
pub struct Epact {
    /// From 0 to 29. The canons write a star for 0.
    pub number: u8,
    /// Whether it is the second of the two epacts of 25, which the canons write 25 with a prime.
    pub prime: bool,
}

/// Returns an epact of the Gregorian reckoning as the canons write it: `*`, `25'` or its number.
///
/// # Errors
///
/// If memory runs out, and in no other case.
#[tactic(auto, unfolding(crate::specs::FigureTexts::epact_text))]
pub fn epact_text(alloc: Global, epact: Epact) -> Result<String, AllocError>
    ensures { IfOk result (λ s. string_bytes s ≡ spec.epact_text epact) }
{
    if epact.number == 0 {
        String::from_str(alloc, "*")
    } else if epact.number == 25 && epact.prime {
        String::from_str(alloc, "25'")
    } else {
        format!(in alloc; "{}", epact.number)
    }
}
