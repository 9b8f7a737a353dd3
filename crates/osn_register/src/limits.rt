//! The most that a register holds.
ghost use Rattle.std.specs.Prelude.{◌≡◌};
ghost use Rattle.osn_register.specs.Limits.{standard_limits};

/// The most that a register and its journal hold, each any number.
#[derive(Clone, Copy, Debug, PartialEq, Eq, Hash)]
pub struct Limits {
    /// Territories.
    pub lands: u32,
    /// Changes of regime in a territory, which so has at most one period more.
    pub changes: u32,
    /// Listed exceptions of a territory.
    pub exceptions: u32,
    /// Edits, published and pending together.
    pub edits: u32,
    /// Editions.
    pub editions: u32,
}

impl Limits {
    /// Returns the limits of the service: 500 territories of 40 changes and 200 exceptions, 20,000
    /// edits and 5,000 editions.
    pub fn standard() -> Limits
        ensures { result ≡ standard_limits }
    {
        Limits {
            lands: 500,
            changes: 40,
            exceptions: 200,
            edits: 20_000,
            editions: 5_000,
        }
    }
}
