//! How a territory reckons its days.
ghost use Rattle.std.specs.Prelude.{◌≡◌};
ghost use Rattle.osn_territory.specs.Style as plain;

use crate::style::Style;
use osn_computus::Rule;
use osn_days::Calendar;

/// How a territory reckons: its calendar, the beginning of its year and its rule of Easter.
#[derive(Clone, Copy, Debug, PartialEq, Eq, Hash)]
pub struct Regime {
    pub calendar: Calendar,
    pub style: Style,
    pub rule: Rule,
}

impl Regime {
    /// Returns whether the regime has a year from Easter to Easter, and not the Julian calendar and
    /// the Julian rule that it requires. No territory takes such a regime.
    pub fn lacks_julian(self) -> bool
        ensures { result ≡ plain.lacks_julian self }
    {
        self.style.is_from_easter()
            && (self.calendar != Calendar::Julian || self.rule != Rule::Julian)
    }
}
