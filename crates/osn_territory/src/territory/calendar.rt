//! A territory whose days are dated by the Julian calendar throughout.
ghost use Rattle.std.specs.Prelude.{◌≡◌, IfOk, map};
ghost use Rattle.osn_territory.specs.JulianCalendar.{in_julian_calendar, period_in_julian};

use crate::period::Period;
use crate::regime::Regime;
use crate::territory::Territory;
use osn_days::Calendar;
use std::alloc::{AllocError, Global};
use std::collections::BTreeMap;

/// Returns the same periods by the Julian calendar.
fn julian_periods(alloc: Global, periods: &[Period]) -> Result<Vec<Period>, AllocError>
    ensures { IfOk result (λ julian. julian.items ≡ map period_in_julian periods.now) }
{
    periods
        .iter()
        .map(|period| Period {
            regime: Regime {
                calendar: Calendar::Julian,
                ..period.regime
            },
            ..*period
        })
        .collect(alloc)
}

impl Territory {
    /// Returns the territory as if it had dated all its days by the Julian calendar: its years
    /// begin as they began. No Easter is listed.
    ///
    /// # Errors
    ///
    /// `AllocError` if there is no memory for as many periods.
    pub fn in_julian_calendar(&self) -> Result<Territory, AllocError>
        ensures { IfOk result (λ t. t ≡ in_julian_calendar self.now) }
    {
        Ok(Territory {
            alloc: self.alloc,
            periods: julian_periods(self.alloc, self.periods.as_slice())?,
            exceptions: BTreeMap::new(self.alloc),
        })
    }
}
