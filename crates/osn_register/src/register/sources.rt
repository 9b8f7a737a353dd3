//! The sources of what the register says of a territory.
ghost use Rattle.std.specs.Prelude.{◌≡◌, option_map};
ghost use Rattle.osn_register.specs.Answer as spec;
ghost use Rattle.osn_register.specs.Plain.{sources_of};

use crate::register::Register;
use crate::source::Source;
use crate::sources::source_of;
use osn_days::{Day, Year};

impl Register {
    /// Returns the source of the period of a territory that starts on a day, if one is given.
    pub fn period_source(&self, code: &str, day: Day) -> Option<&Source>
        ensures { option_map (λ s. s.now) result
            ≡ spec.period_source (sources_of code.now self.now.territories) day }
    {
        source_of(&self.sources(code)?.periods, day.number())
    }

    /// Returns the source of the Easter that a territory lists for a year, if one is given.
    pub fn easter_source(&self, code: &str, year: Year) -> Option<&Source>
        ensures { option_map (λ s. s.now) result
            ≡ spec.easter_source (sources_of code.now self.now.territories) year }
    {
        source_of(&self.sources(code)?.easters, year.number())
    }
}
