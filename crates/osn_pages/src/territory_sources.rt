//! The sources of the territory that a page is on.
ghost use Rattle.std.specs.Prelude.{◌≡◌, option_map};
ghost use Rattle.osn_register.specs.Answer.{easter_source, period_source};
ghost use Rattle.osn_register.specs.Plain.{sources_of};

use osn_days::{Day, Year};
use osn_register::{Register, Source};
use std::marker::Model;

/// The sources of a territory, if a register has them. In contracts they are those of the
/// register's definition.
#[derive(Drop)]
pub(crate) struct TerritorySources<'a> {
    register: &'a Register,
    code: &'a str,
}

impl<'a> Model for TerritorySources<'a> {
    ghost use Rattle.std.specs.Prelude.{Option};
    ghost use Rattle.osn_register.specs.Plain.{sources_of};
    ghost use Rattle.osn_register.specs.Sources.{SourcesModel};

    ghost Value = { Option SourcesModel };

    ghost view = { λ s. sources_of s.code.now s.register.now.territories };
}

impl<'a> TerritorySources<'a> {
    /// Returns the sources of the territory of a code.
    pub(crate) fn new(register: &'a Register, code: &'a str) -> TerritorySources<'a>
        ensures { result ≡ sources_of code.now register.now.territories }
    {
        TerritorySources { register, code }
    }

    /// Returns the source of the period that starts on a day, if one is given.
    pub(crate) fn of_period(&self, day: Day) -> Option<&Source>
        ensures { option_map (λ s. s.now) result ≡ period_source self.now day }
    {
        self.register.period_source(self.code, day)
    }

    /// Returns the source of the listed Easter of a year, if one is given.
    pub(crate) fn of_easter(&self, year: Year) -> Option<&Source>
        ensures { option_map (λ s. s.now) result ≡ easter_source self.now year }
    {
        self.register.easter_source(self.code, year)
    }
}
