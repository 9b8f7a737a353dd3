//! The feasts that are counted from Easter.
ghost use Rattle.std.specs.Prelude.{◌≡◌};
ghost use Rattle.osn_days.specs.Rules.{newest_rules};
ghost use Rattle.osn_written.specs.Feast as spec;

use osn_days::Day;

/// A feast that is counted from Easter.
#[derive(Clone, Copy, Debug, PartialEq, Eq)]
pub enum Feast {
    Septuagesima,
    AshWednesday,
    PalmSunday,
    MaundyThursday,
    GoodFriday,
    Easter,
    EasterMonday,
    EasterTuesday,
    Ascension,
    Pentecost,
    WhitMonday,
    WhitTuesday,
    Trinity,
    CorpusChristi,
}

impl Feast {
    /// Returns the English name.
    pub fn name(self) -> &'static str
        ensures { result.now ≡ spec.feast_name self }
    {
        match self {
            Feast::Septuagesima => "Septuagesima",
            Feast::AshWednesday => "Ash Wednesday",
            Feast::PalmSunday => "Palm Sunday",
            Feast::MaundyThursday => "Maundy Thursday",
            Feast::GoodFriday => "Good Friday",
            Feast::Easter => "Easter",
            Feast::EasterMonday => "Easter Monday",
            Feast::EasterTuesday => "Easter Tuesday",
            Feast::Ascension => "Ascension",
            Feast::Pentecost => "Pentecost",
            Feast::WhitMonday => "Whit Monday",
            Feast::WhitTuesday => "Whit Tuesday",
            Feast::Trinity => "Trinity",
            Feast::CorpusChristi => "Corpus Christi",
        }
    }

    /// Returns how many days it is after Easter, a number below 0 if it is before.
    fn days_after_easter(self) -> i8
        ensures { result ≡ spec.days_after_easter self }
    {
        match self {
            Feast::Septuagesima => -63,
            Feast::AshWednesday => -46,
            Feast::PalmSunday => -7,
            Feast::MaundyThursday => -3,
            Feast::GoodFriday => -2,
            Feast::Easter => 0,
            Feast::EasterMonday => 1,
            Feast::EasterTuesday => 2,
            Feast::Ascension => 39,
            Feast::Pentecost => 49,
            Feast::WhitMonday => 50,
            Feast::WhitTuesday => 51,
            Feast::Trinity => 56,
            Feast::CorpusChristi => 60,
        }
    }

    /// Returns its day in a year with that Easter, if the line has it.
    pub fn day(self, easter: Day) -> Option<Day>
        ensures { result ≡ spec.feast_day newest_rules easter self }
    {
        Day::new(i64::from(easter.number()) + i64::from(self.days_after_easter()))
    }
}
