//! What an edit names: a territory by its code, and a day by its number.
ghost use Rattle.std.specs.Prelude.{◌≡◌, option_map};
ghost use Rattle.osn_days.specs.Rules.{newest_rules};
ghost use Rattle.osn_register.specs.Plain.{territory_of};
ghost use Rattle.osn_register_text.specs.EditDay as spec;

use osn_days::Day;
use osn_pages::NumberedDay;
use osn_register::Register;
use osn_territory::{DatedDay, Regime, Territory};
use std::fmt;

/// Returns the territory of a code, if a territory has it.
pub(crate) fn territory_of<'a>(register: &'a Register, code: &str) -> Option<&'a Territory>
    ensures { option_map (λ t. t.now) result ≡ territory_of code.now register.now.territories }
{
    match register.find_territory(code) {
        Some((_, territory)) => Some(territory),
        None => None,
    }
}

/// Returns the day of a number, if it is on the line.
pub(crate) fn day_numbered(number: i64) -> Option<Day>
    ensures { result ≡ spec.day_numbered newest_rules number }
{
    Day::new(number)
}

/// Returns the day before a day, if it isn't the first day.
pub(crate) fn day_before(day: Day) -> Option<Day>
    ensures { result ≡ spec.day_before day }
{
    day.plus(-1)
}

/// Returns the day of a number as a territory dates it, if both are known.
pub(crate) fn dated_in(territory: Option<&Territory>, number: i64) -> Option<DatedDay>
    ensures { result
        ≡ spec.dated_in newest_rules (option_map (λ t. t.now) territory.entry) number }
{
    match (territory, day_numbered(number)) {
        (Some(territory), Some(day)) => Some(territory.dated(day)),
        _ => None,
    }
}

/// Returns the regime of a territory on the day before that of a number, if both are known.
pub(crate) fn regime_before(territory: Option<&Territory>, number: i64) -> Option<Regime>
    ensures { result
        ≡ spec.regime_before newest_rules (option_map (λ t. t.now) territory.entry) number }
{
    match (territory, day_numbered(number).and_then(day_before)) {
        (Some(territory), Some(day)) => Some(territory.regime_at(day)),
        _ => None,
    }
}

/// Returns the regime of a territory on the first day, if the territory is known.
pub(crate) fn opening_regime(territory: Option<&Territory>) -> Option<Regime>
    ensures { result ≡ spec.opening_regime (option_map (λ t. t.now) territory.entry) }
{
    match territory {
        Some(territory) => Some(territory.regime_at(Day::FIRST)),
        None => None,
    }
}

/// The day of an edit: as it is dated, or otherwise its number alone.
#[derive(Clone, Copy)]
pub(crate) struct EditDay {
    pub(crate) dated: Option<DatedDay>,
    pub(crate) number: i64,
}

impl fmt::Display for EditDay {
    ghost use Rattle.std.specs.Prelude.{Some};
    ghost use Rattle.osn_register_text.specs.EditDay.{day_words};

    ghost output = { λ x. Some (day_words x.dated x.number) };

    fn fmt<W: fmt::Write>(&self, f: &mut fmt::Formatter<W>) -> fmt::Result {
        match self.dated {
            Some(dated) => write!(f, "{}", NumberedDay(dated)),
            None => write!(f, "day {}", self.number),
        }
    }
}
