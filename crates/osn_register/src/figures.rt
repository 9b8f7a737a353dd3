//! The figures of a year, which are the same in every territory.
ghost use Rattle.std.specs.Prelude.{◌≡◌, None};
ghost use Rattle.osn_days.specs.Rules.{newest_rules};
ghost use Rattle.osn_register.specs.Answer.{figures_of, refusal_in};

use crate::answer::Answer;
use osn_computus::{
    Rule, easter, golden_number, gregorian_epact, indiction, julian_epact, sunday_letters,
};
use osn_days::{Calendar, Year};

/// Returns the figures of a year.
pub(crate) fn figures(year: Year) -> Answer
    ensures value { result ≡ figures_of newest_rules year }
    ensures answered { refusal_in result ≡ None }
{
    Answer::Figures {
        year,
        golden: golden_number(year),
        indiction: indiction(year),
        julian_epact: julian_epact(year),
        gregorian_epact: gregorian_epact(year),
        julian_letters: sunday_letters(Calendar::Julian, year).unwrap(),
        gregorian_letters: sunday_letters(Calendar::Gregorian, year).unwrap(),
        julian_easter: easter(Rule::Julian, year),
        gregorian_easter: easter(Rule::Gregorian, year),
    }
}
