//! The two rules of Easter, and their words.
ghost use Rattle.std.specs.Prelude.{◌≡◌};
ghost use Rattle.osn_computus.specs.Easter.{calendar_of};
ghost use Rattle.osn_computus.specs.RuleWords as words;

use osn_days::{Calendar, Keyword};

/// The rule by which a territory finds its Easter.
#[derive(Clone, Copy, Debug, PartialEq, Eq, Hash)]
pub enum Rule {
    /// The Julian full moon by the cycle of 19 years, in the Julian calendar.
    Julian,
    /// The new moon by the epacts of 1582, in the Gregorian calendar.
    Gregorian,
}

impl Rule {
    /// Returns the calendar of the dates of the rule's moons.
    pub(crate) fn calendar(self) -> Calendar
        ensures { result ≡ calendar_of self }
    {
        match self {
            Rule::Julian => Calendar::Julian,
            Rule::Gregorian => Calendar::Gregorian,
        }
    }
}

impl Keyword for Rule {
    ghost word_of = { words.rule_word };

    ghost meaning = { words.rule_named };

    fn word(self) -> &'static str {
        match self {
            Rule::Julian => "julian",
            Rule::Gregorian => "gregorian",
        }
    }

    fn from_word(word: &str) -> Option<Rule> {
        match word {
            "julian" => Some(Rule::Julian),
            "gregorian" => Some(Rule::Gregorian),
            _ => None,
        }
    }
}
