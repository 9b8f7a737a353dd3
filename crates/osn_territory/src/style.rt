//! The day with which a year begins, and the words for it.
ghost use Rattle.std.specs.Prelude.{◌≡◌};
ghost use Rattle.osn_territory.specs.Style as plain;
ghost use Rattle.osn_territory.specs.StyleWords as words;

use osn_days::Keyword;

/// The day with which a year begins. The names are this project's, and do not say that a place had
/// the style.
#[derive(Clone, Copy, Debug, PartialEq, Eq, Hash)]
pub enum Style {
    /// On 1 January.
    January,
    /// On 25 March after the 1 January that begins the year of that number.
    Annunciation,
    /// On 25 December before the 1 January that begins the year of that number.
    Nativity,
    /// On 1 September before the 1 January that begins the year of that number.
    September,
    /// On 25 March before the 1 January that begins the year of that number.
    Pisan,
    /// On the Easter day of the Julian rule after the 1 January that begins the year of that
    /// number. So a year may have a date of spring twice, or not at all.
    Easter,
}

impl Style {
    /// Returns whether the year goes from Easter to Easter, and begins on another date each year.
    pub(crate) fn is_from_easter(self) -> bool
        ensures { result ≡ plain.is_from_easter self }
    {
        match self {
            Style::Easter => true,
            Style::January
            | Style::Annunciation
            | Style::Nativity
            | Style::September
            | Style::Pisan => false,
        }
    }

    /// Returns when its years begin, in English words.
    #[tactic(auto, unfolding(crate::specs::StyleWords::beginning_of_year))]
    pub fn beginning_of_year(self) -> &'static str
        ensures { result.now ≡ words.beginning_of_year self }
    {
        match self {
            Style::January => "years from 1 January",
            Style::Annunciation => "years from 25 March",
            Style::Nativity => "years from 25 December",
            Style::September => "years from 1 September",
            Style::Pisan => "years from the 25 March before",
            Style::Easter => "years from Easter",
        }
    }
}

impl Keyword for Style {
    ghost word_of = { words.style_word };

    ghost meaning = { words.style_written };

    fn word(self) -> &'static str {
        match self {
            Style::January => "january",
            Style::Annunciation => "annunciation",
            Style::Nativity => "nativity",
            Style::September => "september",
            Style::Pisan => "pisan",
            Style::Easter => "easter",
        }
    }

    fn from_word(word: &str) -> Option<Style> {
        match word {
            "january" => Some(Style::January),
            "annunciation" => Some(Style::Annunciation),
            "nativity" => Some(Style::Nativity),
            "september" => Some(Style::September),
            "pisan" => Some(Style::Pisan),
            "easter" => Some(Style::Easter),
            _ => None,
        }
    }
}
