//! The forms of a feast that is counted from Easter, in a year: `Easter 1641`,
//! `Easter Monday 1641`, `Corpus Christi 1641`.
ghost use Rattle.std.specs.Prelude.{◌≡◌};
ghost use Rattle.osn_grammar.specs.Feasts as spec;

use crate::forms::year_numbers;
use crate::simple::{YearNumbers, one, year_of};
use crate::token::{FeastWord, Token};
use osn_days::Weekday;
use osn_written::{DateFault, Extent, Feast};

/// Returns the feast, if the weekday is Sunday.
fn on_sunday(weekday: Weekday, feast: Feast) -> Option<Feast>
    ensures { result ≡ spec.on_sunday weekday feast }
{
    match weekday {
        Weekday::Sunday => Some(feast),
        _ => None,
    }
}

/// Returns the feast, if the weekday is Wednesday.
fn on_wednesday(weekday: Weekday, feast: Feast) -> Option<Feast>
    ensures { result ≡ spec.on_wednesday weekday feast }
{
    match weekday {
        Weekday::Wednesday => Some(feast),
        _ => None,
    }
}

/// Returns the feast, if the weekday is Thursday.
fn on_thursday(weekday: Weekday, feast: Feast) -> Option<Feast>
    ensures { result ≡ spec.on_thursday weekday feast }
{
    match weekday {
        Weekday::Thursday => Some(feast),
        _ => None,
    }
}

/// Returns the feast, if the weekday is Friday.
fn on_friday(weekday: Weekday, feast: Feast) -> Option<Feast>
    ensures { result ≡ spec.on_friday weekday feast }
{
    match weekday {
        Weekday::Friday => Some(feast),
        _ => None,
    }
}

/// Returns Easter or one of the two days after it.
fn easter_on(weekday: Weekday) -> Option<Feast>
    ensures { result ≡ spec.easter_on weekday }
{
    match weekday {
        Weekday::Sunday => Some(Feast::Easter),
        Weekday::Monday => Some(Feast::EasterMonday),
        Weekday::Tuesday => Some(Feast::EasterTuesday),
        _ => None,
    }
}

/// Returns Whit Sunday or one of the two days after it.
fn whitsun_on(weekday: Weekday) -> Option<Feast>
    ensures { result ≡ spec.whitsun_on weekday }
{
    match weekday {
        Weekday::Sunday => Some(Feast::Pentecost),
        Weekday::Monday => Some(Feast::WhitMonday),
        Weekday::Tuesday => Some(Feast::WhitTuesday),
        _ => None,
    }
}

/// Returns the feast that a word names with a weekday, such as `Ash Wednesday`.
fn feast_on(word: FeastWord, weekday: Weekday) -> Option<Feast>
    ensures { result ≡ spec.feast_on word weekday }
{
    match word {
        FeastWord::Easter => easter_on(weekday),
        FeastWord::Whitsun => whitsun_on(weekday),
        FeastWord::Whit => whitsun_on(weekday),
        FeastWord::Ash => on_wednesday(weekday, Feast::AshWednesday),
        FeastWord::Palm => on_sunday(weekday, Feast::PalmSunday),
        FeastWord::Maundy => on_thursday(weekday, Feast::MaundyThursday),
        FeastWord::Good => on_friday(weekday, Feast::GoodFriday),
        FeastWord::Ascension => on_thursday(weekday, Feast::Ascension),
        FeastWord::Trinity => on_sunday(weekday, Feast::Trinity),
        _ => None,
    }
}

/// Returns the feast that a word names without a weekday.
fn feast_alone(word: FeastWord) -> Option<Feast>
    ensures { result ≡ spec.feast_alone word }
{
    match word {
        FeastWord::Easter => Some(Feast::Easter),
        FeastWord::Whitsun => Some(Feast::Pentecost),
        FeastWord::Ascension => Some(Feast::Ascension),
        FeastWord::Named(feast) => Some(feast),
        _ => None,
    }
}

/// Returns the feast that a word names, with the weekday that is named.
fn feast_by(word: FeastWord, weekday: Option<Weekday>) -> Option<Feast>
    ensures { result ≡ spec.feast_by word weekday }
{
    match weekday {
        Some(weekday) => feast_on(word, weekday),
        None => feast_alone(word),
    }
}

/// Returns Corpus Christi, if the word before `christi` is `corpus`.
fn corpus_christi(word: FeastWord, weekday: Option<Weekday>) -> Option<Feast>
    ensures { result ≡ spec.corpus_christi word weekday }
{
    match (word, weekday) {
        (FeastWord::Corpus, None) => Some(Feast::CorpusChristi),
        (FeastWord::Corpus, Some(weekday)) => on_thursday(weekday, Feast::CorpusChristi),
        _ => None,
    }
}

/// Returns the feast that two words name, such as `Easter Day`.
fn feast_of_two(first: FeastWord, second: FeastWord, weekday: Option<Weekday>) -> Option<Feast>
    ensures { result ≡ spec.feast_of_two first second weekday }
{
    match second {
        FeastWord::Day => feast_by(first, weekday),
        FeastWord::Christi => corpus_christi(first, weekday),
        _ => None,
    }
}

/// Returns the feast in a year, if there are both.
fn in_year(feast: Option<Feast>, years: Option<YearNumbers>) -> Result<Extent, DateFault>
    ensures { result ≡ spec.in_year feast years }
{
    match (feast, years) {
        (Some(feast), Some(years)) => Ok(Extent::Feast {
            feast,
            year: year_of(years)?,
        }),
        _ => Err(DateFault::Feast),
    }
}

/// Returns the feast in a year of two words, of which the second one begins these parts.
fn after_two(
    first: FeastWord,
    weekday: Option<Weekday>,
    rest: &[Token],
) -> Result<Extent, DateFault>
    ensures { result ≡ spec.after_two first weekday rest.now }
{
    match rest {
        [Token::Feast(second), year @ ..] => {
            in_year(feast_of_two(first, *second, weekday), year_numbers(year))
        }
        _ => Err(DateFault::Feast),
    }
}

/// Returns the feast in a year of a first word with these parts after it.
fn after_word(
    first: FeastWord,
    weekday: Option<Weekday>,
    rest: &[Token],
) -> Result<Extent, DateFault>
    ensures { result ≡ spec.after_word first weekday rest.now }
{
    match year_numbers(rest) {
        Some(years) => in_year(feast_by(first, weekday), Some(years)),
        None => after_two(first, weekday, rest),
    }
}

/// Returns the feast in a year that parts are, with the weekday that is named. The parts are those
/// that say which day is meant.
pub fn feast_in(weekday: Option<Weekday>, time_tokens: &[Token]) -> Result<Extent, DateFault>
    ensures { result ≡ spec.feast_in weekday time_tokens.now }
{
    match time_tokens {
        [Token::Feast(first), rest @ ..] => after_word(*first, weekday, rest),
        [Token::Number(year), Token::Feast(first)] => {
            in_year(feast_by(*first, weekday), Some(one(*year)))
        }
        _ => Err(DateFault::Feast),
    }
}
