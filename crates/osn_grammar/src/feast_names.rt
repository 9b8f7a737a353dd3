//! The names of feasts: in English, German, French, Latin, Dutch, Italian, Portuguese, Spanish,
//! Swedish and Danish.
ghost use Rattle.std.specs.Prelude.{◌≡◌};
ghost use Rattle.osn_grammar.specs.Names as spec;

use crate::names::first_named;
use crate::token::{FeastWord, Token};
use osn_written::Feast;

/// Each name of a feast, or each word of one, in small letters. It is sought after the other names.
pub const FEAST_NAMES: [(&str, Token); 64] = [
    ("easter", Token::Feast(FeastWord::Easter)),
    ("whitsun", Token::Feast(FeastWord::Whitsun)),
    ("whitsunday", Token::Feast(FeastWord::Whitsun)),
    ("pentecost", Token::Feast(FeastWord::Whitsun)),
    ("ascension", Token::Feast(FeastWord::Ascension)),
    ("ash", Token::Feast(FeastWord::Ash)),
    ("palm", Token::Feast(FeastWord::Palm)),
    ("maundy", Token::Feast(FeastWord::Maundy)),
    ("good", Token::Feast(FeastWord::Good)),
    ("whit", Token::Feast(FeastWord::Whit)),
    ("trinity", Token::Feast(FeastWord::Trinity)),
    ("corpus", Token::Feast(FeastWord::Corpus)),
    ("christi", Token::Feast(FeastWord::Christi)),
    ("day", Token::Feast(FeastWord::Day)),
    ("christmas", Token::Feast(FeastWord::Other)),
    ("michaelmas", Token::Feast(FeastWord::Other)),
    ("lady", Token::Feast(FeastWord::Other)),
    ("martinmas", Token::Feast(FeastWord::Other)),
    ("candlemas", Token::Feast(FeastWord::Other)),
    ("saints", Token::Feast(FeastWord::Other)),
    ("midsummer", Token::Feast(FeastWord::Other)),
    ("epiphany", Token::Feast(FeastWord::Other)),
    ("lammas", Token::Feast(FeastWord::Other)),
    ("ostern", Token::Feast(FeastWord::Easter)),
    ("ostersonntag", Token::Feast(FeastWord::Easter)),
    (
        "ostermontag",
        Token::Feast(FeastWord::Named(Feast::EasterMonday)),
    ),
    (
        "osterdienstag",
        Token::Feast(FeastWord::Named(Feast::EasterTuesday)),
    ),
    ("pfingsten", Token::Feast(FeastWord::Whitsun)),
    ("pfingstsonntag", Token::Feast(FeastWord::Whitsun)),
    (
        "pfingstmontag",
        Token::Feast(FeastWord::Named(Feast::WhitMonday)),
    ),
    (
        "pfingstdienstag",
        Token::Feast(FeastWord::Named(Feast::WhitTuesday)),
    ),
    (
        "aschermittwoch",
        Token::Feast(FeastWord::Named(Feast::AshWednesday)),
    ),
    (
        "palmsonntag",
        Token::Feast(FeastWord::Named(Feast::PalmSunday)),
    ),
    (
        "gründonnerstag",
        Token::Feast(FeastWord::Named(Feast::MaundyThursday)),
    ),
    (
        "karfreitag",
        Token::Feast(FeastWord::Named(Feast::GoodFriday)),
    ),
    (
        "charfreitag",
        Token::Feast(FeastWord::Named(Feast::GoodFriday)),
    ),
    (
        "fronleichnam",
        Token::Feast(FeastWord::Named(Feast::CorpusChristi)),
    ),
    ("pâques", Token::Feast(FeastWord::Easter)),
    ("paques", Token::Feast(FeastWord::Easter)),
    ("pentecôte", Token::Feast(FeastWord::Whitsun)),
    ("pentecote", Token::Feast(FeastWord::Whitsun)),
    ("pascha", Token::Feast(FeastWord::Easter)),
    ("pentecoste", Token::Feast(FeastWord::Whitsun)),
    ("trinitatis", Token::Feast(FeastWord::Named(Feast::Trinity))),
    ("pasen", Token::Feast(FeastWord::Easter)),
    (
        "paasmaandag",
        Token::Feast(FeastWord::Named(Feast::EasterMonday)),
    ),
    ("pinksteren", Token::Feast(FeastWord::Whitsun)),
    (
        "pinkstermaandag",
        Token::Feast(FeastWord::Named(Feast::WhitMonday)),
    ),
    (
        "aswoensdag",
        Token::Feast(FeastWord::Named(Feast::AshWednesday)),
    ),
    (
        "palmzondag",
        Token::Feast(FeastWord::Named(Feast::PalmSunday)),
    ),
    ("pasqua", Token::Feast(FeastWord::Easter)),
    ("páscoa", Token::Feast(FeastWord::Easter)),
    ("pascoa", Token::Feast(FeastWord::Easter)),
    ("pentecostés", Token::Feast(FeastWord::Whitsun)),
    ("påsk", Token::Feast(FeastWord::Easter)),
    ("påskdagen", Token::Feast(FeastWord::Easter)),
    ("pingst", Token::Feast(FeastWord::Whitsun)),
    ("pingstdagen", Token::Feast(FeastWord::Whitsun)),
    (
        "långfredagen",
        Token::Feast(FeastWord::Named(Feast::GoodFriday)),
    ),
    ("påske", Token::Feast(FeastWord::Easter)),
    ("paaske", Token::Feast(FeastWord::Easter)),
    ("pinse", Token::Feast(FeastWord::Whitsun)),
    (
        "langfredag",
        Token::Feast(FeastWord::Named(Feast::GoodFriday)),
    ),
    (
        "skærtorsdag",
        Token::Feast(FeastWord::Named(Feast::MaundyThursday)),
    ),
];

/// Returns the part that a word of a feast's name is, if it is one.
pub fn feast_named(word: &str) -> Option<Token>
    ensures { result ≡ spec.first_named spec.feast_names word.now }
{
    first_named(&FEAST_NAMES, word)
}
