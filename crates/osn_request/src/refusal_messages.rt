//! What the register allows, for each of its refusals: messages for people.
ghost use Rattle.std.specs.Prelude.{◌≡◌};
ghost use Rattle.osn_request.specs.RefusalMessages as spec;

use osn_register::Refusal;

/// Returns the text on a refusal, which says what the register allows.
pub fn refusal_message(refusal: Refusal) -> &'static str
    ensures { result.now ≡ spec.refusal_message refusal }
{
    match refusal {
        Refusal::BadCode => "a code has 2 to 8 capital letters or digits, the first a letter",
        Refusal::BadName => "a name has 1 to 64 bytes, and no control character",
        Refusal::UnknownLand => "an edit names a territory that the register has",
        Refusal::LandExists => "a code belongs to one territory",
        Refusal::DayOffLine => "a day is 1 to 3652059",
        Refusal::ChangeExists => "a territory has at most one change on a day",
        Refusal::NoSuchChange => "a change is on a day on which a period starts",
        Refusal::OpeningPeriod => "a change is later than day 1, on which the territory begins",
        Refusal::YearOffRange => "a year is 1 to 9999",
        Refusal::ExceptionExists => "a year has at most one listed Easter",
        Refusal::NoSuchException => "only a year with a listed Easter can lose it",
        Refusal::TooManyLands => {
            "the register has no room for another territory (--limits lands=N allows more)"
        }
        Refusal::TooManyChanges => {
            "the register has no room for another change there (--limits changes=N allows more)"
        }
        Refusal::TooManyExceptions => {
            "the register has no room for another listed Easter there \
(--limits exceptions=N allows more)"
        }
        Refusal::NothingPending => "an edition has at least one edit",
        Refusal::JournalFull => "the journal has no room for another edit",
        Refusal::EditionsFull => "the journal has no room for another edition",
        Refusal::BadDate => "a month is 1 to 12 and a day 1 to 31",
        Refusal::StyleNeedsJulian => {
            "years from Easter require the Julian calendar and the Julian rule"
        }
        Refusal::NoMemory => "the call may be tried again",
        Refusal::BadCount => "there are 1 to 64 readers",
    }
}

/// Returns the text on the refusal of a query, by what was published. Some queries allow two years
/// more.
pub fn query_message(refusal: Refusal) -> &'static str
    ensures { result.now ≡ spec.query_message refusal }
{
    match refusal {
        Refusal::UnknownLand => "no published territory has this code: the query lands lists them",
        Refusal::YearOffRange => "a year is 1 to 9999, and that of read and convert 0 to 10000",
        _ => refusal_message(refusal),
    }
}
