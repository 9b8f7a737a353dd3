//! Why an edit, a query or a publish is refused.
ghost use Rattle.std.specs.Prelude.{◌≡◌};
ghost use Rattle.osn_register.specs.Refusal.{refusal_number, refusal_name};

use std::alloc::AllocError;

/// Why an edit, a query or a publish is refused.
#[derive(Clone, Copy, Debug, PartialEq, Eq, Hash)]
pub enum Refusal {
    /// A code has 2 to 8 bytes, capital letters or digits, the first a letter.
    BadCode,
    /// A name has 1 to 64 bytes of UTF-8, with no control byte.
    BadName,
    /// No territory has the code.
    UnknownLand,
    /// A territory has the code already.
    LandExists,
    /// The day is not on the line, 1 to 3652059.
    DayOffLine,
    /// A period of the territory starts on the day already.
    ChangeExists,
    /// No period of the territory starts on the day.
    NoSuchChange,
    /// Day 1 begins the opening period, which is neither added nor dropped.
    OpeningPeriod,
    /// The year is outside the range of the request.
    YearOffRange,
    /// An exception is listed for the year already.
    ExceptionExists,
    /// No exception is listed for the year.
    NoSuchException,
    /// The register has as many territories as its limit lets it.
    TooManyLands,
    /// The territory has as many changes as the limit lets it.
    TooManyChanges,
    /// The territory has as many listed exceptions as the limit lets it.
    TooManyExceptions,
    /// There is no edit to publish.
    NothingPending,
    /// The journal has as many edits as its limit lets it.
    JournalFull,
    /// The journal has as many editions as its limit lets it.
    EditionsFull,
    /// The month is not 1 to 12, or the day not 1 to 31.
    BadDate,
    /// A year from Easter to Easter requires the Julian calendar and the Julian rule.
    StyleNeedsJulian,
    /// A growth of memory was refused; the call may be tried again.
    NoMemory,
    /// The number of readers is not 1 to 64.
    BadCount,
}

impl Refusal {
    /// Returns the number that a reply gives.
    pub fn number(self) -> u8
        ensures { result ≡ refusal_number self }
    {
        match self {
            Refusal::BadCode => 1,
            Refusal::BadName => 2,
            Refusal::UnknownLand => 3,
            Refusal::LandExists => 4,
            Refusal::DayOffLine => 5,
            Refusal::ChangeExists => 6,
            Refusal::NoSuchChange => 7,
            Refusal::OpeningPeriod => 8,
            Refusal::YearOffRange => 9,
            Refusal::ExceptionExists => 10,
            Refusal::NoSuchException => 11,
            Refusal::TooManyLands => 12,
            Refusal::TooManyChanges => 13,
            Refusal::TooManyExceptions => 14,
            Refusal::NothingPending => 15,
            Refusal::JournalFull => 16,
            Refusal::EditionsFull => 17,
            Refusal::BadDate => 18,
            Refusal::StyleNeedsJulian => 19,
            Refusal::NoMemory => 90,
            Refusal::BadCount => 92,
        }
    }

    /// Returns the name that a reply gives.
    pub fn name(self) -> &'static str
        ensures { result.now ≡ refusal_name self }
    {
        match self {
            Refusal::BadCode => "BadCode",
            Refusal::BadName => "BadName",
            Refusal::UnknownLand => "UnknownLand",
            Refusal::LandExists => "LandExists",
            Refusal::DayOffLine => "DayOffLine",
            Refusal::ChangeExists => "ChangeExists",
            Refusal::NoSuchChange => "NoSuchChange",
            Refusal::OpeningPeriod => "OpeningPeriod",
            Refusal::YearOffRange => "YearOffRange",
            Refusal::ExceptionExists => "ExceptionExists",
            Refusal::NoSuchException => "NoSuchException",
            Refusal::TooManyLands => "TooManyLands",
            Refusal::TooManyChanges => "TooManyChanges",
            Refusal::TooManyExceptions => "TooManyExceptions",
            Refusal::NothingPending => "NothingPending",
            Refusal::JournalFull => "JournalFull",
            Refusal::EditionsFull => "EditionsFull",
            Refusal::BadDate => "BadDate",
            Refusal::StyleNeedsJulian => "StyleNeedsJulian",
            Refusal::NoMemory => "NoMemory",
            Refusal::BadCount => "BadCount",
        }
    }
}

impl From<AllocError> for Refusal {
    ghost use Rattle.osn_register.specs.declared.refusal.Refusal.TheVariants.{NoMemory};

    ghost from_gives = { λ _ refusal. refusal ≡ NoMemory };

    fn from(_: AllocError) -> Refusal {
        Refusal::NoMemory
    }
}
