//! How a table of places ends early.
ghost use Rattle.std.specs.Prelude.{◌≡◌};
ghost use Rattle.osn_letters.specs.PlacesFaults as spec;
ghost use Rattle.osn_letters.specs.declared.places_fault.PlacesFault.TheVariants as faults;

use crate::fault::LettersFault;
use osn_lines::ReadAllFault;
use osn_register::Text;
use std::alloc::AllocError;

/// A column that a table of places must have.
#[derive(Clone, Copy, Debug, PartialEq, Eq)]
pub enum PlacesColumn {
    /// The column of the places.
    Place,
    /// The column of the codes.
    Code,
}

impl PlacesColumn {
    /// Returns its name.
    pub fn name(self) -> &'static str
        ensures { result.now ≡ spec.column_name self }
    {
        match self {
            PlacesColumn::Place => "place",
            PlacesColumn::Code => "code",
        }
    }
}

/// Why a table of places was not read. Lines are counted from 1. For a record of several lines, the
/// line is its first one.
#[derive(Debug, Drop)]
pub enum PlacesFault {
    /// The table has no record, and so no header.
    NoHeader,
    /// The header, on that line, lacks a column. It has these names, with a comma and a space
    /// between two.
    LacksColumn {
        column: PlacesColumn,
        line: u64,
        header: Text,
    },
    /// The record on that line has another number of fields than the header.
    BadRecord {
        line: u64,
        /// How many fields the record has.
        fields: usize,
        /// How many fields the header has.
        width: usize,
    },
    /// The record on that line has more than 65,536 bytes.
    TooLong {
        line: u64,
    },
    /// A quote of the record on that line is still open at the end of the table.
    OpenQuote {
        line: u64,
    },
    /// The record on that line has a text after a closing quote.
    TextAfterQuote {
        line: u64,
    },
    /// The place or the code of the record on that line is not UTF-8.
    NotUtf8 {
        line: u64,
    },
    /// The record on that line has another code for the place than a record before it.
    TwoCodes {
        line: u64,
        place: Text,
    },
    /// The input failed, or gave no end within 4,294,967,295 reads.
    ReadFault,
    /// Memory ran out.
    NoMemory,
}

impl From<AllocError> for PlacesFault {
    ghost from_gives = { λ _ fault. fault ≡ faults.NoMemory };

    fn from(_refused: AllocError) -> PlacesFault {
        PlacesFault::NoMemory
    }
}

/// The parser of records returns three faults of a record, and `NoMemory`.
impl From<LettersFault> for PlacesFault {
    ghost from_gives = { λ fault value. value ≡ spec.of_letters fault };

    fn from(fault: LettersFault) -> PlacesFault {
        match fault {
            LettersFault::TooLong { line } => PlacesFault::TooLong { line },
            LettersFault::OpenQuote { line } => PlacesFault::OpenQuote { line },
            LettersFault::TextAfterQuote { line } => PlacesFault::TextAfterQuote { line },
            _ => PlacesFault::NoMemory,
        }
    }
}

impl From<ReadAllFault> for PlacesFault {
    ghost from_gives = { λ fault value. value ≡ spec.of_reading fault };

    fn from(fault: ReadAllFault) -> PlacesFault {
        match fault {
            ReadAllFault::ReadFault => PlacesFault::ReadFault,
            ReadAllFault::NoMemory => PlacesFault::NoMemory,
        }
    }
}
