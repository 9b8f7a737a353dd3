//! How a table of letters ends early.
ghost use Rattle.std.specs.Prelude.{◌≡◌};
ghost use Rattle.osn_letters.specs.Faults as spec;
ghost use Rattle.osn_letters.specs.declared.fault.LettersFault.TheVariants as faults;

use crate::added_column::AddedColumn;
use osn_register::Text;
use std::alloc::AllocError;

/// A column that a table of letters must have.
#[derive(Clone, Copy, Debug, PartialEq, Eq)]
pub enum Column {
    /// The column of the places.
    Place,
    /// The column of the dates.
    Date,
    /// The column of the dates' years.
    Year,
    /// The column of the dates' months.
    Month,
    /// The column of the dates' days.
    Day,
    /// The column of the weekdays.
    Weekday,
}

/// Why a table of letters ended early. Lines are counted from 1. For a record of several lines, the
/// line is its first one.
#[derive(Debug, Drop)]
pub enum LettersFault {
    /// The table has no record, and so no header. Nothing was written.
    NoHeader,
    /// The header, on that line, lacks a column. It has these names, with a comma and a space
    /// between two. Nothing was written.
    LacksColumn {
        column: Column,
        line: u64,
        header: Text,
        /// The name that may be meant, if one is near.
        nearest: Option<Text>,
    },
    /// The header, on that line, has a column already that is put after its own. Nothing was
    /// written.
    HasColumn {
        line: u64,
        column: AddedColumn,
    },
    /// The record on that line has another number of fields than the header. The records before it
    /// were written.
    BadRecord {
        line: u64,
        /// How many fields the record has.
        fields: usize,
        /// How many fields the header has.
        width: usize,
    },
    /// The record on that line has more than 65,536 bytes. The records before it were written.
    TooLong {
        line: u64,
    },
    /// A quote of the record on that line is still open at the end of the table. The records before
    /// it were written.
    OpenQuote {
        line: u64,
    },
    /// The record on that line has a text after a closing quote. The records before it were
    /// written.
    TextAfterQuote {
        line: u64,
    },
    /// The input failed, or gave no end within 4,294,967,295 reads.
    ReadFault,
    /// The output failed, or did not take a text within 4,294,967,295 calls.
    WriteFault,
    /// Memory ran out.
    NoMemory,
}

impl LettersFault {
    /// Returns whether it is one of the table itself, and not of memory, of the input or of the
    /// output.
    pub(crate) fn is_of_table(&self) -> bool
        ensures { result ≡ spec.is_of_table self.now }
    {
        match self {
            LettersFault::NoHeader
            | LettersFault::LacksColumn { .. }
            | LettersFault::HasColumn { .. }
            | LettersFault::BadRecord { .. }
            | LettersFault::TooLong { .. }
            | LettersFault::OpenQuote { .. }
            | LettersFault::TextAfterQuote { .. } => true,
            LettersFault::ReadFault | LettersFault::WriteFault | LettersFault::NoMemory => false,
        }
    }
}

impl From<AllocError> for LettersFault {
    ghost from_gives = { λ _ fault. fault ≡ faults.NoMemory };

    fn from(_refused: AllocError) -> LettersFault {
        LettersFault::NoMemory
    }
}
