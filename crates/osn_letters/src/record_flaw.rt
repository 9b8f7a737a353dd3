//! What may be wrong with a record that is read all the same.
ghost use Rattle.std.specs.Prelude.{◌≡◌};
ghost use Rattle.osn_letters.specs.Remarks as spec;

/// What is wrong with a record whose row is written all the same, with no day.
#[derive(Clone, Copy, Debug, PartialEq, Eq)]
pub enum RecordFlaw {
    /// It has another number of fields than the header.
    FieldCount,
    /// It has more than 65,536 bytes.
    TooLong,
    /// A quote is still open at the end of the table.
    OpenQuote,
    /// It has a text after a closing quote.
    TextAfterQuote,
}

impl RecordFlaw {
    /// Returns what is wrong in words.
    pub(crate) fn words(self) -> &'static str
        ensures { result.now ≡ spec.flaw_words self }
    {
        match self {
            RecordFlaw::FieldCount => "another number of fields",
            RecordFlaw::TooLong => "more than 65536 bytes",
            RecordFlaw::OpenQuote => "quote not closed",
            RecordFlaw::TextAfterQuote => "text after a closing quote",
        }
    }
}
