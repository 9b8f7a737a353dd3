//! Why a line is not a request, or a line of a file is refused.
ghost use Rattle.std.specs.Prelude.{◌≡◌};
ghost use Rattle.osn_request.specs.WireFault.{wire_fault_number, wire_fault_name};

use crate::member::Member;

/// Why a line is not a request, or a line of a file is refused.
#[derive(Clone, Copy, Debug, PartialEq, Eq, Hash)]
pub enum WireFault {
    /// A line has at most 65,536 bytes without its line feed.
    LineTooLong,
    /// The line is not the text of a JSON value.
    NotJson,
    /// The value is not an object.
    NotObject,
    /// The member is missing, of another type, or not one of its words.
    BadField(Member),
    /// No request has the word of `op`.
    UnknownOp,
    /// No reader has the number.
    UnknownReader,
    /// The first line of a journal or a script does not say a version that is known.
    BadHead,
    /// No step has the word of `step`.
    UnknownStep,
    /// A question is asked by a query, and by no edit or publish.
    NotAQuery,
    /// The reply is not that to the query at the edition that it names.
    WrongReply,
    /// The journal does not have the edition that the reply names.
    UnknownEdition,
    /// A reader's reply names an edition before that of the reader's reply before it.
    EditionFell,
    /// The service takes no edit and no publish.
    ReadOnly,
    /// The edit gives a source, and the kept file is of a version that has none.
    NeedsUpgrade,
}

impl WireFault {
    /// Returns the number that a reply gives.
    pub fn number(self) -> u8
        ensures { result ≡ wire_fault_number self }
    {
        match self {
            WireFault::LineTooLong => 31,
            WireFault::NotJson => 32,
            WireFault::NotObject => 33,
            WireFault::BadField(_) => 34,
            WireFault::UnknownOp => 35,
            WireFault::UnknownReader => 36,
            WireFault::BadHead => 37,
            WireFault::UnknownStep => 38,
            WireFault::NotAQuery => 41,
            WireFault::WrongReply => 42,
            WireFault::UnknownEdition => 43,
            WireFault::EditionFell => 44,
            WireFault::ReadOnly => 45,
            WireFault::NeedsUpgrade => 46,
        }
    }

    /// Returns the name that a reply gives.
    pub fn name(self) -> &'static str
        ensures { result.now ≡ wire_fault_name self }
    {
        match self {
            WireFault::LineTooLong => "LineTooLong",
            WireFault::NotJson => "NotJson",
            WireFault::NotObject => "NotObject",
            WireFault::BadField(_) => "BadField",
            WireFault::UnknownOp => "UnknownOp",
            WireFault::UnknownReader => "UnknownReader",
            WireFault::BadHead => "BadHead",
            WireFault::UnknownStep => "UnknownStep",
            WireFault::NotAQuery => "NotAQuery",
            WireFault::WrongReply => "WrongReply",
            WireFault::UnknownEdition => "UnknownEdition",
            WireFault::EditionFell => "EditionFell",
            WireFault::ReadOnly => "ReadOnly",
            WireFault::NeedsUpgrade => "NeedsUpgrade",
        }
    }
}
