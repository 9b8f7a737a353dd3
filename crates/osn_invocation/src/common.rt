//! The arguments that several commands have.

use crate::argument::Argument::{self, Flag, Journal, Required, Valued};

/// The argument JOURNAL.
pub(crate) const JOURNAL: Argument = Required("journal", "JOURNAL", "The file of the journal");

/// The argument CODE.
pub(crate) const CODE: Argument = Required("code", "CODE", "The code of the territory");

/// The argument PLACE.
pub(crate) const PLACE: Argument = Required(
    "code",
    "PLACE",
    "The territory, by its code or its name",
);

/// The argument TEXT.
pub(crate) const TEXT: Argument = Required("text", "TEXT", "The file of the text");

/// The option `--order`.
pub(crate) const ORDER: Argument = Valued(
    "order",
    "ORDER",
    "How a date of three numbers, such as 11/2/1731, is read: dmy or mdy",
);

/// The option `--limits`.
pub(crate) const LIMITS: Argument = Valued(
    "limits",
    "LIMITS",
    "The most that the register may contain, such as lands=5000,changes=200",
);

/// The option `--json`.
pub(crate) const JSON: Argument = Flag(
    "json",
    "Prints the answer as a line of JSON, as the service writes it",
);

/// The option `--json` of a command that prints several answers.
pub(crate) const JSON_LINES: Argument = Flag(
    "json",
    "Prints the answers as lines of JSON, as the service writes them",
);

/// The option `--journal` of a command that has no default journal.
pub(crate) const JOURNAL_OPTION: Argument = Journal("The file of the journal, in place of JOURNAL");

/// The option `--journal` of a command that has a default journal.
pub(crate) const DEFAULT_JOURNAL: Argument = Journal(
    "The file of the journal, in place of JOURNAL [default: as oldstyle --help says]",
);

/// The option `--edition`.
pub(crate) const EDITION: Argument = Valued(
    "edition",
    "N",
    "The number of the edition to read [default: the newest]",
);
