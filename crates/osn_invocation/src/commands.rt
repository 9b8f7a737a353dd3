//! The commands of the program with their arguments, as they are typed and as help shows them.
//! Those that say what a date means are in `dates`.

use crate::argument::Argument::{
    self, Flag, Optional, Readers, Required, RequiredReaders, Valued, Year,
};
use crate::common::{CODE, DEFAULT_JOURNAL, EDITION, JOURNAL, JOURNAL_OPTION, LIMITS, ORDER, TEXT};

/// A command: its name, what help says of it before and after its arguments, and these.
#[derive(Clone, Copy, Debug)]
pub(crate) struct CommandRow {
    /// The name of the command.
    pub(crate) name: &'static str,
    /// What it does, in one line.
    pub(crate) about: &'static str,
    /// Examples, and other notes.
    pub(crate) examples: &'static str,
    /// Its arguments, in order.
    pub(crate) arguments: &'static [Argument],
}

/// The commands for tables, the service and the register as a text, in the order in which help
/// lists them.
pub(crate) const TABLES: [CommandRow; 6] = [
    CommandRow {
        name: "letters",
        about: "Adds the days that each date means to a table of letters",
        examples: "Examples:
  ./oldstyle letters examples/samples.journal examples/letters.csv
  ./oldstyle letters examples/samples.journal --places examples/places.csv --summary \\
    < examples/transcribed.csv

The table is CSV with a header. It is written to standard output with twelve more columns after
its own: days, gregorian, julian, dual, weekday_found, jdn, earliest, latest, kind, edtf, edition
and remark.",
        arguments: &[
            JOURNAL,
            Optional(
                "table",
                "TABLE",
                "The file of the table; if it is - or left out, standard input is read",
            ),
            Valued(
                "place",
                "NAME",
                "The name of the column of places, which are codes or names [default: place]",
            ),
            Valued(
                "in",
                "PLACE",
                "The place of all rows, in place of a column of places",
            ),
            Valued(
                "date",
                "NAME",
                "The name of the column of dates [default: date]",
            ),
            Valued(
                "year",
                "NAME",
                "In place of --date, the name of the column of years",
            ),
            Valued(
                "month",
                "NAME",
                "With --year, the name of the column of months",
            ),
            Valued(
                "day",
                "NAME",
                "With --month, the name of the column of days",
            ),
            Valued(
                "weekday",
                "NAME",
                "The name of the column of weekdays [default: weekday, if the table has it]",
            ),
            Valued(
                "places",
                "FILE",
                "A table in CSV whose columns place and code give the code of each place",
            ),
            Valued(
                "separator",
                "NAME",
                "The separator of fields: comma, semicolon or tab [default: by the header]",
            ),
            ORDER,
            Flag("strict", "Ends with status 1 if a row has a remark"),
            Flag(
                "summary",
                "Prints the number of rows with each remark on standard error at the end",
            ),
            Flag(
                "replace",
                "Replaces the twelve added columns, if a table that was read before ends with them",
            ),
            Flag(
                "keep-going",
                "Goes on after a record that can't be read, whose row gets a remark and no day",
            ),
            EDITION,
            DEFAULT_JOURNAL,
            LIMITS,
        ],
    },
    CommandRow {
        name: "serve",
        about: "Answers request lines from standard input, as the program does without a command",
        examples: "Example:
  ./oldstyle serve --journal examples/samples.journal --save new.journal < examples/added.jsonl

Requests and replies are JSON lines. With --save, the journal is saved only if all lines were
answered. With --keep, each change is in the journal before its reply is written. A journal of a
version before 4 accepts no edit with a source: --upgrade saves it as version 4, whole or not at
all. With --follow, edits are refused, and FILE need not exist yet. With --stop-at-refusal, a
batch of edits is published whole or not at all.",
        arguments: &[
            Valued(
                "journal",
                "FILE",
                "The journal to begin with; without it there are no territories",
            ),
            Valued(
                "save",
                "FILE",
                "The file to save the journal to at the end of the input, unless the run fails",
            ),
            Valued(
                "keep",
                "FILE",
                "The journal to begin with; each change is appended to it while the service runs",
            ),
            Flag(
                "upgrade",
                "First saves the journal of --keep as version 4, if its version is earlier",
            ),
            Valued(
                "follow",
                "FILE",
                "The journal that another run keeps: each line is answered from its newest edition",
            ),
            Readers("The number of readers, 1 to 64 [default: 8]"),
            Flag(
                "read-only",
                "Refuses each edit and each publish with 45 ReadOnly",
            ),
            Flag(
                "stop-at-refusal",
                "Ends after the first line that is refused, and saves nothing then",
            ),
            Flag(
                "explain",
                "Adds a message to each reply that refuses a line: what was wrong, what is allowed",
            ),
            Flag(
                "strict-members",
                "Refuses a line with a member that its request doesn't have, by 34 BadField",
            ),
            LIMITS,
        ],
    },
    CommandRow {
        name: "text",
        about: "Prints the published territories of a journal as a text in TOML, to be edited",
        examples: "Examples:
  ./oldstyle text examples/samples.journal > territories.toml
  ./oldstyle text examples/samples.journal GB

If nothing in the text is changed, plan prints no edit. The first line of the text names the
edition that it was made from.",
        arguments: &[
            JOURNAL,
            Optional("code", "CODE", "The code of the only territory to print"),
            EDITION,
            DEFAULT_JOURNAL,
            LIMITS,
        ],
    },
    CommandRow {
        name: "check",
        about: "Says whether a text has a fault, without comparing it with a journal",
        examples: "Example:
  ./oldstyle check territories.toml

TEXT has the form that the command text prints. It is only read. If it has faults, that of each
territory is reported, and the status is 1. The command plan says whether a journal accepts what
TEXT says.",
        arguments: &[TEXT, LIMITS],
    },
    CommandRow {
        name: "plan",
        about: "Prints the edits that would make a journal agree with a text of territories",
        examples: "Example:
  ./oldstyle plan examples/samples.journal territories.toml

TEXT has the form that the command text prints. Each edit is a line, with its day as the territory
dates it. A territory that TEXT does not name stays as it is. The journal is only read.",
        arguments: &[
            JOURNAL,
            TEXT,
            Flag("strict", "Ends with status 1 if there are edits"),
            DEFAULT_JOURNAL,
            LIMITS,
        ],
    },
    CommandRow {
        name: "publish",
        about: "Publishes the edits that the command plan prints, as one edition of the journal",
        examples: "Example:
  ./oldstyle publish new.journal territories.toml

Either all edits become one edition of the journal, or none does. A text with a fault changes
nothing. Nor does a text that would undo what an edition later than its own has changed.",
        arguments: &[
            JOURNAL,
            TEXT,
            Flag(
                "onto-newest",
                "Publishes even if that undoes or changes again what later editions changed",
            ),
            DEFAULT_JOURNAL,
            LIMITS,
        ],
    },
];

/// The other commands.
pub(crate) const OTHERS: [CommandRow; 7] = [
    CommandRow {
        name: "editions",
        about: "Lists the editions of a journal, with their edits and territories",
        examples: "Example:
  ./oldstyle editions examples/samples.journal",
        arguments: &[JOURNAL, DEFAULT_JOURNAL, LIMITS],
    },
    CommandRow {
        name: "diff",
        about: "Prints what changed from one edition of a journal to a later one",
        examples: "Example:
  ./oldstyle diff examples/samples.journal 1 2

Each change is a line, in the words of the command plan. What later editions undid is left out.",
        arguments: &[
            JOURNAL,
            Required(
                "from",
                "FROM",
                "The number of the earlier edition; 0 is before the first one",
            ),
            Required("to", "TO", "The number of the later edition"),
            DEFAULT_JOURNAL,
            LIMITS,
        ],
    },
    CommandRow {
        name: "replay",
        about: "Runs a schedule of steps by an editor and readers, and prints each result",
        examples: "Example:
  ./oldstyle replay --readers 2 examples/two_readers.schedule

A step is a JSON line. All steps are run before anything is printed.",
        arguments: &[
            RequiredReaders("The number of readers, 1 to 64"),
            Required("schedule", "SCHEDULE", "The file of the steps"),
            LIMITS,
        ],
    },
    CommandRow {
        name: "desk",
        about: "Lets readers ask while an editor works, each in a thread of its own",
        examples: "Example:
  ./oldstyle desk examples/rome.script examples/rome.questions

A question is a JSON line. The questions of each reader, in order, are printed with their replies,
one reader after another. The editions of the replies may differ from run to run.",
        arguments: &[
            Required(
                "script",
                "SCRIPT",
                "The file of what the editor does, in the form of a journal",
            ),
            Required("questions", "QUESTIONS", "The file of what the readers ask"),
            LIMITS,
        ],
    },
    CommandRow {
        name: "almanac",
        about: "Prints the almanac of a territory for a year",
        examples: "Example:
  ./oldstyle almanac examples/samples.journal GB 1752

YEAR means two years: the months are those of the year as the territory counted it, and the
figures, the changes and the feasts are those of the year from 1 January. If the year began on
25 March, almanac 1731 has February of 1731/2, and Easter and Ash Wednesday of 1731 from 1 January.
The command year prints a single year.",
        arguments: &[
            JOURNAL,
            CODE,
            Year("The year, 1 to 9999: as counted there for the months, otherwise from 1 January"),
            EDITION,
            DEFAULT_JOURNAL,
            LIMITS,
        ],
    },
    CommandRow {
        name: "audit",
        about: "Checks that each reply of a transcript is the one that a journal gives",
        examples: "Example:
  ./oldstyle desk examples/rome.script examples/rome.questions > rome.transcript
  ./oldstyle audit examples/rome.script rome.transcript",
        arguments: &[
            JOURNAL,
            Required(
                "transcript",
                "TRANSCRIPT",
                "The file of the questions and replies of readers",
            ),
            JOURNAL_OPTION,
            LIMITS,
        ],
    },
    CommandRow {
        name: "completions",
        about: "Prints the script that lets a shell complete the program's arguments",
        examples: "Example:
  source <(./oldstyle completions bash)",
        arguments: &[Required("shell", "SHELL", "The shell: bash, zsh or fish")],
    },
];
