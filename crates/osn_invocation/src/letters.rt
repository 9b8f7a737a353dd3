//! What the command `letters` has to do, by its arguments.

ghost use Rattle.std.specs.Prelude.{◌≡◌};
ghost use Rattle.clap.specs.Words.{found_of, rows_of};
ghost use Rattle.osn_invocation.specs.Invocation.{command_model, date_model, date_options};
ghost use Rattle.osn_invocation.specs.Invocation.{letters_command};

use crate::invocation::CommandWords;
use crate::values::{is_given, text_of, value_of};
use clap::ArgMatches;

/// The names of the columns that say the date, if they are named. The command checks which of them
/// can be used together.
#[derive(Clone, Copy, Debug, PartialEq, Eq)]
pub struct DateOptions<'a> {
    /// The name of the column of whole dates.
    pub date: Option<&'a str>,
    /// The name of the column of years.
    pub year: Option<&'a str>,
    /// The name of the column of months.
    pub month: Option<&'a str>,
    /// The name of the column of days.
    pub day: Option<&'a str>,
}

/// How a table of letters is read, and what is reported of it.
#[derive(Clone, Copy, Debug, PartialEq, Eq)]
pub struct LettersOptions<'a> {
    /// The name of the column of places, if it is named.
    pub place: Option<&'a str>,
    /// The place of all rows, if it is named.
    pub place_of_all: Option<&'a str>,
    /// The names of the columns that say the date.
    pub date: DateOptions<'a>,
    /// The name of the column of weekdays, if it is named.
    pub weekday: Option<&'a str>,
    /// The file of the table of places, if there is one.
    pub places: Option<&'a str>,
    /// The word of what separates the fields, if it is named.
    pub separator: Option<&'a str>,
    /// The word of the order in which a date's three numbers are read, if it is named.
    pub order: Option<&'a str>,
    /// The word of the edition, if one is named.
    pub edition: Option<&'a str>,
    /// Whether a remark is a refusal.
    pub strict: bool,
    /// Whether the number of rows with each remark is printed at the end.
    pub summary: bool,
    /// Whether the added columns of a table that was read before are replaced.
    pub replace: bool,
    /// Whether the table goes on after a record that has a flaw.
    pub keep_going: bool,
}

/// Returns the names of the columns that say the date.
fn date_options_of<'a>(matches: &ArgMatches<'a>) -> DateOptions<'a>
    ensures { date_model result ≡ date_options (rows_of (found_of matches.now)) }
{
    DateOptions {
        date: value_of(matches, "date"),
        year: value_of(matches, "year"),
        month: value_of(matches, "month"),
        day: value_of(matches, "day"),
    }
}

/// Returns what the arguments of `letters` ask for.
pub(crate) fn letters_of<'a>(matches: &ArgMatches<'a>) -> CommandWords<'a>
    ensures { command_model result ≡ letters_command (rows_of (found_of matches.now)) }
{
    CommandWords::Letters {
        journal: text_of(matches, "journal"),
        table: value_of(matches, "table"),
        options: LettersOptions {
            place: value_of(matches, "place"),
            place_of_all: value_of(matches, "in"),
            date: date_options_of(matches),
            weekday: value_of(matches, "weekday"),
            places: value_of(matches, "places"),
            separator: value_of(matches, "separator"),
            order: value_of(matches, "order"),
            edition: value_of(matches, "edition"),
            strict: is_given(matches, "strict"),
            summary: is_given(matches, "summary"),
            replace: is_given(matches, "replace"),
            keep_going: is_given(matches, "keep-going"),
        },
    }
}
