//! The commands that say what a date means, with their arguments.

use crate::argument::Argument::{Flag, Optional, Required, Valued};
use crate::commands::CommandRow;
use crate::common::{DEFAULT_JOURNAL, EDITION, JOURNAL, JSON, JSON_LINES, LIMITS, ORDER, PLACE};

/// The commands on dates, in the order in which help lists them.
pub(crate) const DATES: [CommandRow; 6] = [
    CommandRow {
        name: "read",
        about: "Says which day a written date means in a territory, or why it means none",
        examples: "Examples:
  ./oldstyle read examples/samples.journal GB \"11 February 1731/2\" --weekday Friday
  ./oldstyle read examples/samples.journal GB 1752-09-05

A date is written 1731-02-11, \"11 February 1731\" or \"11 February 1731/2\", with or without a
weekday before it, or in another form, such as \"11 Feb. 1731/32\". Its year is that of the
document, or both years are given. It may be a month, a year, a range or a bound, such as
\"March 1731\", \"3-10 May 1640\" or \"before 1640\", and be qualified, as in \"[about 1640?]\" or
\"11 February 1731 N.S.\". If a date means several days, those on DAY come first.",
        arguments: &[
            JOURNAL,
            PLACE,
            Required(
                "date",
                "DATE",
                "The date, as in the document; or - if each line of standard input is one",
            ),
            Valued(
                "weekday",
                "DAY",
                "The weekday that the document names, such as Friday",
            ),
            ORDER,
            Flag("strict", "Ends with status 1 if the date means no day"),
            JSON,
            EDITION,
            DEFAULT_JOURNAL,
            LIMITS,
        ],
    },
    CommandRow {
        name: "convert",
        about: "Converts a date of one calendar to every calendar and to day numbers",
        examples: "Examples:
  ./oldstyle convert julian \"2 September 1752\"
  ./oldstyle convert gregorian 1752-09-14
  ./oldstyle convert day 639797
  ./oldstyle convert jdn 2361222

The day number is what an editor writes into a change. The Julian day number (JDN) of astronomers
is the day number plus 1721425.",
        arguments: &[
            Required(
                "calendar",
                "CALENDAR",
                "The date's calendar: gregorian, julian or swedish; or the word day or jdn",
            ),
            Required(
                "date",
                "DATE",
                "The date, its year counted from 1 January; after the word day or jdn, a number",
            ),
        ],
    },
    CommandRow {
        name: "day",
        about: "Says how a territory dated a day, and in which of its periods the day is",
        examples: "Examples:
  ./oldstyle day examples/samples.journal GB 1732-02-22
  ./oldstyle day examples/samples.journal GB 639797",
        arguments: &[
            JOURNAL,
            PLACE,
            Required(
                "date",
                "DATE",
                "A Gregorian date, a day number, or a Julian day number such as \"JDN 2361222\"",
            ),
            JSON,
            EDITION,
            DEFAULT_JOURNAL,
            LIMITS,
        ],
    },
    CommandRow {
        name: "month",
        about: "Prints a month as a territory dated its days",
        examples: "Example:
  ./oldstyle month examples/samples.journal GB 1752 September

A month that is partly at the beginning and partly at the end of the year has two parts.",
        arguments: &[
            JOURNAL,
            PLACE,
            Required(
                "year",
                "YEAR",
                "The year as the territory counted it, 0 to 10000",
            ),
            Required(
                "month",
                "MONTH",
                "The month, 1 to 12 or its name, such as Sept",
            ),
            JSON,
            EDITION,
            DEFAULT_JOURNAL,
            LIMITS,
        ],
    },
    CommandRow {
        name: "year",
        about: "Prints a year as a territory counted it, with its months, changes and feasts",
        examples: "Example:
  ./oldstyle year examples/samples.journal GB 1731

The year is the territory's own, with the feasts that it dated in that year. The figures are those
of the year from 1 January, as the page says.",
        arguments: &[
            JOURNAL,
            PLACE,
            Required(
                "year",
                "YEAR",
                "The year as the territory counted it, 1 to 9999",
            ),
            JSON_LINES,
            EDITION,
            DEFAULT_JOURNAL,
            LIMITS,
        ],
    },
    CommandRow {
        name: "territory",
        about: "Lists the territories, or the periods of one",
        examples: "Examples:
  ./oldstyle territory examples/samples.journal
  ./oldstyle territory examples/samples.journal GB",
        arguments: &[
            JOURNAL,
            Optional(
                "code",
                "PLACE",
                "The territory whose periods are listed, by its code or its name",
            ),
            JSON,
            EDITION,
            DEFAULT_JOURNAL,
            LIMITS,
        ],
    },
];
