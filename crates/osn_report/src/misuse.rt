//! Arguments that are wrong.
ghost use Rattle.std.specs.Prelude.{◌≡◌, Some, IfOk, string_bytes};
ghost use Rattle.osn_lines.specs.Streams.{output_of};
ghost use Rattle.osn_report.specs.Misuse as spec;
ghost use Rattle.osn_report.specs.Messages.{ReportsMisuse};

use crate::fault_report::report_line;
use crate::status::Status;
use osn_days::{Calendar, Keyword, Weekday};
use osn_lines::{EscapedText, Sink};
use osn_written::DateFault;
use std::alloc::{AllocError, Global};
use std::fmt;

/// Why an argument is wrong. Its text says what the argument must be.
#[derive(Clone, Copy, Debug, PartialEq, Eq)]
pub enum Misuse {
    /// It must be a date, or a part of one, and has this fault.
    Date(DateFault),
    /// It must be a weekday, and isn't one.
    Weekday,
    /// It is a weekday, and the date names this other one.
    OtherWeekday(Weekday),
    /// It must be a calendar, and isn't one.
    Calendar,
    /// It must be a day number, and isn't one.
    DayNumber,
    /// It must be the Julian day number of a day of the line, and isn't one.
    JulianDayNumber,
    /// It is this number alone, which may be a day number or a Julian day number.
    WhichDayNumber(u32),
    /// It is a number that may be a day number or a Julian day number, and `convert` is asked for
    /// its day.
    WhichConversion(u32),
    /// It is a date with both years, but must be a date of a calendar.
    DoubleDate,
    /// The calendar has no such date, or the date is off the line of days.
    NoSuchDate(Calendar),
    /// It must be a month, and isn't one.
    Month,
    /// It must be a year with figures, as a territory counted it, and isn't one.
    Year,
    /// It must be limits, and isn't.
    Limits,
    /// It must be a separator of fields, and isn't one.
    Separator,
    /// It must be an order of a date's three numbers, and isn't one.
    Order,
    /// It is a date that may begin with its day or its month, and an order may be named beside it.
    OpenOrder,
    /// It names a column of dates, together with one of their years, months or days.
    DateAndParts,
    /// It names a column of months or days, without one of years.
    PartWithoutYear,
    /// It names a column of days, without one of months.
    DayWithoutMonth,
    /// It names the place of all rows, with a column of places.
    PlaceAndColumn,
    /// It must be a shell, and isn't one.
    Shell,
}

/// Returns the text on how a date must be written, if the text names no date that was read.
fn usual_text(fault: DateFault) -> &'static str
    ensures { result.now ≡ spec.usual_text fault }
{
    match fault {
        DateFault::Malformed => {
            "a date is written 1731-02-11, \"11 February 1731\" or \"11 February 1731/2\", \
with or without a weekday before it"
        }
        DateFault::LaterYear => {
            "after the / comes the year that follows, in full or by its last digits, \
such as 1731/2, 1731/32 or 1731/1732"
        }
        DateFault::Year => "a year is 0 to 10000",
        DateFault::Month => "a month is 1 to 12",
        DateFault::Day => "a day of a month is 1 to 31",
        DateFault::NoDate => {
            "it says that there is no date: write a day, such as \"11 February 1731\""
        }
        DateFault::NotOneDay => {
            "the date is not written as a day: write it as in \"11 February 1731\""
        }
        DateFault::Qualifier => {
            "about, ?, [ ], O.S. and the like say more than the day: write only the day"
        }
        DateFault::ShortYear => "a year of one or two digits needs leading zeros, such as 0045",
        DateFault::OpenYear => {
            "a year with an open digit may be any of several: \
write it in four digits, such as 1731 or 0173"
        }
        DateFault::DayOrMonth => {
            "a date such as 11/2/1731 may be 11 February or 2 November: \
write the month by its name"
        }
        DateFault::BothCalendars | DateFault::TwoDays { .. } => {
            "a day by both calendars has the two dates of one day, such as 3/13 June 1675, and \
from 1 January to 24 March a double year, such as 3/13 Feb. 1674/5"
        }
        DateFault::NamedCalendar => {
            "a day by both calendars names both of them or neither, such as \
3 June O.S./13 June N.S. 1675"
        }
        DateFault::Feast => "this feast is not read: write its day",
        DateFault::RomanNumeral => {
            "a Roman numeral is read as the day beside a month's name, such as xi February 1731, \
or as the month between two numbers; xx, MD and single letters are ordinary words too: \
write it in digits"
        }
        DateFault::OpenPart => {
            "early, mid, late and the halves are parts of a month, a year, a decade or a century, \
and a winter spans two years: write the months, such as December 1675 to February 1676"
        }
    }
}

/// How a date must be written.
#[derive(Clone, Copy)]
struct DateText(DateFault);

impl fmt::Display for DateText {
    ghost output = { λ x. Some (spec.date_text x.0) };

    fn fmt<W: fmt::Write>(&self, f: &mut fmt::Formatter<W>) -> fmt::Result {
        match self.0 {
            DateFault::TwoDays { old, new, written } => {
                write!(f, "{old} old style was {new} new style, not {written}")
            }
            fault => f.write_str(usual_text(fault)),
        }
    }
}

impl fmt::Display for Misuse {
    ghost output = { λ misuse. Some (spec.misuse_text misuse) };

    fn fmt<W: fmt::Write>(&self, f: &mut fmt::Formatter<W>) -> fmt::Result {
        match *self {
            Misuse::Date(fault) => write!(f, "{}", DateText(fault)),
            Misuse::Weekday => f.write_str(
                "a weekday is written by its English name, such as Friday",
            ),
            Misuse::OtherWeekday(named) => write!(
                f,
                "the date names {}: write one weekday, or the same one twice",
                named.name()
            ),
            Misuse::Calendar => f.write_str(
                "a calendar is gregorian, julian or swedish; after the word day or jdn, write a \
number",
            ),
            Misuse::DayNumber => f.write_str("a day number is 1 to 3652059"),
            Misuse::JulianDayNumber => {
                f.write_str("a Julian day number is 1721426 to 5373484, such as \"JDN 2353712\"")
            }
            Misuse::WhichDayNumber(number) => write!(
                f,
                "{number} may be a day number or a Julian day number: write \"day {number}\" or \
\"JDN {number}\" in its place, with the quotes",
            ),
            Misuse::WhichConversion(number) => write!(
                f,
                "{number} may be a day number or a Julian day number: write oldstyle convert jdn \
{number}, or oldstyle convert day \"day {number}\"",
            ),
            Misuse::DoubleDate => f.write_str(
                "a date with both years depends on a territory: use oldstyle read",
            ),
            Misuse::NoSuchDate(calendar) => write!(
                f,
                "the {} calendar has no such date in the years 1 to 9999",
                calendar.word()
            ),
            Misuse::Month => f.write_str(
                "a month is 1 to 12 or its name, such as September or Sept",
            ),
            Misuse::Year => f.write_str(
                "a year is 1 to 9999 as the place counted it: for 1731/2 write 1731",
            ),
            Misuse::Limits => f.write_str(
                "limits are some of lands=N,changes=N,exceptions=N,edits=N,editions=N, \
separated by commas",
            ),
            Misuse::Separator => f.write_str("a separator is comma, semicolon or tab"),
            Misuse::Order => f.write_str(
                "an order is dmy, for 11/2/1731 as 11 February, or mdy, for 2/11/1731",
            ),
            Misuse::OpenOrder => f.write_str(
                "a date such as 11/2/1731 may be 11 February or 2 November: \
write the month by its name, or use --order dmy or mdy",
            ),
            Misuse::DateAndParts => f.write_str(
                "it can't be used with --year, --month or --day: leave it out, or leave them out",
            ),
            Misuse::PartWithoutYear => {
                f.write_str("it requires --year: name the column of years too")
            }
            Misuse::DayWithoutMonth => {
                f.write_str("it requires --month: name the column of months too")
            }
            Misuse::PlaceAndColumn => {
                f.write_str("it can't be used with --place: leave out one of them")
            }
            Misuse::Shell => f.write_str("a shell is bash, zsh or fish"),
        }
    }
}

/// Returns the line on an argument, as it was typed.
///
/// # Errors
///
/// If memory runs out.
pub fn misuse_line(alloc: Global, misuse: Misuse, argument: &str) -> Result<String, AllocError>
    ensures { IfOk result (λ line. string_bytes line ≡ spec.misuse_line misuse argument.now) }
{
    format!(in alloc; "oldstyle: {}: {misuse}\n", EscapedText(argument))
}

/// Reports on standard error what an argument must be, with the argument as it was typed. Returns
/// the status.
pub fn report_misuse<E: Sink>(
    alloc: Global,
    errors: &mut E,
    misuse: Misuse,
    argument: &str,
) -> Status
    ensures { ReportsMisuse
        (output_of E.contents E.has_failed E.holds_back errors.old errors.new) misuse argument.now
        result }
{
    report_line(
        errors,
        Status::Misused,
        misuse_line(alloc, misuse, argument),
    )
}
