//! The page of a conversion, a day by each calendar, and the day of a date in one of them.
ghost use Rattle.std.specs.Prelude.{◌≡◌, ◌++◌, IfOk, OnOk, string_bytes};
ghost use Rattle.std.specs.Option.{option_to_list};
ghost use Rattle.osn_days.specs.Rules.{newest_rules};
ghost use Rattle.osn_pages.specs.Conversion as spec;
ghost use Rattle.osn_pages.specs.Law.{AreCalendarWordsWritten};

use crate::reading::Verdict;
use crate::words::DayInCalendar;
use osn_days::{Calendar, Date, Day, Weekday, day_of};
use osn_written::WrittenDate;
use std::alloc::{AllocError, Global};
use std::fmt::Write;

/// The room that the text gets at first: that of a page takes some 130 bytes.
const ROOM: usize = 160;

/// Appends the weekday of a day and its date in each calendar.
#[tactic(auto, unfolding(crate::specs::Conversion::dates_text))]
fn push_dates(out: &mut String, day: Day) -> Result<(), AllocError>
    ensures { OnOk result (string_bytes out.new ≡ string_bytes out.old ++ spec.dates_text day) }
{
    let gregorian = DayInCalendar {
        calendar: Calendar::Gregorian,
        day,
    };
    let julian = DayInCalendar {
        calendar: Calendar::Julian,
        day,
    };
    let swedish = DayInCalendar {
        calendar: Calendar::Swedish,
        day,
    };
    write!(
        out,
        "{}    {} Gregorian    {} Julian    {} Swedish",
        day.weekday().name(),
        gregorian,
        julian,
        swedish
    )
}

/// Appends the numbers of a day.
#[tactic(auto, unfolding(crate::specs::Conversion::numbers_text))]
fn push_numbers(out: &mut String, day: Day) -> Result<(), AllocError>
    ensures { OnOk result (string_bytes out.new ≡ string_bytes out.old ++ spec.numbers_text day) }
{
    write!(
        out,
        "    day {}    JDN {}",
        day.number(),
        day.julian_day_number()
    )
}

/// Returns the page of a conversion: the weekday of a day, its date in each calendar, its numbers,
/// and whether it is on the weekday that is given, if any.
///
/// # Errors
///
/// If memory runs out, and in no other case.
#[tactic(auto, unfolding(crate::specs::Conversion::conversion_page))]
pub fn conversion_page(
    alloc: Global,
    day: Day,
    given: Option<Weekday>,
) -> Result<String, AllocError>
    ensures { IfOk result (λ s. string_bytes s ≡ spec.conversion_page day given) }
{
    let mut text = String::with_capacity(alloc, ROOM)?;
    push_dates(&mut text, day)?;
    push_numbers(&mut text, day)?;
    let written = None;
    writeln!(
        &mut text,
        "{}",
        Verdict {
            written,
            given,
            day
        }
    )?;
    Ok(text)
}

/// Returns the one day that has the written date in the calendar, or `None` if no day of the line
/// has it. A double date, such as `11 February 1731/2`, is that of a territory, and no calendar has
/// it.
#[tactic(auto, using(crate::proofs::LawFacts::calendar_words_written))]
pub fn day_of_written(calendar: Calendar, date: WrittenDate) -> Option<Day>
    ensures value { option_to_list result ≡ spec.days_of_written newest_rules calendar date }
    // as a law: what a page says of a day of the line, by each calendar, is read as that day, from
    // the year 100 on
    ensures calendar_words { AreCalendarWordsWritten newest_rules }
{
    if date.is_double {
        return None;
    }
    day_of(
        calendar,
        Date {
            year: i32::from(date.year),
            month: date.month,
            day: date.day,
        },
    )
}
