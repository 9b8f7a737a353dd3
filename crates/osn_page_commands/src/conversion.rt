//! The command `convert`.
ghost use Rattle.std.specs.Prelude.{◌≡◌};
ghost use Rattle.osn_lines.specs.Streams.{output_of};
ghost use Rattle.osn_page_commands.specs.Conversion.{PrintsConversion};
ghost use Rattle.osn_page_commands.specs.PageRequest as spec;

use crate::date_hint::report_word;
use crate::page_request::conversion_of_words;
use osn_lines::Sink;
use osn_pages::conversion_page;
use osn_report::{Misuse, Status, print, report_no_memory};
use std::alloc::Global;

/// Returns the argument of a conversion that is wrong.
fn wrong_word_of_conversion<'a>(calendar: &'a str, date: &'a str, misuse: Misuse) -> &'a str
    ensures { result.now ≡ spec.wrong_word_of_conversion calendar.now date.now misuse }
{
    match misuse {
        Misuse::Calendar => calendar,
        _ => date,
    }
}

/// Runs the command `convert`: prints a day by every calendar and by its numbers. The day is that
/// of a date in the calendar that the first argument names; after the word `day` it is that of a
/// number.
///
/// If the arguments name no day, a line on standard error reports why, and the status says so.
pub fn convert_command<W: Sink, E: Sink>(
    alloc: Global,
    calendar: &str,
    date: &str,
    output: &mut W,
    errors: &mut E,
) -> Status
    ensures { PrintsConversion calendar.now date.now
        (output_of W.contents W.has_failed W.holds_back output.old output.new)
        (output_of E.contents E.has_failed E.holds_back errors.old errors.new) result }
{
    match conversion_of_words(alloc, calendar, date) {
        Ok(Ok((day, given))) => print(conversion_page(alloc, day, given), output, errors),
        Ok(Err(misuse)) => {
            let word = wrong_word_of_conversion(calendar, date, misuse);
            report_word(alloc, errors, misuse, word)
        }
        Err(_) => report_no_memory(errors),
    }
}
