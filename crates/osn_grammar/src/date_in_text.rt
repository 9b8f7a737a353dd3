//! The date that a text is, for a query, and for one that is about a day.
ghost use Rattle.std.specs.Prelude.{◌≡◌, IfOk};
ghost use Rattle.osn_days.specs.Rules.{newest_rules};
ghost use Rattle.osn_territory.specs.Territory.{TerritoryModel};
ghost use Rattle.osn_grammar.specs.DualTexts.{AreDualTextsWritten, AreNamedDaysWritten};
ghost use Rattle.osn_grammar.specs.DualTexts.{AreDualTextsMeant};
ghost use Rattle.osn_grammar.specs.ReadDate as spec;

use crate::reading::read_date;
use crate::set::members_of;
use crate::text_reading::{DateOrder, TextReading};
use osn_written::{DateFault, DateReading, Listing, WrittenDate, plain_day};
use std::alloc::{AllocError, Global};

/// Returns the date that a text is, or why it is not a date, for a query in a territory: the date
/// or the set of dates of `read_date`.
///
/// # Errors
///
/// If memory runs out.
#[tactic(auto, unfolding(crate::specs::ReadDate::date_reading))]
pub fn date_reading(alloc: Global, text: &str) -> Result<DateReading, AllocError>
    ensures { IfOk result (λ date. date ≡ spec.date_reading text.now) }
{
    match read_date(alloc, text, DateOrder::Unknown)? {
        Ok(TextReading::Date(date)) => Ok(DateReading::Date(date)),
        Ok(TextReading::Set) => Ok(DateReading::Set(Listing::new(members_of(alloc, text)?))),
        Ok(TextReading::NoDate) => Ok(DateReading::Fault(DateFault::NoDate)),
        Err(fault) => Ok(DateReading::Fault(fault)),
    }
}

/// Returns the date of one day that was read, or why no such date was read.
fn day_read(read: Result<TextReading, DateFault>) -> Result<WrittenDate, DateFault>
    ensures { result ≡ spec.day_read read }
{
    match read {
        Ok(TextReading::Date(date)) => plain_day(date),
        Ok(TextReading::NoDate) => Err(DateFault::NoDate),
        Ok(TextReading::Set) => Err(DateFault::NotOneDay),
        Err(fault) => Err(fault),
    }
}

/// Returns the date of one day that a text is, such as `1731-02-11`, `11 February 1731/2`,
/// `Friday 11 February 1731`, `11 Feb. 1731/32` or `Feb 11, 1731`. `docs/DATES.md` has all forms.
/// If the text is not such a date, the inner result has the fault.
///
/// # Errors
///
/// If memory runs out.
#[tactic(auto, using(crate::proofs::DualLaw::dual_laws, crate::proofs::Meant::texts_meant), unfolding(crate::specs::ReadDate::written_date))]
pub fn parse_day(alloc: Global, text: &str) -> Result<Result<WrittenDate, DateFault>, AllocError>
    ensures value { IfOk result (λ date. date ≡ spec.written_date text.now) }
    // as a law: the dual text of each day of the line, under each regime, is a date with the label
    // of the day, from the year 100 on. It is a double one if the day has both years
    ensures dual { AreDualTextsWritten newest_rules }
    // as a law: the dual text with the name of the day's weekday before it is read as that date,
    // and the weekday is the date's
    ensures named { AreNamedDaysWritten newest_rules }
    // as a law: in each territory the dual text of each day means that day
    ensures meant { (t : TerritoryModel) → AreDualTextsMeant newest_rules t }
{
    let read = read_date(alloc, text, DateOrder::Unknown)?;
    Ok(day_read(read))
}
