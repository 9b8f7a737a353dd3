//! The days, years and labels of numbers that a request gives, if they are in their ranges.
ghost use Rattle.std.specs.Prelude.{◌≡◌, true, false, IfOk, MatchResult, unsigned_abs};
ghost use Rattle.osn_days.specs.Rules.{newest_rules};
ghost use Rattle.osn_register.specs.Refusal.{IsCheckOf};
ghost use Rattle.osn_register.specs.declared.refusal.Refusal.TheVariants.{DayOffLine, YearOffRange};
ghost use Rattle.osn_register.specs.Plain.{is_off_line, is_off_years};
ghost use Rattle.osn_register.specs.Answer.{label_from};
ghost use Rattle.osn_register.specs.QueryRefusal.{date_refusal};

use crate::refusal::Refusal;
use osn_days::{Day, Year};
use osn_territory::Label;

/// The last year that a label may have.
const LAST_LABEL_YEAR: i64 = 10_000;

/// Returns the day of a number, if it is on the line.
pub(crate) fn day_on_line(number: i64) -> Result<Day, Refusal>
    ensures { MatchResult result
        (λ d. (is_off_line newest_rules number ≡ false) × (d ≡ unsigned_abs number))
        (λ f. (is_off_line newest_rules number ≡ true) × (f ≡ DayOffLine)) }
{
    Day::new(number).ok_or(Refusal::DayOffLine)
}

/// Returns the year of a number, if it has figures, an Easter and exceptions.
pub(crate) fn year_in_range(number: i64) -> Result<Year, Refusal>
    ensures { MatchResult result
        (λ y. (is_off_years newest_rules number ≡ false) × (y ≡ unsigned_abs number))
        (λ f. (is_off_years newest_rules number ≡ true) × (f ≡ YearOffRange)) }
{
    Year::new(number).ok_or(Refusal::YearOffRange)
}

/// Returns the label of a date that is asked for, if it may be one.
pub(crate) fn label_of_numbers(year: i64, month: i64, day: i64) -> Result<Label, Refusal>
    ensures test { IsCheckOf (date_refusal newest_rules year month day) result }
    ensures value { IfOk result (λ l. l ≡ label_from year month day) }
{
    if year < 0 || year > LAST_LABEL_YEAR {
        return Err(Refusal::YearOffRange);
    }
    if month < 1 || month > 12 || day < 1 || day > 31 {
        return Err(Refusal::BadDate);
    }
    Ok(Label {
        year: year as i32,
        month: month as u8,
        day: day as u8,
    })
}
