//! The year of a date as a regime counts it.
ghost use Rattle.std.specs.Prelude.{◌≡◌, ◌≤ℤ◌, pos};
ghost use Rattle.osn_days.specs.Rules.{newest_rules};
ghost use Rattle.osn_days.specs.Line.{IsYearNumber};
ghost use Rattle.osn_days.specs.Chain.{date_of};
ghost use Rattle.osn_territory.specs.Style as plain;
ghost use Rattle.osn_territory.specs.LabelSearch.{year_in};
ghost use Rattle.osn_territory.specs.LabelOrder as order;

use crate::regime::Regime;
use crate::style::Style;
use osn_computus::{Rule, easter};
use osn_days::{Calendar, Date, Day, Year, date_of};

/// Returns whether a day of a year is before the 25 March that begins the year of the Annunciation.
pub(crate) fn is_before_25_march(month: u8, day: u8) -> bool
    ensures { result ≡ plain.is_before_25_march month day }
{
    month < 3 || month == 3 && day < 25
}

/// Returns whether a day of a year is in the year of the Nativity that its 25 December begins.
pub(crate) fn is_from_25_december(month: u8, day: u8) -> bool
    ensures { result ≡ plain.is_from_25_december month day }
{
    month == 12 && day >= 25
}

/// Returns whether a month is in the year of the style that its 1 September begins.
pub(crate) fn is_from_september(month: u8) -> bool
    ensures { result ≡ plain.is_from_september month }
{
    month >= 9
}

/// Returns whether a date of a calendar is before the Easter day of its year by the Julian rule.
pub(crate) fn is_before_easter(calendar: Calendar, date: Date) -> bool
    requires { IsYearNumber newest_rules date.year }
    ensures { result ≡ order.is_dated_before_easter newest_rules calendar date }
{
    let day = easter(Rule::Julian, Year::in_range(i64::from(date.year)));
    date < date_of(calendar, day)
}

/// Returns the year of a date as the regime's style counts it.
pub(crate) fn year_of(regime: Regime, date: Date) -> i32
    requires { IsYearNumber newest_rules date.year }
    ensures { result ≡ year_in newest_rules regime date }
{
    let Date { year, month, day } = date;
    match regime.style {
        Style::January => year,
        Style::Annunciation => year - is_before_25_march(month, day) as i32,
        Style::Nativity => year + is_from_25_december(month, day) as i32,
        Style::September => year + is_from_september(month) as i32,
        Style::Pisan => year + !is_before_25_march(month, day) as i32,
        Style::Easter => year - is_before_easter(regime.calendar, date) as i32,
    }
}

/// Returns the date of a day in the regime's calendar, and its year as the regime's style counts
/// it.
pub(crate) fn date_and_year(regime: Regime, day: Day) -> (Date, i32)
    ensures date { result.0 ≡ date_of regime.calendar day }
    ensures year { result.1 ≡ plain.style_year newest_rules regime day }
    ensures date_range { IsYearNumber newest_rules result.0.year }
    ensures year_range { (pos 0 ≤ℤ result.1) × (result.1 ≤ℤ pos newest_rules.last_label_year) }
{
    let _number = day.number();
    let date = date_of(regime.calendar, day);
    (date, year_of(regime, date))
}
