//! The place of a label among the days of a regime, whether a day has it or not.
ghost use Rattle.std.specs.Prelude.{◌≡◌};
ghost use Rattle.osn_days.specs.Rules.{newest_rules};
ghost use Rattle.osn_territory.specs.LabelOrder as order;

use crate::label::{Label, date_in_year};
use crate::regime::Regime;
use crate::style::Style;
use crate::style_year::{
    date_and_year, is_before_25_march, is_before_easter, is_from_25_december, is_from_september,
};
use osn_days::{Calendar, Day};

/// Returns the year whose Easter parts the dates of the label's year: for year 0, in which the line
/// begins, that is year 1.
fn parting_year(label: Label) -> i64
    ensures { result ≡ order.parting_year label }
{
    if label.year < 1 {
        1
    } else {
        i64::from(label.year)
    }
}

/// Returns whether the label's month and day are before the Easter of that year by the Julian rule.
fn is_labelled_before_easter(calendar: Calendar, label: Label) -> bool
    ensures { result ≡ order.is_labelled_before_easter newest_rules calendar label }
{
    match date_in_year(label, parting_year(label)) {
        Some(date) => is_before_easter(calendar, date),
        None => false,
    }
}

/// Returns the year counted from 1 January in which the regime's style has the label's month and
/// day.
fn counted_year(regime: Regime, label: Label) -> i64
    ensures { result ≡ (order.label_date newest_rules regime label).year }
{
    let year = i64::from(label.year);
    match regime.style {
        Style::January => year,
        Style::Annunciation => year + is_before_25_march(label.month, label.day) as i64,
        Style::Nativity => year - is_from_25_december(label.month, label.day) as i64,
        Style::September => year - is_from_september(label.month) as i64,
        Style::Pisan => year - !is_before_25_march(label.month, label.day) as i64,
        Style::Easter => year + is_labelled_before_easter(regime.calendar, label) as i64,
    }
}

/// Returns whether the label comes after the day's in the order of the regime's style, whose years
/// go first.
#[tactic(auto, unfolding(crate::specs::LabelOrder::is_after))]
pub(crate) fn is_after(regime: Regime, label: Label, day: Day) -> bool
    ensures { result ≡ order.is_after newest_rules regime label day }
{
    let (date, style_year) = date_and_year(regime, day);
    let year = counted_year(regime, label);
    style_year < label.year
        || style_year == label.year
            && (i64::from(date.year), date.month, date.day) < (year, label.month, label.day)
}

/// Returns whether the label comes before the day's in that order.
#[tactic(auto, unfolding(crate::specs::LabelOrder::is_before))]
pub(crate) fn is_before(regime: Regime, label: Label, day: Day) -> bool
    ensures { result ≡ order.is_before newest_rules regime label day }
{
    let (date, style_year) = date_and_year(regime, day);
    let year = counted_year(regime, label);
    label.year < style_year
        || label.year == style_year
            && (year, label.month, label.day) < (i64::from(date.year), date.month, date.day)
}
