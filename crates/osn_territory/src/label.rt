//! A date as a territory writes it, and the days that have it under a regime.
ghost use Rattle.std.specs.Prelude.{◌≡◌, ◌↔◌, ◌≤◌, IsSome, IfSome, length};
ghost use Rattle.osn_days.specs.Line.{IsYearNumber};
ghost use Rattle.osn_days.specs.Rules.{first_rules, newest_rules};
ghost use Rattle.osn_territory.specs.LabelSearch.{date_in};
ghost use Rattle.osn_territory.specs.Label.{local_label, days_with_label, first_two};

use crate::label_days::days_of_label;
use crate::regime::Regime;
use crate::style_year::date_and_year;
use osn_days::{Date, Day, Year};

/// A date as a territory writes it: the style's year, the month and the day of the month. The
/// numbers may be any. The label of a day of the line has a year from 0 to 10000.
#[derive(Clone, Copy, Debug, PartialEq, Eq, Hash)]
pub struct Label {
    pub year: i32,
    pub month: u8,
    pub day: u8,
}

/// Returns the label of a day under a regime.
pub fn label_of(regime: Regime, day: Day) -> Label
    ensures value { result ≡ local_label newest_rules regime day }
    // as a law: a day of the first rules' line keeps its label
    ensures earlier_rules { day ≤ first_rules.high → result ≡ local_label first_rules regime day }
{
    let (date, year) = date_and_year(regime, day);
    Label {
        year,
        month: date.month,
        day: date.day,
    }
}

/// Returns the date of the label's month and day in a year counted from 1 January.
pub(crate) fn date_in_year(label: Label, year: i64) -> Option<Date>
    ensures in_range { IsSome result ↔ IsYearNumber newest_rules year }
    ensures value { IfSome result (λ date. date ≡ date_in year label) }
{
    let year = Year::new(year)?;
    Some(Date {
        year: year.number() as i32,
        month: label.month,
        day: label.day,
    })
}

/// Returns the days that have the label under the regime: the least one, then the other one. Each
/// is `None` exactly if there is no such day, so the second is there only if the first is. Only a
/// year from Easter to Easter may have a date twice. No label has three days.
pub fn day_of_label(regime: Regime, label: Label) -> [Option<Day>; 2]
    ensures days { result ≡ first_two (days_with_label newest_rules regime label) }
    ensures no_third { length (days_with_label newest_rules regime label) ≤ 2 }
{
    days_of_label(regime, label).0.pair()
}
