//! The days of the line that have a label under a regime, by the years that their dates can have.
ghost use Rattle.std.specs.Prelude.{◌≡◌, ◌+◌, ◌<◌, ◌≤◌};
ghost use Rattle.std.specs.Option.{option_to_list};
ghost use Rattle.osn_days.specs.Rules.{newest_rules};
ghost use Rattle.osn_territory.specs.Label.{days_with_label};
ghost use Rattle.osn_territory.specs.LabelSearch.{days_found, days_in_year};

use crate::candidates::Candidates;
use crate::label::{Label, date_in_year};
use crate::regime::Regime;
use crate::style_year::year_of;
use osn_days::{Day, day_of};

/// Returns the day of a year counted from 1 January that has the label. The date is tested, and
/// counted, before it is converted: most candidates need no conversion.
fn day_in_year(regime: Regime, label: Label, year: i64, tested: &mut u32) -> Option<Day>
    requires { tested.old < 3 }
    ensures value { option_to_list result ≡ days_in_year newest_rules regime label year }
    ensures tested { tested.new ≤ tested.old + 1 }
{
    let date = date_in_year(label, year)?;
    *tested += 1;
    if year_of(regime, date) != label.year {
        return None;
    }
    day_of(regime.calendar, date)
}

/// Returns the days that have the label under the regime, in order, and how many dates were tested
/// to find them. A style's year is that counted from 1 January or next to it, so three years are
/// tried, and each has one date of the month and day.
pub(crate) fn days_of_label(regime: Regime, label: Label) -> (Candidates, u32)
    ensures value { days_found result.0 ≡ days_with_label newest_rules regime label }
    ensures tested { result.1 ≤ 3 }
{
    let year = label.year as i64;
    let mut tested = 0;
    let days = Candidates {
        before: day_in_year(regime, label, year - 1, &mut tested),
        same: day_in_year(regime, label, year, &mut tested),
        after: day_in_year(regime, label, year + 1, &mut tested),
    };
    (days, tested)
}
