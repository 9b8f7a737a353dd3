//! A day as a regime dates it: its label, and the year of its date counted from 1 January.
ghost use Rattle.std.specs.Prelude.{◌≡◌, false, Some};
ghost use Rattle.osn_days.specs.Rules.{newest_rules};
ghost use Rattle.osn_territory.specs.Dating as spec;
ghost use Rattle.osn_days.specs.Chain.{date_of};
ghost use Rattle.osn_territory.specs.Dual as dual;
ghost use Rattle.osn_territory.specs.Style.{is_from_easter};
ghost use Rattle.osn_territory.specs.LabelOrder.{label_date};

use crate::dual::later_part;
use crate::label::Label;
use crate::regime::Regime;
use crate::style_year::date_and_year;
use osn_days::{Day, month_name};
use std::fmt;

/// A day as a regime dates it: the day, its label, and the year of its date counted from 1 January,
/// which may be another one than the label's. Its text has both years if the label's is the lesser:
/// `3 January 1700`, `11 February 1731/2`.
#[derive(Clone, Copy, Debug, PartialEq, Eq)]
pub struct DatedDay {
    pub day: Day,
    pub label: Label,
    pub january_year: i32,
}

/// Returns the day as the regime dates it.
pub fn dated_day(regime: Regime, day: Day) -> DatedDay
    ensures value { result ≡ spec.dated_day newest_rules regime day }
    // as a law: its text is that of the day under the regime
    ensures text { spec.dated_text result ≡ dual.dual_text newest_rules regime day }
    // as a law: if the style's years begin on a fixed date, the label reads as the day's date
    ensures ordered { is_from_easter regime.style ≡ false
        → label_date newest_rules regime result.label ≡ date_of regime.calendar day }
{
    let (date, year) = date_and_year(regime, day);
    DatedDay {
        day,
        label: Label {
            year,
            month: date.month,
            day: date.day,
        },
        january_year: date.year,
    }
}

/// The years of a dated day: that of its label, and after a `/` what is new in the year counted
/// from 1 January, if that is later: `1700`, `1731/2`.
#[derive(Clone, Copy, Debug, PartialEq, Eq)]
pub struct DatedYears(pub DatedDay);

impl fmt::Display for DatedYears {
    ghost output = { λ x. Some (spec.years_text x.0) };

    #[tactic(auto, unfolding(crate::specs::Dating::years_text))]
    fn fmt<W: fmt::Write>(&self, f: &mut fmt::Formatter<W>) -> fmt::Result {
        let year = self.0.label.year.unsigned_abs();
        let january = self.0.january_year.unsigned_abs();
        if year < january {
            write!(f, "{year}/{}", later_part(year, january))
        } else {
            write!(f, "{year}")
        }
    }
}

impl fmt::Display for DatedDay {
    ghost output = { λ x. Some (spec.dated_text x) };

    #[tactic(auto, unfolding(crate::specs::Dating::dated_text))]
    fn fmt<W: fmt::Write>(&self, f: &mut fmt::Formatter<W>) -> fmt::Result {
        let label = self.label;
        write!(
            f,
            "{} {} {}",
            label.day,
            month_name(label.month),
            DatedYears(*self)
        )
    }
}
