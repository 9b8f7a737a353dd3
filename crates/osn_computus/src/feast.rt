//! Easter by both rules.
ghost use Rattle.std.specs.Prelude.{◌≡◌, ◌≤◌, ◌+◌, Some, IsSomeAnd};
ghost use Rattle.osn_days.specs.Rules.{first_rules, newest_rules};
ghost use Rattle.osn_days.specs.Line.{IsDay, IsYear, weekday};
ghost use Rattle.osn_days.specs.Chain.{date_of};
ghost use Rattle.osn_computus.specs.Easter as feast;
ghost use Rattle.osn_computus.specs.Easter.{easter_of, IsInWeekAfter, IsEasterDate};

use crate::moon::paschal_moon;
use crate::rule::Rule;
use osn_days::{Day, Year};

/// Returns the first Sunday strictly after a day.
fn sunday_after(moon: Day) -> Day
    requires { IsDay newest_rules (moon + 7) }
    ensures value { feast.first_sunday_after newest_rules moon ≡ Some result }
    ensures sunday { weekday result ≡ 0 }
    ensures within { IsInWeekAfter moon result }
{
    let number = moon.number();
    Day::on_line(i64::from(number + 7 - number % 7))
}

/// Returns Easter of the year, the first Sunday strictly after the rule's paschal moon (the fifth
/// canon of *Inter gravissimas*). By the Julian rule it is from 22 March to 25 April of the Julian
/// calendar, by the Gregorian rule between the same dates of the Gregorian. Years before 1583 are
/// counted by the same rules.
pub fn easter(rule: Rule, year: Year) -> Day
    ensures value { easter_of newest_rules rule year ≡ Some result }
    // it is a Sunday, from 22 March to 25 April, and in the week after the moon
    ensures sunday { weekday result ≡ 0 }
    ensures season { IsEasterDate year (date_of (feast.calendar_of rule) result) }
    ensures moon { IsSomeAnd (feast.paschal_moon newest_rules rule year)
        (λ moon. IsInWeekAfter moon result) }
    // as a law: a year of the first rules keeps its Easter, which is a day of their line
    ensures earlier_rules { IsYear first_rules year
        → (easter_of first_rules rule year ≡ Some result) × (result ≤ first_rules.high) }
{
    sunday_after(paschal_moon(rule, year))
}
