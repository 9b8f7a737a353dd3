//! The paschal moon by both rules.
ghost use Rattle.std.specs.Prelude.{◌≡◌, ◌+◌, ◌<◌, Some};
ghost use Rattle.osn_days.specs.Rules.{newest_rules};
ghost use Rattle.osn_days.specs.Line.{IsYear};
ghost use Rattle.osn_computus.specs.Figures as figure;
ghost use Rattle.osn_computus.specs.Moon.{after_march_1, julian_full_moon, gregorian_new_moon};
ghost use Rattle.osn_computus.specs.Easter as feast;

use crate::epact::Epact;
use crate::figures::{golden_number, gregorian_epact};
use crate::rule::Rule;
use crate::year_date::date_in;
use osn_days::{Day, Year, day_of};

/// Returns the days from 21 March to the full moon of the Julian rule. For golden number 1, these
/// are 15 days, to 5 April. For each next golden number the moon is 19 days later or 11 days
/// earlier.
fn julian_moon_days(year: Year) -> u32
    ensures table { julian_full_moon (figure.golden_number year)
        ≡ Some (after_march_1 (20 + result)) }
    ensures bound { result < 29 }
{
    let golden = u32::from(golden_number(year));
    (15 + 19 * (golden - 1)) % 30
}

/// Returns the days from 21 March to the fourteenth day of the moon of the Gregorian rule, 13 days
/// after the new moon. Epact 23 has its new moon on 8 March, and each epact that is less by one has
/// it a day later. But 24 is one day early, with 25 on 5 April, and 25 with a prime is with 26 on 4
/// April.
fn gregorian_moon_days(year: Year) -> u32
    ensures table { gregorian_new_moon (figure.gregorian_epact year)
        ≡ Some (after_march_1 (7 + result)) }
    ensures bound { result < 29 }
{
    let Epact { number, prime } = gregorian_epact(year);
    let days = (30 + 23 - u32::from(number)) % 30;
    days - u32::from(number == 24 || prime)
}

/// Returns the paschal full moon or the fourteenth day of the paschal moon. Every year of the range
/// has its 21 March on the line.
pub fn paschal_moon(rule: Rule, year: Year) -> Day
    ensures value { feast.paschal_moon newest_rules rule year ≡ Some result }
    ensures in_range { IsYear newest_rules year }
{
    let days = match rule {
        Rule::Julian => julian_moon_days(year),
        Rule::Gregorian => gregorian_moon_days(year),
    };
    let march_21 = day_of(rule.calendar(), date_in(year, 3, 21)).unwrap();
    Day::on_line(i64::from(march_21.number() + days))
}
