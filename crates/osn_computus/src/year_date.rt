//! The date of a month and a day in a year.
ghost use Rattle.std.specs.Prelude.{◌≡◌};
ghost use Rattle.osn_days.specs.Rules.{newest_rules};
ghost use Rattle.osn_days.specs.Line.{IsYear};
ghost use Rattle.osn_computus.specs.Easter as feast;

use osn_days::{Date, Year};

/// Returns the date of a month and a day in a year.
pub fn date_in(year: Year, month: u8, day: u8) -> Date
    ensures value { result ≡ feast.date_in year (record { month = month; day = day }) }
    ensures in_range { IsYear newest_rules year }
{
    Date {
        year: year.number() as i32,
        month,
        day,
    }
}
