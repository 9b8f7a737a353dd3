//! The golden number, the indiction and the epacts.
ghost use Rattle.std.specs.Prelude.{◌≡◌, IsSome};
ghost use Rattle.osn_computus.specs.Figures as figure;
ghost use Rattle.osn_computus.specs.Moon.{julian_full_moon};

use crate::epact::Epact;
use osn_days::Year;

/// Returns the golden number, the year's place in the cycle of 19 years, from 1 to 19: the first
/// canon of *Inter gravissimas*.
pub fn golden_number(year: Year) -> u8
    ensures value { result ≡ figure.golden_number year }
    // each golden number has its full moon in the table of the Julian cycle
    ensures moon { IsSome (julian_full_moon result) }
{
    (year.number() % 19) as u8 + 1
}

/// Returns the indiction, the year's place in the cycle of 15 years, from 1 to 15: the fourth
/// canon.
pub fn indiction(year: Year) -> u8
    ensures { result ≡ figure.indiction year }
{
    ((year.number() + 2) % 15) as u8 + 1
}

/// Returns the epact of the Julian reckoning, from 0 to 29: 0 in the first year of the cycle of 19
/// years.
pub fn julian_epact(year: Year) -> u8
    ensures { result ≡ figure.julian_epact year }
{
    ((golden_number(year) as u32 - 1) * 11 % 30) as u8
}

/// Returns the epact of the Gregorian reckoning, by the second canon. Years before 1583 are counted
/// by the same rule.
pub fn gregorian_epact(year: Year) -> Epact
    ensures { result ≡ figure.gregorian_epact year }
{
    let golden = golden_number(year);
    let century = year.number() / 100 + 1;
    // The cycle begins with 8 and adds 11 a year. The lunar correction adds 8 days in 25 centuries,
    // and the solar one subtracts 3 in 4.
    let added = 8 + (golden as u32 - 1) * 11 + (century * 8 + 5) / 25;
    let passed_over = century * 3 / 4;
    let number = (added as i32 - passed_over as i32).rem_euclid(30) as u8;
    Epact {
        number,
        prime: number == 25 && golden > 11,
    }
}
