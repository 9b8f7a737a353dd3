//! The Sunday letters of a year, and how they are written.
ghost use Rattle.std.specs.Prelude.{◌≡◌, ◌≢◌, ◌↔◌, ◌+◌, ◌%◌, pos, false, Some, IsNone, IfSome};
ghost use Rattle.std.specs.Prelude.{IfOk, string_bytes};
ghost use Rattle.osn_days.specs.Rules.{first_rules, newest_rules};
ghost use Rattle.osn_days.specs.Line.{IsYear};
ghost use Rattle.osn_days.specs.Chain as chain;
ghost use Rattle.osn_days.specs.declared.calendar.Calendar.TheVariants.{Swedish};
ghost use Rattle.osn_computus.specs.declared.letter.Letter.TheVariants.{D};
ghost use Rattle.osn_computus.specs.Letters.{letter_number, letters_of, AreSundayLetters};
ghost use Rattle.osn_computus.specs.FigureTexts as spec;

use crate::letter::Letter;
use crate::year_date::date_in;
use osn_days::{Calendar, Day, Year, day_of};
use std::alloc::{AllocError, Global};

/// The Sunday letters of a year, by the third canon of *Inter gravissimas*.
#[derive(Clone, Copy, Debug, PartialEq, Eq, Hash)]
pub struct Letters {
    /// The letter of the Sundays of January and of February before the 29th.
    pub january: Letter,
    /// The letter of the Sundays from March on. It differs from the other in a leap year alone.
    pub march: Letter,
}

/// The places from A to D, the letter of 1 February and 1 March in every year.
const PLACE_OF_D: u32 = 3;

/// Returns the letter of the next Sundays, from a day whose letter is D: the letter of a Sunday
/// some days later is as many places after D.
fn sunday_letter(day: Day) -> Letter
    ensures { (letter_number result + day) % 7 ≡ letter_number D }
{
    Letter::at((PLACE_OF_D + 7 - day.number() % 7) % 7)
}

/// Returns the Sunday letters in a calendar that has them. Both days are on the line in every year.
fn letters_of_year(calendar: Calendar, year: Year) -> Letters
    requires { calendar ≢ Swedish }
    ensures value { letters_of newest_rules calendar year ≡ Some result }
    ensures sundays { AreSundayLetters newest_rules calendar year result }
    ensures common_year { chain.is_leap calendar (pos year) ≡ false
        → result.january ≡ result.march }
{
    let february_1 = day_of(calendar, date_in(year, 2, 1)).unwrap();
    let march_1 = day_of(calendar, date_in(year, 3, 1)).unwrap();
    Letters {
        january: sunday_letter(february_1),
        march: sunday_letter(march_1),
    }
}

/// Returns the Sunday letters of the year, or `None` for a calendar that has none: the Swedish.
pub fn sunday_letters(calendar: Calendar, year: Year) -> Option<Letters>
    ensures value { result ≡ letters_of newest_rules calendar year }
    // as a law: a year of the first rules keeps its letters
    ensures earlier_rules { IsYear first_rules year
        → result ≡ letters_of first_rules calendar year }
    ensures none { IsNone result ↔ (calendar ≡ Swedish) }
    // each Sunday has its letter, and in a common year both letters are the same
    ensures sundays { IfSome result (AreSundayLetters newest_rules calendar year) }
    ensures common_year { IfSome result (λ letters. chain.is_leap calendar (pos year) ≡ false
        → letters.january ≡ letters.march) }
{
    match calendar {
        Calendar::Julian | Calendar::Gregorian => Some(letters_of_year(calendar, year)),
        Calendar::Swedish => None,
    }
}

/// Returns one letter for a common year and two for a leap year, that of January first.
///
/// # Errors
///
/// If memory runs out, and in no other case.
#[tactic(auto, unfolding(crate::specs::FigureTexts::letters_text))]
pub fn letters_text(alloc: Global, letters: Letters) -> Result<String, AllocError>
    ensures { IfOk result (λ s. string_bytes s ≡ spec.letters_text letters) }
{
    let mut text = String::with_capacity(alloc, 2)?;
    text.push_str(letters.january.name())?;
    if letters.march != letters.january {
        text.push_str(letters.march.name())?;
    }
    Ok(text)
}
