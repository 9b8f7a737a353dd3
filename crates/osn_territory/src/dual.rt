//! The English text of a day under a regime, with both years if they differ.
ghost use Rattle.std.specs.Prelude.{◌≡◌, ◌<◌, ◌≤◌, ◌++◌, IfOk, OnOk, pos, codes, string_bytes};
ghost use Rattle.std.specs.Fmt.{decimal};
ghost use Rattle.osn_days.specs.Rules.{first_rules, newest_rules};
ghost use Rattle.osn_territory.specs.Dual as dual;

use crate::regime::Regime;
use crate::style_year::date_and_year;
use itoa::Buffer;
use osn_days::{Day, month_name};
use std::alloc::{AllocError, Global};

/// The room that a text is given at first: `30 September 1999/2000` needs 22 bytes.
const ROOM: usize = 24;

/// Returns the later of two years from its first digit that differs from the earlier one's, or in
/// full if their lengths differ. It is 2 for 1731 and 1732, 700 for 1699 and 1700, and 10 for 9 and
/// 10.
pub(crate) fn later_part(earlier: u32, later: u32) -> u32
    requires { earlier < later }
    ensures digits { decimal result ≡ dual.later_digits (decimal earlier) (decimal later) }
    ensures positive { 1 ≤ result }
    ensures within { result ≤ later }
{
    let last = later % 10;
    if earlier / 10 == later / 10 {
        last
    } else {
        10 * later_part(earlier / 10, later / 10) + last
    }
}

/// Appends `front` and then a number.
fn push_number(text: &mut String, front: &str, number: u32) -> Result<(), AllocError>
    ensures { OnOk result (string_bytes text.new
        ≡ string_bytes text.old ++ (front.now ++ decimal number)) }
{
    text.push_str(front)?;
    let mut digits = Buffer::new();
    text.push_str(digits.format(number))
}

/// Writes a year of a style, with the year counted from 1 January if that is later.
fn push_year(text: &mut String, style_year: u32, year: u32) -> Result<(), AllocError>
    ensures { OnOk result (string_bytes text.new
        ≡ string_bytes text.old ++ (codes " " ++ dual.year_text (pos style_year) (pos year))) }
{
    push_number(text, " ", style_year)?;
    if style_year < year {
        push_number(text, "/", later_part(style_year, year))?;
    }
    Ok(())
}

/// Returns the day as the regime dates it, in English, with both years if the style's is the
/// lesser: `3 January 1700`, `11 February 1731/2`.
///
/// # Errors
///
/// `AllocError` if there is no memory for the text.
pub fn dual_text(alloc: Global, regime: Regime, day: Day) -> Result<String, AllocError>
    ensures value { IfOk result (λ s. string_bytes s ≡ dual.dual_text newest_rules regime day) }
    // as a law: a day of the first rules' line keeps its text
    ensures earlier_rules { day ≤ first_rules.high → IfOk result (λ s.
        string_bytes s ≡ dual.dual_text first_rules regime day) }
{
    let (date, year) = date_and_year(regime, day);
    let mut text = String::with_capacity(alloc, ROOM)?;
    push_number(&mut text, "", u32::from(date.day))?;
    text.push_str(" ")?;
    text.push_str(month_name(date.month))?;
    push_year(&mut text, year.unsigned_abs(), date.year.unsigned_abs())?;
    Ok(text)
}
