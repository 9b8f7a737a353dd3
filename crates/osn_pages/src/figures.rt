//! The figures of the year.
ghost use Rattle.std.specs.Prelude.{◌≡◌, ◌≢◌, ◌++◌, IfOk, OnOk, string_bytes};
ghost use Rattle.osn_days.specs.Rules.{newest_rules};
ghost use Rattle.osn_days.specs.declared.calendar.Calendar.TheVariants.{Swedish};
ghost use Rattle.osn_pages.specs.Almanac as spec;

use osn_computus::{
    epact_text, golden_number, gregorian_epact, indiction, julian_epact, letters_text,
    sunday_letters,
};
use osn_days::{Calendar, Year};
use std::alloc::{AllocError, Global};
use std::fmt::Write;

/// Returns the Sunday letters of a year in a calendar that has them.
fn letters_in(alloc: Global, calendar: Calendar, year: Year) -> Result<String, AllocError>
    requires { calendar ≢ Swedish }
    ensures { IfOk result (λ s. string_bytes s ≡ spec.letters_in newest_rules calendar year) }
{
    letters_text(alloc, sunday_letters(calendar, year).unwrap())
}

/// Appends the line of the cycles.
#[tactic(auto, unfolding(crate::specs::Almanac::cycles_line))]
fn push_cycles(out: &mut String, year: Year) -> Result<(), AllocError>
    ensures { OnOk result (string_bytes out.new
        ≡ string_bytes out.old ++ spec.cycles_line year) }
{
    let golden = golden_number(year);
    writeln!(out, "Golden number {golden}, indiction {}", indiction(year))
}

/// Appends the line of the Julian epact and letters.
#[tactic(auto, unfolding(crate::specs::Almanac::julian_line))]
fn push_julian(alloc: Global, out: &mut String, year: Year) -> Result<(), AllocError>
    ensures { OnOk result (string_bytes out.new
        ≡ string_bytes out.old ++ spec.julian_line newest_rules year) }
{
    let epact = julian_epact(year);
    let letters = letters_in(alloc, Calendar::Julian, year)?;
    writeln!(
        out,
        "Julian epact {epact}, Sunday letter {}",
        letters.as_str()
    )
}

/// Appends the line of the Gregorian epact and letters.
#[tactic(auto, unfolding(crate::specs::Almanac::gregorian_line))]
fn push_gregorian(alloc: Global, out: &mut String, year: Year) -> Result<(), AllocError>
    ensures { OnOk result (string_bytes out.new
        ≡ string_bytes out.old ++ spec.gregorian_line newest_rules year) }
{
    let epact = epact_text(alloc, gregorian_epact(year))?;
    let letters = letters_in(alloc, Calendar::Gregorian, year)?;
    writeln!(
        out,
        "Gregorian epact {}, Sunday letter {}",
        epact.as_str(),
        letters.as_str()
    )
}

/// Appends the figures of the year.
pub(crate) fn push_figures(alloc: Global, out: &mut String, year: Year) -> Result<(), AllocError>
    ensures { OnOk result (string_bytes out.new
        ≡ string_bytes out.old ++ spec.figures_lines newest_rules year) }
{
    push_cycles(out, year)?;
    push_julian(alloc, out, year)?;
    push_gregorian(alloc, out, year)
}
