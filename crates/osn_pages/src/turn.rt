//! What changes at the start of a period: how many dates are left out or come twice, and what part
//! of the reckoning is another than before.
ghost use Rattle.std.specs.Prelude.{◌≡◌, ◌++◌, OnOk, string_bytes};
ghost use Rattle.std.specs.Option.{option_to_list};
ghost use Rattle.osn_pages.specs.Turn as spec;

use osn_days::Day;
use std::alloc::AllocError;
use std::fmt::Write;

/// Appends how many dates are left out.
#[tactic(auto, unfolding(crate::specs::Turn::left_out_words))]
fn push_left_out(out: &mut String, dates: u32) -> Result<(), AllocError>
    ensures { OnOk result (string_bytes out.new
        ≡ string_bytes out.old ++ spec.left_out_words dates) }
{
    match dates {
        1 => out.push_str(": 1 date left out"),
        _ => write!(out, ": {dates} dates left out"),
    }
}

/// Appends how many dates come twice, if any do.
#[tactic(auto, unfolding(crate::specs::Turn::twice_words))]
fn push_twice(out: &mut String, dates: u32) -> Result<(), AllocError>
    ensures { OnOk result (string_bytes out.new
        ≡ string_bytes out.old ++ spec.twice_words dates) }
{
    match dates {
        0 => Ok(()),
        1 => out.push_str(": 1 date comes twice"),
        _ => write!(out, ": {dates} dates come twice"),
    }
}

/// Appends how many dates are left out or come twice at a change, if this day has, by the calendar
/// before, the date of the first day after it.
///
/// # Errors
///
/// If memory runs out, and in no other case.
pub fn push_gap(out: &mut String, same: Option<Day>, first: Day) -> Result<(), AllocError>
    ensures { OnOk result (string_bytes out.new
        ≡ string_bytes out.old ++ spec.gap_words (option_to_list same) first) }
{
    match same {
        None => out.push_str(": by the calendar before, no day has that date"),
        Some(same) if first < same => push_left_out(out, same.number() - first.number()),
        Some(same) => push_twice(out, first.number() - same.number()),
    }
}

/// Appends that a part of the reckoning is another from a change on, with these words of both.
///
/// # Errors
///
/// If memory runs out, and in no other case.
#[tactic(auto, unfolding(crate::specs::Turn::turned_line))]
pub fn push_turned(out: &mut String, part: &str, old: &str, new: &str) -> Result<(), AllocError>
    ensures { OnOk result (string_bytes out.new
        ≡ string_bytes out.old ++ spec.turned_line part.now old.now new.now) }
{
    writeln!(out, "{part} changed: until then {old}, from then on {new}")
}
