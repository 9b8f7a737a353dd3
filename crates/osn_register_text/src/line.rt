//! What the line of an edit says it changes, by the words of each thing.
ghost use Rattle.std.specs.Prelude.{◌≡◌, ◌++◌, OnOk, string_bytes};
ghost use Rattle.osn_register_text.specs.Line as spec;
ghost use Rattle.osn_register_text.specs.EditDay.{day_words};

use crate::edit_day::EditDay;
use std::alloc::AllocError;
use std::fmt::Write;

/// Appends that a territory is added, with the words of its opening regime.
#[tactic(auto, unfolding(crate::specs::Line::territory_words))]
pub(crate) fn push_territory(
    out: &mut String,
    code: &str,
    name: &str,
    regime: &str,
) -> Result<(), AllocError>
    ensures { OnOk result (string_bytes out.new
        ≡ string_bytes out.old ++ spec.territory_words code.now name.now regime.now) }
{
    write!(out, "{code}: new territory {name}: {regime}")
}

/// Appends that a regime holds from a day on, with the words of what differs from before.
#[tactic(auto, unfolding(crate::specs::Line::change_words))]
pub(crate) fn push_change(
    out: &mut String,
    code: &str,
    day: EditDay,
    regime: &str,
) -> Result<(), AllocError>
    ensures { OnOk result (string_bytes out.new ≡ string_bytes out.old
        ++ spec.change_words code.now (day_words day.dated day.number) regime.now) }
{
    write!(out, "{code}: from {day}: {regime}")
}

/// Appends that the opening regime is another.
#[tactic(auto, unfolding(crate::specs::Line::opening_words))]
pub(crate) fn push_opening(out: &mut String, code: &str, regime: &str) -> Result<(), AllocError>
    ensures { OnOk result (string_bytes out.new
        ≡ string_bytes out.old ++ spec.opening_words code.now regime.now) }
{
    write!(out, "{code}: opening: {regime}")
}

/// Appends that a change is dropped.
#[tactic(auto, unfolding(crate::specs::Line::drop_words))]
pub(crate) fn push_drop(out: &mut String, code: &str, day: EditDay) -> Result<(), AllocError>
    ensures { OnOk result (string_bytes out.new ≡ string_bytes out.old
        ++ spec.drop_words code.now (day_words day.dated day.number)) }
{
    write!(out, "{code}: no longer a change on {day}")
}

/// Appends that an Easter is listed.
#[tactic(auto, unfolding(crate::specs::Line::easter_words))]
pub(crate) fn push_easter(
    out: &mut String,
    code: &str,
    year: i64,
    day: EditDay,
) -> Result<(), AllocError>
    ensures { OnOk result (string_bytes out.new ≡ string_bytes out.old
        ++ spec.easter_words code.now year (day_words day.dated day.number)) }
{
    write!(out, "{code}: Easter of {year} on {day}")
}

/// Appends that an Easter is listed no more.
#[tactic(auto, unfolding(crate::specs::Line::no_easter_words))]
pub(crate) fn push_no_easter(out: &mut String, code: &str, year: i64) -> Result<(), AllocError>
    ensures { OnOk result (string_bytes out.new
        ≡ string_bytes out.old ++ spec.no_easter_words code.now year) }
{
    write!(out, "{code}: no longer a listed Easter of {year}")
}
