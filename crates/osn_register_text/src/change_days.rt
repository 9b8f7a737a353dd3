//! The line on a change of regime that shows the last day before it and the first one after.
ghost use Rattle.std.specs.Prelude.{◌≡◌, ◌++◌, OnOk, option_map, string_bytes};
ghost use Rattle.osn_days.specs.Rules.{newest_rules};
ghost use Rattle.osn_register_text.specs.ChangeDays as spec;

use crate::edit_day::{day_before, day_numbered};
use osn_days::{Day, date_of, day_of};
use osn_pages::{NamedDay, push_gap};
use osn_territory::{DatedDay, Territory};
use std::alloc::AllocError;
use std::fmt::Write;

/// Appends the last day before a change and the first one after.
#[tactic(auto, unfolding(crate::specs::ChangeDays::days_words))]
fn push_days(
    out: &mut String,
    code: &str,
    last: DatedDay,
    first: DatedDay,
) -> Result<(), AllocError>
    ensures { OnOk result (string_bytes out.new
        ≡ string_bytes out.old ++ spec.days_words code.now last first) }
{
    write!(
        out,
        "{code}: {} is followed by {}",
        NamedDay(last),
        NamedDay(first)
    )
}

/// Appends the line of the day before a first day and of that day, as a territory dates both.
#[tactic(auto, unfolding(crate::specs::ChangeDays::followed_line))]
fn push_line(
    out: &mut String,
    code: &str,
    territory: &Territory,
    last: Day,
    first: Day,
) -> Result<(), AllocError>
    ensures { OnOk result (string_bytes out.new ≡ string_bytes out.old
        ++ spec.followed_line newest_rules code.now territory.now last first) }
{
    push_days(out, code, territory.dated(last), territory.dated(first))?;
    let before = territory.regime_at(last).calendar;
    let date = date_of(territory.regime_at(first).calendar, first);
    push_gap(out, day_of(before, date), first)?;
    out.push_str("\n")
}

/// Appends the line of the day of a number and of the day before it, if the territory and both days
/// are known.
pub(crate) fn push_followed(
    out: &mut String,
    code: &str,
    territory: Option<&Territory>,
    number: i64,
) -> Result<(), AllocError>
    ensures { OnOk result (string_bytes out.new ≡ string_bytes out.old
        ++ spec.followed_lines newest_rules code.now
        (option_map (λ t. t.now) territory.entry) number) }
{
    let Some(territory) = territory else {
        return Ok(());
    };
    let Some(first) = day_numbered(number) else {
        return Ok(());
    };
    match day_before(first) {
        Some(last) => push_line(out, code, territory, last, first),
        None => Ok(()),
    }
}
