//! The first days of the months.
ghost use Rattle.std.specs.Prelude.{◌≡◌, ◌++◌, OnOk, string_bytes};
ghost use Rattle.std.specs.List.{flat_map};
ghost use Rattle.osn_days.specs.Rules.{newest_rules};
ghost use Rattle.osn_pages.specs.Almanac as spec;

use crate::columns::{push_absent, push_day};
use crate::year_days::label_year;
use osn_days::{Calendar, Day, Year, date_of, date_text, month_name};
use osn_territory::{Label, Territory};
use std::alloc::{AllocError, Global};
use std::fmt::Write;

/// The months of a year.
const MONTHS: [u8; 12] = [1, 2, 3, 4, 5, 6, 7, 8, 9, 10, 11, 12];

/// Appends the line of a day that is the first of the month, with its Gregorian date.
#[tactic(auto, unfolding(crate::specs::Almanac::month_day_line))]
fn push_month_day(alloc: Global, out: &mut String, month: u8, day: Day) -> Result<(), AllocError>
    ensures { OnOk result (string_bytes out.new
        ≡ string_bytes out.old ++ spec.month_day_line month day) }
{
    let date = date_of(Calendar::Gregorian, day);
    let text = date_text(alloc, date.year, date.month, date.day)?;
    push_day(out, month_name(month), day)?;
    writeln!(out, "{}", text.as_str())
}

/// Appends the lines of the days that are the first of the month.
fn push_month_days(
    alloc: Global,
    out: &mut String,
    month: u8,
    days: &[Day],
) -> Result<(), AllocError>
    ensures { OnOk result (string_bytes out.new ≡ string_bytes out.old
        ++ flat_map (spec.month_day_line month) days.now) }
{
    for day in days {
        push_month_day(alloc, out, month, *day)?;
    }
    Ok(())
}

/// Appends the lines of a month, of which these days are the first, or that it has none.
fn push_month_of(alloc: Global, out: &mut String, month: u8, days: &[Day]) -> Result<(), AllocError>
    ensures { OnOk result (string_bytes out.new
        ≡ string_bytes out.old ++ spec.lines_of_month month days.now) }
{
    if days.is_empty() {
        return push_absent(out, month_name(month), "none");
    }
    push_month_days(alloc, out, month, days)
}

/// Appends the lines of a month of the year as the territory counts it.
fn push_month(
    alloc: Global,
    out: &mut String,
    territory: &Territory,
    year: Year,
    month: u8,
) -> Result<(), AllocError>
    ensures { OnOk result (string_bytes out.new
        ≡ string_bytes out.old ++ spec.month_lines newest_rules territory.now year month) }
{
    let label = Label {
        year: label_year(year),
        month,
        day: 1,
    };
    let days = territory.read(label)?;
    push_month_of(alloc, out, month, days.as_slice())
}

/// Appends the lines of some months.
fn push_each(
    alloc: Global,
    out: &mut String,
    territory: &Territory,
    year: Year,
    months: &[u8],
) -> Result<(), AllocError>
    ensures { OnOk result (string_bytes out.new ≡ string_bytes out.old
        ++ flat_map (spec.month_lines newest_rules territory.now year) months.now) }
{
    for month in months {
        push_month(alloc, out, territory, year, *month)?;
    }
    Ok(())
}

/// Appends the lines of the months of a year.
pub(crate) fn push_months(
    alloc: Global,
    out: &mut String,
    territory: &Territory,
    year: Year,
) -> Result<(), AllocError>
    ensures { OnOk result (string_bytes out.new
        ≡ string_bytes out.old ++ spec.months_text newest_rules territory.now year) }
{
    push_each(alloc, out, territory, year, &MONTHS)
}
