//! A date in a reply.
ghost use Rattle.std.specs.Prelude.{◌≡◌, ◌++◌, OnOk};
ghost use Rattle.json.specs.Print.{quoted};
ghost use Rattle.osn_days.specs.Chain as chain;
ghost use Rattle.osn_days.specs.DateText as spec;

use crate::line_writer::LineWriter;
use osn_days::{Calendar, Day, date_digits, date_of, date_text};
use osn_territory::Label;
use std::alloc::AllocError;

/// Writes `front` and a date.
fn write_date(
    out: &mut LineWriter,
    front: &str,
    year: i32,
    month: u8,
    day: u8,
) -> Result<(), AllocError>
    ensures text { OnOk result (out.new.text
        ≡ out.old.text ++ (front.now ++ quoted (spec.date_text year month day))) }
    ensures before { out.new.before ≡ out.old.before }
{
    let years = year.unsigned_abs();
    if years < 10_000 && month < 100 && day < 100 {
        out.push(front)?;
        return out.push_plain(&date_digits(years, u32::from(month), u32::from(day)));
    }
    let date = date_text(out.alloc(), year, month, day)?;
    out.push_text(front, date.as_str())
}

/// Writes `front` and the date of a day in a calendar.
pub(crate) fn write_date_of(
    out: &mut LineWriter,
    front: &str,
    calendar: Calendar,
    day: Day,
) -> Result<(), AllocError>
    ensures text { OnOk result (out.new.text ≡ out.old.text
        ++ (front.now ++ quoted (spec.text_of_date (chain.date_of calendar day)))) }
    ensures before { out.new.before ≡ out.old.before }
{
    let date = date_of(calendar, day);
    write_date(out, front, date.year, date.month, date.day)
}

/// Writes `front` and a label as a date.
pub(crate) fn write_label(out: &mut LineWriter, front: &str, label: Label) -> Result<(), AllocError>
    ensures text { OnOk result (out.new.text ≡ out.old.text
        ++ (front.now ++ quoted (spec.date_text label.year label.month label.day))) }
    ensures before { out.new.before ≡ out.old.before }
{
    write_date(out, front, label.year, label.month, label.day)
}
