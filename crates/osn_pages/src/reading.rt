//! The lines of the days that a written date means.
ghost use Rattle.std.specs.Prelude.{◌≡◌, ◌++◌, None, OnOk, string_bytes, IfSome, is_some};
ghost use Rattle.osn_days.specs.Weekday.{weekday_name};
ghost use Rattle.osn_pages.specs.Reading as spec;

use crate::words::{DayInCalendar, NamedDay};
use osn_days::{Calendar, Day, Weekday};
use osn_territory::DatedDay;
use osn_written::{WrittenDate, is_not_counted_double, is_on};
use std::alloc::AllocError;
use std::fmt;
use std::fmt::Write;

/// Returns the weekday, if one is given and the day is another.
fn other_weekday(given: Option<Weekday>, day: Day) -> Option<Weekday>
    ensures { result ≡ spec.other_weekday given day }
{
    if is_on(given, day) { None } else { given }
}

/// The remark on a day, by the weekday that its date names and the one given beside it.
#[derive(Clone, Copy)]
pub(crate) struct Verdict {
    pub(crate) written: Option<Weekday>,
    pub(crate) given: Option<Weekday>,
    pub(crate) day: Day,
}

impl fmt::Display for Verdict {
    ghost use Rattle.std.specs.Prelude.{Some};
    ghost use Rattle.osn_pages.specs.Reading.{verdict};

    ghost output = { λ x. Some (verdict x.written x.given x.day) };

    #[tactic(auto, unfolding(crate::specs::Reading::verdict))]
    fn fmt<W: fmt::Write>(&self, f: &mut fmt::Formatter<W>) -> fmt::Result {
        if self.written.is_none() && self.given.is_none() {
            return Ok(());
        }
        let written = other_weekday(self.written, self.day);
        match written.or(other_weekday(self.given, self.day)) {
            None => f.write_str(" ok"),
            Some(other) => write!(f, " not {}", other.name()),
        }
    }
}

/// Appends the line of a day, with the remark on its weekday.
#[tactic(auto, unfolding(crate::specs::Reading::day_line))]
fn push_day_line(out: &mut String, verdict: Verdict, dated: DatedDay) -> Result<(), AllocError>
    ensures { OnOk result (string_bytes out.new ≡ string_bytes out.old
        ++ spec.day_line (spec.verdict verdict.written verdict.given verdict.day) dated) }
{
    let day = dated.day;
    writeln!(
        out,
        "{}    {} Gregorian    {} Julian    day {}    JDN {}{}",
        NamedDay(dated),
        DayInCalendar {
            calendar: Calendar::Gregorian,
            day
        },
        DayInCalendar {
            calendar: Calendar::Julian,
            day
        },
        day.number(),
        day.julian_day_number(),
        verdict
    )
}

/// Appends the line of a day, and whether it is of the weekday that its date names, if any.
pub(crate) fn push_named_day(
    out: &mut String,
    written: Option<Weekday>,
    dated: DatedDay,
) -> Result<(), AllocError>
    ensures { OnOk result (string_bytes out.new ≡ string_bytes out.old
        ++ spec.day_line (spec.verdict written None dated.day) dated) }
{
    let verdict = Verdict {
        written,
        given: None,
        day: dated.day,
    };
    push_day_line(out, verdict, dated)
}

/// Appends the line of a day, of which no weekday is asked.
///
/// # Errors
///
/// If memory runs out, and in no other case.
#[tactic(auto, unfolding(crate::specs::Reading::verdict))]
pub fn push_day(out: &mut String, dated: DatedDay) -> Result<(), AllocError>
    ensures { OnOk result (string_bytes out.new
        ≡ string_bytes out.old ++ spec.plain_day_line dated) }
{
    push_named_day(out, None, dated)
}

/// Appends that the territory counted from 1 January, and what it wrote.
#[tactic(auto, unfolding(crate::specs::Reading::not_double_line))]
fn push_not_double(out: &mut String, dated: DatedDay) -> Result<(), AllocError>
    ensures { OnOk result (string_bytes out.new
        ≡ string_bytes out.old ++ spec.not_double_line dated) }
{
    writeln!(out, "not counted double there: the place wrote {}", dated)
}

/// Appends the lines of a day that the date means.
#[tactic(auto, unfolding(crate::specs::Reading::meant_lines))]
fn push_meant(
    out: &mut String,
    date: WrittenDate,
    given: Option<Weekday>,
    dated: DatedDay,
) -> Result<(), AllocError>
    ensures { OnOk result (string_bytes out.new
        ≡ string_bytes out.old ++ spec.meant_lines date given dated) }
{
    let verdict = Verdict {
        written: date.weekday,
        given,
        day: dated.day,
    };
    push_day_line(out, verdict, dated)?;
    if is_not_counted_double(date, &dated) {
        push_not_double(out, dated)?;
    }
    Ok(())
}

/// Appends the lines of all days that the date means.
pub(crate) fn push_days(
    out: &mut String,
    date: WrittenDate,
    given: Option<Weekday>,
    days: &[DatedDay],
) -> Result<(), AllocError>
    ensures { OnOk result (string_bytes out.new
        ≡ string_bytes out.old ++ spec.days_text date given days.now) }
{
    for dated in days {
        push_meant(out, date, given, *dated)?;
    }
    Ok(())
}
