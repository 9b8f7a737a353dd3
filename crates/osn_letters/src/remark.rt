//! The remarks on a letter in its last field.
ghost use Rattle.std.specs.Prelude.{◌≡◌, ◌++◌, IfOk, Some, string_bytes};
ghost use Rattle.std.specs.Prelude.{count_by};
ghost use Rattle.std.specs.List.{list_any};
ghost use Rattle.osn_written.specs.Meaning as meaning;
ghost use Rattle.osn_letters.specs.Remarks as spec;

use crate::no_place::NoPlace;
use crate::record_flaw::RecordFlaw;
use itertools::Itertools;
use osn_days::Weekday;
use osn_territory::DatedDay;
use osn_written::{AnyDate, DateFault, NoDay, WrittenDate, has_weekday, is_not_counted_double};
use std::alloc::{AllocError, Global};
use std::fmt;

/// What may be said of a letter.
#[derive(Clone, Copy, Debug, PartialEq, Eq)]
pub enum Remark {
    /// Its record has a flaw, so its fields are not read.
    OfRecord(RecordFlaw),
    /// Its date is not UTF-8.
    NotUtf8,
    /// Its date is not read.
    NotRead(DateFault),
    /// Its place is that of no territory, or may be that of several.
    NoPlace(NoPlace),
    /// Its date means no day.
    NoDay(NoDay),
    /// Its date means several days, of which one alone has the weekday that is given.
    ByItsWeekday,
    /// Its date means several days, and no weekday decides between them.
    SeveralDays,
    /// None of its days has the weekday that is given.
    WeekdayDiffers,
    /// Its date is a double one, and the territory wrote the later year alone.
    NotCountedDouble,
    /// Its date is a range of days with one year written, and ends in the next year.
    EndsInNextYear,
    /// An editor supplied its date.
    Supplied,
    /// A year of its date has three digits and no zero before them, so that it may lack its last.
    YearOfThreeDigits,
    /// By the calendar that its date names, it means other days than by that of its place.
    ByAnotherCalendar,
    /// A weekday is given, and its date is not one day.
    WeekdayNotCompared,
    /// Its weekday is not the name of a weekday.
    MalformedWeekday,
}

impl Remark {
    /// Returns the remark in words.
    pub(crate) fn words(self) -> &'static str
        ensures { result.now ≡ spec.remark_words self }
    {
        match self {
            Remark::OfRecord(flaw) => flaw.words(),
            Remark::NotUtf8 => "not UTF-8",
            Remark::NotRead(fault) => fault.words(),
            Remark::NoPlace(reason) => reason.words(),
            Remark::NoDay(reason) => reason.words(),
            Remark::ByItsWeekday => "by its weekday",
            Remark::SeveralDays => "several days",
            Remark::WeekdayDiffers => "weekday differs",
            Remark::NotCountedDouble => "not counted double there",
            Remark::EndsInNextYear => "ends in the next year",
            Remark::Supplied => "supplied by an editor",
            Remark::YearOfThreeDigits => "year of three digits",
            Remark::ByAnotherCalendar => "by another calendar",
            Remark::WeekdayNotCompared => "weekday not compared",
            Remark::MalformedWeekday => "malformed weekday",
        }
    }
}

impl fmt::Display for Remark {
    ghost output = { λ r. Some (spec.remark_words r) };

    fn fmt<W: fmt::Write>(&self, f: &mut fmt::Formatter<W>) -> fmt::Result {
        f.write_str(self.words())
    }
}

/// A remark, and whether it applies.
pub(crate) type PossibleRemark = (bool, Remark);

/// Returns the remarks that apply: those on the days, and then those beside them, in their order.
pub(crate) fn applying(
    alloc: Global,
    on_days: &[PossibleRemark],
    beside: &[PossibleRemark],
) -> Result<Vec<Remark>, AllocError>
    ensures { IfOk result (λ remarks.
        remarks.items ≡ spec.applying (on_days.now ++ beside.now)) }
{
    on_days
        .iter()
        .chain(beside.iter())
        .filter(|remark| remark.0)
        .map(|remark| remark.1)
        .collect(alloc)
}

/// Returns the field of these remarks.
pub(crate) fn remark_text(alloc: Global, remarks: &[Remark]) -> Result<String, AllocError>
    ensures { IfOk result (λ s. string_bytes s ≡ spec.remark_text remarks.now) }
{
    remarks.iter().join(alloc, "; ")
}

/// Returns whether a weekday is given, by the date itself or beside it.
fn is_weekday_given(date_weekday: Option<Weekday>, weekday: Option<Weekday>) -> bool
    ensures { result ≡ spec.is_weekday_given date_weekday weekday }
{
    date_weekday.is_some() || weekday.is_some()
}

/// Returns how many of the days have the weekday.
fn count_on_weekday(date: WrittenDate, weekday: Option<Weekday>, days: &[DatedDay]) -> usize
    ensures { result ≡ count_by (meaning.has_weekday date weekday) days.now }
{
    days.iter()
        .filter(|day| has_weekday(date, weekday, day))
        .count()
}

/// Returns whether a weekday is given, and `count` of the days have it.
fn are_on_weekday(
    count: usize,
    date: WrittenDate,
    weekday: Option<Weekday>,
    days: &[DatedDay],
) -> bool
    ensures { result ≡ spec.are_on_weekday count date weekday days.now }
{
    is_weekday_given(date.weekday, weekday) && count_on_weekday(date, weekday, days) == count
}

/// Returns the remark on several days: whether the given weekday decides between them.
fn several_remark(date: WrittenDate, weekday: Option<Weekday>, days: &[DatedDay]) -> Remark
    ensures { result ≡ spec.several_remark date weekday days.now }
{
    if are_on_weekday(1, date, weekday, days) {
        Remark::ByItsWeekday
    } else {
        Remark::SeveralDays
    }
}

/// Returns whether the date means one of the days although the territory wrote the later year
/// alone.
fn has_not_counted_double(date: WrittenDate, days: &[DatedDay]) -> bool
    ensures { result ≡ list_any (meaning.is_not_counted_double date) days.now }
{
    days.iter().any(|day| is_not_counted_double(date, day))
}

/// Returns the remarks on days.
pub(crate) fn remarks_on_days(
    date: WrittenDate,
    weekday: Option<Weekday>,
    days: &[DatedDay],
) -> [PossibleRemark; 3]
    ensures { result ≡ spec.remarks_on_days date weekday days.now }
{
    [
        (days.len() > 1, several_remark(date, weekday, days)),
        (
            are_on_weekday(0, date, weekday, days),
            Remark::WeekdayDiffers,
        ),
        (has_not_counted_double(date, days), Remark::NotCountedDouble),
    ]
}

/// Returns the remarks that a set has in addition to those on its days.
pub(crate) fn remarks_beside_set(
    weekday: Option<Weekday>,
    is_malformed: bool,
) -> [PossibleRemark; 2]
    ensures { result ≡ spec.remarks_beside_set weekday is_malformed }
{
    [
        (weekday.is_some(), Remark::WeekdayNotCompared),
        (is_malformed, Remark::MalformedWeekday),
    ]
}

/// Returns the remarks that a date has in addition to those on its days.
pub(crate) fn remarks_beside(
    date: AnyDate,
    weekday: Option<Weekday>,
    is_by_other_calendar: bool,
    is_malformed: bool,
) -> [PossibleRemark; 5]
    ensures { result ≡ spec.remarks_beside date weekday is_by_other_calendar is_malformed }
{
    let is_one_day = WrittenDate::of_one_day(date).is_some();
    let is_not_looked_for = !is_one_day && is_weekday_given(date.weekday, weekday);
    [
        (date.is_supplied, Remark::Supplied),
        (
            date.extent.has_year_of_three_digits(),
            Remark::YearOfThreeDigits,
        ),
        (is_by_other_calendar, Remark::ByAnotherCalendar),
        (is_not_looked_for, Remark::WeekdayNotCompared),
        (is_malformed, Remark::MalformedWeekday),
    ]
}
