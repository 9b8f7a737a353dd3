//! The fields that are put after a row, by what is known of its days.
ghost use Rattle.std.specs.Prelude.{◌≡◌, [], ◌∷◌, ◌++◌, map, OnOk};
ghost use Rattle.std.specs.Fmt.{decimal};
ghost use Rattle.csv.specs.Records.{fields_of, partial_of};
ghost use Rattle.osn_letters.specs.Fields as spec;

use crate::day_field::{DayField, push_date, push_days_text, push_number};
use crate::letter::LetterFields;
use crate::remark::remark_text;
use crate::span::Span;
use csv::ByteRecord;
use osn_days::{Calendar, Day, date_of};
use osn_territory::DatedDay;
use osn_written::Kind;
use std::alloc::{AllocError, Global};

/// The fields that contain each day on its own, in their order.
const DAY_FIELDS: [DayField; 6] = [
    DayField::Number,
    DayField::Gregorian,
    DayField::Julian,
    DayField::Dual,
    DayField::Weekday,
    DayField::JulianDayNumber,
];

/// The room that the text of a field is given at first.
const ROOM: usize = 64;

/// What the fields say of a date as a whole: from when to when it may be, of what kind it is, and
/// by which edition it is read.
#[derive(Clone, Copy, Debug)]
pub(crate) struct Summary {
    pub(crate) span: Span,
    pub(crate) kind: Option<Kind>,
    pub(crate) edition: usize,
}

/// Appends these fields of the days to a row.
fn push_day_fields(
    alloc: Global,
    row: &mut ByteRecord,
    which: &[DayField],
    days: &[DatedDay],
) -> Result<(), AllocError>
    requires { partial_of row.old ≡ [] }
    ensures fields { OnOk result (fields_of row.new
        ≡ fields_of row.old ++ map (spec.days_text days.now) which.now) }
    ensures partial { OnOk result (partial_of row.new ≡ []) }
{
    let mut text = Vec::with_capacity(alloc, ROOM)?;
    for field in which {
        text.clear();
        push_days_text(alloc, &mut text, *field, days)?;
        row.push_field(&text)?;
    }
    Ok(())
}

/// Appends the field of the first or the last day.
fn push_end(alloc: Global, row: &mut ByteRecord, end: Option<Day>) -> Result<(), AllocError>
    requires { partial_of row.old ≡ [] }
    ensures fields { OnOk result
        (fields_of row.new ≡ fields_of row.old ++ spec.end_text end ∷ []) }
    ensures partial { OnOk result (partial_of row.new ≡ []) }
{
    let mut text = Vec::new(alloc);
    if let Some(day) = end {
        push_date(alloc, &mut text, date_of(Calendar::Gregorian, day))?;
    }
    row.push_field(&text)
}

/// Appends the field of a number.
fn push_decimal(alloc: Global, row: &mut ByteRecord, number: u64) -> Result<(), AllocError>
    requires { partial_of row.old ≡ [] }
    ensures fields { OnOk result (fields_of row.new ≡ fields_of row.old ++ decimal number ∷ []) }
    ensures partial { OnOk result (partial_of row.new ≡ []) }
{
    let mut text = Vec::new(alloc);
    push_number(&mut text, number)?;
    row.push_field(&text)
}

/// Returns the field of the kind.
fn kind_text(kind: Option<Kind>) -> &'static str
    ensures { result.now ≡ spec.kind_text kind }
{
    match kind {
        None => "",
        Some(kind) => kind.word(),
    }
}

/// Appends the first and the last day, and the kind.
fn push_summary(alloc: Global, row: &mut ByteRecord, summary: Summary) -> Result<(), AllocError>
    requires { partial_of row.old ≡ [] }
    ensures fields { OnOk result (fields_of row.new
        ≡ fields_of row.old ++ spec.summary_fields summary) }
    ensures partial { OnOk result (partial_of row.new ≡ []) }
{
    let span = summary.span;
    push_end(alloc, row, span.earliest)?;
    push_end(alloc, row, span.latest)?;
    row.push_field(kind_text(summary.kind).as_bytes())
}

impl LetterFields {
    /// Appends the twelve fields to a row.
    ///
    /// # Errors
    ///
    /// If memory runs out, and in no other case.
    pub fn push_to(&self, alloc: Global, row: &mut ByteRecord) -> Result<(), AllocError>
        requires { partial_of row.old ≡ [] }
        ensures fields { OnOk result (fields_of row.new
            ≡ fields_of row.old ++ (spec.fields_and_remarks self.now).fields) }
        ensures partial { OnOk result (partial_of row.new ≡ []) }
    {
        push_day_fields(alloc, row, &DAY_FIELDS, &self.days)?;
        push_summary(alloc, row, self.summary)?;
        row.push_field(self.edtf.as_bytes())?;
        push_decimal(alloc, row, self.summary.edition as u64)?;
        row.push_field(remark_text(alloc, &self.remarks)?.as_bytes())
    }
}
