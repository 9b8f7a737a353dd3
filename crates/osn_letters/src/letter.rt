//! The fields that are put after a letter's row.
ghost use Rattle.std.specs.Prelude.{◌≡◌, [], ◌∷◌, ◌++◌, option_map, unwrap_or, IfOk};
ghost use Rattle.std.specs.Prelude.{string_bytes};
ghost use Rattle.std.specs.Result.{result_map_both};
ghost use Rattle.osn_days.specs.Rules.{newest_rules};
ghost use Rattle.osn_letters.specs.EdtfLaw.{AreDaysRead, AreRunsRead};
ghost use Rattle.osn_letters.specs.Fields as spec;

use crate::added_fields::Summary;
use crate::edtf::{edtf_of_days, edtf_of_span, sign};
use crate::no_place::NoPlace;
use crate::place_remark::{place_remark, place_remark_beside};
use crate::places::Places;
use crate::remark::{PossibleRemark, Remark, applying, remarks_beside, remarks_on_days};
use crate::row_field::{date_of_field, is_malformed_weekday, is_text, weekday_in};
use crate::set::fields_of_set;
use crate::span::{NO_SPAN, span_of_days, span_of_runs};
use crate::territory_finder::TerritoryFinder;
use osn_days::Weekday;
use osn_grammar::{DateOrder, TextReading};
use osn_territory::{DatedDay, Run, Territory};
use osn_written::{
    AnyDate, DateFault, Kind, NoDay, WrittenDate, absence_of, by_reckoning, dated_by, days_meant,
    ends_in_next_year, find_runs, is_by_other_calendar, is_extent_not_counted_double, kind_of,
};
use std::alloc::{AllocError, Global};

/// What the fields that are put after a letter's row say, and its remarks.
#[derive(Debug, Drop)]
pub struct LetterFields {
    /// What they say of its date as a whole.
    pub(crate) summary: Summary,
    /// The days of a date that is one day.
    pub(crate) days: Vec<DatedDay>,
    /// The days as ISO 8601-2 writes them.
    pub(crate) edtf: String,
    /// The remarks, whose words the last field joins.
    pub remarks: Vec<Remark>,
}

/// Returns the fields of a date whose days are not listed one by one, with this text of its days.
pub(crate) fn fields_with(
    alloc: Global,
    summary: Summary,
    edtf: String,
    remarks: Vec<Remark>,
) -> LetterFields
    ensures { spec.fields_and_remarks result
        ≡ spec.fields_with summary [] (string_bytes edtf) remarks.items }
{
    LetterFields {
        summary,
        days: Vec::new(alloc),
        edtf,
        remarks,
    }
}

/// Returns the fields of a row that has no day.
pub(crate) fn fields_of_none(
    alloc: Global,
    edition: usize,
    kind: Option<Kind>,
    reasons: &[PossibleRemark],
    beside: &[PossibleRemark],
) -> Result<LetterFields, AllocError>
    ensures { IfOk result (λ fields. spec.fields_and_remarks fields
        ≡ spec.fields_of_none edition kind (reasons.now ++ beside.now)) }
{
    let summary = Summary {
        span: NO_SPAN,
        kind,
        edition,
    };
    let remarks = applying(alloc, reasons, beside)?;
    Ok(fields_with(alloc, summary, String::new(alloc), remarks))
}

/// Returns the fields of days.
fn fields_of_days(
    alloc: Global,
    edition: usize,
    date: AnyDate,
    days: Vec<DatedDay>,
    on_days: &[PossibleRemark],
    beside: &[PossibleRemark],
) -> Result<LetterFields, AllocError>
    ensures { IfOk result (λ fields. spec.fields_and_remarks fields
        ≡ spec.fields_of_days edition date days.items (on_days.now ++ beside.now)) }
{
    let summary = Summary {
        span: span_of_days(&days),
        kind: Some(kind_of(date.extent)),
        edition,
    };
    let edtf = edtf_of_days(alloc, sign(date), &days)?;
    let remarks = applying(alloc, on_days, beside)?;
    Ok(LetterFields {
        summary,
        days,
        edtf,
        remarks,
    })
}

/// Returns the fields of runs.
fn fields_of_runs(
    alloc: Global,
    edition: usize,
    date: AnyDate,
    runs: &[Run],
    on_days: &[PossibleRemark],
    beside: &[PossibleRemark],
) -> Result<LetterFields, AllocError>
    ensures { IfOk result (λ fields. spec.fields_and_remarks fields
        ≡ spec.fields_of_runs edition date runs.now (on_days.now ++ beside.now)) }
{
    let summary = Summary {
        span: span_of_runs(date.extent, runs),
        kind: Some(kind_of(date.extent)),
        edition,
    };
    let edtf = edtf_of_span(alloc, sign(date), summary.span, runs)?;
    let remarks = applying(alloc, on_days, beside)?;
    Ok(fields_with(alloc, summary, edtf, remarks))
}

/// Returns the fields of a date that means no day.
fn fields_of_absence(
    alloc: Global,
    edition: usize,
    date: AnyDate,
    reason: NoDay,
    beside: &[PossibleRemark],
) -> Result<LetterFields, AllocError>
    ensures { IfOk result (λ fields. spec.fields_and_remarks fields
        ≡ spec.fields_of_absence edition date reason beside.now) }
{
    let kind = Some(kind_of(date.extent));
    fields_of_none(
        alloc,
        edition,
        kind,
        &[(true, Remark::NoDay(reason))],
        beside,
    )
}

/// Returns the fields of a date that is one day, by the reckoning of a territory, each day as the
/// place dated it.
fn fields_of_one_day(
    alloc: Global,
    edition: usize,
    own: &Territory,
    territory: &Territory,
    date: AnyDate,
    day: WrittenDate,
    weekday: Option<Weekday>,
    beside: &[PossibleRemark],
) -> Result<LetterFields, AllocError>
    ensures { IfOk result (λ fields. spec.fields_and_remarks fields
        ≡ spec.fields_of_one_day newest_rules
        edition own.now territory.now date day weekday beside.now) }
{
    let meant_days = days_meant(alloc, territory, day, weekday)?;
    let days = dated_by(alloc, own, meant_days.as_slice())?;
    if days.is_empty() {
        let reason = NoDay::Absent(absence_of(territory, day)?);
        return fields_of_absence(alloc, edition, date, reason, beside);
    }
    let on_days = remarks_on_days(day, weekday, &days);
    fields_of_days(alloc, edition, date, days, &on_days, beside)
}

/// Returns the fields of a date that is not one day, by the reckoning of a territory.
fn fields_of_many_days(
    alloc: Global,
    edition: usize,
    own: &Territory,
    territory: &Territory,
    date: AnyDate,
    beside: &[PossibleRemark],
) -> Result<LetterFields, AllocError>
    ensures { IfOk result (λ fields. spec.fields_and_remarks fields
        ≡ spec.fields_of_many_days newest_rules
        edition own.now territory.now date beside.now) }
{
    let is_single = is_extent_not_counted_double(alloc, own, territory, date.extent)?;
    let is_later = ends_in_next_year(alloc, territory, date.extent)?;
    let on_days = [
        (is_single, Remark::NotCountedDouble),
        (is_later, Remark::EndsInNextYear),
    ];
    match find_runs(alloc, territory, date.extent)? {
        Ok(runs) => fields_of_runs(alloc, edition, date, &runs, &on_days, beside),
        Err(reason) => fields_of_absence(alloc, edition, date, reason, beside),
    }
}

/// Returns the fields of a date by the reckoning of a territory, in a place of its own reckoning,
/// with the field of the weekday.
fn fields_by(
    alloc: Global,
    edition: usize,
    own: &Territory,
    territory: &Territory,
    is_by_other_calendar: bool,
    date: AnyDate,
    weekday_field: Option<&[u8]>,
) -> Result<LetterFields, AllocError>
    ensures { IfOk result (λ fields. spec.fields_and_remarks fields
        ≡ spec.fields_by newest_rules edition own.now
        territory.now is_by_other_calendar date (option_map (λ w. w.now) weekday_field.entry)) }
{
    let weekday = weekday_in(weekday_field);
    let is_malformed = is_malformed_weekday(weekday_field);
    let beside = remarks_beside(date, weekday, is_by_other_calendar, is_malformed);
    match WrittenDate::of_one_day(date) {
        Some(day) => fields_of_one_day(alloc, edition, own, territory, date, day, weekday, &beside),
        None => fields_of_many_days(alloc, edition, own, territory, date, &beside),
    }
}

/// Returns the fields of a date in a territory, with the field of the weekday.
fn fields_in(
    alloc: Global,
    edition: usize,
    territory: &Territory,
    date: AnyDate,
    weekday_field: Option<&[u8]>,
) -> Result<LetterFields, AllocError>
    ensures { IfOk result (λ fields. spec.fields_and_remarks fields
        ≡ spec.fields_in newest_rules edition
        territory.now date (option_map (λ w. w.now) weekday_field.entry)) }
{
    let Some(reckoning) = date.reckoning else {
        return fields_by(
            alloc,
            edition,
            territory,
            territory,
            false,
            date,
            weekday_field,
        );
    };
    let is_other = is_by_other_calendar(alloc, territory, date)?;
    let reckoned_territory = by_reckoning(alloc, territory, reckoning)?;
    fields_by(
        alloc,
        edition,
        territory,
        &reckoned_territory,
        is_other,
        date,
        weekday_field,
    )
}

/// Returns the fields of a date whose place is not known, for that reason, with the field of the
/// weekday.
fn fields_without_place(
    alloc: Global,
    edition: usize,
    reason: NoPlace,
    date: AnyDate,
    weekday_field: Option<&[u8]>,
) -> Result<LetterFields, AllocError>
    ensures { IfOk result (λ fields. spec.fields_and_remarks fields
        ≡ spec.fields_without_place edition reason date
        (option_map (λ w. w.now) weekday_field.entry)) }
{
    let weekday = weekday_in(weekday_field);
    let is_malformed = is_malformed_weekday(weekday_field);
    let beside = remarks_beside(date, weekday, false, is_malformed);
    let kind = Some(kind_of(date.extent));
    fields_of_none(
        alloc,
        edition,
        kind,
        &[(true, Remark::NoPlace(reason))],
        &beside,
    )
}

/// Returns the fields of a date in its place, if that is known, with the field of the weekday.
fn fields_of_date(
    alloc: Global,
    edition: usize,
    territory: Result<&Territory, NoPlace>,
    date: AnyDate,
    weekday_field: Option<&[u8]>,
) -> Result<LetterFields, AllocError>
    ensures { IfOk result (λ fields. spec.fields_and_remarks fields
        ≡ spec.fields_of_date newest_rules edition
        (result_map_both (λ t. t.now) (λ reason. reason) territory.entry) date
        (option_map (λ w. w.now) weekday_field.entry)) }
{
    match territory {
        Ok(territory) => fields_in(alloc, edition, territory, date, weekday_field),
        Err(reason) => fields_without_place(alloc, edition, reason, date, weekday_field),
    }
}

/// Returns the fields if no date is read, with what is said of the place and the field of the
/// weekday.
fn fields_without_date(
    alloc: Global,
    edition: usize,
    fault: DateFault,
    place: PossibleRemark,
    weekday_field: Option<&[u8]>,
) -> Result<LetterFields, AllocError>
    ensures { IfOk result (λ fields. spec.fields_and_remarks fields
        ≡ spec.fields_without_date edition fault
        place (option_map (λ w. w.now) weekday_field.entry)) }
{
    let reasons = [(true, Remark::NotRead(fault)), place];
    let beside = [(
        is_malformed_weekday(weekday_field),
        Remark::MalformedWeekday,
    )];
    fields_of_none(alloc, edition, None, &reasons, &beside)
}

/// Returns the fields if the date is not UTF-8, with the field of the weekday.
fn fields_without_text(
    alloc: Global,
    edition: usize,
    territory: Result<&Territory, NoPlace>,
    weekday_field: Option<&[u8]>,
) -> Result<LetterFields, AllocError>
    ensures { IfOk result (λ fields. spec.fields_and_remarks fields
        ≡ spec.fields_without_text edition
        (result_map_both (λ t. t.now) (λ reason. reason) territory.entry)
        (option_map (λ w. w.now) weekday_field.entry)) }
{
    let reasons = [(true, Remark::NotUtf8), place_remark_beside(territory)];
    let beside = [(
        is_malformed_weekday(weekday_field),
        Remark::MalformedWeekday,
    )];
    fields_of_none(alloc, edition, None, &reasons, &beside)
}

/// Returns the twelve fields that are put after the row of a letter, by the register of that
/// edition: which days its date means in its place. The fields `days`, `gregorian`, `julian`,
/// `dual`, `weekday_found` and `jdn` contain each day of a date that is one day. The fields
/// `earliest`, `latest`, `kind`, `edtf`, `edition` and `remark` follow.
///
/// A place that the table of places lists has the code of that table. Any other place is the code
/// of a territory or, if no territory has exactly that code, the code or the name of one in capital
/// or small letters. If several have it, the place is ambiguous. The weekday may be missing or
/// empty, and its letters may be capital or small. White space of ASCII around each of the three is
/// ignored. A date that names a calendar is read as if the territory had used that calendar.
///
/// # Errors
///
/// If memory runs out, and in no other case.
#[tactic(auto, using(crate::proofs::EdtfFacts::runs_read, crate::proofs::EdtfFacts::days_read))]
pub fn row_fields(
    alloc: Global,
    territories: &TerritoryFinder<'_>,
    edition: usize,
    order: DateOrder,
    places: Option<&Places>,
    place: &[u8],
    date: &[u8],
    weekday: Option<&[u8]>,
) -> Result<LetterFields, AllocError>
    ensures value { IfOk result (λ fields. spec.fields_and_remarks fields
        ≡ spec.row_fields newest_rules territories.now edition order
        (unwrap_or (option_map (λ places. places.now) places.entry) []) place.now date.now
        (option_map (λ w. w.now) weekday.entry)) }
    // as laws: what `edtf` has of several runs or days is read as the set of these
    ensures runs { AreRunsRead newest_rules }
    ensures days { AreDaysRead newest_rules }
{
    let territory = territories.find(alloc, places, place)?;
    match date_of_field(alloc, order, date)? {
        Ok(TextReading::Date(date)) => fields_of_date(alloc, edition, territory, date, weekday),
        Ok(TextReading::Set) => fields_of_set(alloc, edition, territory, date, weekday),
        Ok(TextReading::NoDate) => {
            let place = place_remark(territory);
            fields_without_date(alloc, edition, DateFault::NoDate, place, weekday)
        }
        Err(_) if !is_text(date) => fields_without_text(alloc, edition, territory, weekday),
        Err(fault) => {
            fields_without_date(alloc, edition, fault, place_remark(territory), weekday)
        }
    }
}
