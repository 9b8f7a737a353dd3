//! The fields of a letter's date that is a set of dates.
ghost use Rattle.std.specs.Prelude.{◌≡◌, option_map, IfOk};
ghost use Rattle.std.specs.Result.{result_map_both};
ghost use Rattle.osn_days.specs.Rules.{newest_rules};
ghost use Rattle.osn_letters.specs.Fields as spec;
ghost use Rattle.osn_letters.specs.RowFields.{members_in as members_in_field};
ghost use Rattle.osn_written.specs.SetsMeant.{set_list_of};

use crate::added_fields::Summary;
use crate::edtf::{edtf_of_runs, sign_of};
use crate::letter::{LetterFields, fields_of_none, fields_with};
use crate::no_place::NoPlace;
use crate::remark::{PossibleRemark, Remark, applying, remarks_beside_set};
use crate::row_field::{is_malformed_weekday, members_in, weekday_in};
use crate::span::span_of_set;
use osn_territory::{Run, Territory};
use osn_written::{AbsentMember, AnyDate, Kind, find_set, is_set_approximate, is_set_uncertain};
use std::alloc::{AllocError, Global};

/// Returns the fields of the runs of a set.
fn fields_of_set_runs(
    alloc: Global,
    edition: usize,
    members: &[AnyDate],
    runs: &[Run],
    beside: &[PossibleRemark],
) -> Result<LetterFields, AllocError>
    ensures { IfOk result (λ fields. spec.fields_and_remarks fields
        ≡ spec.fields_of_set_runs edition members.now runs.now beside.now) }
{
    let summary = Summary {
        span: span_of_set(runs),
        kind: Some(Kind::Set),
        edition,
    };
    let sign = sign_of(is_set_uncertain(members), is_set_approximate(members));
    let edtf = edtf_of_runs(alloc, sign, runs)?;
    let remarks = applying(alloc, &[], beside)?;
    Ok(fields_with(alloc, summary, edtf, remarks))
}

/// Returns the fields of a set without days, for that reason.
fn fields_of_no_set(
    alloc: Global,
    edition: usize,
    reason: Remark,
    beside: &[PossibleRemark],
) -> Result<LetterFields, AllocError>
    ensures { IfOk result (λ fields. spec.fields_and_remarks fields
        ≡ spec.fields_of_no_set edition reason beside.now) }
{
    fields_of_none(alloc, edition, Some(Kind::Set), &[(true, reason)], beside)
}

/// Returns the fields of what was found of a set.
fn fields_of_found_set(
    alloc: Global,
    edition: usize,
    members: &[AnyDate],
    outcome: Result<Vec<Run>, AbsentMember>,
    beside: &[PossibleRemark],
) -> Result<LetterFields, AllocError>
    ensures { IfOk result (λ fields. spec.fields_and_remarks fields
        ≡ spec.fields_of_found_set edition members.now beside.now (set_list_of outcome)) }
{
    match outcome {
        Ok(runs) => fields_of_set_runs(alloc, edition, members, &runs, beside),
        Err(absent) => fields_of_no_set(alloc, edition, Remark::NoDay(absent.reason), beside),
    }
}

/// Returns the fields of a set of dates in its place, if that is known.
fn fields_of_members(
    alloc: Global,
    edition: usize,
    territory: Result<&Territory, NoPlace>,
    members: &[AnyDate],
    beside: &[PossibleRemark],
) -> Result<LetterFields, AllocError>
    ensures { IfOk result (λ fields. spec.fields_and_remarks fields
        ≡ spec.fields_of_members newest_rules edition
        (result_map_both (λ t. t.now) (λ reason. reason) territory.entry) members.now beside.now) }
{
    match territory {
        Ok(territory) => {
            let outcome = find_set(alloc, territory, members)?;
            fields_of_found_set(alloc, edition, members, outcome, beside)
        }
        Err(reason) => fields_of_no_set(alloc, edition, Remark::NoPlace(reason), beside),
    }
}

/// Returns the fields of the set of dates that a field says, with the field of the weekday.
pub(crate) fn fields_of_set(
    alloc: Global,
    edition: usize,
    territory: Result<&Territory, NoPlace>,
    date: &[u8],
    weekday_field: Option<&[u8]>,
) -> Result<LetterFields, AllocError>
    ensures { IfOk result (λ fields. spec.fields_and_remarks fields
        ≡ spec.fields_of_set newest_rules edition
        (result_map_both (λ t. t.now) (λ reason. reason) territory.entry)
        (members_in_field date.now) (option_map (λ w. w.now) weekday_field.entry)) }
{
    let members = members_in(alloc, date)?;
    let beside = remarks_beside_set(
        weekday_in(weekday_field),
        is_malformed_weekday(weekday_field),
    );
    fields_of_members(alloc, edition, territory, &members, &beside)
}
