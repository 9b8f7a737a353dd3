//! The query of a line's object. The questions of a desk, a schedule and a transcript read theirs
//! by the same call.
ghost use Rattle.std.specs.Prelude.{◌≡◌, ◌≤◌, true, Ok, Err, MatchResult, IfOk, IfErr};
ghost use Rattle.osn_request.specs.declared.request.RequestError.TheVariants.{NoMemory};
ghost use Rattle.osn_request.specs.LineQuery.{line_query, Reads};
ghost use Rattle.osn_request.specs.QueryRequest as spec;
ghost use Rattle.osn_request.specs.Request.{GivesLast};

use crate::member::Member;
use crate::request::RequestError;
use crate::request::field::{calendar_at, text_at, weekday_at, whole_at};
use crate::request::json_object::JsonObject;
use crate::request::line_query::LineQuery;
use crate::request::op::QueryOp;
use crate::wire_fault::WireFault;
use osn_register::{BorrowedQuery, Query};
use std::alloc::Global;

/// Returns the number of a reader, with this many readers, who are counted from 1.
///
/// # Errors
/// Returns `UnknownReader` for a number that no reader has.
pub fn reader_in(readers: u32, reader: i64) -> Result<u32, WireFault>
    ensures reader { result ≡ spec.reader_in readers reader }
    ensures among { IfOk result (λ r. (1 ≤ r) × (r ≤ readers)) }
{
    if reader < 1 || reader > readers as i64 {
        return Err(WireFault::UnknownReader);
    }
    Ok(reader as u32)
}

#[tactic(auto, unfolding(crate::specs::QueryRequest::read_of))]
fn read_of<O: JsonObject>(object: &O) -> Result<LineQuery<'_>, WireFault>
    ensures { Reads result (spec.read_of (O.value object.now)) }
{
    let code = text_at(object, Member::Code)?;
    let year = whole_at(object, Member::Year)?;
    let month = whole_at(object, Member::Month)?;
    let day = whole_at(object, Member::Day)?;
    Ok(LineQuery::Plain(BorrowedQuery::Read(code, year, month, day)))
}

#[tactic(auto, unfolding(crate::specs::QueryRequest::day_in_of))]
fn day_in_of<O: JsonObject>(object: &O) -> Result<LineQuery<'_>, WireFault>
    ensures { Reads result (spec.day_in_of (O.value object.now)) }
{
    let code = text_at(object, Member::Code)?;
    let day = whole_at(object, Member::Day)?;
    Ok(LineQuery::Plain(BorrowedQuery::DayIn(code, day)))
}

#[tactic(auto, unfolding(crate::specs::QueryRequest::easter_of))]
fn easter_of<O: JsonObject>(object: &O) -> Result<LineQuery<'_>, WireFault>
    ensures { Reads result (spec.easter_of (O.value object.now)) }
{
    let code = text_at(object, Member::Code)?;
    let year = whole_at(object, Member::Year)?;
    Ok(LineQuery::Plain(BorrowedQuery::Easter(code, year)))
}

#[tactic(auto, unfolding(crate::specs::QueryRequest::periods_of))]
fn periods_of<O: JsonObject>(object: &O) -> Result<LineQuery<'_>, WireFault>
    ensures { Reads result (spec.periods_of (O.value object.now)) }
{
    let code = text_at(object, Member::Code)?;
    Ok(LineQuery::Plain(BorrowedQuery::Periods(code)))
}

#[tactic(auto, unfolding(crate::specs::QueryRequest::exceptions_of))]
fn exceptions_of<O: JsonObject>(object: &O) -> Result<LineQuery<'_>, WireFault>
    ensures { Reads result (spec.exceptions_of (O.value object.now)) }
{
    let code = text_at(object, Member::Code)?;
    Ok(LineQuery::Plain(BorrowedQuery::Exceptions(code)))
}

#[tactic(auto, unfolding(crate::specs::QueryRequest::changes_of))]
fn changes_of<O: JsonObject>(object: &O) -> Result<LineQuery<'_>, WireFault>
    ensures { Reads result (spec.changes_of (O.value object.now)) }
{
    let code = text_at(object, Member::Code)?;
    Ok(LineQuery::Plain(BorrowedQuery::Changes(code)))
}

#[tactic(auto, unfolding(crate::specs::QueryRequest::feasts_of))]
fn feasts_of<O: JsonObject>(object: &O) -> Result<LineQuery<'_>, WireFault>
    ensures { Reads result (spec.feasts_of (O.value object.now)) }
{
    let code = text_at(object, Member::Code)?;
    let year = whole_at(object, Member::Year)?;
    Ok(LineQuery::Plain(BorrowedQuery::Feasts(code, year)))
}

#[tactic(auto, unfolding(crate::specs::QueryRequest::convert_of))]
fn convert_of<O: JsonObject>(object: &O) -> Result<LineQuery<'_>, WireFault>
    ensures { Reads result (spec.convert_of (O.value object.now)) }
{
    let code = text_at(object, Member::Code)?;
    let calendar = calendar_at(object)?;
    let year = whole_at(object, Member::Year)?;
    let month = whole_at(object, Member::Month)?;
    let day = whole_at(object, Member::Day)?;
    Ok(LineQuery::Plain(BorrowedQuery::Convert(code, calendar, year, month, day)))
}

#[tactic(auto, unfolding(crate::specs::QueryRequest::year_figures_of))]
fn year_figures_of<O: JsonObject>(object: &O) -> Result<LineQuery<'_>, WireFault>
    ensures { Reads result (spec.year_figures_of (O.value object.now)) }
{
    let year = whole_at(object, Member::Year)?;
    Ok(LineQuery::Plain(BorrowedQuery::YearFigures(year)))
}

#[tactic(auto, unfolding(crate::specs::QueryRequest::written_of))]
fn written_of<O: JsonObject>(object: &O) -> Result<LineQuery<'_>, WireFault>
    ensures { Reads result (spec.written_of (O.value object.now)) }
{
    let code = text_at(object, Member::Code)?;
    let date = text_at(object, Member::Date)?;
    let weekday = weekday_at(object)?;
    Ok(LineQuery::Written {
        code,
        date,
        weekday,
    })
}

/// Returns the query of a line's object, without the reader who asks it.
fn query_by<O: JsonObject>(op: QueryOp, object: &O) -> Result<LineQuery<'_>, WireFault>
    ensures { Reads result (spec.query_by op (O.value object.now)) }
{
    match op {
        QueryOp::Read => read_of(object),
        QueryOp::DayIn => day_in_of(object),
        QueryOp::Easter => easter_of(object),
        QueryOp::YearFigures => year_figures_of(object),
        QueryOp::Lands => Ok(LineQuery::Plain(BorrowedQuery::Lands)),
        QueryOp::Periods => periods_of(object),
        QueryOp::Exceptions => exceptions_of(object),
        QueryOp::Changes => changes_of(object),
        QueryOp::Feasts => feasts_of(object),
        QueryOp::Convert => convert_of(object),
        QueryOp::Written => written_of(object),
    }
}

/// Returns the number of the reader who asks, and the query of a line's object, with texts borrowed
/// from the object.
///
/// # Errors
/// Returns the first fault of the object, or `UnknownReader` if it has no other.
#[tactic(auto, unfolding(crate::specs::QueryRequest::query_of))]
pub fn line_query_of<O: JsonObject>(
    readers: u32,
    op: QueryOp,
    object: &O,
) -> Result<(u32, LineQuery<'_>), WireFault>
    ensures query { MatchResult result
        (λ asked. spec.query_of readers op (O.value object.now)
        ≡ Ok (asked.0, line_query asked.1))
        (λ f. spec.query_of readers op (O.value object.now) ≡ Err f) }
    ensures among { IfOk result (λ asked. (1 ≤ asked.0) × (asked.0 ≤ readers)) }
{
    let reader = whole_at(object, Member::Reader)?;
    let query = query_by(op, object)?;
    let reader = reader_in(readers, reader)?;
    Ok((reader, query))
}

/// Returns the number of the reader who asks, and the query of a line's object, with this many
/// readers.
///
/// # Errors
/// Returns the first fault of the object, or `NoMemory`. Memory is taken only for the texts of a
/// query that has a code, after no fault was found.
pub fn query_of<O: JsonObject>(
    alloc: Global,
    readers: u32,
    op: QueryOp,
    object: &O,
) -> Result<(u32, Query), RequestError>
    ensures query { GivesLast result (spec.query_of readers op (O.value object.now)) }
    ensures among { IfOk result (λ asked. (1 ≤ asked.0) × (asked.0 ≤ readers)) }
    ensures memory { IfErr result (λ e. e ≡ NoMemory → spec.has_code op ≡ true) }
{
    let (reader, query) = line_query_of(readers, op, object)?;
    Ok((reader, query.to_query(alloc)?))
}
