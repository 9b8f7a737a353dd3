//! The query of a line of a question file.
ghost use Rattle.std.specs.Prelude.{◌≡◌, ◌≤◌, IfOk, MatchResult, Ok, Err};
ghost use Rattle.osn_request.specs.LineQuery.{line_query};
ghost use Rattle.osn_request.specs.Request.{GivesLast};
ghost use Rattle.osn_files.specs.Questions as spec;

use osn_core::MOST_READERS;
use osn_register::Query;
use osn_request::{JsonObject, LineQuery, Op, RequestError, WireFault, line_query_of, op_of};
use std::alloc::Global;

/// Returns the reader who asks, from 1 to 64, and the query, of the object of a request, with texts
/// borrowed from the object.
///
/// # Errors
/// Returns the first fault of the object, which is that of a request, or `NotAQuery` for an edit or
/// a publish.
pub fn line_question_in<O: JsonObject>(object: &O) -> Result<(u32, LineQuery<'_>), WireFault>
    ensures question { MatchResult result
        (λ asked. spec.question_in (O.value object.now) ≡ Ok (asked.0, line_query asked.1))
        (λ f. spec.question_in (O.value object.now) ≡ Err f) }
    ensures among { IfOk result (λ asked. (1 ≤ asked.0) × (asked.0 ≤ MOST_READERS)) }
{
    match op_of(object)? {
        Op::Query(op) => line_query_of(MOST_READERS, op, object),
        Op::Edit(_) | Op::Publish => Err(WireFault::NotAQuery),
    }
}

/// Returns the reader who asks, from 1 to 64, and the query, of the object of a request.
///
/// # Errors
/// Returns the errors of `line_question_in`, or `NoMemory` for an object without a fault.
pub fn question_in<O: JsonObject>(alloc: Global, object: &O) -> Result<(u32, Query), RequestError>
    ensures question { GivesLast result (spec.question_in (O.value object.now)) }
    ensures among { IfOk result (λ asked. (1 ≤ asked.0) × (asked.0 ≤ MOST_READERS)) }
{
    let (reader, query) = line_question_in(object)?;
    Ok((reader, query.to_query(alloc)?))
}
