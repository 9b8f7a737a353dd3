//! The step of a line of a schedule.
ghost use Rattle.std.specs.Prelude.{◌≡◌};
ghost use Rattle.osn_request.specs.LineObject.{line_data};
ghost use Rattle.osn_request.specs.Request.{GivesLast};
ghost use Rattle.osn_files.specs.Schedule as spec;

use osn_core::Step;
use osn_request::{
    LineObject, Member, Op, RequestError, Version, WireFault, edit_of, op_of, query_of, reader_in,
    text_at, whole_at,
};
use std::alloc::Global;

/// The kinds of step.
#[derive(Clone, Copy)]
pub(crate) enum StepKind {
    Look,
    Pin,
    Check,
    Answer,
    Leave,
    Stage,
    Publish,
    Claim,
    Absorb,
}

fn kind_named(word: &str) -> Option<StepKind>
    ensures { result ≡ spec.kind_named word.now }
{
    match word {
        "look" => Some(StepKind::Look),
        "pin" => Some(StepKind::Pin),
        "check" => Some(StepKind::Check),
        "answer" => Some(StepKind::Answer),
        "leave" => Some(StepKind::Leave),
        "stage" => Some(StepKind::Stage),
        "publish" => Some(StepKind::Publish),
        "claim" => Some(StepKind::Claim),
        "absorb" => Some(StepKind::Absorb),
        _ => None,
    }
}

fn kind_of(object: &LineObject<'_>) -> Result<StepKind, WireFault>
    ensures { result ≡ spec.kind_of (line_data object.now) }
{
    match kind_named(text_at(object, Member::Step)?) {
        Some(kind) => Ok(kind),
        None => Err(WireFault::UnknownStep),
    }
}

fn reader_of(readers: u32, object: &LineObject<'_>) -> Result<u32, WireFault>
    ensures { result ≡ spec.reader_of readers (line_data object.now) }
{
    reader_in(readers, whole_at(object, Member::Reader)?)
}

fn look_of(alloc: Global, readers: u32, object: &LineObject<'_>) -> Result<Step, RequestError>
    ensures { GivesLast result (spec.look_of readers (line_data object.now)) }
{
    match op_of(object)? {
        Op::Query(op) => {
            let (reader, query) = query_of(alloc, readers, op, object)?;
            Ok(Step::Look { reader, query })
        }
        Op::Edit(_) | Op::Publish => Err(RequestError::Fault(WireFault::UnknownOp)),
    }
}

fn stage_of(alloc: Global, version: Version, object: &LineObject<'_>) -> Result<Step, RequestError>
    ensures { GivesLast result (spec.stage_of version (line_data object.now)) }
{
    match op_of(object)? {
        Op::Edit(op) => Ok(Step::Stage(edit_of(alloc, version, op, object)?)),
        Op::Publish | Op::Query(_) => Err(RequestError::Fault(WireFault::UnknownOp)),
    }
}

/// Returns the step of a line's object, which is of this kind.
fn step_by(
    alloc: Global,
    version: Version,
    readers: u32,
    kind: StepKind,
    object: &LineObject<'_>,
) -> Result<Step, RequestError>
    ensures { GivesLast result
        (spec.step_by version readers (line_data object.now) kind) }
{
    match kind {
        StepKind::Look => look_of(alloc, readers, object),
        StepKind::Pin => Ok(Step::Pin {
            reader: reader_of(readers, object)?,
        }),
        StepKind::Check => Ok(Step::Check {
            reader: reader_of(readers, object)?,
        }),
        StepKind::Answer => Ok(Step::Answer {
            reader: reader_of(readers, object)?,
        }),
        StepKind::Leave => Ok(Step::Leave {
            reader: reader_of(readers, object)?,
        }),
        StepKind::Stage => stage_of(alloc, version, object),
        StepKind::Publish => Ok(Step::Publish),
        StepKind::Claim => Ok(Step::Claim),
        StepKind::Absorb => Ok(Step::Absorb),
    }
}

/// Returns the step of a line's object by the rules of a version, with this many readers.
///
/// # Errors
/// Returns the first fault of the object, or `NoMemory` for an object without a fault.
pub(crate) fn step_in(
    alloc: Global,
    version: Version,
    readers: u32,
    object: &LineObject<'_>,
) -> Result<Step, RequestError>
    ensures { GivesLast result (spec.step_in version readers (line_data object.now)) }
{
    step_by(alloc, version, readers, kind_of(object)?, object)
}
