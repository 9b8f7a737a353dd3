//! The command of a line of a journal or a script.
ghost use Rattle.osn_request.specs.LineObject.{line_data};
ghost use Rattle.osn_request.specs.Request.{GivesLast};
ghost use Rattle.osn_files.specs.Commands as spec;

use osn_core::Command;
use osn_request::{LineObject, Op, RequestError, Version, WireFault, edit_of, op_of};
use std::alloc::Global;

/// Returns the command of a line's object by the rules of a version.
///
/// # Errors
/// Returns the first fault of the object, or `NoMemory` for an object without a fault.
pub(crate) fn command_in(
    alloc: Global,
    version: Version,
    object: &LineObject<'_>,
) -> Result<Command, RequestError>
    ensures { GivesLast result (spec.command_in version (line_data object.now)) }
{
    match op_of(object)? {
        Op::Edit(op) => Ok(Command::Stage(edit_of(alloc, version, op, object)?)),
        Op::Publish => Ok(Command::Publish),
        Op::Query(_) => Err(RequestError::Fault(WireFault::UnknownOp)),
    }
}
