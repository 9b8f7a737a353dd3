//! What a line asks for, by the word of its member `op`.
ghost use Rattle.std.specs.Prelude.{◌≡◌};
ghost use Rattle.osn_request.specs.Op as spec;

use crate::member::Member;
use crate::request::field::text_at;
use crate::request::json_object::JsonObject;
use crate::wire_fault::WireFault;

/// What a line asks for.
#[derive(Clone, Copy, Debug, PartialEq, Eq)]
pub enum Op {
    Edit(EditOp),
    Publish,
    Query(QueryOp),
}

/// The edits.
#[derive(Clone, Copy, Debug, PartialEq, Eq)]
pub enum EditOp {
    AddLand,
    AddChange,
    AlterChange,
    DropChange,
    AddException,
    DropException,
}

/// The queries.
#[derive(Clone, Copy, Debug, PartialEq, Eq)]
pub enum QueryOp {
    Read,
    DayIn,
    Easter,
    YearFigures,
    Lands,
    Periods,
    Exceptions,
    Changes,
    Feasts,
    Convert,
    Written,
}

fn op_named(word: &str) -> Option<Op>
    ensures { result ≡ spec.op_named word.now }
{
    match word {
        "add_land" => Some(Op::Edit(EditOp::AddLand)),
        "add_change" => Some(Op::Edit(EditOp::AddChange)),
        "alter_change" => Some(Op::Edit(EditOp::AlterChange)),
        "drop_change" => Some(Op::Edit(EditOp::DropChange)),
        "add_exception" => Some(Op::Edit(EditOp::AddException)),
        "drop_exception" => Some(Op::Edit(EditOp::DropException)),
        "publish" => Some(Op::Publish),
        "read" => Some(Op::Query(QueryOp::Read)),
        "day" => Some(Op::Query(QueryOp::DayIn)),
        "easter" => Some(Op::Query(QueryOp::Easter)),
        "figures" => Some(Op::Query(QueryOp::YearFigures)),
        "lands" => Some(Op::Query(QueryOp::Lands)),
        "periods" => Some(Op::Query(QueryOp::Periods)),
        "exceptions" => Some(Op::Query(QueryOp::Exceptions)),
        "changes" => Some(Op::Query(QueryOp::Changes)),
        "feasts" => Some(Op::Query(QueryOp::Feasts)),
        "convert" => Some(Op::Query(QueryOp::Convert)),
        "written" => Some(Op::Query(QueryOp::Written)),
        _ => None,
    }
}

/// Returns what the object of a line asks for.
///
/// # Errors
/// Returns `BadField` if the member `op` is missing or not a text, then `UnknownOp` for a word that
/// no request has.
pub fn op_of<O: JsonObject>(object: &O) -> Result<Op, WireFault>
    ensures { result ≡ spec.op_of (O.value object.now) }
{
    match op_named(text_at(object, Member::Op)?) {
        Some(op) => Ok(op),
        None => Err(WireFault::UnknownOp),
    }
}
