//! The members that a request doesn't have.
ghost use Rattle.std.specs.Prelude.{◌≡◌, option_map};
ghost use Rattle.serde_json.specs.View.{members_view, view};
ghost use Rattle.osn_request.specs.Unknown as spec;

use crate::request::op::{EditOp, Op, QueryOp, op_of};
use serde_json::{Map, Value};

/// Returns whether an edit may have a member of this name.
fn edit_has(op: EditOp, name: &str) -> bool
    ensures { result ≡ spec.is_member_of (spec.edit_row op) name.now }
{
    match op {
        EditOp::AddLand => matches!(
            name,
            "op" | "code" | "name" | "calendar" | "style" | "rule" | "source"
        ),
        EditOp::AddChange | EditOp::AlterChange => matches!(
            name,
            "op" | "code" | "day" | "calendar" | "style" | "rule" | "source"
        ),
        EditOp::DropChange => matches!(name, "op" | "code" | "day"),
        EditOp::AddException => matches!(name, "op" | "code" | "year" | "day" | "source"),
        EditOp::DropException => matches!(name, "op" | "code" | "year"),
    }
}

/// Returns whether a query may have a member of this name.
fn query_has(op: QueryOp, name: &str) -> bool
    ensures { result ≡ spec.is_member_of (spec.query_row op) name.now }
{
    match op {
        QueryOp::Read => matches!(name, "op" | "reader" | "code" | "year" | "month" | "day"),
        QueryOp::DayIn => matches!(name, "op" | "reader" | "code" | "day"),
        QueryOp::Easter | QueryOp::Feasts => matches!(name, "op" | "reader" | "code" | "year"),
        QueryOp::YearFigures => matches!(name, "op" | "reader" | "year"),
        QueryOp::Lands => matches!(name, "op" | "reader"),
        QueryOp::Periods | QueryOp::Exceptions | QueryOp::Changes => {
            matches!(name, "op" | "reader" | "code")
        }
        QueryOp::Convert => matches!(
            name,
            "op" | "reader" | "code" | "calendar" | "year" | "month" | "day"
        ),
        QueryOp::Written => matches!(name, "op" | "reader" | "code" | "date" | "weekday"),
    }
}

/// Returns whether a request may have a member of this name.
fn has_member(op: Op, name: &str) -> bool
    ensures { result ≡ spec.is_member_of (spec.row op) name.now }
{
    match op {
        Op::Edit(op) => edit_has(op, name),
        Op::Publish => name == "op",
        Op::Query(op) => query_has(op, name),
    }
}

/// Returns the first member, in the order of their names, that a request doesn't have.
fn first_unknown(op: Op, members: &Map<String, Value>) -> Option<&str>
    ensures { option_map (λ name. name.now) result
        ≡ spec.first_unknown op (members_view members.now.entries) }
{
    for name in members.keys() {
        if !has_member(op, name.as_str()) {
            return Some(name.as_str());
        }
    }
    None
}

/// Returns the first member of an object, in the order of their names, that its request doesn't
/// have. If it asks for nothing, no member is unknown.
pub fn unknown_member(value: &Value) -> Option<&str>
    ensures { option_map (λ name. name.now) result ≡ spec.unknown_member (view value.now) }
{
    match op_of(value) {
        Ok(op) => first_unknown(op, value.as_object()?),
        Err(_) => None,
    }
}
