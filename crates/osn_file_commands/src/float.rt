//! Whether a JSON value has a number that is read as a float.
ghost use Rattle.std.specs.Prelude.{◌≡◌};
ghost use Rattle.serde_json.specs.View.{view, items_view, members_view};
ghost use Rattle.serde_json.specs.Written as spec;

use serde_json::{Map, Value};

/// Returns whether a value has a number that is read as a float, however deep.
#[cycle(has_float)]
pub(crate) fn has_float(value: &Value) -> bool
    ensures { result ≡ spec.has_float (view value.now) }
{
    match value {
        Value::Null | Value::Bool(_) | Value::String(_) => false,
        Value::Number(number) => number.is_f64(),
        Value::Array(items) => items_have_float(items),
        Value::Object(members) => members_have_float(members),
    }
}

#[cycle(has_float)]
fn items_have_float(items: &Vec<Value>) -> bool
    ensures { result ≡ spec.items_have_float (items_view items.now.items) }
{
    for item in items {
        if has_float(item) {
            return true;
        }
    }
    false
}

#[cycle(has_float)]
fn members_have_float(members: &Map<String, Value>) -> bool
    ensures { result ≡ spec.members_have_float (members_view members.now.entries) }
{
    for (_, member) in members.iter() {
        if has_float(member) {
            return true;
        }
    }
    false
}
