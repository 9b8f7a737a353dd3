//! The object of a line.
ghost use Rattle.std.specs.Prelude.{◌≡◌};

use crate::request::flat::FlatObject;
use crate::request::json_object::JsonObject;
use serde_json::Value;

/// The object of a line: borrowed from the line if its members are few texts and whole numbers,
/// otherwise the value of the line.
#[derive(Drop)]
pub enum LineObject<'a> {
    Flat(FlatObject<'a>),
    Tree(Value),
}

impl<'a> LineObject<'a> {
    ghost use Rattle.std.specs.Prelude.{option_and_then, option_map};
    ghost use Rattle.serde_json.specs.Find.{get};
    ghost use Rattle.serde_json.specs.View.{view};
    ghost use Rattle.osn_request.specs.LineObject.{if_object, line_data};

    /// Returns a member that is itself an object.
    pub fn object(&self, name: &str) -> Option<&Value>
        ensures { option_map (λ v. view v.now) result
            ≡ option_and_then if_object (get name.now (line_data self.now)) }
    {
        match self {
            LineObject::Flat(_) => None,
            LineObject::Tree(value) => value.get(name).filter(|member| member.is_object()),
        }
    }
}

impl<'a> JsonObject for LineObject<'a> {
    ghost use Rattle.osn_request.specs.LineObject.{line_data};

    ghost value = { line_data };

    fn has(&self, name: &str) -> bool {
        match self {
            LineObject::Flat(object) => object.has(name),
            LineObject::Tree(value) => value.has(name),
        }
    }

    fn text(&self, name: &str) -> Option<&str> {
        match self {
            LineObject::Flat(object) => object.text(name),
            LineObject::Tree(value) => value.text(name),
        }
    }

    fn whole(&self, name: &str) -> Option<i64> {
        match self {
            LineObject::Flat(object) => object.whole(name),
            LineObject::Tree(value) => value.whole(name),
        }
    }
}
