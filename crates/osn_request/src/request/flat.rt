//! An object whose members are few texts and whole numbers. It takes no memory: its texts are in
//! the line, or in the reader that unescaped them.
ghost use Rattle.std.specs.Prelude.{◌≡◌, option_map};

mod reading;

use crate::request::json_object::JsonObject;
use arrayvec::ArrayVec;
pub(crate) use reading::flat_object_of;

/// The most members of a flat object. No line that a format asks for has more.
const MOST_MEMBERS: usize = 8;

/// A text or a whole number.
#[derive(Clone, Copy, Drop)]
enum Scalar<'a> {
    Text(&'a str),
    Whole(i64),
}

impl<'a> Default for Scalar<'a> {
    ghost use Rattle.std.specs.Prelude.{pos};
    ghost use Rattle.osn_request.specs.declared.request.flat.Scalar.TheVariants.{Whole};

    ghost is_default = { λ s. s ≡ Whole (pos 0) };

    fn default() -> Self {
        Scalar::Whole(0)
    }
}

/// An object whose members are few texts and whole numbers, borrowed from its line.
#[derive(Drop)]
pub struct FlatObject<'a> {
    members: ArrayVec<(&'a str, Scalar<'a>), MOST_MEMBERS>,
}

impl<'a> FlatObject<'a> {
    ghost use Rattle.serde_json.specs.Find.{get_member};
    ghost use Rattle.osn_request.specs.Flat.{flat_members, scalar_data};

    /// Returns the value of a member: of two with one name, that of the last one.
    fn find(&self, name: &str) -> Option<Scalar<'a>>
        ensures { option_map scalar_data result ≡ get_member name.now (flat_members self.now) }
    {
        let members = self.members.as_slice();
        let mut before = members.len();
        while before > 0 {
            before -= 1;
            let (member, value) = members[before];
            if member == name {
                return Some(value);
            }
        }
        None
    }
}

impl<'a> JsonObject for FlatObject<'a> {
    ghost use Rattle.serde_json.specs.Data.{object};
    ghost use Rattle.osn_request.specs.Flat.{flat_members};

    ghost value = { λ f. object (flat_members f) };

    fn has(&self, name: &str) -> bool {
        self.find(name).is_some()
    }

    fn text(&self, name: &str) -> Option<&str> {
        match self.find(name) {
            Some(Scalar::Text(text)) => Some(text),
            _ => None,
        }
    }

    fn whole(&self, name: &str) -> Option<i64> {
        match self.find(name) {
            Some(Scalar::Whole(number)) => Some(number),
            _ => None,
        }
    }
}
