//! What is asked of a line's object: which members it has, its texts and its whole numbers.
ghost use Rattle.std.specs.Prelude.{◌≡◌, is_some, option_and_then, option_map};
ghost use Rattle.serde_json.specs.Data.{Data};
ghost use Rattle.serde_json.specs.Find.{as_i64, as_number, as_str, get};

use serde_json::Value;

/// A JSON object, asked for its members by their names.
pub trait JsonObject {
    // The value that it is.
    ghost value: { Self → Data };

    /// Returns whether it has a member.
    fn has(&self, name: &str) -> bool
        ensures { result ≡ is_some (get name.now (value self.now)) };

    /// Returns a member that is a text.
    fn text(&self, name: &str) -> Option<&str>
        ensures { option_map (λ s. s.now) result
            ≡ option_and_then as_str (get name.now (value self.now)) };

    /// Returns a member that is a whole number.
    fn whole(&self, name: &str) -> Option<i64>
        ensures { result
            ≡ option_and_then as_i64 (option_and_then as_number (get name.now (value self.now))) };
}

impl JsonObject for Value {
    ghost use Rattle.serde_json.specs.View.{view};

    ghost value = { view };

    fn has(&self, name: &str) -> bool {
        self.get(name).is_some()
    }

    fn text(&self, name: &str) -> Option<&str> {
        self.get(name).and_then(Value::as_str)
    }

    fn whole(&self, name: &str) -> Option<i64> {
        self.get(name).and_then(Value::as_i64)
    }
}
