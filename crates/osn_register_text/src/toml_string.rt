//! A text as a string of TOML.
ghost use Rattle.std.specs.Prelude.{Some};
ghost use Rattle.toml_writer.specs.Text.{string_text};

use std::fmt;
use toml_writer::write_string;

/// A text that prints as a string of TOML, quoted and with escapes if it needs them.
#[derive(Clone, Copy)]
pub(crate) struct TomlString<'a>(pub(crate) &'a str);

impl fmt::Display for TomlString<'_> {
    ghost output = { λ x. Some (string_text x.0.now) };

    fn fmt<W: fmt::Write>(&self, f: &mut fmt::Formatter<W>) -> fmt::Result {
        write_string(f, self.0)
    }
}
