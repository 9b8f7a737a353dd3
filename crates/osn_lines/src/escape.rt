//! A text of a user, as a message prints it.
ghost use Rattle.std.specs.Prelude.{◌≡◌, Some};
ghost use Rattle.std.specs.Fmt.{WritesOnOk};
ghost use Rattle.osn_lines.specs.Escape as spec;

use std::fmt;

/// A text that prints on one line: characters on which a terminal acts are written as Rust's
/// `char::escape_default` writes them, such as `\u{1b}` and `\n`. They are those of control, those
/// that change the direction of writing (UAX #9, table 1), and the ends of a line and of a
/// paragraph, U+2028 and U+2029.
#[derive(Clone, Copy)]
pub struct EscapedText<'a>(pub &'a str);

/// A text with lines that prints without acting on a terminal. Line feeds are written as they are,
/// and other characters as in `EscapedText`.
#[derive(Clone, Copy)]
pub struct EscapedLines<'a>(pub &'a str);

impl<'a> fmt::Display for EscapedText<'a> {
    ghost output = { λ x. Some (spec.escaped_text x.0.now) };

    fn fmt<W: fmt::Write>(&self, f: &mut fmt::Formatter<W>) -> fmt::Result {
        for c in self.0.chars() {
            write_escaped(f, c)?;
        }
        Ok(())
    }
}

impl<'a> fmt::Display for EscapedLines<'a> {
    fn fmt<W: fmt::Write>(&self, f: &mut fmt::Formatter<W>) -> fmt::Result {
        for c in self.0.chars() {
            if c == '\n' {
                f.write_char(c)?;
            } else {
                write_escaped(f, c)?;
            }
        }
        Ok(())
    }
}

/// Returns whether a terminal acts on the character.
fn is_escaped(c: char) -> bool
    ensures { result ≡ spec.is_escaped c }
{
    c < '\u{20}'
        || ('\u{7f}'..'\u{a0}').contains(&c)
        || c == '\u{61c}'
        || ('\u{200e}'..'\u{2010}').contains(&c)
        || ('\u{2028}'..'\u{202f}').contains(&c)
        || ('\u{2066}'..'\u{206a}').contains(&c)
}

/// Writes a character, or its escape.
fn write_escaped<W: fmt::Write>(f: &mut fmt::Formatter<W>, c: char) -> fmt::Result
    ensures { WritesOnOk W.write_str_gives f.old result (spec.escaped_char c) f.new }
{
    if is_escaped(c) {
        write_escape(f, c)
    } else {
        f.write_char(c)
    }
}

/// Writes the escape of a character.
fn write_escape<W: fmt::Write>(f: &mut fmt::Formatter<W>, c: char) -> fmt::Result
    ensures { WritesOnOk W.write_str_gives f.old result (spec.escape_text c) f.new }
{
    for part in c.escape_default() {
        f.write_char(part)?;
    }
    Ok(())
}
