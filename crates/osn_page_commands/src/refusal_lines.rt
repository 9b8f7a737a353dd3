//! The lines on standard error about a refused page.
ghost use Rattle.std.specs.Prelude.{◌≡◌, ◌++◌, IfOk, OnOk, string_bytes};
ghost use Rattle.osn_page_commands.specs.Page as spec;

use crate::page_request::Topic;
use osn_lines::EscapedText;
use osn_register::Refusal;
use osn_report::refusal_number_line;
use std::alloc::{AllocError, Global};
use std::fmt;
use std::fmt::Write;

/// The words that a word can't be a code.
#[derive(Clone, Copy)]
struct NoCode<'a>(&'a str);

impl<'a> fmt::Display for NoCode<'a> {
    ghost use Rattle.std.specs.Prelude.{Some};
    ghost use Rattle.osn_page_commands.specs.Page.{no_code};

    ghost output = { λ x. Some (no_code x.0.now) };

    fn fmt<W: fmt::Write>(&self, f: &mut fmt::Formatter<W>) -> fmt::Result {
        let code = EscapedText(self.0);
        write!(
            f,
            "{code}: a code is 2 to 8 capital letters or digits, the first a letter"
        )
    }
}

/// The words that the journal of a path has no territory of a code.
#[derive(Clone, Copy)]
struct NoTerritory<'a> {
    path: &'a str,
    code: &'a str,
}

impl<'a> fmt::Display for NoTerritory<'a> {
    ghost use Rattle.std.specs.Prelude.{Some};
    ghost use Rattle.osn_page_commands.specs.Page.{no_territory};

    ghost output = { λ x. Some (no_territory x.path.now x.code.now) };

    fn fmt<W: fmt::Write>(&self, f: &mut fmt::Formatter<W>) -> fmt::Result {
        let code = EscapedText(self.code);
        let path = EscapedText(self.path);
        write!(
            f,
            "no territory has the code {code}: see oldstyle territory {path}"
        )
    }
}

/// Returns the line on a refusal of what is asked of a territory, with the path of the journal.
///
/// # Errors
///
/// Only that memory ran out.
pub fn territory_refusal_line(
    alloc: Global,
    path: &str,
    code: &str,
    refusal: Refusal,
) -> Result<String, AllocError>
    ensures { IfOk result (λ line.
        string_bytes line ≡ spec.territory_refusal_line path.now code.now refusal) }
{
    match refusal {
        Refusal::BadCode => format!(in alloc; "oldstyle: {}\n", NoCode(code)),
        Refusal::UnknownLand => format!(in alloc; "oldstyle: {}\n", NoTerritory { path, code }),
        _ => refusal_number_line(alloc, refusal.number(), refusal.name()),
    }
}

/// Appends what is allowed if an almanac was refused, and what to do next.
fn push_help(
    line: &mut String,
    path: &str,
    code: &str,
    year: u32,
    refusal: Refusal,
) -> Result<(), AllocError>
    ensures { OnOk result (string_bytes line.new
        ≡ string_bytes line.old ++ spec.almanac_help path.now code.now year refusal) }
{
    match refusal {
        Refusal::BadCode => writeln!(line, "help: {}", NoCode(code)),
        Refusal::UnknownLand => writeln!(line, "help: {}", NoTerritory { path, code }),
        Refusal::YearOffRange => writeln!(line, "help: {year}: a year is 1 to 9999"),
        _ => Ok(()),
    }
}

/// Returns the lines on the refusal of an almanac.
fn almanac_lines(
    alloc: Global,
    path: &str,
    code: &str,
    year: u32,
    refusal: Refusal,
) -> Result<String, AllocError>
    ensures { IfOk result (λ lines.
        string_bytes lines ≡ spec.almanac_refusal_lines path.now code.now year refusal) }
{
    let mut lines = refusal_number_line(alloc, refusal.number(), refusal.name())?;
    push_help(&mut lines, path, code, year, refusal)?;
    Ok(lines)
}

/// Returns the line on a refusal of what was asked for.
pub(crate) fn refusal_line(
    alloc: Global,
    path: &str,
    code: &str,
    topic: &Topic,
    refusal: Refusal,
) -> Result<String, AllocError>
    ensures { IfOk result (λ line.
        string_bytes line ≡ spec.refusal_line path.now code.now topic.now refusal) }
{
    match *topic {
        Topic::Almanac(year) => almanac_lines(alloc, path, code, year, refusal),
        Topic::Year { .. } | Topic::Territory { .. } | Topic::Set { .. } | Topic::Dates(_) => {
            territory_refusal_line(alloc, path, code, refusal)
        }
        Topic::Territories { .. } => refusal_number_line(alloc, refusal.number(), refusal.name()),
    }
}
