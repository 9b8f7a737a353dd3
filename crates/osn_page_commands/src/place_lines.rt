//! The lines on standard error about a word that does not name one territory.
ghost use Rattle.std.specs.Prelude.{◌≡◌, ◌++◌, map, option_map, IfOk, OnOk};
ghost use Rattle.std.specs.Prelude.{string_bytes};
ghost use Rattle.std.specs.List.{flat_map};
ghost use Rattle.osn_register.specs.Answer.{land_of};
ghost use Rattle.osn_page_commands.specs.Place as spec;

use crate::place::suggested_territories;
use osn_lines::EscapedText;
use osn_register::{Land, Register};
use std::alloc::{AllocError, Global};
use std::fmt;
use std::fmt::Write;

/// A territory by its code and its name, such as `GB (Great Britain)`.
#[derive(Clone, Copy)]
struct TerritoryTitle<'a>(&'a Land);

impl<'a> fmt::Display for TerritoryTitle<'a> {
    ghost use Rattle.std.specs.Prelude.{Some};
    ghost use Rattle.osn_page_commands.specs.Place.{territory_title};

    ghost output = { λ x. Some (territory_title x.0.now) };

    fn fmt<W: fmt::Write>(&self, f: &mut fmt::Formatter<W>) -> fmt::Result {
        let name = EscapedText(self.0.name.as_str());
        write!(f, "{} ({name})", self.0.code.as_str())
    }
}

/// Appends a line for each of these territories.
fn push_notes(lines: &mut String, territories: &[Land]) -> Result<(), AllocError>
    ensures { OnOk result (string_bytes lines.new
        ≡ string_bytes lines.old ++ flat_map spec.note_line territories.now) }
{
    for territory in territories {
        writeln!(lines, "note: {}", TerritoryTitle(territory))?;
    }
    Ok(())
}

/// Returns the only one of these territories, if there is one alone.
fn only_meant(suggested: &[Land]) -> Option<&Land>
    ensures { option_map (λ territory. territory.now) result ≡ spec.only_meant suggested.now }
{
    if let [only] = suggested {
        Some(only)
    } else {
        None
    }
}

/// Appends the end of the line on a word that may mean one of these territories, and a line for
/// each.
fn push_each(line: &mut String, suggested: &[Land]) -> Result<(), AllocError>
    ensures { OnOk result
        (string_bytes line.new ≡ string_bytes line.old ++ spec.each_meant suggested.now) }
{
    line.push_str(": did you mean one of these?\n")?;
    push_notes(line, suggested)
}

/// Appends the end of the line on a word that names no territory. If several may be meant, a line
/// for each comes after it.
fn push_several(line: &mut String, suggested: &[Land]) -> Result<(), AllocError>
    ensures { OnOk result
        (string_bytes line.new ≡ string_bytes line.old ++ spec.several_meant suggested.now) }
{
    if suggested.is_empty() {
        line.push_str("\n")
    } else {
        push_each(line, suggested)
    }
}

/// Appends the end of the line on a word that names no territory: the only one that may be meant,
/// or each of several.
fn push_suggestion(line: &mut String, suggested: &[Land]) -> Result<(), AllocError>
    ensures { OnOk result
        (string_bytes line.new ≡ string_bytes line.old ++ spec.suggestion suggested.now) }
{
    match only_meant(suggested) {
        Some(only) => writeln!(line, ": did you mean {}?", TerritoryTitle(only)),
        None => push_several(line, suggested),
    }
}

/// Returns the line on a word that names no territory, with those that may be meant.
fn unknown_line(alloc: Global, word: &str, suggested: &[Land]) -> Result<String, AllocError>
    ensures { IfOk result
        (λ line. string_bytes line ≡ spec.unknown_line word.now suggested.now) }
{
    let word = EscapedText(word);
    let mut line = format!(in alloc; "oldstyle: no territory has the code or the name {word}")?;
    push_suggestion(&mut line, suggested)?;
    Ok(line)
}

/// Returns the lines on a word that names none of these territories.
fn unknown_lines(
    alloc: Global,
    path: &str,
    word: &str,
    territories: &[Land],
) -> Result<String, AllocError>
    ensures { IfOk result (λ lines.
        string_bytes lines ≡ spec.unknown_lines path.now word.now territories.now) }
{
    let suggested = suggested_territories(alloc, word, territories)?;
    let mut lines = unknown_line(alloc, word, suggested.as_slice())?;
    let path = EscapedText(path);
    writeln!(
        lines,
        "help: oldstyle territory {path} lists the territories"
    )?;
    Ok(lines)
}

/// Returns the lines on a word that names all of these territories.
fn several_lines(alloc: Global, word: &str, territories: &[Land]) -> Result<String, AllocError>
    ensures { IfOk result
        (λ lines. string_bytes lines ≡ spec.several_lines word.now territories.now) }
{
    let word = EscapedText(word);
    let mut lines = format!(in alloc;
        "oldstyle: {word}: several territories have this code or name: write the code of one\n"
    )?;
    push_notes(&mut lines, territories)?;
    Ok(lines)
}

/// Returns the lines on a word that names no territory of a register, or all of these. The path is
/// that of the journal.
pub(crate) fn place_lines(
    alloc: Global,
    path: &str,
    word: &str,
    matches: &[Land],
    register: &Register,
) -> Result<String, AllocError>
    ensures { IfOk result (λ lines. string_bytes lines
        ≡ spec.place_lines path.now word.now matches.now (map land_of register.now.territories)) }
{
    if matches.is_empty() {
        let territories = register.list_territories()?;
        unknown_lines(alloc, path, word, territories.as_slice())
    } else {
        several_lines(alloc, word, matches)
    }
}
