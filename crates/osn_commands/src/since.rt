//! The request of a publish, and whether the edits of its plan would change again what editions
//! after that of the text changed.
ghost use Rattle.std.specs.Prelude.{◌≡◌, ◌++◌, drop, IfOk, OnOk, string_bytes};
ghost use Rattle.std.specs.List.{list_any};
ghost use Rattle.osn_commands.specs.Since as spec;
ghost use Rattle.osn_commands.specs.Text.{published};

use osn_core::{Batch, Object};
use osn_lines::EscapedText;
use osn_register::{Edit, Register};
use osn_register_text::plan_page;
use std::alloc::{AllocError, Global};
use std::fmt::Write;

/// The request of a publish.
#[derive(Clone, Copy, Debug)]
pub struct PublishRequest<'a> {
    /// The path of the journal.
    pub journal: &'a str,
    /// The path of the text.
    pub text: &'a str,
    /// The edition that the text was made from, if it names one.
    pub edition: Option<u64>,
    /// Whether the publish may change again what editions after that of the text changed.
    pub onto_newest: bool,
}

/// What an edit changes of a territory.
#[derive(Clone, Copy)]
pub(crate) enum Item {
    /// The period that begins on the day of this number.
    Period(i64),
    /// The listed Easter of this year.
    Easter(i64),
}

/// Returns what an edit changes.
fn item_of(edit: &Edit) -> Item
    ensures { result ≡ spec.item_of edit.now }
{
    match edit {
        Edit::AddLand { .. } => Item::Period(1),
        Edit::AddChange { day, .. }
        | Edit::AlterChange { day, .. }
        | Edit::DropChange { day, .. } => Item::Period(*day),
        Edit::AddException { year, .. } | Edit::DropException { year, .. } => Item::Easter(*year),
    }
}

fn is_same_item(item: Item, other: Item) -> bool
    ensures { result ≡ spec.same_item item other }
{
    match (item, other) {
        (Item::Period(day), Item::Period(other)) => day == other,
        (Item::Easter(year), Item::Easter(other)) => year == other,
        _ => false,
    }
}

/// Returns whether two edits change the same thing, of one territory.
fn change_same(edit: &Edit, other: &Edit) -> bool
    ensures { result ≡ spec.change_same edit.now other.now }
{
    edit.code().as_str() == other.code().as_str() && is_same_item(item_of(edit), item_of(other))
}

/// Returns whether an edit changes what one of a batch changed.
fn changes_any(edit: &Edit, batch: &[Edit]) -> bool
    ensures { result ≡ list_any (spec.change_same edit.now) batch.now }
{
    batch.iter().any(|other| change_same(edit, other))
}

/// Returns whether one of some edits changes what one of a batch changed.
fn change_again(edits: &[Edit], batch: &[Edit]) -> bool
    ensures { result ≡ spec.change_again edits.now batch.now }
{
    edits.iter().any(|edit| changes_any(edit, batch))
}

/// Returns whether one of some edits changes what one of some batches changed.
fn change_any_again(edits: &[Edit], batches: &[Batch]) -> bool
    ensures { result ≡ list_any (spec.change_again edits.now) batches.now }
{
    batches
        .iter()
        .any(|batch| change_again(edits, batch.edits()))
}

/// Returns the edition of a text, if a journal of this many editions lacks it.
pub(crate) fn later_than(edition: Option<u64>, editions: usize) -> Option<u64>
    ensures { result ≡ spec.later_than edition editions }
{
    match edition {
        Some(edition) if edition > editions as u64 => Some(edition),
        _ => None,
    }
}

/// Returns the batches after those of this many editions.
fn batches_after(batches: &[Batch], edition: u64) -> &[Batch]
    ensures { result.now ≡ drop edition batches.now }
{
    if edition >= batches.len() as u64 {
        return &[];
    }
    &batches[edition as usize..]
}

/// Returns the edition of a text, if these edits of its plan change again what a later edition
/// changed.
pub(crate) fn behind(edition: Option<u64>, batches: &[Batch], edits: &[Edit]) -> Option<u64>
    ensures { result ≡ spec.behind edition batches.now edits.now }
{
    match edition {
        Some(edition) if change_any_again(edits, batches_after(batches, edition)) => Some(edition),
        _ => None,
    }
}

/// Returns the edition of a text, if these edits of its plan change again what a later edition
/// changed, and the publish is not onto the newest edition.
pub(crate) fn hindering_edition(
    request: PublishRequest<'_>,
    batches: &[Batch],
    edits: &[Edit],
) -> Option<u64>
    ensures { result
        ≡ spec.hindering_edition (spec.request_of request.entry) batches.now edits.now }
{
    if request.onto_newest {
        return None;
    }
    behind(request.edition, batches, edits)
}

/// Returns the lines on a text of an edition that the journal lacks, which has this many.
#[tactic(auto, unfolding(crate::specs::Since::later_lines))]
pub(crate) fn later_lines(
    alloc: Global,
    text: &str,
    journal: &str,
    edition: u64,
    editions: usize,
) -> Result<String, AllocError>
    ensures { IfOk result (λ lines. string_bytes lines
        ≡ spec.later_lines text.now journal.now edition editions) }
{
    let text = EscapedText(text);
    let journal = EscapedText(journal);
    format!(in alloc;
        "oldstyle: {text}: edition: {edition} is later than the newest edition of {journal}, \
which is {editions}\nhelp: write the edition that the text was made from, or leave the line out\n"
    )
}

/// Appends what the edition of a number changed, in the words of a plan of the register after it.
fn push_edition(
    alloc: Global,
    out: &mut String,
    register: &Register,
    number: usize,
    edits: &[Edit],
) -> Result<(), AllocError>
    ensures { OnOk result (string_bytes out.new ≡ string_bytes out.old
        ++ spec.edition_lines register.now.territories number edits.now) }
{
    let none = Register::new(alloc, register.limits());
    let page = plan_page(alloc, &none, register, edits)?;
    write!(out, "edition {number}:\n{}", page.as_str())
}

/// Appends what the editions after that of a number changed.
fn push_editions(
    alloc: Global,
    out: &mut String,
    register: &Register,
    edition: usize,
    batches: &[Batch],
) -> Result<(), AllocError>
    ensures { OnOk result (string_bytes out.new ≡ string_bytes out.old
        ++ spec.editions_lines register.now.territories edition (drop edition batches.now)) }
{
    for index in edition..batches.len() {
        push_edition(alloc, out, register, index + 1, batches[index].edits())?;
    }
    Ok(())
}

/// Appends the first line on a text of an edition.
#[tactic(auto, unfolding(crate::specs::Since::behind_begin))]
fn push_begin(out: &mut String, request: PublishRequest<'_>, edition: u64) -> Result<(), AllocError>
    ensures { OnOk result (string_bytes out.new ≡ string_bytes out.old
        ++ spec.behind_begin request.entry.text.now request.entry.journal.now edition) }
{
    let text = EscapedText(request.text);
    let journal = EscapedText(request.journal);
    writeln!(
        out,
        "oldstyle: {text}: the text was made from edition {edition}, and would undo or change \
again what later editions of {journal} changed:"
    )
}

/// Appends the last line, on what to do.
#[tactic(auto, unfolding(crate::specs::Since::behind_end))]
fn push_end(out: &mut String, journal: &str, editions: usize) -> Result<(), AllocError>
    ensures { OnOk result (string_bytes out.new ≡ string_bytes out.old
        ++ spec.behind_end journal.now editions) }
{
    let journal = EscapedText(journal);
    writeln!(
        out,
        "help: print the text again with oldstyle text {journal}; or write edition = {editions} \
in it, if it has these edits; or publish it anyway with --onto-newest"
    )
}

/// Returns the lines on a text of an edition, and what later ones of the journal of an object
/// changed.
pub(crate) fn behind_lines(
    alloc: Global,
    request: PublishRequest<'_>,
    edition: u64,
    object: &Object,
) -> Result<String, AllocError>
    ensures { IfOk result (λ lines. string_bytes lines
        ≡ spec.behind_lines request.entry.text.now request.entry.journal.now edition
        (published object.now) object.now.batches) }
{
    let batches = object.batches();
    let mut lines = String::new(alloc);
    push_begin(&mut lines, request, edition)?;
    push_editions(
        alloc,
        &mut lines,
        object.register(),
        edition as usize,
        batches,
    )?;
    push_end(&mut lines, request.journal, batches.len())?;
    Ok(lines)
}
