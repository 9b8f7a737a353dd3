//! Writes a journal.
ghost use Rattle.std.specs.Prelude.{◌≡◌, ◌++◌, Ok, IfOk, OnOk, string_bytes};
ghost use Rattle.std.specs.List.{list_any};
ghost use Rattle.serde_json.specs.Data.{Data, Members};
ghost use Rattle.osn_days.specs.Rules.{newest_rules};
ghost use Rattle.osn_lines.specs.Lines.{lines};
ghost use Rattle.osn_core.specs.Sequential.{IsSound};
ghost use Rattle.osn_register.specs.declared.edit.Edit.TheVariants as edits;
ghost use Rattle.osn_request.specs.Json.{value_tokens};
ghost use Rattle.osn_request.specs.Version.{plain_version};
ghost use Rattle.osn_files.specs.Journal.{load};
ghost use Rattle.osn_files.specs.JournalText as spec;
ghost use Rattle.osn_files.specs.LoadedText.{HasEdits};
ghost use Rattle.osn_files.specs.Version.{head_data};
ghost use Rattle.osn_files.specs.WrittenInside.{object_of, rest_tokens, with_field};

use json::Writer;
use osn_core::{Batch, Object};
use osn_days::Keyword;
use osn_register::{Edit, Source, Text};
use osn_request::{Member, Version, write_signed, write_text};
use osn_territory::Regime;
use std::alloc::{AllocError, Global};

/// The room that a journal gets at first.
const ROOM: usize = 65_536;

/// The room that a head gets at first.
const HEAD_ROOM: usize = 32;

/// A member of the object of a line.
#[derive(Clone, Copy)]
enum Field<'a> {
    /// A text of this name.
    Text(&'static str, &'a str),
    /// A number of this name.
    Signed(&'static str, i64),
    /// A source, which has a member if one is given.
    Source(&'a Option<Source>),
}

/// Writes a member before the others that are left.
fn write_field(out: &mut Writer, field: Field<'_>) -> Result<(), AllocError>
    ensures tokens { OnOk result ((rest : Members) → out.new.tokens ++ rest_tokens rest
        ≡ out.old.tokens ++ rest_tokens (with_field field.entry rest)) }
    ensures before { out.new.before ≡ out.old.before }
{
    match field {
        Field::Text(name, text) => write_text(out, name, text),
        Field::Signed(name, number) => write_signed(out, name, number),
        Field::Source(source) => match source {
            Some(source) => write_text(out, "source", source.as_str()),
            None => Ok(()),
        },
    }
}

/// Writes an object of these members.
fn write_object(out: &mut Writer, fields: &[Field<'_>]) -> Result<(), AllocError>
    ensures tokens { OnOk result (out.new.tokens ≡ out.old.tokens
        ++ value_tokens (object_of fields.now)) }
    ensures before { out.new.before ≡ out.old.before }
{
    out.begin_object()?;
    for field in fields {
        write_field(out, *field)?;
    }
    out.end_object()
}

fn write_add_land<'a>(
    out: &mut Writer,
    code: &'a Text,
    name: &'a Text,
    regime: Regime,
    source: &'a Option<Source>,
) -> Result<(), AllocError>
    ensures tokens { OnOk result (out.new.tokens ≡ out.old.tokens
        ++ value_tokens (spec.edit_data (edits.AddLand code.now name.now regime source.now))) }
    ensures before { out.new.before ≡ out.old.before }
{
    write_object(
        out,
        &[
            Field::Text("calendar", regime.calendar.word()),
            Field::Text("code", code.as_str()),
            Field::Text("name", name.as_str()),
            Field::Text("op", "add_land"),
            Field::Text("rule", regime.rule.word()),
            Field::Source(source),
            Field::Text("style", regime.style.word()),
        ],
    )
}

/// Writes an edit of this op that changes a regime from a day on.
fn write_change<'a>(
    out: &mut Writer,
    op: &'a str,
    code: &'a Text,
    day: i64,
    regime: Regime,
    source: &'a Option<Source>,
) -> Result<(), AllocError>
    ensures tokens { OnOk result (out.new.tokens ≡ out.old.tokens
        ++ value_tokens (spec.change_data op.now code.now day regime source.now)) }
    ensures before { out.new.before ≡ out.old.before }
{
    write_object(
        out,
        &[
            Field::Text("calendar", regime.calendar.word()),
            Field::Text("code", code.as_str()),
            Field::Signed("day", day),
            Field::Text("op", op),
            Field::Text("rule", regime.rule.word()),
            Field::Source(source),
            Field::Text("style", regime.style.word()),
        ],
    )
}

fn write_drop_change(out: &mut Writer, code: &Text, day: i64) -> Result<(), AllocError>
    ensures tokens { OnOk result (out.new.tokens ≡ out.old.tokens
        ++ value_tokens (spec.edit_data (edits.DropChange code.now day))) }
    ensures before { out.new.before ≡ out.old.before }
{
    write_object(
        out,
        &[
            Field::Text("code", code.as_str()),
            Field::Signed("day", day),
            Field::Text("op", "drop_change"),
        ],
    )
}

fn write_add_exception<'a>(
    out: &mut Writer,
    code: &'a Text,
    year: i64,
    day: i64,
    source: &'a Option<Source>,
) -> Result<(), AllocError>
    ensures tokens { OnOk result (out.new.tokens ≡ out.old.tokens
        ++ value_tokens (spec.edit_data (edits.AddException code.now year day source.now))) }
    ensures before { out.new.before ≡ out.old.before }
{
    write_object(
        out,
        &[
            Field::Text("code", code.as_str()),
            Field::Signed("day", day),
            Field::Text("op", "add_exception"),
            Field::Source(source),
            Field::Signed("year", year),
        ],
    )
}

fn write_drop_exception(out: &mut Writer, code: &Text, year: i64) -> Result<(), AllocError>
    ensures tokens { OnOk result (out.new.tokens ≡ out.old.tokens
        ++ value_tokens (spec.edit_data (edits.DropException code.now year))) }
    ensures before { out.new.before ≡ out.old.before }
{
    write_object(
        out,
        &[
            Field::Text("code", code.as_str()),
            Field::Text("op", "drop_exception"),
            Field::Signed("year", year),
        ],
    )
}

fn write_edit(out: &mut Writer, edit: &Edit) -> Result<(), AllocError>
    ensures tokens { OnOk result (out.new.tokens ≡ out.old.tokens
        ++ value_tokens (spec.edit_data edit.now)) }
    ensures before { out.new.before ≡ out.old.before }
{
    match edit {
        Edit::AddLand {
            code,
            name,
            regime,
            source,
        } => write_add_land(out, code, name, *regime, source),
        Edit::AddChange {
            code,
            day,
            regime,
            source,
        } => write_change(out, "add_change", code, *day, *regime, source),
        Edit::AlterChange {
            code,
            day,
            regime,
            source,
        } => write_change(out, "alter_change", code, *day, *regime, source),
        Edit::DropChange { code, day } => write_drop_change(out, code, *day),
        Edit::AddException {
            code,
            year,
            day,
            source,
        } => write_add_exception(out, code, *year, *day, source),
        Edit::DropException { code, year } => write_drop_exception(out, code, *year),
    }
}

fn write_publish(out: &mut Writer) -> Result<(), AllocError>
    ensures tokens { OnOk result (out.new.tokens ≡ out.old.tokens
        ++ value_tokens spec.publish_data) }
    ensures before { out.new.before ≡ out.old.before }
{
    write_object(out, &[Field::Text("op", "publish")])
}

fn write_head(out: &mut Writer, version: Version) -> Result<(), AllocError>
    ensures tokens { OnOk result (out.new.tokens ≡ out.old.tokens
        ++ value_tokens (head_data version)) }
    ensures before { out.new.before ≡ out.old.before }
{
    let number = i64::from(version.number());
    write_object(out, &[Field::Signed(Member::Journal.name(), number)])
}

/// Ends the line of a value that was written after other bytes.
fn end_line(out: Writer) -> Result<Vec<u8>, AllocError>
    ensures { IfOk result (λ bytes. (d : Data) → out.tokens ≡ value_tokens d →
        bytes.items ≡ out.before ++ spec.line_text d) }
{
    let mut bytes = out.into_inner();
    bytes.push(b'\n')?;
    Ok(bytes)
}

/// Returns the bytes of a head that says this version, with this room at first.
fn head_of(alloc: Global, version: Version, room: usize) -> Result<Vec<u8>, AllocError>
    ensures { IfOk result (λ bytes. bytes.items ≡ spec.line_text (head_data version)) }
{
    let mut out = Writer::new(Vec::with_capacity(alloc, room)?);
    write_head(&mut out, version)?;
    end_line(out)
}

/// Returns the bytes of the first line of a new journal: a head of the plain version.
///
/// # Errors
///
/// Returns `AllocError` if memory runs out.
pub fn head_line(alloc: Global) -> Result<Vec<u8>, AllocError>
    ensures { IfOk result (λ bytes.
        bytes.items ≡ spec.line_text (head_data plain_version)) }
{
    head_of(alloc, Version::plain(), HEAD_ROOM)
}

/// Returns the bytes, and after them an edit as a line of a journal.
///
/// # Errors
///
/// Returns `AllocError` if memory runs out. The bytes are dropped then.
pub fn with_edit(bytes: Vec<u8>, edit: &Edit) -> Result<Vec<u8>, AllocError>
    ensures { IfOk result (λ more.
        more.items ≡ bytes.items ++ spec.line_text (spec.edit_data edit.now)) }
{
    let mut out = Writer::new(bytes);
    write_edit(&mut out, edit)?;
    end_line(out)
}

/// Returns the bytes, and after them a publish as a line of a journal.
///
/// # Errors
///
/// Returns `AllocError` if memory runs out. The bytes are dropped then.
pub fn with_publish(bytes: Vec<u8>) -> Result<Vec<u8>, AllocError>
    ensures { IfOk result (λ more.
        more.items ≡ bytes.items ++ spec.line_text spec.publish_data) }
{
    let mut out = Writer::new(bytes);
    write_publish(&mut out)?;
    end_line(out)
}

/// Returns the bytes, and edits after them, each as a line of a journal.
///
/// # Errors
///
/// Returns `AllocError` if memory runs out. The bytes are dropped then.
pub fn with_edits(bytes: Vec<u8>, edits: &[Edit]) -> Result<Vec<u8>, AllocError>
    ensures { IfOk result (λ more. more.items ≡ bytes.items ++ spec.edits_text edits.now) }
{
    let mut more = bytes;
    for edit in edits {
        more = with_edit(more, edit)?;
    }
    Ok(more)
}

/// Returns the bytes, and batches after them, each with its publish.
fn with_batches(bytes: Vec<u8>, batches: &[Batch]) -> Result<Vec<u8>, AllocError>
    ensures { IfOk result (λ more. more.items ≡ bytes.items ++ spec.batches_text batches.now) }
{
    let mut more = bytes;
    for batch in batches {
        more = with_publish(with_edits(more, batch.edits())?)?;
    }
    Ok(more)
}

/// Returns whether one of some edits gives a source, so that their journal is of version 4.
pub fn give_source(edits: &[Edit]) -> bool
    ensures { result ≡ spec.give_source edits.now }
{
    edits.iter().any(|edit| edit.source().is_some())
}

/// Returns whether an edit of one of some batches gives a source.
fn batches_give_source(batches: &[Batch]) -> bool
    ensures { result ≡ list_any spec.give_source batches.now }
{
    batches.iter().any(|batch| give_source(batch.edits()))
}

/// Returns whether an edit of an object gives a source, published or pending.
fn gives_any_source(object: &Object) -> bool
    ensures { result ≡ spec.gives_any_source object.now }
{
    batches_give_source(object.batches()) || give_source(object.pending())
}

/// Returns the version that the head of an object's journal says.
fn version_for(object: &Object) -> Version
    ensures { result ≡ spec.version_for object.now }
{
    if gives_any_source(object) {
        Version::Fourth
    } else {
        Version::plain()
    }
}

/// Returns the bytes of the journal of an object, with a head that says this version.
fn journal_bytes(alloc: Global, version: Version, object: &Object) -> Result<Vec<u8>, AllocError>
    ensures text { IfOk result (λ bytes. bytes.items ≡ spec.journal_text_of version object.now) }
    ensures sound { IsSound newest_rules object.now }
{
    let batches = object.batches();
    let head = head_of(alloc, version, ROOM)?;
    let text = with_batches(head, batches)?;
    with_edits(text, object.pending())
}

/// Returns the journal of an object, as `journal_text`, with a head that says this version. If the
/// version has each edit of the object, what is loaded from it is that object again.
///
/// # Errors
///
/// Returns `AllocError` if memory runs out.
pub fn journal_text_of(
    alloc: Global,
    version: Version,
    object: &Object,
) -> Result<String, AllocError>
    ensures text { IfOk result (λ text.
        string_bytes text ≡ spec.journal_text_of version object.now) }
    ensures law { HasEdits version object.now →
        load newest_rules object.now.limits (lines (spec.journal_text_of version object.now))
        ≡ Ok object.now }
{
    let bytes = journal_bytes(alloc, version, object)?;
    Ok(unsafe { String::from_utf8_unchecked(bytes) })
}

/// Returns the journal of an object: a head, the edits of each batch with a publish after them, and
/// then the pending edits. The head says version 4 if an edit gives a source, and otherwise the
/// plain one. What is loaded from it under the object's limits is that object again.
///
/// # Errors
///
/// Returns `AllocError` if memory runs out.
pub fn journal_text(alloc: Global, object: &Object) -> Result<String, AllocError>
    ensures text { IfOk result (λ text. string_bytes text ≡ spec.journal_text object.now) }
    ensures law { load newest_rules object.now.limits (lines (spec.journal_text object.now))
        ≡ Ok object.now }
{
    journal_text_of(alloc, version_for(object), object)
}
