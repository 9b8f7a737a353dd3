//! The edit of a line's object. A journal, a script and a schedule read theirs by the same call.
ghost use Rattle.std.specs.Prelude.{◌≡◌, true, IfOk, IfSome, option_map};
ghost use Rattle.osn_request.specs.EditRequest as spec;
ghost use Rattle.osn_request.specs.Request.{GivesLast};
ghost use Rattle.osn_register.specs.Sources.{is_source};

use crate::member::Member;
use crate::request::RequestError;
use crate::request::field::{regime_of, source_at, text_at, whole_at};
use crate::request::json_object::JsonObject;
use crate::request::op::EditOp;
use crate::version::Version;
use osn_register::{Edit, Source, Text};
use std::alloc::{AllocError, Global};

/// Returns the source of a text, if one is given.
fn source_of(alloc: Global, text: Option<&str>) -> Result<Option<Source>, AllocError>
    requires { IfSome text (λ t. is_source t.now ≡ true) }
    ensures { IfOk result (λ source. source ≡ option_map (λ t. t.now) text.entry) }
{
    match text {
        Some(text) => Ok(Some(Source::from_str(alloc, text)?)),
        None => Ok(None),
    }
}

#[tactic(auto, unfolding(crate::specs::EditRequest::add_land_of))]
fn add_land_of<O: JsonObject>(
    alloc: Global,
    version: Version,
    object: &O,
) -> Result<Edit, RequestError>
    ensures { GivesLast result (spec.add_land_of version (O.value object.now)) }
{
    let code = text_at(object, Member::Code)?;
    let name = text_at(object, Member::Name)?;
    let regime = regime_of(version, object)?;
    let source = source_at(version, object)?;
    let code = Text::from_str(alloc, code)?;
    let name = Text::from_str(alloc, name)?;
    let source = source_of(alloc, source)?;
    Ok(Edit::AddLand {
        code,
        name,
        regime,
        source,
    })
}

#[tactic(auto, unfolding(crate::specs::EditRequest::add_change_of))]
fn add_change_of<O: JsonObject>(
    alloc: Global,
    version: Version,
    object: &O,
) -> Result<Edit, RequestError>
    ensures { GivesLast result (spec.add_change_of version (O.value object.now)) }
{
    let code = text_at(object, Member::Code)?;
    let day = whole_at(object, Member::Day)?;
    let regime = regime_of(version, object)?;
    let source = source_at(version, object)?;
    let code = Text::from_str(alloc, code)?;
    let source = source_of(alloc, source)?;
    Ok(Edit::AddChange {
        code,
        day,
        regime,
        source,
    })
}

#[tactic(auto, unfolding(crate::specs::EditRequest::alter_change_of))]
fn alter_change_of<O: JsonObject>(
    alloc: Global,
    version: Version,
    object: &O,
) -> Result<Edit, RequestError>
    ensures { GivesLast result (spec.alter_change_of version (O.value object.now)) }
{
    let code = text_at(object, Member::Code)?;
    let day = whole_at(object, Member::Day)?;
    let regime = regime_of(version, object)?;
    let source = source_at(version, object)?;
    let code = Text::from_str(alloc, code)?;
    let source = source_of(alloc, source)?;
    Ok(Edit::AlterChange {
        code,
        day,
        regime,
        source,
    })
}

#[tactic(auto, unfolding(crate::specs::EditRequest::drop_change_of))]
fn drop_change_of<O: JsonObject>(alloc: Global, object: &O) -> Result<Edit, RequestError>
    ensures { GivesLast result (spec.drop_change_of (O.value object.now)) }
{
    let code = text_at(object, Member::Code)?;
    let day = whole_at(object, Member::Day)?;
    let code = Text::from_str(alloc, code)?;
    Ok(Edit::DropChange { code, day })
}

#[tactic(auto, unfolding(crate::specs::EditRequest::add_exception_of))]
fn add_exception_of<O: JsonObject>(
    alloc: Global,
    version: Version,
    object: &O,
) -> Result<Edit, RequestError>
    ensures { GivesLast result (spec.add_exception_of version (O.value object.now)) }
{
    let code = text_at(object, Member::Code)?;
    let year = whole_at(object, Member::Year)?;
    let day = whole_at(object, Member::Day)?;
    let source = source_at(version, object)?;
    let code = Text::from_str(alloc, code)?;
    let source = source_of(alloc, source)?;
    Ok(Edit::AddException {
        code,
        year,
        day,
        source,
    })
}

#[tactic(auto, unfolding(crate::specs::EditRequest::drop_exception_of))]
fn drop_exception_of<O: JsonObject>(alloc: Global, object: &O) -> Result<Edit, RequestError>
    ensures { GivesLast result (spec.drop_exception_of (O.value object.now)) }
{
    let code = text_at(object, Member::Code)?;
    let year = whole_at(object, Member::Year)?;
    let code = Text::from_str(alloc, code)?;
    Ok(Edit::DropException { code, year })
}

/// Returns the edit of a line's object by the rules of a version, or the fault of its first wrong
/// member in order.
///
/// # Errors
/// Returns the fault of that member, or `NoMemory`. Memory is taken only for the texts of the edit,
/// after no fault was found.
pub fn edit_of<O: JsonObject>(
    alloc: Global,
    version: Version,
    op: EditOp,
    object: &O,
) -> Result<Edit, RequestError>
    ensures { GivesLast result (spec.edit_of version op (O.value object.now)) }
{
    match op {
        EditOp::AddLand => add_land_of(alloc, version, object),
        EditOp::AddChange => add_change_of(alloc, version, object),
        EditOp::AlterChange => alter_change_of(alloc, version, object),
        EditOp::DropChange => drop_change_of(alloc, object),
        EditOp::AddException => add_exception_of(alloc, version, object),
        EditOp::DropException => drop_exception_of(alloc, object),
    }
}
