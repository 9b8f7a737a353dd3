//! How the members of an object are written as JSON: by their tokens, one after another.
ghost use Rattle.std.specs.Prelude.{◌≡◌, ◌++◌, OnOk};
ghost use Rattle.serde_json.specs.Data.{string};
ghost use Rattle.osn_request.specs.Json.{signed, member_tokens};

use json::Writer;
use std::alloc::AllocError;

/// Writes a member that is a number, which may be negative.
///
/// # Errors
///
/// Returns `AllocError` if memory runs out.
pub fn write_signed(out: &mut Writer, name: &str, number: i64) -> Result<(), AllocError>
    ensures tokens { OnOk result (out.new.tokens
        ≡ out.old.tokens ++ member_tokens name.now (signed number)) }
    ensures before { out.new.before ≡ out.old.before }
{
    out.key(name)?;
    out.i64(number)
}

/// Writes a member that is a text.
///
/// # Errors
///
/// Returns `AllocError` if memory runs out.
pub fn write_text(out: &mut Writer, name: &str, text: &str) -> Result<(), AllocError>
    ensures tokens { OnOk result (out.new.tokens
        ≡ out.old.tokens ++ member_tokens name.now (string text.now)) }
    ensures before { out.new.before ≡ out.old.before }
{
    out.key(name)?;
    out.string(text)
}
