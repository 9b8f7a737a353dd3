//! How the values of a reply are written as JSON: the text of each after what is written.
ghost use Rattle.std.specs.Prelude.{◌≡◌, ◌++◌, OnOk, map};
ghost use Rattle.serde_json.specs.Data.{Data, boolean};
ghost use Rattle.serde_json.specs.Written.{compact_text, comma_if};
ghost use Rattle.osn_request.specs.Json.{whole, list_data};
ghost use Rattle.osn_service.specs.ReplyText.{option_data};
ghost use Rattle.osn_service.specs.SourceInside.{source_text};

use crate::line_writer::LineWriter;
use osn_days::Day;
use osn_register::Source;
use std::alloc::AllocError;

/// A value that a reply shows.
pub(crate) trait WriteJson {
    // The value as JSON.
    ghost json_value: { Self → Data };

    /// Writes the value's text after what is written.
    fn write_json(&self, out: &mut LineWriter) -> Result<(), AllocError>
        ensures text { OnOk result (out.new.text
            ≡ out.old.text ++ compact_text (json_value self.now)) }
        ensures before { out.new.before ≡ out.old.before };
}

impl WriteJson for Day {
    ghost json_value = { whole };

    fn write_json(&self, out: &mut LineWriter) -> Result<(), AllocError> {
        out.push_number("", self.number())
    }
}

impl WriteJson for u32 {
    ghost json_value = { whole };

    fn write_json(&self, out: &mut LineWriter) -> Result<(), AllocError> {
        out.push_number("", *self)
    }
}

impl WriteJson for bool {
    ghost json_value = { boolean };

    fn write_json(&self, out: &mut LineWriter) -> Result<(), AllocError> {
        out.push(if *self { "true" } else { "false" })
    }
}

// A value, or null if no value is given.
impl<J: WriteJson> WriteJson for Option<J> {
    ghost json_value = { option_data J.json_value };

    fn write_json(&self, out: &mut LineWriter) -> Result<(), AllocError> {
        match self {
            Some(value) => value.write_json(out),
            None => out.push("null"),
        }
    }
}

/// Writes `front` and a value.
pub(crate) fn write_member<J: WriteJson>(
    out: &mut LineWriter,
    front: &str,
    value: &J,
) -> Result<(), AllocError>
    ensures text { OnOk result (out.new.text
        ≡ out.old.text ++ (front.now ++ compact_text (J.json_value value.now))) }
    ensures before { out.new.before ≡ out.old.before }
{
    out.push(front)?;
    value.write_json(out)
}

/// Writes `front`, and `true` or `false`.
pub(crate) fn write_flag(out: &mut LineWriter, front: &str, flag: bool) -> Result<(), AllocError>
    ensures text { OnOk result (out.new.text
        ≡ out.old.text ++ (front.now ++ compact_text (boolean flag))) }
    ensures before { out.new.before ≡ out.old.before }
{
    out.push(front)?;
    out.push(if flag { "true" } else { "false" })
}

/// Writes the member of a source after another member, if a source is given.
pub(crate) fn write_source(out: &mut LineWriter, source: &Option<Source>) -> Result<(), AllocError>
    ensures text { OnOk result (out.new.text ≡ out.old.text ++ source_text source.now) }
    ensures before { out.new.before ≡ out.old.before }
{
    match source {
        Some(source) => out.push_text(r#","source":"#, source.as_str()),
        None => Ok(()),
    }
}

/// Writes the comma before a later item of a list.
fn write_comma(out: &mut LineWriter, later: bool) -> Result<(), AllocError>
    ensures text { OnOk result (out.new.text ≡ out.old.text ++ comma_if later) }
    ensures before { out.new.before ≡ out.old.before }
{
    if later { out.push(",") } else { Ok(()) }
}

/// Writes `front` and a list of values.
pub(crate) fn write_list<J: WriteJson>(
    out: &mut LineWriter,
    front: &str,
    values: &[J],
) -> Result<(), AllocError>
    ensures text { OnOk result (out.new.text
        ≡ out.old.text ++ (front.now ++ compact_text (list_data (map J.json_value values.now)))) }
    ensures before { out.new.before ≡ out.old.before }
{
    out.push(front)?;
    out.push("[")?;
    let mut later = false;
    for item in values {
        write_comma(out, later)?;
        item.write_json(out)?;
        later = true;
    }
    out.push("]")
}
