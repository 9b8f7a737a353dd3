//! What a reader asked, with the reply, as a line of a transcript.
ghost use Rattle.std.specs.Prelude.{◌≡◌, ◌++◌, OnOk};
ghost use Rattle.serde_json.specs.Written.{compact_text};
ghost use Rattle.osn_register.specs.declared.query.Query.TheVariants as queries;
ghost use Rattle.osn_service.specs.Transcript as spec;

use crate::line_writer::LineWriter;
use crate::reply::answer::write_reply;
use crate::reply::write_json::WriteJson;
use osn_core::Reply;
use osn_days::{Calendar, Keyword, Weekday};
use osn_register::{Query, Text};
use std::alloc::AllocError;

fn write_read(
    out: &mut LineWriter,
    reader: u32,
    code: &Text,
    year: i64,
    month: i64,
    day: i64,
) -> Result<(), AllocError>
    ensures text { OnOk result (out.new.text ≡ out.old.text
        ++ compact_text (spec.query_data reader (queries.Read code.now year month day))) }
    ensures before { out.new.before ≡ out.old.before }
{
    out.push_text(r#"{"code":"#, code.as_str())?;
    out.push_signed(r#","day":"#, day)?;
    out.push_signed(r#","month":"#, month)?;
    out.push_text(r#","op":"#, "read")?;
    out.push_number(r#","reader":"#, reader)?;
    out.push_signed(r#","year":"#, year)?;
    out.push("}")
}

fn write_day_in(out: &mut LineWriter, reader: u32, code: &Text, day: i64) -> Result<(), AllocError>
    ensures text { OnOk result (out.new.text ≡ out.old.text
        ++ compact_text (spec.query_data reader (queries.DayIn code.now day))) }
    ensures before { out.new.before ≡ out.old.before }
{
    out.push_text(r#"{"code":"#, code.as_str())?;
    out.push_signed(r#","day":"#, day)?;
    out.push_text(r#","op":"#, "day")?;
    out.push_number(r#","reader":"#, reader)?;
    out.push("}")
}

fn write_easter(out: &mut LineWriter, reader: u32, code: &Text, year: i64) -> Result<(), AllocError>
    ensures text { OnOk result (out.new.text ≡ out.old.text
        ++ compact_text (spec.query_data reader (queries.Easter code.now year))) }
    ensures before { out.new.before ≡ out.old.before }
{
    out.push_text(r#"{"code":"#, code.as_str())?;
    out.push_text(r#","op":"#, "easter")?;
    out.push_number(r#","reader":"#, reader)?;
    out.push_signed(r#","year":"#, year)?;
    out.push("}")
}

fn write_figures(out: &mut LineWriter, reader: u32, year: i64) -> Result<(), AllocError>
    ensures text { OnOk result (out.new.text ≡ out.old.text
        ++ compact_text (spec.query_data reader (queries.YearFigures year))) }
    ensures before { out.new.before ≡ out.old.before }
{
    out.push_text(r#"{"op":"#, "figures")?;
    out.push_number(r#","reader":"#, reader)?;
    out.push_signed(r#","year":"#, year)?;
    out.push("}")
}

fn write_territories(out: &mut LineWriter, reader: u32) -> Result<(), AllocError>
    ensures text { OnOk result (out.new.text ≡ out.old.text
        ++ compact_text (spec.query_data reader queries.Lands)) }
    ensures before { out.new.before ≡ out.old.before }
{
    out.push_text(r#"{"op":"#, "lands")?;
    out.push_number(r#","reader":"#, reader)?;
    out.push("}")
}

fn write_periods(out: &mut LineWriter, reader: u32, code: &Text) -> Result<(), AllocError>
    ensures text { OnOk result (out.new.text ≡ out.old.text
        ++ compact_text (spec.query_data reader (queries.Periods code.now))) }
    ensures before { out.new.before ≡ out.old.before }
{
    out.push_text(r#"{"code":"#, code.as_str())?;
    out.push_text(r#","op":"#, "periods")?;
    out.push_number(r#","reader":"#, reader)?;
    out.push("}")
}

fn write_exceptions(out: &mut LineWriter, reader: u32, code: &Text) -> Result<(), AllocError>
    ensures text { OnOk result (out.new.text ≡ out.old.text
        ++ compact_text (spec.query_data reader (queries.Exceptions code.now))) }
    ensures before { out.new.before ≡ out.old.before }
{
    out.push_text(r#"{"code":"#, code.as_str())?;
    out.push_text(r#","op":"#, "exceptions")?;
    out.push_number(r#","reader":"#, reader)?;
    out.push("}")
}

fn write_changes(out: &mut LineWriter, reader: u32, code: &Text) -> Result<(), AllocError>
    ensures text { OnOk result (out.new.text ≡ out.old.text
        ++ compact_text (spec.query_data reader (queries.Changes code.now))) }
    ensures before { out.new.before ≡ out.old.before }
{
    out.push_text(r#"{"code":"#, code.as_str())?;
    out.push_text(r#","op":"#, "changes")?;
    out.push_number(r#","reader":"#, reader)?;
    out.push("}")
}

fn write_feasts(out: &mut LineWriter, reader: u32, code: &Text, year: i64) -> Result<(), AllocError>
    ensures text { OnOk result (out.new.text ≡ out.old.text
        ++ compact_text (spec.query_data reader (queries.Feasts code.now year))) }
    ensures before { out.new.before ≡ out.old.before }
{
    out.push_text(r#"{"code":"#, code.as_str())?;
    out.push_text(r#","op":"#, "feasts")?;
    out.push_number(r#","reader":"#, reader)?;
    out.push_signed(r#","year":"#, year)?;
    out.push("}")
}

fn write_convert(
    out: &mut LineWriter,
    reader: u32,
    code: &Text,
    calendar: Calendar,
    date: (i64, i64, i64),
) -> Result<(), AllocError>
    ensures text { OnOk result (out.new.text ≡ out.old.text ++ compact_text
        (spec.query_data reader
        (queries.Convert code.now calendar date.0 date.1 date.2))) }
    ensures before { out.new.before ≡ out.old.before }
{
    let (year, month, day) = date;
    out.push_text(r#"{"calendar":"#, calendar.word())?;
    out.push_text(r#","code":"#, code.as_str())?;
    out.push_signed(r#","day":"#, day)?;
    out.push_signed(r#","month":"#, month)?;
    out.push_text(r#","op":"#, "convert")?;
    out.push_number(r#","reader":"#, reader)?;
    out.push_signed(r#","year":"#, year)?;
    out.push("}")
}

fn write_written(
    out: &mut LineWriter,
    reader: u32,
    code: &Text,
    text: &Text,
    weekday: Option<Weekday>,
) -> Result<(), AllocError>
    ensures text { OnOk result (out.new.text ≡ out.old.text
        ++ compact_text (spec.query_date_data reader code.now text.now weekday)) }
    ensures before { out.new.before ≡ out.old.before }
{
    out.push_text(r#"{"code":"#, code.as_str())?;
    out.push_text(r#","date":"#, text.as_str())?;
    out.push_text(r#","op":"#, "written")?;
    out.push_number(r#","reader":"#, reader)?;
    match weekday {
        Some(weekday) => {
            out.push_text(r#","weekday":"#, weekday.name())?;
            out.push("}")
        }
        None => out.push("}"),
    }
}

fn write_query(out: &mut LineWriter, reader: u32, query: &Query) -> Result<(), AllocError>
    ensures text { OnOk result (out.new.text ≡ out.old.text
        ++ compact_text (spec.query_data reader query.now)) }
    ensures before { out.new.before ≡ out.old.before }
{
    match query {
        Query::Read {
            code,
            year,
            month,
            day,
        } => write_read(out, reader, code, *year, *month, *day),
        Query::DayIn { code, day } => write_day_in(out, reader, code, *day),
        Query::Easter { code, year } => write_easter(out, reader, code, *year),
        Query::YearFigures { year } => write_figures(out, reader, *year),
        Query::Lands => write_territories(out, reader),
        Query::Periods { code } => write_periods(out, reader, code),
        Query::Exceptions { code } => write_exceptions(out, reader, code),
        Query::Changes { code } => write_changes(out, reader, code),
        Query::Feasts { code, year } => write_feasts(out, reader, code, *year),
        Query::Convert {
            code,
            calendar,
            year,
            month,
            day,
        } => write_convert(out, reader, code, *calendar, (*year, *month, *day)),
        Query::Written {
            code,
            text,
            weekday,
            ..
        } => write_written(out, reader, code, text, *weekday),
    }
}

/// A query, the reader who asked it, and the reply.
#[derive(Clone, Copy, Debug)]
pub(crate) struct TranscriptRecord<'a> {
    pub(crate) reader: u32,
    pub(crate) query: &'a Query,
    pub(crate) reply: &'a Reply,
}

impl<'a> WriteJson for TranscriptRecord<'a> {
    ghost json_value = { λ a. spec.record_data a.reader a.query.now a.reply.now };

    fn write_json(&self, out: &mut LineWriter) -> Result<(), AllocError> {
        out.push(r#"{"ask":"#)?;
        write_query(out, self.reader, self.query)?;
        out.push(r#","reply":"#)?;
        write_reply(out, self.reader, self.reply)?;
        out.push("}")
    }
}
