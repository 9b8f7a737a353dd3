//! What a text means as a date, in a reply.
ghost use Rattle.std.specs.Prelude.{◌≡◌, ◌++◌, codes, OnOk};
ghost use Rattle.serde_json.specs.Data.{string};
ghost use Rattle.serde_json.specs.Written.{compact_text};
ghost use Rattle.osn_service.specs.ReplyText as spec;

use crate::line_writer::LineWriter;
use crate::reply::write_json::{WriteJson, write_flag, write_list, write_member};
use osn_days::Weekday;
use osn_register::{Reason, Text, WrittenAnswer};
use osn_written::{Kind, Reckoning};
use std::alloc::AllocError;

/// Returns the word of a date's kind, or `none` if no date is read.
fn word_of_kind(kind: Option<Kind>) -> &'static str
    ensures { result.now ≡ spec.word_of_kind kind }
{
    match kind {
        Some(kind) => kind.word(),
        None => "none",
    }
}

/// Returns why a text means no day, in a few words.
fn reason_words(reason: Reason) -> &'static str
    ensures { result.now ≡ spec.reason_words reason }
{
    match reason {
        Reason::NotRead(fault) => fault.words(),
        Reason::NoDay(no_day) => no_day.words(),
    }
}

impl WriteJson for Reason {
    ghost json_value = { spec.reason_data };

    fn write_json(&self, out: &mut LineWriter) -> Result<(), AllocError> {
        out.push_text("", reason_words(*self))
    }
}

impl WriteJson for Text {
    ghost json_value = { string };

    fn write_json(&self, out: &mut LineWriter) -> Result<(), AllocError> {
        out.push_text("", self.as_str())
    }
}

impl WriteJson for Weekday {
    ghost json_value = { spec.weekday_data };

    fn write_json(&self, out: &mut LineWriter) -> Result<(), AllocError> {
        out.push_text("", self.name())
    }
}

/// Returns the words of the calendar that a text names.
fn reckoning_words(reckoning: Reckoning) -> &'static str
    ensures { result.now ≡ spec.reckoning_words reckoning }
{
    match reckoning {
        Reckoning::OldStyle => "Old Style",
        Reckoning::NewStyle => "New Style",
    }
}

impl WriteJson for Reckoning {
    ghost json_value = { spec.named_calendar_data };

    fn write_json(&self, out: &mut LineWriter) -> Result<(), AllocError> {
        out.push_text("", reckoning_words(*self))
    }
}

/// Begins a reply with what a text means as a date.
pub(crate) fn write_written(out: &mut LineWriter, answer: &WrittenAnswer) -> Result<(), AllocError>
    ensures text { OnOk result (out.new.text ≡ out.old.text
        ++ (codes "{\"answer\":" ++ compact_text (spec.written_data answer.now))) }
    ensures before { out.new.before ≡ out.old.before }
{
    let (remarks, near) = (&answer.remarks, &answer.near);
    write_flag(out, r#"{"answer":{"approximate":"#, answer.is_approximate)?;
    write_flag(out, r#","ends_in_next_year":"#, remarks.ends_in_next_year)?;
    out.push_text(r#","kind":"#, word_of_kind(answer.kind))?;
    write_member(out, r#","named_calendar":"#, &remarks.reckoning)?;
    write_member(out, r#","named_weekday":"#, &remarks.weekday)?;
    write_list(out, r#","nearest":"#, near.days.as_slice())?;
    write_flag(
        out,
        r#","not_counted_double":"#,
        remarks.is_not_counted_double,
    )?;
    write_flag(out, r#","other_calendar":"#, answer.is_by_other_calendar)?;
    write_list(out, r#","read_as":"#, remarks.read_as.as_slice())?;
    write_member(out, r#","reason":"#, &answer.reason)?;
    write_list(out, r#","runs":"#, answer.runs.as_slice())?;
    write_list(out, r#","skipped":"#, near.changes.as_slice())?;
    write_flag(out, r#","supplied":"#, answer.is_supplied)?;
    write_flag(out, r#","three_digits":"#, remarks.has_year_of_three_digits)?;
    write_flag(out, r#","uncertain":"#, answer.is_uncertain)?;
    write_member(out, r#","weekday":"#, &answer.is_on_weekday)?;
    write_list(out, r#","year":"#, near.year.as_slice())?;
    out.push("}")
}
