//! Answers to queries in a reply.
ghost use Rattle.std.specs.Prelude.{◌≡◌, ◌++◌, decimal, codes, OnOk};
ghost use Rattle.serde_json.specs.Written.{compact_text};
ghost use Rattle.osn_register.specs.declared.answer.Answer.TheVariants.{Refused};
ghost use Rattle.osn_service.specs.ReplyText as spec;

use crate::line_writer::LineWriter;
use crate::reply::figures::Reckoning;
use crate::reply::write_json::{WriteJson, write_flag, write_list, write_member, write_source};
use crate::reply::written::write_written;
use osn_computus::Epact;
use osn_core::Reply;
use osn_days::{Day, Year};
use osn_register::{
    Answer, Exception, Found, FoundChange, FoundFeast, Land, PeriodAndSource, Refusal, Source,
};
use std::alloc::AllocError;

/// Begins a reply with a reading.
fn write_reading(out: &mut LineWriter, days: &[Found], skipped: &[Day]) -> Result<(), AllocError>
    ensures text { OnOk result (out.new.text ≡ out.old.text
        ++ (codes "{\"answer\":" ++ compact_text
        (spec.reading_data days.now skipped.now))) }
    ensures before { out.new.before ≡ out.old.before }
{
    write_list(out, r#"{"answer":{"days":"#, days)?;
    write_list(out, r#","skipped":"#, skipped)?;
    out.push("}")
}

/// Begins a reply with a day and its period.
fn write_on_day(
    out: &mut LineWriter,
    day: &Found,
    period: &PeriodAndSource,
) -> Result<(), AllocError>
    ensures text { OnOk result (out.new.text ≡ out.old.text
        ++ (codes "{\"answer\":" ++ compact_text (spec.on_day_data day.now period.now))) }
    ensures before { out.new.before ≡ out.old.before }
{
    out.push_number(r#"{"answer":{"first":"#, period.period.first.number())?;
    write_member(out, r#","found":"#, day)?;
    out.push_number(r#","last":"#, period.period.last.number())?;
    write_member(out, r#","regime":"#, &period.period.regime)?;
    write_source(out, &period.source)?;
    out.push("}")
}

/// Begins a reply with the Easters of a year.
fn write_easters(
    out: &mut LineWriter,
    days: &[Found],
    listed: bool,
    source: &Option<Source>,
) -> Result<(), AllocError>
    ensures text { OnOk result (out.new.text ≡ out.old.text ++ (codes "{\"answer\":"
        ++ compact_text (spec.easters_data days.now listed source.now))) }
    ensures before { out.new.before ≡ out.old.before }
{
    write_list(out, r#"{"answer":{"days":"#, days)?;
    write_flag(out, r#","listed":"#, listed)?;
    write_source(out, source)?;
    out.push("}")
}

/// Begins a reply with territories.
fn write_territories(out: &mut LineWriter, territories: &[Land]) -> Result<(), AllocError>
    ensures text { OnOk result (out.new.text ≡ out.old.text
        ++ (codes "{\"answer\":" ++ compact_text (spec.territories_data territories.now))) }
    ensures before { out.new.before ≡ out.old.before }
{
    write_list(out, r#"{"answer":{"lands":"#, territories)?;
    out.push("}")
}

/// Begins a reply with periods.
fn write_periods(out: &mut LineWriter, periods: &[PeriodAndSource]) -> Result<(), AllocError>
    ensures text { OnOk result (out.new.text ≡ out.old.text
        ++ (codes "{\"answer\":" ++ compact_text (spec.periods_data periods.now))) }
    ensures before { out.new.before ≡ out.old.before }
{
    write_list(out, r#"{"answer":{"periods":"#, periods)?;
    out.push("}")
}

/// Begins a reply with listed Easters.
fn write_exceptions(out: &mut LineWriter, exceptions: &[Exception]) -> Result<(), AllocError>
    ensures text { OnOk result (out.new.text ≡ out.old.text
        ++ (codes "{\"answer\":" ++ compact_text (spec.exceptions_data exceptions.now))) }
    ensures before { out.new.before ≡ out.old.before }
{
    write_list(out, r#"{"answer":{"exceptions":"#, exceptions)?;
    out.push("}")
}

/// Begins a reply with changes.
fn write_changes(out: &mut LineWriter, changes: &[FoundChange]) -> Result<(), AllocError>
    ensures text { OnOk result (out.new.text ≡ out.old.text
        ++ (codes "{\"answer\":" ++ compact_text (spec.changes_data changes.now))) }
    ensures before { out.new.before ≡ out.old.before }
{
    write_list(out, r#"{"answer":{"changes":"#, changes)?;
    out.push("}")
}

/// Begins a reply with the day of a date by a calendar.
fn write_converted(out: &mut LineWriter, days: &[Found]) -> Result<(), AllocError>
    ensures text { OnOk result (out.new.text ≡ out.old.text
        ++ (codes "{\"answer\":" ++ compact_text (spec.converted_data days.now))) }
    ensures before { out.new.before ≡ out.old.before }
{
    write_list(out, r#"{"answer":{"days":"#, days)?;
    out.push("}")
}

/// Begins a reply with feasts.
fn write_feasts(out: &mut LineWriter, feasts: &[FoundFeast]) -> Result<(), AllocError>
    ensures text { OnOk result (out.new.text ≡ out.old.text
        ++ (codes "{\"answer\":" ++ compact_text (spec.feasts_data feasts.now))) }
    ensures before { out.new.before ≡ out.old.before }
{
    write_list(out, r#"{"answer":{"feasts":"#, feasts)?;
    out.push("}")
}

/// Begins a reply with the figures of a year.
fn write_figures(
    out: &mut LineWriter,
    year: Year,
    golden: u8,
    indiction: u8,
    gregorian: &Reckoning<Epact>,
    julian: &Reckoning<u8>,
) -> Result<(), AllocError>
    ensures text { OnOk result (out.new.text ≡ out.old.text
        ++ (codes "{\"answer\":" ++ compact_text (spec.figures_data year golden indiction
        (⟦<Reckoning<Epact> as WriteJson>⟧.json_value gregorian.now)
        (⟦<Reckoning<u8> as WriteJson>⟧.json_value julian.now)))) }
    ensures before { out.new.before ≡ out.old.before }
{
    out.push_number(r#"{"answer":{"golden":"#, u32::from(golden))?;
    write_member(out, r#","gregorian":"#, gregorian)?;
    out.push_number(r#","indiction":"#, u32::from(indiction))?;
    write_member(out, r#","julian":"#, julian)?;
    out.push_number(r#","year":"#, year.number())?;
    out.push("}")
}

/// Ends a reply after its answer.
fn end_reply(out: &mut LineWriter, edition: u32, reader: u32) -> Result<(), AllocError>
    ensures text { OnOk result (out.new.text ≡ out.old.text
        ++ (codes ",\"edition\":" ++ (decimal edition
        ++ (codes ",\"reader\":" ++ (decimal reader ++ codes "}"))))) }
    ensures before { out.new.before ≡ out.old.before }
{
    out.push_number(r#","edition":"#, edition)?;
    out.push_number(r#","reader":"#, reader)?;
    out.push("}")
}

/// Writes the reply to a query that is refused.
fn write_refused(
    out: &mut LineWriter,
    reader: u32,
    edition: u32,
    refusal: Refusal,
) -> Result<(), AllocError>
    ensures text { OnOk result (out.new.text ≡ out.old.text
        ++ compact_text (spec.replied_data reader edition (Refused refusal))) }
    ensures before { out.new.before ≡ out.old.before }
{
    out.push_number(r#"{"edition":"#, edition)?;
    out.push_number(r#","fault":"#, u32::from(refusal.number()))?;
    out.push_text(r#","name":"#, refusal.name())?;
    out.push_number(r#","reader":"#, reader)?;
    out.push("}")
}

/// Writes the reply to a reader.
pub(crate) fn write_reply(
    out: &mut LineWriter,
    reader: u32,
    reply: &Reply,
) -> Result<(), AllocError>
    ensures text { OnOk result (out.new.text ≡ out.old.text
        ++ compact_text (spec.replied_data reader reply.now.edition reply.now.answer)) }
    ensures before { out.new.before ≡ out.old.before }
{
    let edition = reply.edition;
    let fields = match &reply.answer {
        Answer::Reading { found, skipped } => {
            write_reading(out, found.as_slice(), skipped.as_slice())
        }
        Answer::OnDay { found, period } => write_on_day(out, found, period),
        Answer::Easters {
            found,
            listed,
            source,
        } => write_easters(out, found.as_slice(), *listed, source),
        Answer::Figures {
            year,
            golden,
            indiction,
            julian_epact,
            gregorian_epact,
            julian_letters,
            gregorian_letters,
            julian_easter,
            gregorian_easter,
        } => {
            let gregorian = Reckoning {
                easter: *gregorian_easter,
                epact: *gregorian_epact,
                letters: *gregorian_letters,
            };
            let julian = Reckoning {
                easter: *julian_easter,
                epact: *julian_epact,
                letters: *julian_letters,
            };
            write_figures(out, *year, *golden, *indiction, &gregorian, &julian)
        }
        Answer::Lands(territories) => write_territories(out, territories.as_slice()),
        Answer::Periods(periods) => write_periods(out, periods.as_slice()),
        Answer::Exceptions(exceptions) => write_exceptions(out, exceptions.as_slice()),
        Answer::Changes(changes) => write_changes(out, changes.as_slice()),
        Answer::Feasts(feasts) => write_feasts(out, feasts.as_slice()),
        Answer::Converted(days) => write_converted(out, days.as_slice()),
        Answer::Written(written) => write_written(out, written),
        Answer::Refused(refusal) => return write_refused(out, reader, edition, *refusal),
    };
    fields?;
    end_reply(out, edition, reader)
}
