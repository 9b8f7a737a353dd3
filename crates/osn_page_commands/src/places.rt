//! Reports on standard error why a table of places was not read.
ghost use Rattle.std.specs.Prelude.{◌≡◌, IfOk, string_bytes};
ghost use Rattle.osn_lines.specs.Streams.{output_of};
ghost use Rattle.osn_page_commands.specs.Places as spec;
ghost use Rattle.osn_report.specs.Messages.{ReportsIfMade};
ghost use Rattle.osn_report.specs.declared.status.Status.{Status};

use crate::table_faults::{WIDE, WORKBOOK, is_wide, is_workbook};
use osn_folder::OpenFailed;
use osn_letters::{PlacesColumn, PlacesFault};
use osn_lines::{EscapedText, Sink};
use osn_report::{Status, report_line, report_no_memory, report_open_failure};
use std::alloc::{AllocError, Global};

const NO_HEADER: &str = "no header: the first line names the columns place and code";

const TOO_LONG: &str = "a record of more than 65536 bytes: look for a quote that is not closed";

const OPEN_QUOTE: &str = "a quote that opens in this record is never closed: close it";

const AFTER_QUOTE: &str = "text follows a closing quote: write each quote of a field twice";

const NOT_UTF8: &str = "a place or a code is not UTF-8: save the table as UTF-8";

/// Returns the report on a line of the table of this path.
fn places_line(alloc: Global, path: &str, line: u64, text: &str) -> Result<String, AllocError>
    ensures { IfOk result
        (λ message. string_bytes message ≡ spec.places_line path.now line text.now) }
{
    format!(in alloc; "oldstyle: {} line {line}: {text}\n", EscapedText(path))
}

/// Returns the line on a header that lacks a column, with the names that it has.
fn columns_line(
    alloc: Global,
    path: &str,
    column: PlacesColumn,
    line: u64,
    header: &str,
) -> Result<String, AllocError>
    ensures { IfOk result (λ text. string_bytes text
        ≡ spec.columns_line path.now column line header.now) }
{
    let name = column.name();
    format!(in alloc;
        "oldstyle: {} line {line}: no column {name}: the columns are {}: name one {name}\n",
        EscapedText(path),
        EscapedText(header)
    )
}

/// Returns the line on a header that lacks a column.
fn lacks_line(
    alloc: Global,
    path: &str,
    column: PlacesColumn,
    line: u64,
    header: &str,
) -> Result<String, AllocError>
    ensures { IfOk result (λ text. string_bytes text
        ≡ spec.lacks_line path.now column line header.now) }
{
    if is_workbook(header) {
        return places_line(alloc, path, line, WORKBOOK);
    }
    if is_wide(header) {
        return places_line(alloc, path, line, WIDE);
    }
    columns_line(alloc, path, column, line, header)
}

/// Returns the line on a record whose number of fields is not that of the header, with both
/// numbers.
fn fields_line(
    alloc: Global,
    path: &str,
    line: u64,
    fields: usize,
    width: usize,
) -> Result<String, AllocError>
    ensures { IfOk result
        (λ message. string_bytes message ≡ spec.fields_line path.now line fields width) }
{
    format!(in alloc;
        "oldstyle: {} line {line}: a different number of fields than the header: {fields} \
instead of {width}: give each row as many\n",
        EscapedText(path)
    )
}

/// Returns the line on a place that has two codes.
fn codes_line(alloc: Global, path: &str, line: u64, place: &str) -> Result<String, AllocError>
    ensures { IfOk result
        (λ message. string_bytes message ≡ spec.codes_line path.now line place.now) }
{
    format!(in alloc;
        "oldstyle: {} line {line}: the place {} has another code already: remove one of the \
two rows\n",
        EscapedText(path),
        EscapedText(place)
    )
}

/// Reports on standard error what is wrong with the record on a line.
fn report_record<E: Sink>(
    alloc: Global,
    errors: &mut E,
    path: &str,
    line: u64,
    text: &str,
) -> Status
    ensures { ReportsIfMade
        (output_of E.contents E.has_failed E.holds_back errors.old errors.new) Status.Refused
        (spec.places_line path.now line text.now) result }
{
    report_line(
        errors,
        Status::Refused,
        places_line(alloc, path, line, text),
    )
}

/// Reports on standard error why the table of this path was not read. Returns the status.
pub(crate) fn report_places<E: Sink>(
    alloc: Global,
    errors: &mut E,
    path: &str,
    fault: &PlacesFault,
) -> Status
    ensures { spec.ReportsPlaces path.now
        (output_of E.contents E.has_failed E.holds_back errors.old errors.new) fault.now result }
{
    match fault {
        PlacesFault::NoHeader => report_record(alloc, errors, path, 1, NO_HEADER),
        PlacesFault::LacksColumn {
            column,
            line,
            header,
        } => {
            let message = lacks_line(alloc, path, *column, *line, header.as_str());
            report_line(errors, Status::Refused, message)
        }
        PlacesFault::TwoCodes { line, place } => {
            let message = codes_line(alloc, path, *line, place.as_str());
            report_line(errors, Status::Refused, message)
        }
        PlacesFault::BadRecord {
            line,
            fields,
            width,
        } => {
            let message = fields_line(alloc, path, *line, *fields, *width);
            report_line(errors, Status::Refused, message)
        }
        PlacesFault::TooLong { line } => report_record(alloc, errors, path, *line, TOO_LONG),
        PlacesFault::OpenQuote { line } => report_record(alloc, errors, path, *line, OPEN_QUOTE),
        PlacesFault::TextAfterQuote { line } => {
            report_record(alloc, errors, path, *line, AFTER_QUOTE)
        }
        PlacesFault::NotUtf8 { line } => report_record(alloc, errors, path, *line, NOT_UTF8),
        PlacesFault::ReadFault => report_open_failure(alloc, errors, path, OpenFailed::Other),
        PlacesFault::NoMemory => report_no_memory(errors),
    }
}
