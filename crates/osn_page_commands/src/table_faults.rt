//! Reports on standard error why a table of letters ended early.
ghost use Rattle.std.specs.Prelude.{◌≡◌, ◌++◌, IfOk, OnOk, string_bytes};
ghost use Rattle.osn_letters.specs.Columns.{dates_of, names_of};
ghost use Rattle.osn_lines.specs.Streams.{output_of};
ghost use Rattle.osn_page_commands.specs.Letters as spec;
ghost use Rattle.osn_report.specs.Messages.{ReportsIfMade};
ghost use Rattle.osn_report.specs.declared.status.Status.{Status};

use osn_files::FileFault;
use osn_letters::{AddedColumn, Column, ColumnNames, DateNames, LettersFault, WeekdayName};
use osn_lines::{EscapedText, Sink};
use osn_register::Text;
use osn_report::{CommandFault, Status, report, report_line, report_no_memory};
use std::alloc::{AllocError, Global};
use std::fmt::Write;

const NO_HEADER: &str = "no header: the first line has the names of the columns";

const TOO_LONG: &str = "a record of more than 65536 bytes";

const OPEN_QUOTE: &str = "a quote that opens in this record is never closed";

const AFTER_QUOTE: &str = "text follows a closing quote";

/// The text on a table in UTF-16.
pub(crate) const WIDE: &str = "the table is in UTF-16: save it as CSV in UTF-8";

/// The text on a table in a workbook.
pub(crate) const WORKBOOK: &str = "the table is a workbook (.xlsx, .ods): save it as CSV in UTF-8";

/// The bytes with which a zip archive begins.
const ZIP_MARK: [u8; 4] = [0x50, 0x4b, 3, 4];

/// Returns the name by which a column of the date was looked for, or an empty text if it was not.
fn date_name_of<'a>(names: DateNames<'a>, column: Column) -> &'a str
    ensures { result.now ≡ spec.date_name_of (dates_of names.entry) column }
{
    match (names, column) {
        (DateNames::Whole(name), Column::Date) => name,
        (DateNames::Apart { year, .. }, Column::Year) => year,
        (
            DateNames::Apart {
                month: Some(month),
                ..
            },
            Column::Month,
        ) => month,
        (DateNames::Apart { day: Some(day), .. }, Column::Day) => day,
        _ => "",
    }
}

/// Returns the name by which a column was looked for.
fn name_of<'a>(names: ColumnNames<'a>, column: Column) -> &'a str
    ensures { result.now ≡ spec.name_of (names_of names.entry) column }
{
    match column {
        Column::Place => match names.place {
            Some(name) => name,
            None => "",
        },
        Column::Date | Column::Year | Column::Month | Column::Day => {
            date_name_of(names.date, column)
        }
        Column::Weekday => match names.weekday {
            WeekdayName::Required(name) | WeekdayName::Optional(name) => name,
        },
    }
}

/// Returns the option that names a column.
fn option_of(column: Column) -> &'static str
    ensures { result.now ≡ spec.option_of column }
{
    match column {
        Column::Place => "--place, or the place of all rows with --in",
        Column::Date => "--date",
        Column::Year => "--year",
        Column::Month => "--month",
        Column::Day => "--day",
        Column::Weekday => "--weekday",
    }
}

/// Returns the line on a record that ends a table early.
fn record_line(alloc: Global, line: u64, text: &str) -> Result<String, AllocError>
    ensures { IfOk result (λ message. string_bytes message ≡ spec.record_line line text.now) }
{
    format!(in alloc; "oldstyle: letters line {line}: {text}\n")
}

/// Returns whether a header is the beginning of a workbook, which is a zip archive.
pub(crate) fn is_workbook(header: &str) -> bool
    ensures { result ≡ spec.is_workbook header.now }
{
    header.as_bytes().starts_with(&ZIP_MARK)
}

/// Returns whether a header has a zero byte, as in UTF-16.
pub(crate) fn is_wide(header: &str) -> bool
    ensures { result ≡ spec.is_wide header.now }
{
    header.as_bytes().iter().any(|byte| *byte == 0)
}

/// Returns the line on a header that lacks a column, with the names that it has.
fn columns_line(
    alloc: Global,
    names: ColumnNames<'_>,
    column: Column,
    line: u64,
    header: &str,
) -> Result<String, AllocError>
    ensures { IfOk result (λ text. string_bytes text
        ≡ spec.columns_line (names_of names.entry) column line header.now) }
{
    let name = name_of(names, column);
    let option = option_of(column);
    format!(in alloc;
        "oldstyle: letters line {line}: no column {}: the columns are {}: \
name yours with {option}\n",
        EscapedText(name),
        EscapedText(header)
    )
}

/// Appends the line on the column that may be meant, if one is near.
fn push_nearest(lines: &mut String, nearest: &Option<Text>) -> Result<(), AllocError>
    ensures { OnOk result (string_bytes lines.new
        ≡ string_bytes lines.old ++ spec.nearest_line nearest.now) }
{
    match nearest {
        Some(name) => writeln!(lines, "help: did you mean {}?", EscapedText(name.as_str())),
        None => Ok(()),
    }
}

/// Returns the lines on a header that lacks a column, and has one that may be meant or not.
fn lacks_lines(
    alloc: Global,
    names: ColumnNames<'_>,
    column: Column,
    line: u64,
    header: &str,
    nearest: &Option<Text>,
) -> Result<String, AllocError>
    ensures { IfOk result (λ text. string_bytes text
        ≡ spec.lacks_lines (names_of names.entry) column line header.now nearest.now) }
{
    if is_workbook(header) {
        return record_line(alloc, line, WORKBOOK);
    }
    if is_wide(header) {
        return record_line(alloc, line, WIDE);
    }
    let mut lines = columns_line(alloc, names, column, line, header)?;
    push_nearest(&mut lines, nearest)?;
    Ok(lines)
}

/// Returns the line on a column of a header.
fn column_line(alloc: Global, line: u64, name: &str, text: &str) -> Result<String, AllocError>
    ensures { IfOk result
        (λ message. string_bytes message ≡ spec.column_line line name.now text.now) }
{
    format!(in alloc; "oldstyle: letters line {line}: the column {name} {text}\n")
}

/// Returns the line on a header that has a column already.
fn has_line(alloc: Global, line: u64, column: AddedColumn) -> Result<String, AllocError>
    ensures { IfOk result (λ message. string_bytes message ≡ spec.has_line line column) }
{
    let name = column.name();
    column_line(
        alloc,
        line,
        name,
        "is already there: remove it, rename it, or replace all twelve with --replace",
    )
}

/// Returns the line on a record whose number of fields is not that of the header, with both
/// numbers.
fn fields_line(alloc: Global, line: u64, fields: usize, width: usize) -> Result<String, AllocError>
    ensures { IfOk result
        (λ message. string_bytes message ≡ spec.fields_line line fields width) }
{
    format!(in alloc;
        "oldstyle: letters line {line}: a different number of fields than the header: {fields} \
instead of {width}\n"
    )
}

/// Reports on standard error what is wrong with the record on a line.
fn report_record<E: Sink>(alloc: Global, errors: &mut E, line: u64, text: &str) -> Status
    ensures { ReportsIfMade
        (output_of E.contents E.has_failed E.holds_back errors.old errors.new) Status.Refused
        (spec.record_line line text.now) result }
{
    report_line(errors, Status::Refused, record_line(alloc, line, text))
}

/// Reports on standard error why a table ended early. Writes nothing if the output failed: only the
/// status says that.
pub(crate) fn report_table<E: Sink>(
    alloc: Global,
    errors: &mut E,
    names: ColumnNames<'_>,
    fault: &LettersFault,
) -> Status
    ensures { spec.ReportsTable (names_of names.entry)
        (output_of E.contents E.has_failed E.holds_back errors.old errors.new) fault.now result }
{
    match fault {
        LettersFault::NoHeader => report_record(alloc, errors, 1, NO_HEADER),
        LettersFault::LacksColumn {
            column,
            line,
            header,
            nearest,
        } => {
            let message = lacks_lines(alloc, names, *column, *line, header.as_str(), nearest);
            report_line(errors, Status::Refused, message)
        }
        LettersFault::HasColumn { line, column } => {
            report_line(errors, Status::Refused, has_line(alloc, *line, *column))
        }
        LettersFault::BadRecord {
            line,
            fields,
            width,
        } => {
            let message = fields_line(alloc, *line, *fields, *width);
            report_line(errors, Status::Refused, message)
        }
        LettersFault::TooLong { line } => report_record(alloc, errors, *line, TOO_LONG),
        LettersFault::OpenQuote { line } => report_record(alloc, errors, *line, OPEN_QUOTE),
        LettersFault::TextAfterQuote { line } => report_record(alloc, errors, *line, AFTER_QUOTE),
        LettersFault::ReadFault => {
            report(alloc, errors, CommandFault::File(FileFault::ReadFault))
        }
        LettersFault::WriteFault => Status::Unwritten,
        LettersFault::NoMemory => report_no_memory(errors),
    }
}
