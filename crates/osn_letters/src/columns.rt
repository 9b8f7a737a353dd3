//! Which columns of a table are read.
ghost use Rattle.std.specs.Prelude.{◌≡◌, ◌≢◌, [], get_or, false, IfOk, IfErr, Ok, Err, option_map};
ghost use Rattle.std.specs.List.{find, list_all};
ghost use Rattle.std.specs.Str.Lossy.{utf8_lossy};
ghost use Rattle.csv.specs.Records.{fields_of};
ghost use Rattle.osn_letters.specs.AddedColumns.{added_columns};
ghost use Rattle.osn_letters.specs.Columns as spec;
ghost use Rattle.osn_letters.specs.Faults.{is_of_stream};
ghost use Rattle.osn_letters.specs.declared.fault.LettersFault.TheVariants.{NoMemory};

use crate::added_column::{ADDED_COLUMNS, AddedColumn};
use crate::fault::{Column, LettersFault};
use crate::near_column::nearest_column;
use crate::row_field::trimmed;
use csv::ByteRecord;
use osn_register::Text;
use std::alloc::{AllocError, Global};

/// The name of the column of the weekdays in a header.
#[derive(Clone, Copy, Debug)]
pub enum WeekdayName<'a> {
    /// The header must have the column.
    Required(&'a str),
    /// The header may lack the column.
    Optional(&'a str),
}

/// The names of the columns of the date in a header.
#[derive(Clone, Copy, Debug)]
pub enum DateNames<'a> {
    /// One column has the whole date.
    Whole(&'a str),
    /// The year, and perhaps the month and the day, have columns of their own.
    Apart {
        year: &'a str,
        month: Option<&'a str>,
        day: Option<&'a str>,
    },
}

/// The names of the columns that are read in a header.
#[derive(Clone, Copy, Debug)]
pub struct ColumnNames<'a> {
    /// The name of the column of places, if there is one.
    pub place: Option<&'a str>,
    /// The place of all rows, if no column has places.
    pub place_of_all: &'a str,
    pub date: DateNames<'a>,
    pub weekday: WeekdayName<'a>,
    /// Whether the added columns are replaced if a table has all of them after its own.
    pub replaces: bool,
}

/// The columns of the date, counted from 0.
#[derive(Clone, Copy, Debug, PartialEq, Eq)]
pub enum DateColumns {
    /// One has the whole date.
    Whole(usize),
    /// The year, and perhaps the month and the day, have columns of their own.
    Apart {
        year: usize,
        month: Option<usize>,
        day: Option<usize>,
    },
}

/// The columns that are read, counted from 0.
#[derive(Clone, Copy, Debug, PartialEq, Eq)]
pub struct Columns {
    pub place: Option<usize>,
    pub date: DateColumns,
    pub weekday: Option<usize>,
    /// How many columns of the table are not replaced.
    pub own: usize,
}

/// Returns the field of an index. One that the record lacks is empty.
pub(crate) fn field_at(row: &ByteRecord, index: usize) -> &[u8]
    ensures { result.now ≡ get_or (fields_of row.now) index [] }
{
    match row.get(index) {
        Some(field) => field,
        None => &[],
    }
}

/// Returns the place of a row: its field in the column of places, or else that of all rows.
pub(crate) fn place_in<'a>(
    names: ColumnNames<'a>,
    columns: Columns,
    row: &'a ByteRecord,
) -> &'a [u8]
    ensures { result.now
        ≡ spec.place_in (spec.names_of names.entry) columns (fields_of row.now) }
{
    match columns.place {
        Some(index) => field_at(row, index),
        None => names.place_of_all.as_bytes(),
    }
}

/// Returns whether the field of the index is the name.
fn is_at(header: &ByteRecord, name: &str, index: usize) -> bool
    ensures { result ≡ spec.is_at name.now (fields_of header.now) index }
{
    field_at(header, index) == name.as_bytes()
}

/// Returns the index of the first field that equals the name.
fn index_of(header: &ByteRecord, name: &str) -> Option<usize>
    ensures { result ≡ spec.index_of name.now (fields_of header.now) }
{
    (0..header.len()).find(|index| is_at(header, name, *index))
}

/// Returns whether the field of the index is the name, in capital or small letters, and with white
/// space around it or not.
fn is_like(header: &ByteRecord, name: &str, index: usize) -> bool
    ensures { result ≡ spec.is_like name.now (fields_of header.now) index }
{
    trimmed(field_at(header, index)).eq_ignore_ascii_case(name.as_bytes())
}

/// Returns the index of the first field that is like the name.
fn index_like(header: &ByteRecord, name: &str) -> Option<usize>
    ensures { result ≡ spec.index_like name.now (fields_of header.now) }
{
    (0..header.len()).find(|index| is_like(header, name, *index))
}

/// Returns the index of the column of a name: the first field that equals it, or else the first one
/// that is like it.
pub(crate) fn column_named(header: &ByteRecord, name: &str) -> Option<usize>
    ensures { result ≡ spec.column_named name.now (fields_of header.now) }
{
    match index_of(header, name) {
        Some(index) => Some(index),
        None => index_like(header, name),
    }
}

impl<'a> WeekdayName<'a> {
    /// Returns the name.
    fn name(self) -> &'a str
        ensures { result.now ≡ spec.weekday_name self.entry }
    {
        match self {
            WeekdayName::Required(name) | WeekdayName::Optional(name) => name,
        }
    }

    /// Returns whether the header must have the column.
    fn is_required(self) -> bool
        ensures { result ≡ spec.is_required self.entry }
    {
        matches!(self, WeekdayName::Required(_))
    }
}

/// Returns the names of a header, with a comma and a space between two.
fn names_text(alloc: Global, header: &ByteRecord) -> Result<Vec<u8>, AllocError>
    ensures { IfOk result (λ names. names.items ≡ spec.names_text (fields_of header.now)) }
{
    let mut names = Vec::new(alloc);
    names.extend_from_slice(field_at(header, 0))?;
    for index in 1..header.len() {
        names.extend_from_slice(b", ")?;
        names.extend_from_slice(field_at(header, index))?;
    }
    Ok(names)
}

/// Returns the names of a header as a text. Bytes that aren't UTF-8 are replaced.
pub(crate) fn names_found(alloc: Global, header: &ByteRecord) -> Result<Text, AllocError>
    ensures { IfOk result (λ found. found ≡ utf8_lossy (spec.names_text (fields_of header.now))) }
{
    let names = names_text(alloc, header)?;
    Ok(Text::new(String::from_utf8_lossy(alloc, &names)?))
}

/// Returns the fault of a header that lacks a column of that name.
fn lacks(
    alloc: Global,
    header: &ByteRecord,
    line: u64,
    column: Column,
    name: &str,
) -> Result<LettersFault, AllocError>
    ensures { IfOk result
        (λ fault. fault ≡ spec.lacks line (fields_of header.now) column name.now) }
{
    Ok(LettersFault::LacksColumn {
        column,
        line,
        header: names_found(alloc, header)?,
        nearest: nearest_column(alloc, header, name)?,
    })
}

/// Returns whether a header has the column.
fn has_column(header: &ByteRecord, column: AddedColumn) -> bool
    ensures { result ≡ spec.has_column (fields_of header.now) column }
{
    index_of(header, column.name()).is_some()
}

/// Returns the first of these columns that a header has.
fn column_had(header: &ByteRecord, columns: &[AddedColumn]) -> Option<AddedColumn>
    ensures { result ≡ find (spec.has_column (fields_of header.now)) columns.now }
{
    columns
        .iter()
        .copied()
        .find(|column| has_column(header, *column))
}

/// Returns whether a header has all columns that are added.
fn has_all_columns(header: &ByteRecord) -> bool
    ensures { result ≡ list_all (spec.has_column (fields_of header.now)) added_columns }
{
    ADDED_COLUMNS
        .iter()
        .copied()
        .all(|column| has_column(header, column))
}

/// Returns how many fields of a header are its own, and not added columns that are replaced.
pub(crate) fn own_width(header: &ByteRecord, replaces: bool) -> usize
    ensures { result ≡ spec.own_width replaces (fields_of header.now) }
{
    if replaces && has_all_columns(header) {
        header.len().saturating_sub(ADDED_COLUMNS.len())
    } else {
        header.len()
    }
}

/// Returns the index of a column in a header, which begins on the line.
fn find_column(
    alloc: Global,
    header: &ByteRecord,
    line: u64,
    column: Column,
    name: &str,
) -> Result<usize, LettersFault>
    ensures value { IfOk result (λ index.
        spec.column_in line (fields_of header.now) column name.now ≡ Ok index) }
    ensures fault { IfErr result (λ fault. (fault ≢ NoMemory)
        → spec.column_in line (fields_of header.now) column name.now ≡ Err fault) }
    ensures inner { IfErr result (λ fault. is_of_stream fault ≡ false) }
{
    match column_named(header, name) {
        Some(index) => Ok(index),
        None => Err(lacks(alloc, header, line, column, name)?),
    }
}

/// Returns the index of a column in a header, if the column is named.
fn find_part_column(
    alloc: Global,
    header: &ByteRecord,
    line: u64,
    column: Column,
    name: Option<&str>,
) -> Result<Option<usize>, LettersFault>
    ensures value { IfOk result (λ index. spec.part_column_in line (fields_of header.now) column
        (option_map (λ name. name.now) name.entry) ≡ Ok index) }
    ensures fault { IfErr result (λ fault. (fault ≢ NoMemory)
        → spec.part_column_in line (fields_of header.now) column
        (option_map (λ name. name.now) name.entry) ≡ Err fault) }
    ensures inner { IfErr result (λ fault. is_of_stream fault ≡ false) }
{
    match name {
        Some(name) => Ok(Some(find_column(alloc, header, line, column, name)?)),
        None => Ok(None),
    }
}

/// Returns the columns of the date.
fn find_date_columns(
    alloc: Global,
    header: &ByteRecord,
    line: u64,
    names: DateNames<'_>,
) -> Result<DateColumns, LettersFault>
    ensures value { IfOk result (λ columns.
        spec.date_columns_in line (fields_of header.now) (spec.dates_of names.entry)
        ≡ Ok columns) }
    ensures fault { IfErr result (λ fault. (fault ≢ NoMemory)
        → spec.date_columns_in line (fields_of header.now) (spec.dates_of names.entry)
        ≡ Err fault) }
    ensures inner { IfErr result (λ fault. is_of_stream fault ≡ false) }
{
    match names {
        DateNames::Whole(name) => {
            let date = find_column(alloc, header, line, Column::Date, name)?;
            Ok(DateColumns::Whole(date))
        }
        DateNames::Apart { year, month, day } => Ok(DateColumns::Apart {
            year: find_column(alloc, header, line, Column::Year, year)?,
            month: find_part_column(alloc, header, line, Column::Month, month)?,
            day: find_part_column(alloc, header, line, Column::Day, day)?,
        }),
    }
}

/// Returns the columns of these names in a header, which begins on the line. If several columns
/// have a name, the first one counts. If none has it, the first one counts that has it in other
/// capital or small letters, or with white space around it.
///
/// # Errors
///
/// `HasColumn` if the header has one of the columns that are added. Otherwise `LacksColumn` for the
/// first column that is missing: the place, if a column has it, then the date, then the weekday, if
/// it is required. If the parts of a date have columns, it is the first of those that are named:
/// year, month, day. And `NoMemory`.
pub fn find_columns(
    alloc: Global,
    header: &ByteRecord,
    names: ColumnNames<'_>,
    line: u64,
) -> Result<Columns, LettersFault>
    ensures value { IfOk result (λ columns. spec.columns_of (spec.names_of names.entry) line
        (fields_of header.now) ≡ Ok columns) }
    ensures fault { IfErr result (λ fault. (fault ≢ NoMemory)
        → spec.columns_of (spec.names_of names.entry) line (fields_of header.now) ≡ Err fault) }
    // as a law: the fault is not one of a stream
    ensures inner { IfErr result (λ fault. is_of_stream fault ≡ false) }
{
    if let Some(column) = column_had(header, &ADDED_COLUMNS) {
        return Err(LettersFault::HasColumn { line, column });
    }
    let place = find_part_column(alloc, header, line, Column::Place, names.place)?;
    let date = find_date_columns(alloc, header, line, names.date)?;
    let name = names.weekday.name();
    let weekday = column_named(header, name);
    if names.weekday.is_required() && weekday.is_none() {
        return Err(lacks(alloc, header, line, Column::Weekday, name)?);
    }
    Ok(Columns {
        place,
        date,
        weekday,
        own: header.len(),
    })
}
