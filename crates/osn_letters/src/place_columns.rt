//! Which columns of a table of places are read.
ghost use Rattle.std.specs.Prelude.{◌≡◌, ◌≢◌, IfOk, IfErr, Ok, Err};
ghost use Rattle.csv.specs.Records.{fields_of};
ghost use Rattle.osn_letters.specs.Places as spec;
ghost use Rattle.osn_letters.specs.declared.places_fault.PlacesFault.TheVariants.{NoMemory};

use crate::columns::{column_named, names_found};
use crate::places_fault::{PlacesColumn, PlacesFault};
use csv::ByteRecord;
use std::alloc::{AllocError, Global};

/// The columns that are read, counted from 0, and how many fields a record has.
#[derive(Clone, Copy)]
pub(crate) struct PlaceColumns {
    pub(crate) place: usize,
    pub(crate) code: usize,
    pub(crate) width: usize,
}

/// Returns the fault of a header that lacks a column.
fn lacks(
    alloc: Global,
    header: &ByteRecord,
    line: u64,
    column: PlacesColumn,
) -> Result<PlacesFault, AllocError>
    ensures { IfOk result (λ fault. fault ≡ spec.lacks line (fields_of header.now) column) }
{
    Ok(PlacesFault::LacksColumn {
        column,
        line,
        header: names_found(alloc, header)?,
    })
}

/// Returns the index of a column in a header, which begins on the line.
fn find_column(
    alloc: Global,
    header: &ByteRecord,
    line: u64,
    column: PlacesColumn,
) -> Result<usize, PlacesFault>
    ensures value { IfOk result (λ index.
        spec.column_in line (fields_of header.now) column ≡ Ok index) }
    ensures fault { IfErr result (λ fault. (fault ≢ NoMemory)
        → spec.column_in line (fields_of header.now) column ≡ Err fault) }
{
    match column_named(header, column.name()) {
        Some(index) => Ok(index),
        None => Err(lacks(alloc, header, line, column)?),
    }
}

/// Returns both columns in a header, which begins on the line.
///
/// # Errors
///
/// `LacksColumn` if no column has the name `place` or, otherwise, the name `code`. And `NoMemory`.
pub(crate) fn find_place_columns(
    alloc: Global,
    header: &ByteRecord,
    line: u64,
) -> Result<PlaceColumns, PlacesFault>
    ensures value { IfOk result (λ columns.
        spec.columns_in line (fields_of header.now) ≡ Ok columns) }
    ensures fault { IfErr result (λ fault. (fault ≢ NoMemory)
        → spec.columns_in line (fields_of header.now) ≡ Err fault) }
{
    Ok(PlaceColumns {
        place: find_column(alloc, header, line, PlacesColumn::Place)?,
        code: find_column(alloc, header, line, PlacesColumn::Code)?,
        width: header.len(),
    })
}
