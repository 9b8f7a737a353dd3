//! The text of rows.
ghost use Rattle.std.specs.Prelude.{◌≡◌, ◌++◌, ◌-◌, [], map, take, IfOk, OnOk};
ghost use Rattle.csv.specs.Records.{fields_of, partial_of};
ghost use Rattle.csv.specs.Writing.{row_text};
ghost use Rattle.osn_letters.specs.AddedColumns.{added_name};
ghost use Rattle.osn_letters.specs.Separators.{writer_by};
ghost use Rattle.osn_letters.specs.Table.{fields_from};
ghost use Rattle.osn_letters.specs.WriterInside as inside;

use crate::added_column::AddedColumn;
use crate::columns::field_at;
use crate::separator::Separator;
use csv::{ByteRecord, Writer, WriterBuilder};
use std::alloc::{AllocError, Global};
use std::mem;

/// A writer of rows into memory, each of any number of fields.
#[derive(Drop)]
pub(crate) struct RowWriter {
    /// What separates the fields.
    pub(crate) separator: Separator,
    pub(crate) out: Writer<Vec<u8>>,
}

impl RowWriter {
    /// Returns a writer that goes on after a text.
    pub(crate) fn new(separator: Separator, text: Vec<u8>) -> RowWriter
        ensures separator { result.separator ≡ separator }
        ensures between { inside.IsBetweenRows result }
        ensures waiting { inside.waiting result ≡ text.items }
    {
        RowWriter {
            separator,
            out: WriterBuilder::new()
                .delimiter(separator.byte())
                .flexible(true)
                .from_writer(text),
        }
    }

    /// Writes a row, with its line end, after the text that waits. The writer fails only if memory
    /// runs out, since nothing else fails when the text is written to memory. Then it is not known
    /// what waits.
    pub(crate) fn write_row(&mut self, row: &ByteRecord) -> Result<(), AllocError>
        requires { inside.IsBetweenRows self.old }
        ensures between { OnOk result (inside.IsBetweenRows self.new) }
        ensures separator { self.new.separator ≡ self.old.separator }
        ensures text { OnOk result (inside.waiting self.new ≡ inside.waiting self.old
            ++ row_text (writer_by self.old.separator) (fields_of row.now)) }
    {
        match self.out.write_byte_record(row) {
            Ok(()) => Ok(()),
            Err(_) => Err(AllocError),
        }
    }

    /// Takes the text that waits, so that none waits afterwards. It fails only if memory runs out.
    pub(crate) fn take_text(&mut self, alloc: Global) -> Result<Vec<u8>, AllocError>
        ensures text { IfOk result (λ text. text.items ≡ inside.waiting self.old) }
        ensures separator { self.new.separator ≡ self.old.separator }
        ensures between { inside.IsBetweenRows self.new }
        ensures empty { inside.waiting self.new ≡ [] }
    {
        let next = RowWriter::new(self.separator, Vec::new(alloc));
        match mem::replace(self, next).out.into_inner() {
            Ok(text) => Ok(text),
            Err(_) => Err(AllocError),
        }
    }

    /// Writes with another separator from now on, after the text that waits.
    pub(crate) fn set_separator(
        &mut self,
        alloc: Global,
        separator: Separator,
    ) -> Result<(), AllocError>
        ensures separator { OnOk result (self.new.separator ≡ separator) }
        ensures between { OnOk result (inside.IsBetweenRows self.new) }
        ensures waiting { OnOk result (inside.waiting self.new ≡ inside.waiting self.old) }
    {
        let text = self.take_text(alloc)?;
        *self = RowWriter::new(separator, text);
        Ok(())
    }
}

/// Keeps the first fields of a record, this many.
pub(crate) fn keep_fields(row: &mut ByteRecord, count: usize)
    requires { partial_of row.old ≡ [] }
    ensures fields { fields_of row.new ≡ take count (fields_of row.old) }
    ensures partial { partial_of row.new ≡ [] }
{
    row.truncate(count);
}

/// Appends the fields of another record from one index to another. One that it lacks is empty.
pub(crate) fn push_fields(
    row: &mut ByteRecord,
    from: &ByteRecord,
    start: usize,
    end: usize,
) -> Result<(), AllocError>
    requires { partial_of row.old ≡ [] }
    ensures fields { OnOk result (fields_of row.new
        ≡ fields_of row.old ++ fields_from (fields_of from.now) start (end - start)) }
    ensures partial { OnOk result (partial_of row.new ≡ []) }
{
    for index in start..end {
        row.push_field(field_at(from, index))?;
    }
    Ok(())
}

/// Appends fields with the names of these columns.
pub(crate) fn push_names(row: &mut ByteRecord, columns: &[AddedColumn]) -> Result<(), AllocError>
    requires { partial_of row.old ≡ [] }
    ensures fields { OnOk result
        (fields_of row.new ≡ fields_of row.old ++ map added_name columns.now) }
    ensures partial { OnOk result (partial_of row.new ≡ []) }
{
    for column in columns {
        row.push_field(column.name().as_bytes())?;
    }
    Ok(())
}
