//! The table that is written, record by record.
ghost use Rattle.std.specs.Prelude.{◌≡◌, ◌∷◌, ◌++◌, [], true, get_or, IfErr, OnOk, Some, Ok};
ghost use Rattle.std.specs.Prelude.{IfOk, None, option_map, length, ◌-◌};
ghost use Rattle.csv.specs.Records.{fields_of, partial_of};
ghost use Rattle.osn_letters.specs.Faults.{is_of_table};
ghost use Rattle.osn_letters.specs.Fields.{fields_and_remarks};
ghost use Rattle.osn_letters.specs.Table as spec;
ghost use Rattle.osn_letters.specs.TableInside as inside;
ghost use Rattle.osn_letters.specs.TallyInside.{with_row};
ghost use Rattle.osn_letters.specs.WriterInside.{IsBetweenRows, waiting};

use crate::added_column::ADDED_COLUMNS;
use crate::columns::{Columns, DateColumns, field_at, find_columns, own_width, place_in};
use crate::csv_text::{RowWriter, keep_fields, push_fields, push_names};
use crate::date_parts::parts_text;
use crate::fault::LettersFault;
use crate::letter::{LetterFields, fields_of_none, row_fields};
use crate::parser::EndedRecord;
use crate::record_flaw::RecordFlaw;
use crate::remark::Remark;
use crate::separator::Separator;
use crate::settings::TableSettings;
use crate::tally::Tally;
use crate::territory_finder::TerritoryFinder;
use csv::ByteRecord;
use std::alloc::{AllocError, Global};
use std::mem;

/// What the header says of the records after it.
#[derive(Clone, Copy)]
pub(crate) struct Rows {
    /// The columns that are read.
    pub(crate) columns: Columns,
    /// How many fields each has.
    pub(crate) width: usize,
}

/// A table as it is made, with the text that waits to be written.
#[derive(Drop)]
pub(crate) struct Table<'a> {
    pub(crate) alloc: Global,
    pub(crate) territories: TerritoryFinder<'a>,
    pub(crate) edition: usize,
    pub(crate) settings: TableSettings<'a>,
    pub(crate) rows: Option<Rows>,
    pub(crate) tally: Tally,
    pub(crate) out: RowWriter,
}

/// Returns the weekday of a record, if the table has a column of weekdays.
fn weekday_at(row: &ByteRecord, column: Option<usize>) -> Option<&[u8]>
    ensures { option_map (λ w. w.now) result
        ≡ option_map (λ n. get_or (fields_of row.now) n []) column }
{
    column.map(|index| field_at(row, index))
}

/// Returns the row of a record that has a flaw, with its twelve fields. It has as many fields
/// before these as the header has of its own. Further fields of the record are after these.
fn flawed_row(
    alloc: Global,
    rows: Rows,
    row: &ByteRecord,
    fields: &LetterFields,
) -> Result<ByteRecord, AllocError>
    ensures { IfOk result (λ made. fields_of made
        ≡ spec.fields_from (fields_of row.now) 0 rows.columns.own
        ++ ((fields_and_remarks fields.now).fields
        ++ spec.fields_from (fields_of row.now) rows.width
        (length (fields_of row.now) - rows.width))) }
{
    let mut made = ByteRecord::new(alloc);
    push_fields(&mut made, row, 0, rows.columns.own)?;
    fields.push_to(alloc, &mut made)?;
    push_fields(&mut made, row, rows.width, row.len())?;
    Ok(made)
}

/// Returns the flaw of a record after the header, which has as many fields: its own, if it has one.
fn row_flaw(width: usize, flaw: Option<RecordFlaw>, row: &ByteRecord) -> Option<RecordFlaw>
    ensures { result ≡ spec.row_flaw width flaw (fields_of row.now) }
{
    match flaw {
        Some(_) => flaw,
        None if row.len() == width => None,
        None => Some(RecordFlaw::FieldCount),
    }
}

impl Table<'_> {
    /// Appends to the text that waits the header, with the twelve names, by the separator by which
    /// rows are written from now on.
    fn push_header(
        &mut self,
        header: &mut ByteRecord,
        separator: Separator,
    ) -> Result<(), AllocError>
        requires { partial_of header.old ≡ [] }
        ensures text { OnOk result (waiting self.new.out
            ≡ waiting self.old.out ++ spec.header_text separator (fields_of header.old)) }
        ensures separator { OnOk result (self.new.out.separator ≡ separator) }
        ensures between { OnOk result (IsBetweenRows self.new.out) }
        ensures source { inside.source_of self.new ≡ inside.source_of self.old }
        ensures rows { self.new.rows ≡ self.old.rows }
        ensures tally { self.new.tally ≡ self.old.tally }
    {
        self.out.set_separator(self.alloc, separator)?;
        push_names(header, &ADDED_COLUMNS)?;
        self.out.write_row(header)
    }

    /// Takes the header.
    fn take_header(
        &mut self,
        header: &mut ByteRecord,
        ended: EndedRecord,
        separator: Separator,
    ) -> Result<(), LettersFault>
        requires partial { partial_of header.old ≡ [] }
        requires between { IsBetweenRows self.old.out }
        requires rows { self.old.rows ≡ None }
        ensures takes { OnOk result (inside.TakesRecords self.old self.new
            (inside.taken_record ended.line separator ended.flaw (fields_of header.old) ∷ [])) }
        ensures refuses { IfErr result (inside.RefusesRecord self.old self.new
            (inside.taken_record ended.line separator ended.flaw (fields_of header.old))) }
        ensures counts { OnOk result (inside.CountsRecord self.old self.new
            (inside.taken_record ended.line separator ended.flaw (fields_of header.old))) }
        ensures between { OnOk result (IsBetweenRows self.new.out) }
    {
        let width = header.len();
        let own = own_width(header, self.settings.names.replaces);
        keep_fields(header, own);
        let columns = find_columns(self.alloc, header, self.settings.names, ended.line)?;
        self.push_header(header, separator)?;
        self.rows = Some(Rows { columns, width });
        Ok(())
    }

    /// Returns the twelve fields of a record, with the text of its date, and its remarks.
    fn letter_with_date(
        &self,
        columns: Columns,
        row: &ByteRecord,
        date: &[u8],
    ) -> Result<LetterFields, AllocError>
        ensures { IfOk result (λ fields. fields_and_remarks fields ≡ spec.letter_with_date
            (inside.source_of self.now) columns (fields_of row.now) date.now) }
    {
        row_fields(
            self.alloc,
            &self.territories,
            self.edition,
            self.settings.order,
            self.settings.places,
            place_in(self.settings.names, columns, row),
            date,
            weekday_at(row, columns.weekday),
        )
    }

    /// Returns the twelve fields of a record, and its remarks.
    fn letter_of(&self, columns: Columns, row: &ByteRecord) -> Result<LetterFields, AllocError>
        ensures { IfOk result (λ fields. fields_and_remarks fields ≡ spec.letter_of
            (inside.source_of self.now) columns (fields_of row.now)) }
    {
        match columns.date {
            DateColumns::Whole(index) => self.letter_with_date(columns, row, field_at(row, index)),
            DateColumns::Apart { year, month, day } => {
                let date = parts_text(self.alloc, row, year, month, day)?;
                self.letter_with_date(columns, row, &date)
            }
        }
    }

    /// Appends to the text that waits the row of a record, and counts it.
    fn push_row(&mut self, columns: Columns, row: &mut ByteRecord) -> Result<(), AllocError>
        requires partial { partial_of row.old ≡ [] }
        requires between { IsBetweenRows self.old.out }
        ensures text { OnOk result (waiting self.new.out ≡ waiting self.old.out
            ++ spec.letter_text (inside.source_of self.old) self.old.out.separator columns
            (fields_of row.old)) }
        ensures separator { OnOk result (self.new.out.separator ≡ self.old.out.separator) }
        ensures between { OnOk result (IsBetweenRows self.new.out) }
        ensures source { inside.source_of self.new ≡ inside.source_of self.old }
        ensures rows { self.new.rows ≡ self.old.rows }
        ensures tally { OnOk result (self.new.tally ≡ with_row self.old.tally
            (spec.letter_of (inside.source_of self.old) columns (fields_of row.old)).remarks) }
    {
        let fields = self.letter_of(columns, row)?;
        keep_fields(row, columns.own);
        fields.push_to(self.alloc, row)?;
        self.tally.count(&fields.remarks)?;
        self.out.write_row(row)
    }

    /// Appends to the text that waits the row of a record that has a flaw, and counts it.
    fn push_flawed(
        &mut self,
        rows: Rows,
        row: &ByteRecord,
        flaw: RecordFlaw,
    ) -> Result<(), AllocError>
        requires between { IsBetweenRows self.old.out }
        ensures text { OnOk result (waiting self.new.out ≡ waiting self.old.out
            ++ spec.flawed_text (inside.source_of self.old)
            (record {
              columns = rows.columns;
              width = rows.width;
              separator = self.old.out.separator;
            }) flaw (fields_of row.now)) }
        ensures separator { OnOk result (self.new.out.separator ≡ self.old.out.separator) }
        ensures between { OnOk result (IsBetweenRows self.new.out) }
        ensures source { inside.source_of self.new ≡ inside.source_of self.old }
        ensures rows { self.new.rows ≡ self.old.rows }
        ensures tally { OnOk result (self.new.tally ≡ with_row self.old.tally
            (spec.flawed_letter (inside.source_of self.old) flaw).remarks) }
    {
        let reasons = [(true, Remark::OfRecord(flaw))];
        let fields = fields_of_none(self.alloc, self.edition, None, &reasons, &[])?;
        let made = flawed_row(self.alloc, rows, row, &fields)?;
        self.tally.count(&fields.remarks)?;
        self.out.write_row(&made)
    }

    /// Takes a record after the header.
    fn take_row(
        &mut self,
        rows: Rows,
        row: &mut ByteRecord,
        ended: EndedRecord,
    ) -> Result<(), LettersFault>
        requires partial { partial_of row.old ≡ [] }
        requires between { IsBetweenRows self.old.out }
        requires rows { self.old.rows ≡ Some rows }
        ensures takes { OnOk result
            (inside.TakesRow self.old self.new ended.line ended.flaw (fields_of row.old)) }
        ensures refuses { IfErr result
            (inside.RefusesRow self.old self.new ended.line ended.flaw (fields_of row.old)) }
        ensures counts { OnOk result
            (inside.CountsRow self.old self.new ended.line ended.flaw (fields_of row.old)) }
        ensures between { OnOk result (IsBetweenRows self.new.out) }
    {
        match row_flaw(rows.width, ended.flaw, row) {
            None => Ok(self.push_row(rows.columns, row)?),
            Some(flaw) if self.settings.keeps_going => Ok(self.push_flawed(rows, row, flaw)?),
            Some(_) => Err(LettersFault::BadRecord {
                line: ended.line,
                fields: row.len(),
                width: rows.width,
            }),
        }
    }

    /// Takes the next record, which ended and has that separator.
    ///
    /// # Errors
    ///
    /// `LacksColumn` of a header, `BadRecord` of a record after it, and `NoMemory`.
    pub(crate) fn take(
        &mut self,
        row: &mut ByteRecord,
        ended: EndedRecord,
        separator: Separator,
    ) -> Result<(), LettersFault>
        requires partial { partial_of row.old ≡ [] }
        requires between { IsBetweenRows self.old.out }
        ensures takes { OnOk result (inside.TakesRecords self.old self.new
            (inside.taken_record ended.line separator ended.flaw (fields_of row.old) ∷ [])) }
        ensures refuses { IfErr result (inside.RefusesRecord self.old self.new
            (inside.taken_record ended.line separator ended.flaw (fields_of row.old))) }
        ensures counts { OnOk result (inside.CountsRecord self.old self.new
            (inside.taken_record ended.line separator ended.flaw (fields_of row.old))) }
        ensures between { OnOk result (IsBetweenRows self.new.out) }
    {
        match self.rows {
            None => self.take_header(row, ended, separator),
            Some(rows) => self.take_row(rows, row, ended),
        }
    }

    /// Ends the records.
    ///
    /// # Errors
    ///
    /// `NoHeader` if there was no header, and nothing else.
    pub(crate) fn finish(&self) -> Result<(), LettersFault>
        ensures whole { OnOk result (inside.written_of self.now [] ≡ spec.whole) }
        ensures fault { IfErr result
            (λ fault. (inside.written_of self.now [] ≡ spec.ended_by fault)
            × (is_of_table fault ≡ true)) }
    {
        match self.rows {
            None => Err(LettersFault::NoHeader),
            Some(_) => Ok(()),
        }
    }

    /// Takes the tally of the rows out.
    pub(crate) fn take_tally(&mut self) -> Tally
        ensures { result ≡ inside.tally_of self.old [] }
    {
        mem::replace(&mut self.tally, Tally::new(self.alloc))
    }
}
