ghost use Rattle.std.specs.Prelude.{◌≡◌, ◌≢◌, ◌⊎◌, ◌≤◌, ◌<◌, ◌+◌, ◌^◌, [], ◌∷◌, ◌++◌, List, ℕ, IfErr, IfOk, MatchResult, OnOk, length, map};
ghost use Rattle.csv.specs.Records.{fields_of};
ghost use Rattle.members_dm.specs.Membership.{NoRepeats};
ghost use Rattle.schema_dm.specs.Naming.{column_names};
ghost use Rattle.table_csv.specs.Cells.{AreRowsOf, Row};
ghost use Rattle.table_csv.specs.Headers.{IsOrder, header_of};
ghost use Rattle.table_csv.specs.Reading.{AddsRow, AtRecords, IsNext, IsRowFault, IsStop, OrMemory};
ghost use Rattle.table_csv.specs.TableFiles.{IsFieldFault, IsFirstFault, IsRecordFault, IsTableFile, Record, SpellsCell, SpellsRow, name_fields, records_of};

use crate::database::MOST_ROWS;
use crate::fault::TableError;
use crate::header::read_header;
use crate::rows::Rows;
use csv::{ByteRecord, Error, Reader, ReaderBuilder};
use schema_dm::{Column, Table};
use std::alloc::{AllocError, Global};
use std::str;
use value_dm::{Cell, Cells, NullMode, ValueError, read_field};

/// Why the reading of records stopped before their end.
#[derive(Drop)]
enum Stop {
    Reader(Error),
    Refused(TableError),
}

/// The rows of a table file, each with its cells in the declared order of the columns.
///
/// The bytes are records of comma-separated values as the crate `csv` reads them by its defaults (RFC
/// 4180, where empty lines are no records); one leading byte order mark doesn't count. The first record is the header, which names the columns in any order. The fields
/// that are NULL are those of `read_field`. The columns' names are distinct.
///
/// - `NoHeader` where there is no record, and `BadHeader` for the header.
/// - Else the first cause in the further records in order: `TooManyRows` at the row after the
///   4,194,304th, `FieldCount`, and for the fields in order `TextNotUtf8`, `BadValue`, `NullRefused`.
/// - `Memory` for want of memory.
pub fn read_table(
    alloc: Global,
    table: &Table,
    bytes: &[u8],
    mode: NullMode,
) -> Result<Rows, TableError>
    requires { NoRepeats (column_names table.now.columns) }
    ensures ok { IfOk result (IsTableFile table.now.columns mode bytes.now) }
    ensures fit { IfOk result (AreRowsOf table.now.columns) }
    ensures refused { IfErr result (IsFirstFault table.now.columns mode (records_of bytes.now)) }

    // The bytes are a file of no other rows, and where they are one of some rows nothing but memory is wanting.
    ensures only { (rows : List Row) → IsTableFile table.now.columns mode bytes.now rows →
        MatchResult result (λ read. read ≡ rows) (λ error. error ≡ TableError.Memory) }

    // Where the file has a first fault, the answer is that fault, or memory is wanting.
    ensures first { (error : TableError) → error ≢ TableError.Memory → IsFirstFault table.now.columns mode (records_of bytes.now) error →
        MatchResult result (λ rows. ⊥) (λ answer. (answer ≡ error) ⊎ (answer ≡ TableError.Memory)) }
{
    match read_records(alloc, table.columns.as_slice(), bytes, mode) {
        Ok(rows) => Ok(rows),
        Err(Stop::Refused(error)) => Err(error),
        Err(Stop::Reader(_)) => Err(TableError::Memory),
    }
}

fn read_records(
    alloc: Global,
    columns: &[Column],
    bytes: &[u8],
    mode: NullMode,
) -> Result<Rows, Stop>
    requires { NoRepeats (name_fields columns.now) }
    ensures ok { IfOk result (IsTableFile columns.now mode bytes.now) }
    ensures err { IfErr result (IsStop columns.now mode bytes.now) }
{
    let mut reader = ReaderBuilder::new()
        .has_headers(false)
        .flexible(true)
        .from_reader(alloc, bytes);
    let mut record = ByteRecord::new(alloc);
    match next_record(&mut reader, &mut record) {
        Ok(true) => {}
        Ok(false) => return Err(Stop::Refused(TableError::NoHeader)),
        Err(stop) => return Err(stop),
    }
    let order = match read_header(alloc, columns, &record) {
        Ok(order) => order,
        Err(error) => return Err(Stop::Refused(error)),
    };
    let mut rows = Rows::new(alloc);
    loop {
        match next_record(&mut reader, &mut record) {
            Ok(true) => {}
            Ok(false) => return Ok(rows),
            Err(stop) => return Err(stop),
        }
        match add_row(alloc, columns, &order, mode, &record, &mut rows) {
            Ok(()) => {}
            Err(error) => return Err(Stop::Refused(error)),
        }
    }
}

// The next record into `row`, whose room serves for all, and whether there was one.
fn next_record(reader: &mut Reader<&[u8]>, row: &mut ByteRecord) -> Result<bool, Stop>
    ensures { (bytes : List ℕ) (file : List Record) → AtRecords bytes file reader.old → IsNext bytes file (fields_of row.new) reader.new result }
{
    match reader.read_byte_record(row) {
        Ok(found) => Ok(found),
        Err(error) => Err(Stop::Reader(error)),
    }
}

// Appends the row of one more record.
fn add_row(
    alloc: Global,
    columns: &[Column],
    order: &[usize],
    mode: NullMode,
    fields: &ByteRecord,
    rows: &mut Rows,
) -> Result<(), TableError>
    requires order { IsOrder columns.now order.now }
    requires few { length rows.old ≤ MOST_ROWS }
    ensures few { OnOk result (length rows.new ≤ MOST_ROWS) }
    ensures ok { OnOk result (AddsRow columns.now mode (header_of columns.now order.now) (fields_of fields.now) rows.old rows.new) }
    ensures err { IfErr result (OrMemory (IsRecordFault columns.now mode (header_of columns.now order.now) (length rows.old) (fields_of fields.now))) }
{
    if rows.len() >= MOST_ROWS {
        return Err(TableError::TooManyRows);
    }
    let number = rows.len() as u64 + 2;
    let row = read_row(alloc, columns, order, mode, fields, number)?;
    rows.push(row)?;
    Ok(())
}

// The row of the record of this number.
fn read_row(
    alloc: Global,
    columns: &[Column],
    order: &[usize],
    mode: NullMode,
    fields: &ByteRecord,
    number: u64,
) -> Result<Cells, TableError>
    requires { IsOrder columns.now order.now }
    ensures ok { IfOk result (SpellsRow columns.now mode (header_of columns.now order.now) (fields_of fields.now)) }
    ensures err { IfErr result (OrMemory (IsRowFault columns.now mode (header_of columns.now order.now) (fields_of fields.now) number)) }
{
    if fields.len() != columns.len() {
        return Err(TableError::FieldCount(number));
    }
    let mut cells = nulls(alloc, columns.len())?;
    for (at, place) in order.iter().enumerate() {
        let Some(field) = fields.get(at) else {
            return Err(TableError::FieldCount(number));
        };
        let column = &columns[*place];
        cells[*place] = read_cell(alloc, column, mode, field, number, at as u64 + 1)?;
    }
    Ok(Cells::from_vec(cells))
}

// The cell that the field of the column stands for, where the column allows it.
fn read_cell(
    alloc: Global,
    column: &Column,
    mode: NullMode,
    field: &[u8],
    number: u64,
    place: u64,
) -> Result<Cell, TableError>
    ensures ok { IfOk result (SpellsCell mode column.now field.now) }
    ensures err { IfErr result (OrMemory (IsFieldFault mode column.now field.now number place)) }
{
    let Ok(text) = str::from_utf8(field) else {
        return Err(TableError::TextNotUtf8(number, place));
    };
    let cell = match read_field(alloc, column.kind, text, mode) {
        Ok(cell) => cell,
        Err(ValueError::BadValue) => return Err(TableError::BadValue(number, place)),
        Err(ValueError::Memory) => return Err(TableError::Memory),
    };
    if cell.is_none() && column.not_null {
        return Err(TableError::NullRefused(number, place));
    }
    Ok(cell)
}

// So many NULLs.
fn nulls(alloc: Global, count: usize) -> Result<Vec<Cell>, AllocError>
    ensures { IfOk result (λ cells. length cells.items ≡ count) }
{
    let mut cells = Vec::with_capacity(alloc, count)?;
    for _ in 0..count {
        cells.push(None)?;
    }
    Ok(cells)
}
