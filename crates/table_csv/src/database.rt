ghost use Rattle.std.specs.Prelude.{◌≡◌, ◌↔◌, ◌<◌, All, FitsSigned, IsSome, IsTrue, IfSome, length};
ghost use Rattle.std.specs.Int.{w64};
ghost use Rattle.std.specs.List.{AllZip};
ghost use Rattle.hex.specs.Hex.{IsBytes};
ghost use Rattle.value_dm.specs.Kinds.{kind_of};
ghost use Rattle.value_dm.specs.Lawful.{IsLawful};
ghost use Rattle.value_dm.specs.Texts.{IsText};
ghost use Rattle.table_csv.specs.Cells.{AreRowsOf, IsCellOf, IsRowOf};
ghost use Rattle.table_csv.specs.Databases.{IsDatabase, rows_at};

use crate::{Rows, RowsList};
use schema_dm::{Column, Schema, Table};
use std::alloc::{AllocError, Global};
use std::marker::Model;
use value_dm::{Cell, Kind, Text, TryCopy, Value, same};

/// The most rows that a table has.
pub const MOST_ROWS: usize = 4_194_304;

/// The rows of a schema's tables, which contracts see as the tables beside the rows of each.
///
/// Every database fits its schema: `schema` says what that means.
#[derive(Drop)]
pub struct Database {
    schema: Schema,
    rows: RowsList,
}

impl Model for Database {
    ghost use Rattle.table_csv.specs.Databases.{Data, IsDatabase};

    ghost Value = { Data };

    ghost view = { λ database. record { tables = database.schema; rows = database.rows } };

    ghost invariant = { λ database. IsDatabase (record { tables = database.schema; rows = database.rows }) };
}

impl Database {
    /// The database of the schema with these rows. Takes no memory.
    ///
    /// None exactly where there is not one list of rows for each table, a table has more than 4,194,304
    /// rows, or a row has not one cell for each column, a value of another kind than its column, or a
    /// NULL in a column with an explicit NOT NULL.
    pub fn new(schema: Schema, rows: RowsList) -> Option<Database>
        ensures fits { IsSome result ↔ IsDatabase (record { tables = schema; rows = rows }) }
        ensures value { IfSome result (λ database. database ≡ record { tables = schema; rows = rows }) }
    {
        if are_rows_of_tables(schema.tables(), rows.as_slice()) {
            Some(Database { schema, rows })
        } else {
            None
        }
    }

    /// The schema.
    pub fn schema(&self) -> &Schema
        ensures value { result.now ≡ self.now.tables }
        ensures fits { IsDatabase self.now }
    {
        &self.schema
    }

    /// The rows of the table at this place, counted from 0.
    pub fn rows_of(&self, table: u32) -> &Rows
        requires { table < length self.now.tables }
        ensures value { result.now ≡ rows_at self.now.rows table }
        ensures fits { IsDatabase self.now }
    {
        &self.rows.as_slice()[table as usize]
    }
}

impl TryCopy for Database {
    fn copy(&self, alloc: Global) -> Result<Database, AllocError> {
        Ok(Database {
            schema: self.schema.copy(alloc)?,
            rows: self.rows.copy(alloc)?,
        })
    }
}

fn are_rows_of_tables(tables: &[Table], rows: &[Rows]) -> bool
    ensures { IsTrue result ↔ AllZip (λ table rows. AreRowsOf table.columns rows) tables.now rows.now }
{
    if tables.len() != rows.len() {
        return false;
    }
    for (place, table) in tables.iter().enumerate() {
        if !are_rows_of(table.columns.as_slice(), &rows[place]) {
            return false;
        }
    }
    true
}

fn are_rows_of(columns: &[Column], rows: &Rows) -> bool
    ensures { IsTrue result ↔ AreRowsOf columns.now rows.now }
{
    if rows.len() > MOST_ROWS {
        return false;
    }
    rows.as_slice()
        .iter()
        .all(|row| is_row_of(columns, row.as_slice()))
}

fn is_row_of(columns: &[Column], row: &[Cell]) -> bool
    ensures { IsTrue result ↔ IsRowOf columns.now row.now }
{
    if columns.len() != row.len() {
        return false;
    }
    for (place, column) in columns.iter().enumerate() {
        if !is_cell_of(column, &row[place]) {
            return false;
        }
    }
    true
}

fn is_cell_of(column: &Column, cell: &Cell) -> bool
    ensures { IsTrue result ↔ IsCellOf column.now cell.now }
{
    match cell {
        None => !column.not_null,
        Some(value) => is_value_of(column.kind, value),
    }
}

// Whether the value is of the kind. It keeps the rule of its kind by its type.
fn is_value_of(kind: Kind, value: &Value) -> bool
    ensures kind { IsTrue result ↔ (kind_of value.now ≡ kind) }
    ensures lawful { IsLawful value.now }
{
    match value {
        Value::Text(text) => is_text(kind, text),
        Value::Integer(number) => is_integer(kind, *number),
        Value::Binary(bytes) => is_binary(kind, bytes.as_slice()),
        _ => same(&value.kind(), &kind),
    }
}

fn is_text(kind: Kind, text: &Text) -> bool
    ensures kind { IsTrue result ↔ (Kind.Text ≡ kind) }
    ensures lawful { IsText text.now }
{
    let _characters = text.as_str();
    same(&Kind::Text, &kind)
}

fn is_integer(kind: Kind, number: i64) -> bool
    ensures kind { IsTrue result ↔ (Kind.Integer ≡ kind) }
    ensures lawful { FitsSigned w64 number }
{
    same(&Kind::Integer, &kind)
}

fn is_binary(kind: Kind, _bytes: &[u8]) -> bool
    ensures kind { IsTrue result ↔ (Kind.Binary ≡ kind) }
    ensures lawful { IsBytes _bytes.now }
{
    same(&Kind::Binary, &kind)
}
