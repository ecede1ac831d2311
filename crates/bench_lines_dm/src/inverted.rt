ghost use Rattle.std.specs.Prelude.{◌≡◌, ◌≤◌, ℕ, List, IfOk, IsPermutation, IsTrue, None, Some, length, map, slice_get, slice_index_or};
ghost use Rattle.std.specs.List.{AllZip};
ghost use Rattle.members_dm.specs.Membership.{NoRepeats};
ghost use Rattle.schema_dm.specs.Naming.{column_names as names_of};
ghost use Rattle.schema_dm.specs.Shapes.{IsShapeTable};
ghost use Rattle.table_csv.specs.CanonicalText.{AreTextColumns};
ghost use Rattle.table_csv.specs.Cells.{AreRowsOf, cells_at};
ghost use Rattle.table_csv.specs.Plain.{IsPlain, IsPlainAt, IsPlainTable, plain_column};
ghost use Rattle.graphs_dm.specs.Graphs.{AreTriplesOf};
ghost use Rattle.graphs_dm.specs.declared.graph_name.GraphName.TheVariants as graph;
ghost use Rattle.keys_dm.specs.Violations.{KeepsKeys};

use algebra_dm::{column_names, table_names};
use graph_layouts_dm::graphs_stand;
use inverse_dm::{InverseError, Tables, invert};
use names_dm::{Base, Triple};
use schema_dm::{Column, Index, Places, ShapeTable, Table};
use std::alloc::{AllocError, Global};
use table_csv::{Database, Rows, table_text};
use value_dm::{Cell, Cells, Text, TryCopy, same};

// Where the wanted column stands; None where no column has its name, or the first that has it is of another kind.
fn place_of(names: &Index<Text>, columns: &[Column], wanted: &Column) -> Option<u32>
    requires names { names.now ≡ names_of columns.now }
    requires once { NoRepeats (names_of columns.now) }
    requires few { length columns.now ≤ 256 }
    ensures { (place : ℕ) → slice_get (map plain_column columns.now) place ≡ Some wanted.now → result ≡ Some place }
{
    match names.place(&wanted.name) {
        None => None,
        Some(place) => {
            if same(&columns[place].kind, &wanted.kind) {
                Some(place as u32)
            } else {
                None
            }
        }
    }
}

// Where the wanted columns stand; None where one isn't there.
fn places_of(
    alloc: Global,
    columns: &[Column],
    wanted: &[Column],
) -> Result<Option<Places>, AllocError>
    requires once { NoRepeats (names_of columns.now) }
    requires few { length columns.now ≤ 256 }
    ensures { (places : List ℕ) → AllZip (λ place column. slice_get (map plain_column columns.now) place ≡ Some column) places wanted.now → IfOk result (λ found. found ≡ Some places) }
{
    let names = Index::new(alloc, column_names(alloc, columns)?)?;
    let mut places = Places::new(alloc);
    for column in wanted {
        match place_of(&names, columns, column) {
            Some(place) => places.push(place)?,
            None => return Ok(None),
        }
    }
    Ok(Some(places))
}

fn cell_at(alloc: Global, row: &[Cell], place: u32) -> Result<Cell, AllocError>
    ensures { IfOk result (λ cell. cell ≡ slice_index_or row.now place None) }
{
    match row.get(place as usize) {
        Some(cell) => cell.copy(alloc),
        None => Ok(None),
    }
}

fn cells_at(alloc: Global, row: &[Cell], places: &[u32]) -> Result<Cells, AllocError>
    ensures { IfOk result (λ cells. cells ≡ cells_at places.now row.now) }
{
    let mut cells = Cells::new(alloc);
    for place in places {
        cells.push(cell_at(alloc, row, *place)?)?;
    }
    Ok(cells)
}

// The rows with their cells in the order of the places.
fn rows_at(alloc: Global, rows: &Rows, places: &[u32]) -> Result<Rows, AllocError>
    ensures { IfOk result (λ moved. moved ≡ map (cells_at places.now) rows.now) }
{
    let mut moved = Rows::new(alloc);
    for row in rows.as_slice() {
        moved.push(cells_at(alloc, row.as_slice(), places)?)?;
    }
    Ok(moved)
}

// Whether the rows are the same in whatever order: their table has one text.
fn are_same_rows(
    alloc: Global,
    table: &ShapeTable,
    rows: &Rows,
    others: &Rows,
) -> Result<bool, AllocError>
    requires columns { AreTextColumns table.now.columns }
    requires rows { AreRowsOf table.now.columns rows.now }
    requires others { AreRowsOf table.now.columns others.now }
    ensures { IsPermutation rows.now others.now → IfOk result (λ told. IsTrue told) }
{
    let text = table_text(alloc, table, rows)?;
    let other = table_text(alloc, table, others)?;
    Ok(text == other)
}

// Whether the table without keys has the columns and the rows of the other, each row in the order of its columns.
fn is_table(
    alloc: Global,
    table: &Table,
    rows: &Rows,
    plain: &ShapeTable,
    others: &Rows,
) -> Result<bool, AllocError>
    requires once { NoRepeats (names_of table.now.columns) }
    requires few { length table.now.columns ≤ 256 }
    requires shape { IsShapeTable plain.now }
    requires others { AreRowsOf plain.now.columns others.now }
    requires plain { IsPlainTable table.now rows.now (record { shape = plain.now; rows = others.now }) }
    ensures { IfOk result (λ told. IsTrue told) }
{
    if table.columns.len() != plain.columns.len() {
        return Ok(false);
    }
    match places_of(alloc, table.columns.as_slice(), plain.columns.as_slice())? {
        Some(places) => {
            let moved = rows_at(alloc, rows, places.as_slice())?;
            are_same_rows(alloc, plain, &moved, others)
        }
        None => Ok(false),
    }
}

// Whether the database has the table without keys.
fn stands_in(
    alloc: Global,
    database: &Database,
    names: &Index<Text>,
    plain: &ShapeTable,
    others: &Rows,
) -> Result<bool, AllocError>
    requires names { names.now ≡ map (λ table. table.name) database.now.tables }
    requires shape { IsShapeTable plain.now }
    requires others { AreRowsOf plain.now.columns others.now }
    requires there { (place : ℕ) × IsPlainAt database.now place (record { shape = plain.now; rows = others.now }) }
    ensures { IfOk result (λ told. IsTrue told) }
{
    let tables = database.schema().tables();
    match names.place(&plain.name) {
        Some(t) => {
            let rows = database.rows_of(t as u32);
            is_table(alloc, &tables[t], rows, plain, others)
        }
        None => Ok(false),
    }
}

// Whether these are the database's tables without keys.
fn are_plain(alloc: Global, database: &Database, tables: &Tables) -> Result<bool, AllocError>
    requires { IsPlain database.now tables.now }
    ensures { IfOk result (λ told. IsTrue told) }
{
    let declared = database.schema().tables();
    let shapes = tables.shape().as_slice();
    if shapes.len() != declared.len() {
        return Ok(false);
    }
    let names = Index::new(alloc, table_names(alloc, declared)?)?;
    let rows = tables.rows();
    for (place, shape) in shapes.iter().enumerate() {
        if !stands_in(alloc, database, &names, shape, &rows[place])? {
            return Ok(false);
        }
    }
    Ok(true)
}

// What stands for a want of memory.
fn shortage(error: InverseError) -> AllocError
    requires { error ≡ InverseError.Memory }
{
    match error {
        InverseError::Memory => AllocError,
        _ => unreachable!(),
    }
}

/// Whether the triples stand for the database's tables without keys, each with the same rows in some order, as the triples of
/// its map graph do. Refused for want of memory alone.
pub fn is_inverted(
    alloc: Global,
    base: &Base,
    database: &Database,
    triples: &[Triple],
) -> Result<bool, AllocError>
    requires kept { KeepsKeys database.now }
    requires triples { AreTriplesOf graph.Map base.now database.now triples.now }
    requires few { length triples.now ≤ 16777216 }
    ensures { IfOk result (λ told. IsTrue told) }
{
    let _schema = database.schema();
    graphs_stand(base, database);
    match invert(alloc, base, triples) {
        Ok(tables) => are_plain(alloc, database, &tables),
        Err(error) => Err(shortage(error)),
    }
}
