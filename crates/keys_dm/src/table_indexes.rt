ghost use Rattle.std.specs.Prelude.{◌≡◌, ◌↔◌, ◌<◌, ◌≤◌, Some, All, IfOk, IsTrue, if◌then◌else◌, is_some, length, slice_get};
ghost use Rattle.std.specs.List.{AllZip};
ghost use Rattle.schema_dm.specs.Schemas.{IsTable, table_at};
ghost use Rattle.table_csv.specs.Databases.{rows_at};
ghost use Rattle.table_csv.specs.Cells.{cells_at};
ghost use Rattle.keys_dm.specs.Entries.{positions_of};
ghost use Rattle.keys_dm.specs.Indexes.{IsIndexOf};
ghost use Rattle.keys_dm.specs.KeyCells.{AreRowsWith, IsAlone};
ghost use Rattle.keys_dm.specs.TableIndexes.{AreIndexesOf, AreTableIndexes, FindsTargets, IsIndexIfGiven, IsToldBy, IsToldByKey};

use crate::cells::has_null_at;
use crate::index::{Entry, KeyIndex};
use schema_dm::{ForeignKey, Places, Table};
use std::alloc::{AllocError, Global};
use table_csv::{Database, Rows};
use value_dm::{Cell, Sequence};

// The indexes of a table's keys: of its own rows for the primary key and each unique key, and of the
// target's rows for each foreign key whose referenced columns aren't the target's primary key.
#[derive(Drop)]
pub struct TableIndexes {
    pub primary: Option<KeyIndex>,
    pub uniques: Sequence<KeyIndex>,
    pub foreign: Sequence<Option<KeyIndex>>,
}

/// The rows of a database by its keys: what `violations_by` and the writers of graphs ask.
///
/// An index takes 9 bytes a row; there is one for each primary and unique key, and one for each
/// foreign key that doesn't reference a primary key in its order.
#[derive(Drop)]
pub struct KeyIndexes {
    tables: Sequence<TableIndexes>,
}

/// The table at the place, counted from 0.
pub fn table_of(database: &Database, place: u32) -> &Table
    requires { place < length database.now.tables }
    ensures value { result.now ≡ table_at database.now.tables place }
    ensures lawful { IsTable database.now.tables result.now }
{
    &database.schema().tables()[place as usize]
}

/// The rows of the table at the place, counted from 0.
pub fn rows_of(database: &Database, place: u32) -> &Rows
    requires { place < length database.now.tables }
    ensures value { result.now ≡ rows_at database.now.rows place }
    ensures few { length result.now ≤ 4194304 }
{
    database.rows_of(place)
}

impl KeyIndexes {
    /// The indexes of the keys of a database. Refused for want of memory alone.
    pub fn new(alloc: Global, database: &Database) -> Result<KeyIndexes, AllocError>
        ensures { IfOk result (AreIndexesOf database.now) }
    {
        let mut tables = Sequence::new(alloc);
        for place in 0..database.schema().tables().len() {
            tables.push(indexes_of(alloc, database, place as u32)?)?;
        }
        Ok(KeyIndexes { tables })
    }

    /// The indexes of the table at the place, counted from 0.
    pub fn of_table(&self, database: &Database, place: u32) -> &TableIndexes
        requires table { place < length database.now.tables }
        requires indexed { AreIndexesOf database.now self.now }
        ensures { AreTableIndexes database.now place result.now }
    {
        &self.tables.as_slice()[place as usize]
    }

    /// Whether the table's primary key tells the row from all others of the table, where both are given
    /// by their places, counted from 0. Takes no memory.
    pub fn has_own_key(&self, database: &Database, place: u32, row: usize) -> bool
        requires table { place < length database.now.tables }
        requires row { row < length (rows_at database.now.rows place) }
        requires indexed { AreIndexesOf database.now self.now }
        ensures { IsTrue result ↔ IsToldByKey database.now place row }
    {
        let primary = &table_of(database, place).primary;
        let index = &self.of_table(database, place).primary;
        is_told_by(rows_of(database, place), primary, index, row)
    }

    /// The entries of the rows that a row of the table references by the foreign key at the place among
    /// the table's, in rising order of positions: those with its cells in the referenced columns.
    /// Places count from 0. Takes no memory.
    pub fn referenced(
        &self,
        database: &Database,
        table: u32,
        place: usize,
        key: &ForeignKey,
        row: &[Cell],
    ) -> &[Entry]
        requires table { table < length database.now.tables }
        requires target { key.now.target < length database.now.tables }
        requires key { slice_get (table_at database.now.tables table).foreign place ≡ Some key.now }
        requires indexed { AreIndexesOf database.now self.now }
        ensures { AreRowsWith (rows_at database.now.rows key.now.target) key.now.target_columns (cells_at key.now.columns row.now) (positions_of result.now) }
    {
        match self.target_index(database, table, place, key) {
            None => &[],
            Some(index) => {
                let targets = database.rows_of(key.target);
                index.matches(targets, &key.target_columns, row, &key.columns)
            }
        }
    }

    // The index that finds the rows which the foreign key at the place references.
    fn target_index(
        &self,
        database: &Database,
        table: u32,
        place: usize,
        key: &ForeignKey,
    ) -> &Option<KeyIndex>
        requires table { table < length database.now.tables }
        requires target { key.now.target < length database.now.tables }
        requires key { slice_get (table_at database.now.tables table).foreign place ≡ Some key.now }
        requires indexed { AreIndexesOf database.now self.now }
        ensures { IsIndexIfGiven (IsIndexOf (rows_at database.now.rows key.now.target)) (Some key.now.target_columns) result.now }
    {
        let primary = &self.of_table(database, key.target).primary;
        match self.of_table(database, table).foreign.as_slice().get(place) {
            None => primary,
            Some(own) => own_or(own, primary),
        }
    }
}

fn own_or<'a>(own: &'a Option<KeyIndex>, other: &'a Option<KeyIndex>) -> &'a Option<KeyIndex>
    ensures { result.now ≡ (if is_some own.now then own.now else other.now) }
{
    if own.is_some() { own } else { other }
}

// Whether none of the row's cells in the columns of the key is NULL, and no other row has the same.
fn tells(rows: &Rows, places: &Places, index: &KeyIndex, position: usize) -> bool
    requires index { IsIndexOf rows.now places.now index.now }
    requires row { position < length rows.now }
    ensures { IsTrue result ↔ IsAlone rows.now places.now position }
{
    !has_null_at(rows.row(position), places) && !index.has_twin(position)
}

fn is_told_by(
    rows: &Rows,
    primary: &Option<Places>,
    index: &Option<KeyIndex>,
    position: usize,
) -> bool
    requires index { IsIndexIfGiven (IsIndexOf rows.now) primary.now index.now }
    requires row { position < length rows.now }
    ensures { IsTrue result ↔ IsToldBy rows.now primary.now position }
{
    match primary {
        None => false,
        Some(places) => match index {
            None => false,
            Some(index) => tells(rows, places, index, position),
        },
    }
}

fn indexes_of(alloc: Global, database: &Database, place: u32) -> Result<TableIndexes, AllocError>
    requires { place < length database.now.tables }
    ensures { IfOk result (AreTableIndexes database.now place) }
{
    let table = table_of(database, place);
    let rows = rows_of(database, place);
    Ok(TableIndexes {
        primary: index_if_given(alloc, rows, &table.primary)?,
        uniques: unique_indexes(alloc, rows, table.uniques.as_slice())?,
        foreign: target_indexes(alloc, database, table.foreign.as_slice())?,
    })
}

fn index_if_given(
    alloc: Global,
    rows: &Rows,
    key: &Option<Places>,
) -> Result<Option<KeyIndex>, AllocError>
    requires { length rows.now ≤ 4194304 }
    ensures { IfOk result (λ index. IsIndexIfGiven (IsIndexOf rows.now) key.now index) }
{
    match key {
        None => Ok(None),
        Some(places) => Ok(Some(KeyIndex::new(alloc, rows, places)?)),
    }
}

fn unique_indexes(
    alloc: Global,
    rows: &Rows,
    keys: &[Places],
) -> Result<Sequence<KeyIndex>, AllocError>
    requires { length rows.now ≤ 4194304 }
    ensures { IfOk result (λ indexes. AllZip (IsIndexOf rows.now) keys.now indexes) }
{
    let mut indexes = Sequence::new(alloc);
    for places in keys {
        indexes.push(KeyIndex::new(alloc, rows, places)?)?;
    }
    Ok(indexes)
}

fn is_primary(primary: &Option<Places>, columns: &Places) -> bool
    ensures { IsTrue result ↔ (primary.now ≡ Some columns.now) }
{
    match primary {
        None => false,
        Some(places) => places.as_slice() == columns.as_slice(),
    }
}

fn index_of_target(
    alloc: Global,
    database: &Database,
    key: &ForeignKey,
) -> Result<Option<KeyIndex>, AllocError>
    requires { key.now.target < length database.now.tables }
    ensures { IfOk result (FindsTargets database.now key.now) }
{
    if is_primary(&table_of(database, key.target).primary, &key.target_columns) {
        return Ok(None);
    }
    let targets = rows_of(database, key.target);
    Ok(Some(KeyIndex::new(alloc, targets, &key.target_columns)?))
}

fn target_indexes(
    alloc: Global,
    database: &Database,
    keys: &[ForeignKey],
) -> Result<Sequence<Option<KeyIndex>>, AllocError>
    requires { All (λ key. key.target < length database.now.tables) keys.now }
    ensures { IfOk result (λ indexes. AllZip (FindsTargets database.now) keys.now indexes) }
{
    let mut indexes = Sequence::new(alloc);
    for key in keys {
        indexes.push(index_of_target(alloc, database, key)?)?;
    }
    Ok(indexes)
}
