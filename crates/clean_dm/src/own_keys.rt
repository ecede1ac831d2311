ghost use Rattle.std.specs.Prelude.{◌≡◌, ◌<◌, ◌↔◌, IsTrue, length};
ghost use Rattle.table_csv.specs.Databases.{rows_at};
ghost use Rattle.keys_dm.specs.TableIndexes.{AreIndexesOf};
ghost use Rattle.keys_dm.specs.Indexes.{IsIndexOf};
ghost use Rattle.keys_dm.specs.Violations.{IsRepeated, Violates};
ghost use Rattle.keys_dm.specs.declared.violation.ViolationKind.TheVariants.{NullKey, RepeatedKey, RepeatedUnique};

use keys_dm::{KeyIndex, KeyIndexes, has_null_at, rows_of, table_of};
use schema_dm::Places;
use table_csv::{Database, Rows};

// Whether none of the row's cells in the columns of the key is NULL, and another row has the same.
fn is_repeated(rows: &Rows, places: &Places, index: &KeyIndex, position: usize) -> bool
    requires index { IsIndexOf rows.now places.now index.now }
    requires row { position < length rows.now }
    ensures { IsTrue result ↔ IsRepeated rows.now places.now position }
{
    !has_null_at(rows.row(position), places) && index.has_twin(position)
}

/// Whether a cell of the row's primary key is NULL, where the table and the row are given by their
/// places, counted from 0.
pub fn has_null_key(database: &Database, table: u32, row: usize) -> bool
    requires table { table < length database.now.tables }
    requires row { row < length (rows_at database.now.rows table) }
    ensures { IsTrue result ↔ Violates database.now table row NullKey }
{
    match &table_of(database, table).primary {
        None => false,
        Some(places) => has_null_at(rows_of(database, table).row(row), places),
    }
}

/// Whether no cell of the row's primary key is NULL, and another row has the same. Places as above.
/// Takes no memory.
pub fn repeats_key(database: &Database, indexes: &KeyIndexes, table: u32, row: usize) -> bool
    requires table { table < length database.now.tables }
    requires row { row < length (rows_at database.now.rows table) }
    requires indexed { AreIndexesOf database.now indexes.now }
    ensures { IsTrue result ↔ Violates database.now table row RepeatedKey }
{
    match &table_of(database, table).primary {
        None => false,
        Some(places) => match &indexes.of_table(database, table).primary {
            None => false,
            Some(index) => is_repeated(rows_of(database, table), places, index, row),
        },
    }
}

/// Whether the table has a unique key of this number, counted from 1, of which no cell of the row is
/// NULL, and another row has the same. Takes no memory.
pub fn repeats_unique(
    database: &Database,
    indexes: &KeyIndexes,
    table: u32,
    row: usize,
    number: u64,
) -> bool
    requires table { table < length database.now.tables }
    requires row { row < length (rows_at database.now.rows table) }
    requires indexed { AreIndexesOf database.now indexes.now }
    ensures { IsTrue result ↔ Violates database.now table row (RepeatedUnique number) }
{
    if number == 0 {
        return false;
    }
    let place = (number - 1) as usize;
    match table_of(database, table).uniques.as_slice().get(place) {
        None => false,
        Some(places) => match indexes
            .of_table(database, table)
            .uniques
            .as_slice()
            .get(place)
        {
            None => false,
            Some(index) => is_repeated(rows_of(database, table), places, index, row),
        },
    }
}
