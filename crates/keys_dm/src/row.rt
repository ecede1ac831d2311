ghost use Rattle.std.specs.Prelude.{◌≡◌, ◌<◌, ◌↔◌, ℕ, ◌+◌, if◌then◌else◌, [], ◌∷◌, ◌++◌, Some, length, slice_get, IsTrue, OnOk};
ghost use Rattle.schema_dm.specs.Schemas.{table_at};
ghost use Rattle.table_csv.specs.Databases.{rows_at};
ghost use Rattle.keys_dm.specs.Adding.{Adds};
ghost use Rattle.keys_dm.specs.Indexes.{IsIndexOf};
ghost use Rattle.keys_dm.specs.KeyCells.{row_at};
ghost use Rattle.keys_dm.specs.TableIndexes.{AreIndexesOf};
ghost use Rattle.keys_dm.specs.Violations.{IsDangling, IsOfRow, IsRepeated, Violates};

use crate::cells::has_null_at;
use crate::index::KeyIndex;
use crate::table_indexes::{KeyIndexes, rows_of, table_of};
use crate::{Violation, ViolationKind, ViolationList};
use schema_dm::{ForeignKey, Places};
use std::alloc::AllocError;
use table_csv::{Database, Rows};
use value_dm::Cell;

/// A row by its table's place and its own position there, both counted from 0.
#[derive(Clone, Copy)]
pub struct Spot {
    pub table: u32,
    pub row: usize,
}

fn violation_of(spot: Spot, kind: ViolationKind) -> Violation
    requires { spot.row < 4194304 }
    ensures { result ≡ record { table = spot.table + 1; row = spot.row + 1; kind = kind } }
{
    Violation {
        table: u64::from(spot.table) + 1,
        row: spot.row as u64 + 1,
        kind,
    }
}

fn push_if(found: &mut ViolationList, holds: bool, violation: Violation) -> Result<(), AllocError>
    ensures { OnOk result (found.new ≡ found.old ++ (if holds then violation ∷ [] else [])) }
{
    if holds {
        found.push(violation)?;
    }
    Ok(())
}

// Whether none of the row's cells in the columns of the key is NULL, and another row has the same.
fn is_repeated(rows: &Rows, places: &Places, index: &KeyIndex, position: usize) -> bool
    requires index { IsIndexOf rows.now places.now index.now }
    requires row { position < length rows.now }
    ensures { IsTrue result ↔ IsRepeated rows.now places.now position }
{
    !has_null_at(rows.row(position), places) && index.has_twin(position)
}

// Puts the row's violations of its primary key behind the others.
fn push_of_primary(
    database: &Database,
    indexes: &KeyIndexes,
    spot: Spot,
    found: &mut ViolationList,
) -> Result<(), AllocError>
    requires table { spot.table < length database.now.tables }
    requires row { spot.row < length (rows_at database.now.rows spot.table) }
    requires indexed { AreIndexesOf database.now indexes.now }
    ensures { OnOk result (Adds (λ p x. IsOfRow (Violates database.now spot.table spot.row) spot.table spot.row (0 ∷ p) x) found.old found.new) }
{
    match &table_of(database, spot.table).primary {
        None => Ok(()),
        Some(places) => match &indexes.of_table(database, spot.table).primary {
            None => Ok(()),
            Some(index) => push_of_key(database, places, index, spot, found),
        },
    }
}

fn push_of_key(
    database: &Database,
    places: &Places,
    index: &KeyIndex,
    spot: Spot,
    found: &mut ViolationList,
) -> Result<(), AllocError>
    requires table { spot.table < length database.now.tables }
    requires row { spot.row < length (rows_at database.now.rows spot.table) }
    requires key { (table_at database.now.tables spot.table).primary ≡ Some places.now }
    requires indexed { IsIndexOf (rows_at database.now.rows spot.table) places.now index.now }
    ensures { OnOk result (Adds (λ p x. IsOfRow (Violates database.now spot.table spot.row) spot.table spot.row (0 ∷ p) x) found.old found.new) }
{
    let rows = rows_of(database, spot.table);
    let null = has_null_at(rows.row(spot.row), places);
    let repeated = is_repeated(rows, places, index, spot.row);
    push_if(found, null, violation_of(spot, ViolationKind::NullKey))?;
    push_if(
        found,
        repeated,
        violation_of(spot, ViolationKind::RepeatedKey),
    )?;
    Ok(())
}

// Puts the row's violations of unique keys behind the others.
fn push_of_uniques(
    database: &Database,
    indexes: &KeyIndexes,
    spot: Spot,
    found: &mut ViolationList,
) -> Result<(), AllocError>
    requires table { spot.table < length database.now.tables }
    requires row { spot.row < length (rows_at database.now.rows spot.table) }
    requires indexed { AreIndexesOf database.now indexes.now }
    ensures { OnOk result (Adds (λ p x. IsOfRow (Violates database.now spot.table spot.row) spot.table spot.row (1 ∷ p) x) found.old found.new) }
{
    let table = table_of(database, spot.table);
    let rows = rows_of(database, spot.table);
    let uniques = &indexes.of_table(database, spot.table).uniques;
    for (place, places) in table.uniques.as_slice().iter().enumerate() {
        let repeated = is_repeated(rows, places, &uniques.as_slice()[place], spot.row);
        let kind = ViolationKind::RepeatedUnique(place as u64 + 1);
        push_if(found, repeated, violation_of(spot, kind))?;
    }
    Ok(())
}

// Whether none of the row's cells in the columns of the foreign key is NULL, and no row has them in the
// referenced columns.
fn is_dangling(
    database: &Database,
    indexes: &KeyIndexes,
    spot: Spot,
    place: usize,
    key: &ForeignKey,
    row: &[Cell],
) -> bool
    requires table { spot.table < length database.now.tables }
    requires target { key.now.target < length database.now.tables }
    requires key { slice_get (table_at database.now.tables spot.table).foreign place ≡ Some key.now }
    requires indexed { AreIndexesOf database.now indexes.now }
    ensures { IsTrue result ↔ IsDangling (rows_at database.now.rows key.now.target) key.now row.now }
{
    !has_null_at(row, &key.columns)
        && indexes
            .referenced(database, spot.table, place, key, row)
            .is_empty()
}

// Puts the row's violations of foreign keys behind the others.
fn push_of_foreign(
    database: &Database,
    indexes: &KeyIndexes,
    spot: Spot,
    found: &mut ViolationList,
) -> Result<(), AllocError>
    requires table { spot.table < length database.now.tables }
    requires row { spot.row < length (rows_at database.now.rows spot.table) }
    requires indexed { AreIndexesOf database.now indexes.now }
    ensures { OnOk result (Adds (λ p x. IsOfRow (Violates database.now spot.table spot.row) spot.table spot.row (2 ∷ p) x) found.old found.new) }
{
    let table = table_of(database, spot.table);
    let row = rows_of(database, spot.table).row(spot.row);
    for (place, key) in table.foreign.as_slice().iter().enumerate() {
        let dangling = is_dangling(database, indexes, spot, place, key, row);
        let kind = ViolationKind::Dangling(place as u64 + 1);
        push_if(found, dangling, violation_of(spot, kind))?;
    }
    Ok(())
}

/// Puts the row's violations behind the others, in their order.
pub fn push_of_row(
    database: &Database,
    indexes: &KeyIndexes,
    spot: Spot,
    found: &mut ViolationList,
) -> Result<(), AllocError>
    requires table { spot.table < length database.now.tables }
    requires row { spot.row < length (rows_at database.now.rows spot.table) }
    requires indexed { AreIndexesOf database.now indexes.now }
    ensures { OnOk result (Adds (IsOfRow (Violates database.now spot.table spot.row) spot.table spot.row) found.old found.new) }
{
    push_of_primary(database, indexes, spot, found)?;
    push_of_uniques(database, indexes, spot, found)?;
    push_of_foreign(database, indexes, spot, found)?;
    Ok(())
}
