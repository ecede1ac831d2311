ghost use Rattle.std.specs.Prelude.{◌≡◌, ◌↔◌, ◌<◌, [], ◌∷◌, length, IfOk, IsTrue, OnOk};
ghost use Rattle.members_dm.specs.Places.{IsListing};
ghost use Rattle.keys_dm.specs.Adding.{Adds};
ghost use Rattle.keys_dm.specs.Kept.{HasMatches};
ghost use Rattle.keys_dm.specs.TableIndexes.{AreIndexesOf};
ghost use Rattle.keys_dm.specs.Violations.{KeepsKeys, Violates, ViolatesAt};
ghost use Rattle.keys_dm.specs.declared.violation.ViolationKind.{ViolationKind as Kind};
ghost use Rattle.table_csv.specs.Databases.{rows_at};

use crate::ViolationList;
use crate::row::{Spot, push_of_row};
use crate::table_indexes::{KeyIndexes, rows_of};
use std::alloc::{AllocError, Global};
use table_csv::Database;

/// All violations of keys (ISO/IEC 9075-2, 4.17), ordered by table, row, primary key, unique keys by
/// number, foreign keys by number. Refused for want of memory alone.
///
/// Where there is none, each foreign key of a row without a NULL has exactly one matching row.
pub fn violations(alloc: Global, database: &Database) -> Result<ViolationList, AllocError>
    ensures listed { IfOk result (λ found. IsListing (ViolatesAt database.now) found) }
    ensures kept { IfOk result (λ found. (found ≡ []) ↔ KeepsKeys database.now) }
    ensures matched { IfOk result (λ found. found ≡ [] → HasMatches database.now) }
{
    let indexes = KeyIndexes::new(alloc, database)?;
    let found = violations_by(alloc, database, &indexes)?;
    Ok(found)
}

/// The same as `violations`, by indexes of the database that serve other calls too.
pub fn violations_by(
    alloc: Global,
    database: &Database,
    indexes: &KeyIndexes,
) -> Result<ViolationList, AllocError>
    requires { AreIndexesOf database.now indexes.now }
    ensures listed { IfOk result (λ found. IsListing (ViolatesAt database.now) found) }
    ensures kept { IfOk result (λ found. (found ≡ []) ↔ KeepsKeys database.now) }
    ensures matched { IfOk result (λ found. found ≡ [] → HasMatches database.now) }
{
    let mut found = ViolationList::new(alloc);
    for table in 0..database.schema().tables().len() {
        push_of_table(database, indexes, table as u32, &mut found)?;
    }
    Ok(found)
}

/// Whether the row violates a key, where its table and itself are given by their places, counted from 0.
/// Refused for want of memory alone.
pub fn is_violated(
    alloc: Global,
    database: &Database,
    indexes: &KeyIndexes,
    table: u32,
    row: usize,
) -> Result<bool, AllocError>
    requires table { table < length database.now.tables }
    requires row { row < length (rows_at database.now.rows table) }
    requires indexed { AreIndexesOf database.now indexes.now }
    ensures { IfOk result (λ violated. IsTrue violated ↔ ((kind : Kind) × Violates database.now table row kind)) }
{
    let mut found = ViolationList::new(alloc);
    push_of_row(database, indexes, Spot { table, row }, &mut found)?;
    Ok(found.len() > 0)
}

fn push_of_table(
    database: &Database,
    indexes: &KeyIndexes,
    table: u32,
    found: &mut ViolationList,
) -> Result<(), AllocError>
    requires table { table < length database.now.tables }
    requires indexed { AreIndexesOf database.now indexes.now }
    ensures { OnOk result (Adds (λ p x. ViolatesAt database.now (table ∷ p) x) found.old found.new) }
{
    for row in 0..rows_of(database, table).len() {
        push_of_row(database, indexes, Spot { table, row }, found)?;
    }
    Ok(())
}

/// Whether no row violates a key. Refused for want of memory alone.
pub fn holds_all(alloc: Global, database: &Database) -> Result<bool, AllocError>
    ensures { IfOk result (λ kept. IsTrue kept ↔ KeepsKeys database.now) }
{
    Ok(violations(alloc, database)?.len() == 0)
}
