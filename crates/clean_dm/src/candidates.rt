ghost use Rattle.std.specs.Prelude.{◌≡◌, ℕ, ◌<◌, ◌⊎◌, ◌↔◌, IfOk, OnOk, length};
ghost use Rattle.table_csv.specs.Databases.{IsDatabase};
ghost use Rattle.keys_dm.specs.Entries.{positions_of};
ghost use Rattle.clean_dm.specs.Parts.{IsRow};
ghost use Rattle.clean_dm.specs.References.{AreReferences, IsReference};
ghost use Rattle.clean_dm.specs.RowSets.{Has};
ghost use Rattle.clean_dm.specs.Working.{AreRows, GainsMatching, GainsReferencing, GainsRows};

use crate::references::{Reference, References};
use crate::row_set::RowSet;
use keys_dm::{Entry, has_null_at, rows_of};
use std::alloc::{AllocError, Global};
use table_csv::Database;

fn add_first_rows(table: u32, count: usize, set: &mut RowSet) -> Result<(), AllocError>
    ensures { OnOk result ((u j : ℕ) → Has set.new u j ↔ (Has set.old u j ⊎ ((u ≡ table) × (j < count)))) }
{
    for row in 0..count {
        set.insert(table, row)?;
    }
    Ok(())
}

/// All rows of the database. Refused for want of memory alone.
pub fn all_rows(alloc: Global, database: &Database) -> Result<RowSet, AllocError>
    ensures each { IfOk result (λ set. (t i : ℕ) → Has set t i ↔ ((t < length database.now.tables) × IsRow database.now t i)) }
    ensures fits { IfOk result (λ _. IsDatabase database.now) }
{
    let mut set = RowSet::new(alloc);
    for table in 0..database.schema().tables().len() {
        let place = table as u32;
        add_first_rows(place, database.rows_of(place).len(), &mut set)?;
    }
    Ok(set)
}

fn add_rows(table: u32, entries: &[Entry], set: &mut RowSet) -> Result<(), AllocError>
    ensures { OnOk result (GainsRows set.old set.new table (positions_of entries.now)) }
{
    for entry in entries {
        set.insert(table, entry.position())?;
    }
    Ok(())
}

// Puts in the rows that reference the row by one foreign key. The rows with a NULL in the referenced
// columns may be many, and no row references them.
fn add_matching(
    database: &Database,
    reference: &Reference,
    table: u32,
    row: usize,
    due: &mut RowSet,
) -> Result<(), AllocError>
    requires table { table < length database.now.tables }
    requires row { IsRow database.now table row }
    requires reference { IsReference database.now reference.now }
    requires due { AreRows database.now due.old }
    ensures { OnOk result (GainsMatching database.now due.old due.new table row reference.now) }
{
    let key = &reference.key;
    if key.target != table {
        return Ok(());
    }
    let cells = rows_of(database, table).row(row);
    if has_null_at(cells, &key.target_columns) {
        return Ok(());
    }
    let rows = rows_of(database, reference.table);
    let found = reference
        .rows
        .matches(rows, &key.columns, cells, &key.target_columns);
    add_rows(reference.table, found, due)
}

/// Puts in all rows that reference the row at the position of the table, both counted from 0. Refused
/// for want of memory alone.
pub fn add_referencing(
    database: &Database,
    references: &References,
    table: u32,
    row: usize,
    due: &mut RowSet,
) -> Result<(), AllocError>
    requires table { table < length database.now.tables }
    requires row { IsRow database.now table row }
    requires references { AreReferences database.now (length database.now.tables) references.now }
    requires due { AreRows database.now due.old }
    ensures { OnOk result (GainsReferencing database.now due.old due.new table row) }
{
    for reference in references.as_slice() {
        add_matching(database, reference, table, row, due)?;
    }
    Ok(())
}
