ghost use Rattle.std.specs.Prelude.{◌≡◌, ◌++◌, IfOk};
ghost use Rattle.append_dm.specs.Appended.{IsBatchFor, appended};

use std::alloc::{AllocError, Global};
use table_csv::{Database, Rows, RowsList};
use value_dm::TryCopy;

// The rows, and those of the batch behind them.
fn rows_behind(alloc: Global, old: &Rows, batch: &Rows) -> Result<Rows, AllocError>
    ensures { IfOk result (λ rows. rows ≡ old.now ++ batch.now) }
{
    let mut rows = old.copy(alloc)?;
    for row in batch.as_slice() {
        rows.push(row.copy(alloc)?)?;
    }
    Ok(rows)
}

/// The database with the rows of the batch behind its own, table by table. The batch is of the same tables, and no table has
/// more than 4,194,304 rows in all. Refused for want of memory alone.
pub fn combined(alloc: Global, old: &Database, batch: &Database) -> Result<Database, AllocError>
    requires { IsBatchFor old.now batch.now }
    ensures { IfOk result (λ whole. whole ≡ appended old.now batch.now) }
{
    let schema = old.schema().copy(alloc)?;
    let tables = schema.tables().len();
    let _batch_schema = batch.schema();
    let mut lists = RowsList::new(alloc);
    for t in 0..tables {
        lists.push(rows_behind(alloc, old.rows_of(t as u32), batch.rows_of(t as u32))?)?;
    }
    match Database::new(schema, lists) {
        Some(whole) => Ok(whole),
        None => unreachable!(),
    }
}
