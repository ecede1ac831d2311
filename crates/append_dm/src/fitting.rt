ghost use Rattle.std.specs.Prelude.{◌≡◌, ◌↔◌, ◌≤◌, ◌+◌, IsTrue, length, ℕ};
ghost use Rattle.table_csv.specs.Databases.{rows_at};
ghost use Rattle.append_dm.specs.Appended.{IsBatchFor};

use keys_dm::rows_of;
use schema_dm::Table;
use table_csv::Database;
use value_dm::same;

const MOST_ROWS: usize = 4_194_304;

fn are_same(tables: &[Table], others: &[Table]) -> bool
    ensures { IsTrue result ↔ (tables.now ≡ others.now) }
{
    if tables.len() != others.len() {
        return false;
    }
    for (place, table) in tables.iter().enumerate() {
        if !same(table, &others[place]) {
            return false;
        }
    }
    true
}

fn has_room(old: &Database, batch: &Database) -> bool
    requires same { batch.now.tables ≡ old.now.tables }
    requires lists { length batch.now.tables ≡ length batch.now.rows }
    ensures { IsTrue result ↔ ((t : ℕ) → length (rows_at old.now.rows t) + length (rows_at batch.now.rows t) ≤ 4194304) }
{
    for t in 0..old.schema().tables().len() {
        if rows_of(old, t as u32).len() + rows_of(batch, t as u32).len() > MOST_ROWS {
            return false;
        }
    }
    true
}

/// Whether the batch is of the same tables as the database, and no table has more than 4,194,304 rows in all. Takes no memory.
pub fn is_batch_for(old: &Database, batch: &Database) -> bool
    ensures { IsTrue result ↔ IsBatchFor old.now batch.now }
{
    if !are_same(batch.schema().tables(), old.schema().tables()) {
        return false;
    }
    has_room(old, batch)
}
