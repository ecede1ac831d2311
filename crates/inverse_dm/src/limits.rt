ghost use Rattle.std.specs.Prelude.{◌↔◌, ◌<◌, Any, IsTrue, MatchResult, length, map};
ghost use Rattle.graph_tables_dm.specs.TableReadings.{plain_of};
ghost use Rattle.inverse_dm.specs.Limits.{Exceeds, IsWithinLimits};

use crate::error::InverseError;
use graph_tables_dm::GraphTable;

const MOST_TABLES: usize = 4_096;

const MOST_COLUMNS: usize = 256;

const MOST_ROWS: usize = 4_194_304;

fn is_wide(table: &GraphTable) -> bool
    ensures { IsTrue result ↔ (256 < length table.now.table.columns) }
{
    table.table.columns.len() > MOST_COLUMNS
}

fn is_long(table: &GraphTable) -> bool
    ensures { IsTrue result ↔ (4194304 < length table.now.rows) }
{
    table.rows.len() > MOST_ROWS
}

fn has_wide_table(tables: &[GraphTable]) -> bool
    ensures { IsTrue result ↔ Any (λ made. 256 < length made.table.columns) tables.now }
{
    tables.iter().any(|table| is_wide(table))
}

fn has_long_table(tables: &[GraphTable]) -> bool
    ensures { IsTrue result ↔ Any (λ made. 4194304 < length made.rows) tables.now }
{
    tables.iter().any(|table| is_long(table))
}

/// Whether the tables are within the limits, or the first limit that they exceed.
pub(crate) fn check_limits(tables: &[GraphTable]) -> Result<(), InverseError>
    ensures { MatchResult result (λ _. IsWithinLimits (map plain_of tables.now)) (λ error. Exceeds error (map plain_of tables.now)) }
{
    if tables.len() > MOST_TABLES {
        return Err(InverseError::TooManyTables);
    }
    if has_wide_table(tables) {
        return Err(InverseError::TooManyColumns);
    }
    if has_long_table(tables) {
        return Err(InverseError::TooManyRows);
    }
    Ok(())
}
