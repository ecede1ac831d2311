ghost use Rattle.std.specs.Prelude.{◌≡◌, ◌≤◌, ◌+◌, ℕ, IfOk, length};
ghost use Rattle.std.specs.List.{AllZip};
ghost use Rattle.members_dm.specs.Membership.{NoRepeats};
ghost use Rattle.schema_dm.specs.Naming.{column_names};
ghost use Rattle.outside_dm.specs.Shelves.{ShelfState};
ghost use Rattle.table_csv.specs.Cells.{AreRowsOf};
ghost use Rattle.table_csv.specs.Databases.{IsDatabase, rows_at};
ghost use Rattle.keys_dm.specs.TableIndexes.{AreIndexesOf};
ghost use Rattle.keys_dm.specs.Violations.{KeepsKeys};
ghost use Rattle.append_dm.specs.Appended.{IsBatchFor};
ghost use Rattle.cmd_dm.specs.Append.{append_script, batch_keys_step, batch_script, few_step, further_rows_step, further_tables_step, more_step};
ghost use Rattle.cmd_dm.specs.Ending.{Ends, PureStep, Step, result_status, to_output};
ghost use Rattle.cmd_dm.specs.Steps.{keys_step};

use crate::folder::load_more;
use crate::graphs::end_of_puts;
use crate::reasons::{batch_status, table_status};
use crate::status::Status;
use crate::steps::{check_keys, read_base, read_database, read_rows};
use append_dm::{combined, write_batch_by};
use keys_dm::{KeyIndexes, rows_of, violations_by};
use names_dm::Base;
use outside_dm::{Shelf, Sink};
use schema_dm::Table;
use std::alloc::Global;
use table_csv::{Database, Rows, RowsList, TableError};
use value_dm::{Bytes, NullMode, Text, TryCopy};

/// The most rows that a table has.
const MOST_ROWS: usize = 4_194_304;

/// Looks at how many rows the table with this number has, as the next step.
#[tactic(auto, unfolding(crate::specs::Append::few_step))]
fn check_few(number: u64, count: usize) -> Result<(), Status>
    ensures step { PureStep (few_step number count) result }
    ensures few { IfOk result (λ _. count ≤ 4194304) }
{
    if count > MOST_ROWS {
        Err(table_status(number, TableError::TooManyRows))
    } else {
        Ok(())
    }
}

/// Reads the further rows of the table with this number, behind so many, as the next step.
#[tactic(auto, unfolding(crate::specs::Append::further_rows_step))]
fn read_further_rows(
    alloc: Global,
    table: &Table,
    nulls: NullMode,
    number: u64,
    count: usize,
    bytes: &Bytes,
) -> Result<Rows, Status>
    requires distinct { NoRepeats (column_names table.now.columns) }
    requires few { count ≤ 4194304 }
    ensures step { PureStep (further_rows_step table.now.columns nulls number count bytes.now) result }
    ensures fit { IfOk result (λ rows. AreRowsOf table.now.columns rows) }
    ensures few { IfOk result (λ rows. count + length rows ≤ 4194304) }
{
    let rows = read_rows(alloc, table, nulls, number, bytes)?;
    check_few(number, count + rows.len())?;
    Ok(rows)
}

/// Loads and reads the further rows of all tables as the next steps.
fn read_further_tables<S: Shelf>(
    alloc: Global,
    folder: &Text,
    nulls: NullMode,
    tables: &[Table],
    old: &Database,
    shelf: &mut S,
) -> Result<RowsList, Status>
    requires database { IsDatabase old.now }
    requires same { tables.now ≡ old.now.tables }
    ensures step { Step (further_tables_step folder.now nulls (length tables.now) old.now.rows 0 tables.now) (S.state shelf.old) (S.state shelf.new) result }
    ensures fit { IfOk result (λ rows. AllZip (λ table rows. AreRowsOf table.columns rows) tables.now rows) }
    ensures few { IfOk result (λ rows. (t : ℕ) → length (rows_at old.now.rows t) + length (rows_at rows t) ≤ 4194304) }
{
    let mut list = RowsList::new(alloc);
    for (place, table) in tables.iter().enumerate() {
        let number = place as u64 + 1;
        let bytes = load_more(alloc, folder, number, &table.name, shelf)?;
        let told = number + tables.len() as u64;
        let count = rows_of(old, place as u32).len();
        list.push(read_further_rows(alloc, table, nulls, told, count, &bytes)?)?;
    }
    Ok(list)
}

/// Loads and reads a folder's batch for the database as the next steps.
#[tactic(auto, unfolding(crate::specs::Append::more_step))]
fn read_more<S: Shelf>(
    alloc: Global,
    folder: &Text,
    nulls: NullMode,
    old: &Database,
    shelf: &mut S,
) -> Result<Database, Status>
    ensures step { Step (more_step folder.now nulls old.now) (S.state shelf.old) (S.state shelf.new) result }
    ensures batch { IfOk result (IsBatchFor old.now) }
{
    let schema = old.schema().copy(alloc)?;
    let rows = read_further_tables(alloc, folder, nulls, schema.tables(), old, shelf)?;
    match Database::new(schema, rows) {
        Some(batch) => Ok(batch),
        None => unreachable!(),
    }
}

/// Looks at the keys of the database alone as the next step.
fn check_alone(alloc: Global, database: &Database) -> Result<(), Status>
    ensures step { PureStep (keys_step database.now) result }
    ensures kept { IfOk result (λ _. KeepsKeys database.now) }
{
    let indexes = KeyIndexes::new(alloc, database)?;
    check_keys(alloc, database, &indexes)
}

/// Looks at the keys of a database with a batch behind its rows as the next step.
#[tactic(auto, unfolding(crate::specs::Append::batch_keys_step))]
fn check_both(alloc: Global, whole: &Database, indexes: &KeyIndexes) -> Result<(), Status>
    requires { AreIndexesOf whole.now indexes.now }
    ensures step { PureStep (batch_keys_step whole.now) result }
    ensures kept { IfOk result (λ _. KeepsKeys whole.now) }
{
    let found = violations_by(alloc, whole, indexes)?;
    match found.as_slice() {
        [] => Ok(()),
        [first, ..] => Err(batch_status(first)),
    }
}

/// Looks at the keys, and writes the triples by which the batch enlarges the map graph, as the last steps.
fn put_batch<K: Sink>(
    alloc: Global,
    base: &Base,
    old: &Database,
    batch: &Database,
    out: &mut K,
) -> Result<(), Status>
    requires { IsBatchFor old.now batch.now }
    ensures { (state : ShelfState) → Ends to_output (batch_script base.now old.now batch.now) state state (K.state out.old) (K.state out.new) (result_status result) }
{
    check_alone(alloc, old)?;
    let whole = combined(alloc, old, batch)?;
    let indexes = KeyIndexes::new(alloc, &whole)?;
    check_both(alloc, &whole, &indexes)?;
    end_of_puts(write_batch_by(alloc, base, old, batch, &whole, &indexes, out))
}

/// `append BASE FOLDER MORE`: writes the triples by which the rows in the folder MORE enlarge the map graph of the folder's
/// database.
pub(crate) fn run_append<S: Shelf, K: Sink>(
    alloc: Global,
    base: &Text,
    folder: &Text,
    more: &Text,
    nulls: NullMode,
    shelf: &mut S,
    out: &mut K,
) -> Result<(), Status>
    ensures { Ends to_output (append_script base.now folder.now more.now nulls) (S.state shelf.old) (S.state shelf.new) (K.state out.old) (K.state out.new) (result_status result) }
{
    let base = read_base(alloc, base)?;
    let database = read_database(alloc, folder, nulls, shelf)?;
    let batch = read_more(alloc, more, nulls, &database, shelf)?;
    put_batch(alloc, &base, &database, &batch, out)
}
