ghost use Rattle.std.specs.Prelude.{◌≡◌, IfOk};
ghost use Rattle.keys_dm.specs.TableIndexes.{AreIndexesOf};
ghost use Rattle.keys_dm.specs.Violations.{KeepsKeys};
ghost use Rattle.append_dm.specs.Appended.{IsBatchFor, appended};
ghost use Rattle.append_dm.specs.Batches.{Enlarges, PutsBatch, counts};

use crate::combining::combined;
use facts_dm::naming_laws;
use graphs_dm::write_map_rows;
use keys_dm::{KeyIndexes, rows_of};
use names_dm::Base;
use outside_dm::{PutError, Sink};
use std::alloc::{AllocError, Global};
use table_csv::Database;

// The number of rows of each table, which is the first row of a batch behind them, counted from 0.
fn first_rows(alloc: Global, old: &Database) -> Result<Vec<u32>, AllocError>
    ensures { IfOk result (λ firsts. firsts.items ≡ counts old.now) }
{
    let mut firsts = Vec::new(alloc);
    for t in 0..old.schema().tables().len() {
        firsts.push(rows_of(old, t as u32).len() as u32)?;
    }
    Ok(firsts)
}

/// Puts the triples by which a batch enlarges the map graph of a database, as N-Triples: those of the map graph of both
/// together that aren't in the map graph of the database alone, in the order of the former. They are the triples of the
/// batch's rows, whose numbers follow those of the database's; every triple of the old graph is in the new one.
///
/// The batch is of the same tables, no table has more than 4,194,304 rows in all, and both the database alone and the two
/// together keep their keys. After a refusal a prefix of that text was put. `Failed` comes only where the sink's faults
/// rose, `Memory` for want of memory alone.
pub fn write_batch<K: Sink>(
    alloc: Global,
    base: &Base,
    old: &Database,
    batch: &Database,
    out: &mut K,
) -> Result<(), PutError>
    requires batch { IsBatchFor old.now batch.now }
    requires kept { KeepsKeys old.now }
    requires whole_kept { KeepsKeys (appended old.now batch.now) }
    ensures text { PutsBatch base.now old.now (appended old.now batch.now) (K.state out.old) (K.state out.new) result }
    ensures enlarges { Enlarges base.now old.now (appended old.now batch.now) }
{
    naming_laws(base);
    let _schema = old.schema();
    let _batch_schema = batch.schema();
    let Ok(whole) = combined(alloc, old, batch) else {
        return Err(PutError::Memory);
    };
    let Ok(indexes) = KeyIndexes::new(alloc, &whole) else {
        return Err(PutError::Memory);
    };
    write_batch_by(alloc, base, old, batch, &whole, &indexes, out)
}

/// The same as `write_batch`, by the two together and their indexes, which serve other calls too.
pub fn write_batch_by<K: Sink>(
    alloc: Global,
    base: &Base,
    old: &Database,
    batch: &Database,
    whole: &Database,
    indexes: &KeyIndexes,
    out: &mut K,
) -> Result<(), PutError>
    requires batch { IsBatchFor old.now batch.now }
    requires whole { whole.now ≡ appended old.now batch.now }
    requires indexes { AreIndexesOf whole.now indexes.now }
    requires kept { KeepsKeys old.now }
    requires whole_kept { KeepsKeys (appended old.now batch.now) }
    ensures text { PutsBatch base.now old.now (appended old.now batch.now) (K.state out.old) (K.state out.new) result }
    ensures enlarges { Enlarges base.now old.now (appended old.now batch.now) }
{
    naming_laws(base);
    let _schema = old.schema();
    let _batch_schema = batch.schema();
    let Ok(firsts) = first_rows(alloc, old) else {
        return Err(PutError::Memory);
    };
    write_map_rows(alloc, base, whole, indexes, firsts.as_slice(), out)
}
