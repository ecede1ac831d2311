ghost use Rattle.std.specs.Prelude.{◌≡◌, ℕ, ◌<◌, IfOk, OnOk, length};
ghost use Rattle.schema_dm.specs.Schemas.{table_at};
ghost use Rattle.clean_dm.specs.References.{AreReferences, PutsReferences, StandsFor};

use keys_dm::{KeyIndex, rows_of, table_of};
use schema_dm::ForeignKey;
use std::alloc::{AllocError, Global};
use table_csv::Database;
use value_dm::{Sequence, TryCopy};

/// A foreign key of the table at the place, counted from 0, with the table's rows by their cells in
/// its referencing columns.
#[derive(Drop)]
pub struct Reference {
    pub table: u32,
    pub key: ForeignKey,
    pub rows: KeyIndex,
}

/// The foreign keys of a database, by table and then in their order.
pub type References = Sequence<Reference>;

fn reference_of(
    alloc: Global,
    database: &Database,
    table: u32,
    key: &ForeignKey,
) -> Result<Reference, AllocError>
    requires { table < length database.now.tables }
    ensures { IfOk result (StandsFor database.now table key.now) }
{
    Ok(Reference {
        table,
        key: key.copy(alloc)?,
        rows: KeyIndex::new(alloc, rows_of(database, table), &key.columns)?,
    })
}

// Puts the references of the table's foreign keys behind the others.
fn push_references(
    alloc: Global,
    database: &Database,
    table: u32,
    references: &mut References,
) -> Result<(), AllocError>
    requires { table < length database.now.tables }
    ensures { OnOk result (PutsReferences database.now table references.old references.new (table_at database.now.tables table).foreign) }
{
    for key in table_of(database, table).foreign.as_slice() {
        references.push(reference_of(alloc, database, table, key)?)?;
    }
    Ok(())
}

/// The references of all foreign keys. Refused for want of memory alone.
pub fn references_of(alloc: Global, database: &Database) -> Result<References, AllocError>
    ensures { IfOk result (AreReferences database.now (length database.now.tables)) }
{
    let mut references = References::new(alloc);
    for table in 0..database.schema().tables().len() {
        push_references(alloc, database, table as u32, &mut references)?;
    }
    Ok(references)
}
