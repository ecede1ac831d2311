ghost use Rattle.std.specs.Prelude.{◌≡◌, ◌<◌, IfOk, Some, length, slice_get};
ghost use Rattle.schema_dm.specs.Schemas.{table_at};
ghost use Rattle.facts_dm.specs.Facts.{link_iri};
ghost use Rattle.graphs_dm.specs.Heads.{relation_head};
ghost use Rattle.graphs_dm.specs.Relations.{key_at, relation_name, relation_of, target_name};

use crate::heads::framed;
use crate::nodes::name_at;
use keys_dm::table_of;
use names_dm::{Base, Iri, RelName, rel_iri};
use schema_dm::{Binary, ForeignKey, Table};
use std::alloc::{AllocError, Global};
use table_csv::Database;
use value_dm::{Bytes, Text, TryCopy};

/// The foreign key of the table of this number.
pub fn key_of(database: &Database, t: u32, number: u32) -> &ForeignKey
    requires table { t < length database.now.tables }
    requires number { number < length (table_at database.now.tables t).foreign }
    ensures value { result.now ≡ key_at database.now.tables t number }
    ensures given { slice_get (table_at database.now.tables t).foreign number ≡ Some result.now }
    ensures target { result.now.target < length database.now.tables }
{
    &table_of(database, t).foreign.as_slice()[number as usize]
}

/// The referenced table of the foreign key of this number.
pub fn target_of(database: &Database, t: u32, number: u32) -> &Table
    requires table { t < length database.now.tables }
    requires number { number < length (table_at database.now.tables t).foreign }
    ensures { result.now ≡ table_at database.now.tables (key_at database.now.tables t number).target }
{
    table_of(database, key_of(database, t, number).target)
}

// The name of the column that a key on one column references.
fn target_name(alloc: Global, database: &Database, key: &ForeignKey) -> Result<Text, AllocError>
    requires { key.now.target < length database.now.tables }
    ensures { IfOk result (λ name. name ≡ target_name database.now.tables key.now) }
{
    let place = match key.target_columns.as_slice().first() {
        None => 0,
        Some(place) => *place,
    };
    let target = table_of(database, key.target);
    name_at(alloc, target.columns.as_slice(), place as usize)
}

// The name of the relation that the table is.
fn relation_name(
    alloc: Global,
    database: &Database,
    t: u32,
    sides: Binary,
) -> Result<RelName, AllocError>
    requires table { t < length database.now.tables }
    requires left { sides.left < length (table_at database.now.tables t).foreign }
    requires right { sides.right < length (table_at database.now.tables t).foreign }
    ensures { IfOk result (λ name. name ≡ relation_name database.now.tables t sides) }
{
    let table = table_of(database, t);
    let columns = table.columns.as_slice();
    Ok(RelName {
        table: table.name.copy(alloc)?,
        left: name_at(alloc, columns, 0)?,
        left_target: target_name(alloc, database, key_of(database, t, sides.left))?,
        right: name_at(alloc, columns, 1)?,
        right_target: target_name(alloc, database, key_of(database, t, sides.right))?,
    })
}

/// The IRI of the relation that the table is. Refused for want of memory alone.
pub fn relation_iri(
    alloc: Global,
    base: &Base,
    database: &Database,
    t: u32,
    sides: Binary,
) -> Result<Iri, AllocError>
    requires table { t < length database.now.tables }
    requires left { sides.left < length (table_at database.now.tables t).foreign }
    requires right { sides.right < length (table_at database.now.tables t).foreign }
    ensures { IfOk result (λ iri. iri ≡ link_iri base.now (relation_of database.now.tables t sides)) }
{
    let name = relation_name(alloc, database, t, sides)?;
    rel_iri(alloc, base, &name)
}

/// What stands between the nodes of a row of the relation that the table is. Refused for want of memory alone.
#[tactic(auto, unfolding(crate::specs::Heads::relation_head))]
pub fn relation_head(
    alloc: Global,
    base: &Base,
    database: &Database,
    t: u32,
    sides: Binary,
) -> Result<Bytes, AllocError>
    requires table { t < length database.now.tables }
    requires left { sides.left < length (table_at database.now.tables t).foreign }
    requires right { sides.right < length (table_at database.now.tables t).foreign }
    ensures { IfOk result (λ text. text ≡ relation_head base.now database.now.tables t sides) }
{
    let iri = relation_iri(alloc, base, database, t, sides)?;
    framed(alloc, " <", &iri, "> ")
}
