ghost use Rattle.std.specs.Prelude.{◌≡◌, ◌<◌, false, length, slice_index_or, IfOk};
ghost use Rattle.table_csv.specs.Databases.{rows_at};
ghost use Rattle.keys_dm.specs.TableIndexes.{AreIndexesOf};
ghost use Rattle.graphs_dm.specs.Plans.{AreAllFlags, AreChoices, AreFlags, AreMarks, IsChoice, IsPlanOf};
ghost use Rattle.graphs_dm.specs.Plans as spec;

use crate::GraphName;
use keys_dm::{KeyIndexes, is_violated, rows_of};
use schema_dm::{Binary, Schema};
use std::alloc::{AllocError, Global};
use table_csv::Database;
use value_dm::Sequence;

/// For each row of a table whether it is marked.
pub type Flags = Sequence<bool>;

/// Which tables are relations in a graph, and which rows it marks.
#[derive(Drop)]
pub struct Plan {
    /// For each table the sides of the relation that it is, None for a class.
    pub relations: Sequence<Option<Binary>>,
    /// For each table the flags of its rows; no flags where no row is marked.
    pub marks: Sequence<Flags>,
}

impl Plan {
    /// The plan of a graph. Refused for want of memory alone.
    pub fn new(
        alloc: Global,
        name: GraphName,
        database: &Database,
        indexes: &KeyIndexes,
    ) -> Result<Plan, AllocError>
        requires { AreIndexesOf database.now indexes.now }
        ensures { IfOk result (IsPlanOf name database.now) }
    {
        Ok(Plan {
            relations: relations_of(alloc, name, database.schema())?,
            marks: marks_of(alloc, name, database, indexes)?,
        })
    }

    /// Whether the row at this place is marked.
    pub fn is_marked(&self, t: u32, i: usize) -> bool
        ensures { result ≡ spec.is_marked self.now t i }
    {
        match self.marks.as_slice().get(t as usize) {
            None => false,
            Some(flags) => flag_at(flags, i),
        }
    }

    /// The sides of the relation that the table at this place is, None for a class.
    pub fn relation_at(&self, t: u32) -> Option<Binary>
        ensures { result ≡ spec.relation_at self.now t }
    {
        match self.relations.as_slice().get(t as usize) {
            None => None,
            Some(sides) => *sides,
        }
    }
}

fn flag_at(flags: &Flags, i: usize) -> bool
    ensures { result ≡ slice_index_or flags.now i false }
{
    match flags.as_slice().get(i) {
        None => false,
        Some(flag) => *flag,
    }
}

fn choice_of(name: GraphName, schema: &Schema, t: u32) -> Option<Binary>
    requires { t < length schema.now }
    ensures { IsChoice name schema.now t result }
{
    match name {
        GraphName::Map => schema.is_binary(t),
        GraphName::Direct => None,
        GraphName::MapKeys => None,
    }
}

fn relations_of(
    alloc: Global,
    name: GraphName,
    schema: &Schema,
) -> Result<Sequence<Option<Binary>>, AllocError>
    ensures { IfOk result (AreChoices name schema.now (length schema.now)) }
{
    let mut relations = Sequence::new(alloc);
    for t in 0..schema.tables().len() {
        relations.push(choice_of(name, schema, t as u32))?;
    }
    Ok(relations)
}

fn flags_of(
    alloc: Global,
    database: &Database,
    indexes: &KeyIndexes,
    t: u32,
) -> Result<Flags, AllocError>
    requires table { t < length database.now.tables }
    requires indexes { AreIndexesOf database.now indexes.now }
    ensures { IfOk result (AreFlags database.now t (length (rows_at database.now.rows t))) }
{
    let mut flags = Flags::new(alloc);
    for i in 0..rows_of(database, t).len() {
        flags.push(is_violated(alloc, database, indexes, t, i)?)?;
    }
    Ok(flags)
}

fn all_flags(
    alloc: Global,
    database: &Database,
    indexes: &KeyIndexes,
) -> Result<Sequence<Flags>, AllocError>
    requires { AreIndexesOf database.now indexes.now }
    ensures { IfOk result (AreAllFlags database.now (length database.now.tables)) }
{
    let mut marks = Sequence::new(alloc);
    for t in 0..database.schema().tables().len() {
        marks.push(flags_of(alloc, database, indexes, t as u32)?)?;
    }
    Ok(marks)
}

fn marks_of(
    alloc: Global,
    name: GraphName,
    database: &Database,
    indexes: &KeyIndexes,
) -> Result<Sequence<Flags>, AllocError>
    requires { AreIndexesOf database.now indexes.now }
    ensures { IfOk result (AreMarks name database.now) }
{
    match name {
        GraphName::MapKeys => all_flags(alloc, database, indexes),
        GraphName::Direct => Ok(Sequence::new(alloc)),
        GraphName::Map => Ok(Sequence::new(alloc)),
    }
}
