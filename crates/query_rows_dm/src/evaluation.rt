// The relation of a query by those of its parts.
ghost use Rattle.std.specs.Prelude.{◌≡◌, ◌<◌, IfOk, Some, length, map, slice_get};
ghost use Rattle.members_dm.specs.Membership.{IsIn};
ghost use Rattle.schema_dm.specs.Naming.{column_names};
ghost use Rattle.schema_dm.specs.Schemas.{IsSchema, table_at};
ghost use Rattle.table_csv.specs.Databases.{rows_at};
ghost use Rattle.algebra_dm.specs.Attributes.{HasTable};
ghost use Rattle.algebra_dm.specs.Nodes.{IsWellFormed};
ghost use Rattle.algebra_dm.specs.declared.query.Query.TheVariants as queries;
ghost use Rattle.query_rows_dm.specs.Numbers.{AreOneToOne};
ghost use Rattle.query_rows_dm.specs.Evaluation.{IsEvaluated};
ghost use Rattle.query_rows_dm.specs.Tables.{IsTableRelation};

use crate::dictionary::{Dictionary, NULL};
use crate::joins::joined;
use crate::operators::{equal, null, other_value, projected, renamed, subtracted, unequal, united};
use crate::relation::Relation;
use crate::tables::table_rows;
use algebra_dm::{Query, column_names};
use schema_dm::Index;
use std::alloc::{AllocError, Global};
use table_csv::Database;
use value_dm::Text;

// Where the name of a table stands.
fn place_of(tables: &Index<Text>, name: &Text) -> usize
    requires { IsIn name.now tables.now }
    ensures { slice_get tables.now result ≡ Some name.now }
{
    tables.place(name).unwrap()
}

// The rows of the table at the place, counted from 0.
fn table_at<'a>(
    alloc: Global,
    database: &'a Database,
    place: usize,
    dictionary: &mut Dictionary<'a>,
) -> Result<Relation, AllocError>
    requires place { place < length database.now.tables }
    requires apart { AreOneToOne dictionary.old }
    ensures { IfOk result (λ r. IsTableRelation dictionary.old dictionary.new (column_names (table_at database.now.tables place).columns) (rows_at database.now.rows place) r) }
{
    let table = &database.schema().tables()[place];
    let names = column_names(alloc, table.columns.as_slice())?;
    let rows = database.rows_of(place as u32);
    table_rows(alloc, names.as_slice(), rows.as_slice(), dictionary)
}

// The rows of the table of the name.
fn table<'a>(
    alloc: Global,
    database: &'a Database,
    tables: &Index<Text>,
    dictionary: &mut Dictionary<'a>,
    name: &Text,
) -> Result<Relation, AllocError>
    requires schema { IsSchema database.now.tables }
    requires named { tables.now ≡ map (λ table. table.name) database.now.tables }
    requires there { HasTable database.now.tables name.now }
    requires apart { AreOneToOne dictionary.old }
    ensures { IfOk result (λ r. IsEvaluated dictionary.old dictionary.new database.now (queries.Table name.now) r) }
{
    let place = place_of(tables, name);
    table_at(alloc, database, place, dictionary)
}

/// The relation of a well-formed query. The index is that of the tables' names. Refused for want of memory, and where there
/// are more values than numbers.
pub fn relation_of<'a>(
    alloc: Global,
    database: &'a Database,
    tables: &Index<Text>,
    dictionary: &mut Dictionary<'a>,
    query: &Query,
) -> Result<Relation, AllocError>
    requires schema { IsSchema database.now.tables }
    requires named { tables.now ≡ map (λ table. table.name) database.now.tables }
    requires formed { IsWellFormed database.now.tables query.now }
    requires apart { AreOneToOne dictionary.old }
    ensures { IfOk result (λ r. IsEvaluated dictionary.old dictionary.new database.now query.now r) }
{
    match query {
        Query::Table(name) => table(alloc, database, tables, dictionary, name),
        Query::Null(name) => null(alloc, name),
        Query::Eq(part, name, value) => {
            let part = relation_of(alloc, database, tables, dictionary, part.get())?;
            equal(alloc, part, name, dictionary.sought(value))
        }
        Query::Ne(part, name, value) => {
            let part = relation_of(alloc, database, tables, dictionary, part.get())?;
            other_value(alloc, part, name, dictionary.sought(value))
        }
        Query::IsNull(part, name) => {
            let part = relation_of(alloc, database, tables, dictionary, part.get())?;
            equal(alloc, part, name, NULL)
        }
        Query::NotNull(part, name) => {
            let part = relation_of(alloc, database, tables, dictionary, part.get())?;
            unequal(alloc, part, name, NULL)
        }
        Query::Project(part, names) => {
            let part = relation_of(alloc, database, tables, dictionary, part.get())?;
            projected(alloc, &part, names)
        }
        Query::Rename(part, from, to) => {
            let part = relation_of(alloc, database, tables, dictionary, part.get())?;
            renamed(alloc, &part, from, to)
        }
        Query::Join(left, right) => {
            let left = relation_of(alloc, database, tables, dictionary, left.get())?;
            let right = relation_of(alloc, database, tables, dictionary, right.get())?;
            joined(alloc, left, &right)
        }
        Query::Union(left, right) => {
            let left = relation_of(alloc, database, tables, dictionary, left.get())?;
            let right = relation_of(alloc, database, tables, dictionary, right.get())?;
            united(alloc, left, &right)
        }
        Query::Diff(left, right) => {
            let left = relation_of(alloc, database, tables, dictionary, left.get())?;
            let right = relation_of(alloc, database, tables, dictionary, right.get())?;
            subtracted(alloc, left, &right)
        }
    }
}
