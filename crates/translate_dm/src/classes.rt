// The first class of a graph.
ghost use Rattle.std.specs.Prelude.{◌<◌, ◌≡◌, ◌↔◌, IfNone, IfOk, IfSome, IsTrue, length};
ghost use Rattle.schema_dm.specs.Schemas.{IsSchema, table_at};
ghost use Rattle.graphs_dm.specs.Relations.{CountsAsClass};
ghost use Rattle.table_patterns_dm.specs.TablePatterns.{graph_of};
ghost use Rattle.translate_dm.specs.Translation.{AreAllRelations, IsFirstClass, IsMarkerClass};

use algebra_dm::Mode;
use names_dm::{Base, Iri, table_iri};
use schema_dm::{Schema, Table};
use std::alloc::{AllocError, Global};
use table_translation_dm::sides_in;

// Whether the table is a class in the graph of the mode.
fn is_class(mode: Mode, schema: &Schema, place: usize) -> bool
    requires schema { IsSchema schema.now }
    requires place { place < length schema.now }
    ensures { IsTrue result ↔ CountsAsClass (graph_of mode) schema.now place }
{
    sides_in(mode, schema, place).is_none()
}

// The place of the first class of the graph of the mode.
fn first_class_in(mode: Mode, schema: &Schema) -> Option<usize>
    requires { IsSchema schema.now }
    ensures found { IfSome result (IsFirstClass mode schema.now) }
    ensures none { IfNone result (AreAllRelations mode schema.now) }
{
    for place in 0..schema.tables().len() {
        if is_class(mode, schema, place) {
            return Some(place);
        }
    }
    None
}

// A table that is no relation is there, since a relation leads to others.
fn first_class(mode: Mode, schema: &Schema) -> usize
    requires { IsSchema schema.now }
    ensures { IsFirstClass mode schema.now result }
{
    first_class_in(mode, schema).unwrap()
}

// The table at the place.
fn table_at(tables: &[Table], place: usize) -> &Table
    requires { place < length tables.now }
    ensures { result.now ≡ table_at tables.now place }
{
    &tables[place]
}

/// The IRI of the first class of the graph of the mode.
pub fn marker_class(
    alloc: Global,
    mode: Mode,
    base: &Base,
    schema: &Schema,
) -> Result<Iri, AllocError>
    requires { IsSchema schema.now }
    ensures { IfOk result (IsMarkerClass mode base.now schema.now) }
{
    let table = table_at(schema.tables(), first_class(mode, schema));
    table_iri(alloc, base, table.name.as_str())
}
