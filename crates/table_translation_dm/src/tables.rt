// The patterns of tables.
ghost use Rattle.std.specs.Prelude.{◌≡◌, ◌<◌, [], IfNone, IfOk, IfSome, length};
ghost use Rattle.members_dm.specs.Membership.{IsIn};
ghost use Rattle.schema_dm.specs.Schemas.{IsSchema, table_at};
ghost use Rattle.graphs_dm.specs.Relations.{CountsAsClass, CountsAsRelation};
ghost use Rattle.table_patterns_dm.specs.TablePatterns as spec;
ghost use Rattle.table_patterns_dm.specs.TablePatterns.{AreAttributesOf, IsTablePattern, graph_of};

use crate::columns::{Parted, parted_columns};
use crate::relations::{relation_pattern, table_at};
use crate::triples::{type_triple, with_columns, with_optional};
use algebra_dm::{Mode, column_names, rising};
use names_dm::Base;
use pattern_dm::Pattern;
use pattern_parts_dm::projected;
use schema_dm::{Binary, Schema, Table};
use sqlite_items::Boxed;
use std::alloc::{AllocError, Global};
use value_dm::{Names, Text};

/// The sides of the relation that the table at the place, counted from 0, is in the graph of the mode; None where the
/// table is a class there. Takes no memory.
pub fn sides_in(mode: Mode, schema: &Schema, place: usize) -> Option<Binary>
    requires schema { IsSchema schema.now }
    requires place { place < length schema.now }
    ensures found { IfSome result (CountsAsRelation (graph_of mode) schema.now place) }
    ensures none { IfNone result (CountsAsClass (graph_of mode) schema.now place) }
{
    match mode {
        Mode::Map => schema.is_binary(place as u32),
        Mode::MapKeys => None,
    }
}

// The table at the place.
fn table_of(schema: &Schema, place: usize) -> &Table
    requires { place < length schema.now }
    ensures { result.now ≡ table_at schema.now place }
{
    table_at(schema.tables(), place)
}

// The names of the table's columns, in the order of their bytes.
fn attributes_of(alloc: Global, table: &Table) -> Result<Names, AllocError>
    ensures { IfOk result (AreAttributesOf table.now) }
{
    let names = column_names(alloc, table.columns.as_slice())?;
    Ok(rising(names))
}

// The pattern of a class of this name with these columns.
fn class_pattern(
    alloc: Global,
    base: &Base,
    table: &Text,
    columns: &Parted,
    attributes: &[Text],
) -> Result<Boxed<Pattern>, AllocError>
    requires certain { ¬ IsIn [] columns.now.certain }
    requires others { ¬ IsIn [] columns.now.others }
    requires attributes { ¬ IsIn [] attributes.now }
    ensures { IfOk result (λ made. made ≡ spec.class_pattern base.now table.now columns.now.certain columns.now.others attributes.now) }
{
    let row = type_triple(alloc, base, table)?;
    let certain = with_columns(alloc, base, table, row, columns.certain.as_slice())?;
    let all = with_optional(alloc, base, table, certain, columns.others.as_slice())?;
    projected(alloc, all, attributes)
}

// The pattern of the table at the place, which is a class.
fn pattern_of_class(
    alloc: Global,
    mode: Mode,
    base: &Base,
    schema: &Schema,
    place: usize,
    attributes: &[Text],
) -> Result<Boxed<Pattern>, AllocError>
    requires schema { IsSchema schema.now }
    requires place { place < length schema.now }
    requires class { CountsAsClass (graph_of mode) schema.now place }
    requires attributes { AreAttributesOf (table_at schema.now place) attributes.now }
    ensures { IfOk result (IsTablePattern mode base.now schema.now place) }
{
    let table = table_of(schema, place);
    let columns = parted_columns(alloc, mode, table)?;
    class_pattern(alloc, base, &table.name, &columns, attributes)
}

// The pattern of the table at the place, which has these attributes.
fn pattern_with(
    alloc: Global,
    mode: Mode,
    base: &Base,
    schema: &Schema,
    place: usize,
    attributes: &[Text],
) -> Result<Boxed<Pattern>, AllocError>
    requires schema { IsSchema schema.now }
    requires place { place < length schema.now }
    requires attributes { AreAttributesOf (table_at schema.now place) attributes.now }
    ensures { IfOk result (IsTablePattern mode base.now schema.now place) }
{
    match sides_in(mode, schema, place) {
        None => pattern_of_class(alloc, mode, base, schema, place, attributes),
        Some(sides) => relation_pattern(alloc, base, schema.tables(), place, sides, attributes),
    }
}

/// The pattern of the table at the place, counted from 0, over the graph of the mode (SPARQL 1.1 Query Language, section
/// 18.2). A class is the triple of its type, joined with a triple for each certain column and left-joined with one for each
/// other, and a relation is its one triple, joined with those of the two keys; each is projected to the table's columns.
/// Refused for want of memory alone.
pub fn table_pattern(
    alloc: Global,
    mode: Mode,
    base: &Base,
    schema: &Schema,
    place: usize,
) -> Result<Boxed<Pattern>, AllocError>
    requires schema { IsSchema schema.now }
    requires place { place < length schema.now }
    ensures { IfOk result (IsTablePattern mode base.now schema.now place) }
{
    let table = table_of(schema, place);
    let attributes = attributes_of(alloc, table)?;
    pattern_with(alloc, mode, base, schema, place, attributes.as_slice())
}
