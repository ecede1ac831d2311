// The patterns of binary relations.
ghost use Rattle.std.specs.Prelude.{◌≡◌, ◌≢◌, ◌<◌, [], IfOk, length};
ghost use Rattle.members_dm.specs.Membership.{IsIn};
ghost use Rattle.names_dm.specs.Names.{rel_iri};
ghost use Rattle.schema_dm.specs.Naming as naming;
ghost use Rattle.schema_dm.specs.Relations.{IsBinaryRelation};
ghost use Rattle.schema_dm.specs.Schemas.{IsSchema, table_at};
ghost use Rattle.graphs_dm.specs.Relations as relations;
ghost use Rattle.pattern_dm.specs.declared.pattern.Operand.TheVariants as operands;
ghost use Rattle.pattern_dm.specs.declared.pattern.Pattern.TheVariants as patterns;
ghost use Rattle.table_patterns_dm.specs.TablePatterns as spec;

use crate::triples::value_triple;
use names_dm::{Base, RelName, Var, rel_iri};
use pattern_dm::{Operand, Pattern};
use pattern_parts_dm::{both, projected, row_variable, second_variable, triple};
use schema_dm::{Binary, Column, ForeignKey, Table};
use sqlite_items::Boxed;
use std::alloc::{AllocError, Global};
use value_dm::{Text, TryCopy};

/// The table at the place.
pub fn table_at(tables: &[Table], place: usize) -> &Table
    requires { place < length tables.now }
    ensures { result.now ≡ table_at tables.now place }
{
    &tables[place]
}

// The name of the column at the place, or the empty text where there is none.
fn name_at(alloc: Global, columns: &[Column], place: usize) -> Result<Text, AllocError>
    ensures { IfOk result (λ name. name ≡ naming.name_at columns.now place) }
{
    let Some(column) = columns.get(place) else {
        return Ok(Text::from_str(alloc, "")?);
    };
    column.name.copy(alloc)
}

// The foreign key of this number.
fn key_at(tables: &[Table], place: usize, number: u32) -> &ForeignKey
    requires schema { IsSchema tables.now }
    requires place { place < length tables.now }
    requires number { number < length (table_at tables.now place).foreign }
    ensures value { result.now ≡ relations.key_at tables.now place number }
    ensures target { result.now.target < length tables.now }
{
    &table_at(tables, place).foreign.as_slice()[number as usize]
}

// The name of the column that a key on one column references.
fn target_name(alloc: Global, tables: &[Table], key: &ForeignKey) -> Result<Text, AllocError>
    requires { key.now.target < length tables.now }
    ensures { IfOk result (λ name. name ≡ relations.target_name tables.now key.now) }
{
    let place = match key.target_columns.as_slice().first() {
        None => 0,
        Some(place) => *place,
    };
    let target = table_at(tables, key.target as usize);
    name_at(alloc, target.columns.as_slice(), place as usize)
}

// The name of the relation that the table is.
fn relation_name(
    alloc: Global,
    tables: &[Table],
    place: usize,
    sides: Binary,
) -> Result<RelName, AllocError>
    requires schema { IsSchema tables.now }
    requires place { place < length tables.now }
    requires left { sides.left < length (table_at tables.now place).foreign }
    requires right { sides.right < length (table_at tables.now place).foreign }
    ensures { IfOk result (λ name. name ≡ relations.relation_name tables.now place sides) }
{
    let table = table_at(tables, place);
    let columns = table.columns.as_slice();
    Ok(RelName {
        table: table.name.copy(alloc)?,
        left: name_at(alloc, columns, 0)?,
        left_target: target_name(alloc, tables, key_at(tables, place, sides.left))?,
        right: name_at(alloc, columns, 1)?,
        right_target: target_name(alloc, tables, key_at(tables, place, sides.right))?,
    })
}

// The relation leads from the row's node to another.
fn relation_triple(alloc: Global, base: &Base, name: &RelName) -> Result<Boxed<Pattern>, AllocError>
    ensures { IfOk result (λ made. made ≡ patterns.Triple (operands.Var spec.row_variable) (operands.Iri (rel_iri base.now name.now)) (operands.Var spec.second_variable)) }
{
    let subject = row_variable(alloc)?;
    let predicate = rel_iri(alloc, base, name)?;
    let object = second_variable(alloc)?;
    triple(
        alloc,
        Operand::Var(subject),
        Operand::Iri(predicate),
        Operand::Var(object),
    )
}

// The node has, in the column that the key references, the value of the attribute.
fn key_triple(
    alloc: Global,
    base: &Base,
    node: Var,
    tables: &[Table],
    key: &ForeignKey,
    attribute: &Text,
) -> Result<Boxed<Pattern>, AllocError>
    requires target { key.now.target < length tables.now }
    requires named { attribute.now ≢ [] }
    ensures { IfOk result (λ made. made ≡ spec.key_triple base.now node tables.now key.now attribute.now) }
{
    let column = target_name(alloc, tables, key)?;
    let target = table_at(tables, key.target as usize);
    value_triple(alloc, base, node, &target.name, &column, attribute)
}

// And the row's node has the value of the attribute.
fn with_left(
    alloc: Global,
    base: &Base,
    tables: &[Table],
    key: &ForeignKey,
    attribute: &Text,
    link: Boxed<Pattern>,
) -> Result<Boxed<Pattern>, AllocError>
    requires target { key.now.target < length tables.now }
    requires named { attribute.now ≢ [] }
    ensures { IfOk result (λ made. made ≡ patterns.And link (spec.key_triple base.now spec.row_variable tables.now key.now attribute.now)) }
{
    let row = row_variable(alloc)?;
    let left = key_triple(alloc, base, row, tables, key, attribute)?;
    both(alloc, link, left)
}

// And the node that the relation leads to has the value of the attribute.
fn with_right(
    alloc: Global,
    base: &Base,
    tables: &[Table],
    key: &ForeignKey,
    attribute: &Text,
    pair: Boxed<Pattern>,
) -> Result<Boxed<Pattern>, AllocError>
    requires target { key.now.target < length tables.now }
    requires named { attribute.now ≢ [] }
    ensures { IfOk result (λ made. made ≡ patterns.And pair (spec.key_triple base.now spec.second_variable tables.now key.now attribute.now)) }
{
    let second = second_variable(alloc)?;
    let right = key_triple(alloc, base, second, tables, key, attribute)?;
    both(alloc, pair, right)
}

/// The pattern of the binary relation that the table at the place is. Refused for want of memory alone.
pub fn relation_pattern(
    alloc: Global,
    base: &Base,
    tables: &[Table],
    place: usize,
    sides: Binary,
    attributes: &[Text],
) -> Result<Boxed<Pattern>, AllocError>
    requires schema { IsSchema tables.now }
    requires place { place < length tables.now }
    requires relation { IsBinaryRelation tables.now place sides }
    requires named { ¬ IsIn [] attributes.now }
    ensures { IfOk result (λ made. made ≡ spec.relation_pattern base.now tables.now place sides attributes.now) }
{
    let name = relation_name(alloc, tables, place, sides)?;
    let link = relation_triple(alloc, base, &name)?;
    let left = key_at(tables, place, sides.left);
    let pair = with_left(alloc, base, tables, left, &name.left, link)?;
    let right = key_at(tables, place, sides.right);
    let all = with_right(alloc, base, tables, right, &name.right, pair)?;
    projected(alloc, all, attributes)
}
