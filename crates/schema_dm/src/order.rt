ghost use Rattle.std.specs.Prelude.{◌≡◌, ◌↔◌, IsTrue, All, map};
ghost use Rattle.members_dm.specs.Membership.{IsRising};
ghost use Rattle.schema_dm.specs.Shapes.{IsBefore, IsShape, IsShapeColumn, IsShapeTable};

use crate::causes::is_bad_name;
use crate::keyed::KeyedBy;
use crate::verdict::{MOST_COLUMNS, MOST_TABLES};
use crate::{Column, ShapeTable};
use std::cmp::Ordering;
use value_dm::Text;

#[tactic(auto, unfolding(crate::specs::Shapes::IsBefore))]
fn is_before(name: &Text, other: &Text) -> bool
    ensures { IsTrue result ↔ IsBefore name.now other.now }
{
    match name.as_str().cmp(other.as_str()) {
        Ordering::Less => true,
        _ => false,
    }
}

fn rises<T: KeyedBy<Text>>(items: &[T]) -> bool
    ensures { IsTrue result ↔ IsRising IsBefore (map T.key_of items.now) }
{
    for i in 1..items.len() {
        if !is_before(items[i - 1].key(), items[i].key()) {
            return false;
        }
    }
    true
}

fn is_shape_column(column: &Column) -> bool
    ensures { IsTrue result ↔ IsShapeColumn column.now }
{
    !is_bad_name(&column.name) && !column.not_null
}

fn are_shape_columns(columns: &[Column]) -> bool
    ensures { IsTrue result ↔ All IsShapeColumn columns.now }
{
    columns.iter().all(|column| is_shape_column(column))
}

fn is_shape_table(table: &ShapeTable) -> bool
    ensures { IsTrue result ↔ IsShapeTable table.now }
{
    let columns = table.columns.as_slice();
    if is_bad_name(&table.name) || columns.is_empty() || columns.len() > MOST_COLUMNS {
        return false;
    }
    rises(columns) && are_shape_columns(columns)
}

fn are_shape_tables(tables: &[ShapeTable]) -> bool
    ensures { IsTrue result ↔ All IsShapeTable tables.now }
{
    tables.iter().all(|table| is_shape_table(table))
}

/// Whether the tables are a shape.
pub fn are_shape(tables: &[ShapeTable]) -> bool
    ensures { IsTrue result ↔ IsShape tables.now }
{
    if tables.is_empty() || tables.len() > MOST_TABLES {
        return false;
    }
    rises(tables) && are_shape_tables(tables)
}
