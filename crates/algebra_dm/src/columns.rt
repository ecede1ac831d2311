// The names of a table's columns, and of those that are never NULL.
ghost use Rattle.std.specs.Prelude.{◌≡◌, ◌⊎◌, ◌↔◌, ◌≤◌, ℕ, List, IfOk, IfNone, IfSome, OnOk, Some, length, map, slice_get};
ghost use Rattle.members_dm.specs.Membership.{IsIn};
ghost use Rattle.schema_dm.specs.Naming.{column_names};
ghost use Rattle.algebra_dm.specs.Attributes.{HasTable, IsNamed};
ghost use Rattle.algebra_dm.specs.Certain.{IsCertainColumn, IsNotNull, IsOfPrimaryKey};
ghost use Rattle.algebra_dm.specs.Checking.{IsKeyName, IsNotNullName};

use crate::query::Mode;
use schema_dm::{Column, Index, Table};
use std::alloc::{AllocError, Global};
use value_dm::{Text, TryCopy};

fn table_at(tables: &[Table], place: usize) -> Option<&Table>
    ensures none { IfNone result (length tables.now ≤ place) }
    ensures found { IfSome result (λ table. slice_get tables.now place ≡ Some table.now) }
{
    if place >= tables.len() {
        return None;
    }
    Some(&tables[place])
}

/// The table of the name.
pub fn table_named<'a>(tables: &'a [Table], names: &Index<Text>, name: &Text) -> Option<&'a Table>
    requires { names.now ≡ map (λ table. table.name) tables.now }
    ensures none { IfNone result (¬ HasTable tables.now name.now) }
    ensures found { IfSome result (λ table. IsNamed tables.now name.now table.now) }
{
    match names.place(name) {
        None => None,
        Some(place) => table_at(tables, place),
    }
}

/// The names of the tables. Refused for want of memory alone.
pub fn table_names(alloc: Global, tables: &[Table]) -> Result<Vec<Text>, AllocError>
    ensures { IfOk result (λ names. names.items ≡ map (λ table. table.name) tables.now) }
{
    let mut names = Vec::new(alloc);
    for table in tables {
        names.push(table.name.copy(alloc)?)?;
    }
    Ok(names)
}

/// The names of the columns. Refused for want of memory alone.
pub fn column_names(alloc: Global, columns: &[Column]) -> Result<Vec<Text>, AllocError>
    ensures { IfOk result (λ names. names.items ≡ column_names columns.now) }
{
    let mut names = Vec::new(alloc);
    for column in columns {
        names.push(column.name.copy(alloc)?)?;
    }
    Ok(names)
}

// The names of the columns with an explicit NOT NULL.
fn not_null_names(alloc: Global, columns: &[Column]) -> Result<Vec<Text>, AllocError>
    ensures { IfOk result (λ names. (a : List ℕ) → IsIn a names.items ↔ IsNotNullName columns.now a) }
{
    let mut names = Vec::new(alloc);
    for column in columns {
        if column.not_null {
            names.push(column.name.copy(alloc)?)?;
        }
    }
    Ok(names)
}

// Puts in the name of the column at the place, where there is one.
fn push_name_at(
    alloc: Global,
    columns: &[Column],
    place: usize,
    names: &mut Vec<Text>,
) -> Result<(), AllocError>
    ensures { OnOk result ((a : List ℕ) → IsIn a names.new.items ↔ (IsIn a names.old.items ⊎ (slice_get (column_names columns.now) place ≡ Some a))) }
{
    if place < columns.len() {
        names.push(columns[place].name.copy(alloc)?)?;
    }
    Ok(())
}

// Puts in the names of the columns at the places.
fn push_names_at(
    alloc: Global,
    columns: &[Column],
    places: &[u32],
    names: &mut Vec<Text>,
) -> Result<(), AllocError>
    ensures { OnOk result ((a : List ℕ) → IsIn a names.new.items ↔ (IsIn a names.old.items ⊎ IsKeyName columns.now places.now a)) }
{
    for place in places {
        push_name_at(alloc, columns, *place as usize, names)?;
    }
    Ok(())
}

/// The names of the columns that are never NULL in a database that keeps the keys of the mode. Refused for want of memory
/// alone.
pub fn certain_names(alloc: Global, mode: Mode, table: &Table) -> Result<Vec<Text>, AllocError>
    ensures { IfOk result (λ names. (a : List ℕ) → IsIn a names.items ↔ IsCertainColumn mode table.now a) }
{
    let columns = table.columns.as_slice();
    let mut names = not_null_names(alloc, columns)?;
    match (mode, &table.primary) {
        (Mode::Map, Some(places)) => {
            push_names_at(alloc, columns, places.as_slice(), &mut names)?;
            Ok(names)
        }
        (Mode::Map, None) => Ok(names),
        (Mode::MapKeys, _) => Ok(names),
    }
}
