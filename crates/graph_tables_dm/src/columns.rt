// The columns of a class.
ghost use Rattle.std.specs.Prelude.{◌≡◌, IfOk, OnOk, map};
ghost use Rattle.std.specs.Option.{option_copied};
ghost use Rattle.roles_dm.specs.Roles.{role_at};
ghost use Rattle.graph_tables_dm.specs.Columns as spec;
ghost use Rattle.graph_tables_dm.specs.Columns.{IsColumnOf, column_at};
ghost use Rattle.graph_tables_dm.specs.Listed.{AreInOrder};

use crate::cells::kind_at;
use crate::listed::{NumberedName, in_order, role_numbered};
use crate::lookups::subjects;
use roles_dm::{ColumnRole, Role, Words};
use schema_dm::{Column, Columns};
use std::alloc::{AllocError, Global};
use store_dm::Graph;
use value_dm::TryCopy;

// The column that a role is, if its class has this number.
fn column_in(role: &Role, class: u32) -> Option<&ColumnRole>
    ensures { option_copied result ≡ spec.column_in class role.now }
{
    match role {
        Role::Column(column) => {
            if column.class == class {
                Some(column)
            } else {
                None
            }
        }
        Role::Class(_) => None,
        Role::Link(_) => None,
        Role::Nothing => None,
    }
}

// Adds the number with the name of its column, if it is one of the class.
fn add_column(
    alloc: Global,
    names: &mut Vec<NumberedName>,
    roles: &[Role],
    class: u32,
    number: u32,
) -> Result<(), AllocError>
    ensures { OnOk result (spec.AddsColumn roles.now class number names.old.items names.new.items) }
{
    if let Some(role) = role_numbered(roles, number) {
        if let Some(column) = column_in(role, class) {
            let name = column.name.column.copy(alloc)?;
            names.push(NumberedName { name, number })?;
        }
    }
    Ok(())
}

/// The columns of the class of the number, in the order of their names' bytes. Refused for want of memory alone.
pub fn columns_of(
    alloc: Global,
    graph: &Graph,
    words: &Words,
    roles: &[Role],
    class: u32,
) -> Result<Vec<NumberedName>, AllocError>
    ensures { IfOk result (λ names. AreInOrder (IsColumnOf graph.now words.now roles.now class) names.items) }
{
    let found = subjects(alloc, graph, words.domain, class)?;
    let mut names = Vec::new(alloc);
    for number in found.as_slice() {
        add_column(alloc, &mut names, roles, class, *number)?;
    }
    Ok(in_order(names))
}

/// The columns as a shape has them.
pub fn shape_columns(
    alloc: Global,
    roles: &[Role],
    names: &[NumberedName],
) -> Result<Columns, AllocError>
    ensures { IfOk result (λ columns. columns ≡ map (column_at roles.now) names.now) }
{
    let mut columns = Columns::new(alloc);
    for name in names {
        columns.push(Column {
            name: name.name.copy(alloc)?,
            kind: kind_at(roles, name.number),
            not_null: false,
        })?;
    }
    Ok(columns)
}
