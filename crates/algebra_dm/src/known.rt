ghost use Rattle.std.specs.Prelude.{◌≡◌, map};
ghost use Rattle.members_dm.specs.Membership.{NoRepeats};
ghost use Rattle.algebra_dm.specs.Checking.{IsAnswer};

use crate::error::QueryError;
use crate::operators::{
    compared, joined, null, null_in, projected, subtracted, table, united, with_new_name,
};
use crate::query::{Mode, Query};
use schema_dm::{Index, Table};
use std::alloc::Global;
use value_dm::{Names, Text};

/// The attributes of a query, and those that are certain, both in the order of their bytes.
#[derive(Drop)]
pub struct Known {
    pub attributes: Names,
    pub certain: Names,
}

/// What is known of a query, or its first fault. The index is that of the tables' names.
pub fn examine(
    alloc: Global,
    mode: Mode,
    tables: &[Table],
    names: &Index<Text>,
    query: &Query,
) -> Result<Known, QueryError>
    requires named { names.now ≡ map (λ table. table.name) tables.now }
    requires once { NoRepeats (map (λ table. table.name) tables.now) }
    ensures { IsAnswer mode tables.now query.now result }
{
    match query {
        Query::Table(name) => table(alloc, mode, tables, names, name),
        Query::Null(name) => null(alloc, name),
        Query::Eq(part, name, _) => {
            let part = examine(alloc, mode, tables, names, part.get())?;
            compared(alloc, part, name)
        }
        Query::Ne(part, name, _) => {
            let part = examine(alloc, mode, tables, names, part.get())?;
            compared(alloc, part, name)
        }
        Query::IsNull(part, name) => {
            let part = examine(alloc, mode, tables, names, part.get())?;
            null_in(part, name)
        }
        Query::NotNull(part, name) => {
            let part = examine(alloc, mode, tables, names, part.get())?;
            compared(alloc, part, name)
        }
        Query::Project(part, columns) => {
            let part = examine(alloc, mode, tables, names, part.get())?;
            projected(alloc, part, columns)
        }
        Query::Rename(part, from, to) => {
            let part = examine(alloc, mode, tables, names, part.get())?;
            with_new_name(alloc, part, from, to)
        }
        Query::Join(left, right) => {
            let left = examine(alloc, mode, tables, names, left.get())?;
            let right = examine(alloc, mode, tables, names, right.get())?;
            joined(alloc, left, right)
        }
        Query::Union(left, right) => {
            let left = examine(alloc, mode, tables, names, left.get())?;
            let right = examine(alloc, mode, tables, names, right.get())?;
            united(alloc, left, right)
        }
        Query::Diff(left, right) => {
            let left = examine(alloc, mode, tables, names, left.get())?;
            let right = examine(alloc, mode, tables, names, right.get())?;
            subtracted(left, right)
        }
    }
}
