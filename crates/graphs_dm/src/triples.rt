ghost use Rattle.std.specs.Prelude.{◌≡◌, IfOk, map};
ghost use Rattle.schema_dm.specs.Naming.{name_at};

use crate::nodes::name_at;
use schema_dm::{ForeignKey, Table};
use std::alloc::{AllocError, Global};
use value_dm::Names;

/// The names of a foreign key's columns.
pub fn key_names(alloc: Global, table: &Table, key: &ForeignKey) -> Result<Names, AllocError>
    ensures { IfOk result (λ names. names ≡ map (name_at table.now.columns) key.now.columns) }
{
    let mut names = Names::new(alloc);
    for place in key.columns.as_slice() {
        names.push(name_at(alloc, table.columns.as_slice(), *place as usize)?)?;
    }
    Ok(names)
}
