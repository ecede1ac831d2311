ghost use Rattle.std.specs.Prelude.{◌≡◌, IfOk, string_bytes};
ghost use Rattle.cmd_dm.specs.Ending.{Step};
ghost use Rattle.cmd_dm.specs.Folder.{schema_file, table_file};
ghost use Rattle.cmd_dm.specs.Script.{load};
ghost use Rattle.cmd_dm.specs.declared.status.File.TheVariants.{More, Schema, Table};

use crate::status::{File, Status};
use crate::steps::load_file;
use names_dm::safe;
use outside_dm::Shelf;
use std::alloc::{AllocError, Global};
use value_dm::{Bytes, Text};

/// The name of a folder's schema file.
pub(crate) fn schema_file(alloc: Global, folder: &Text) -> Result<String, AllocError>
    ensures { IfOk result (λ name. string_bytes name ≡ schema_file folder.now) }
{
    let mut name = String::from_str(alloc, folder.as_str())?;
    name.push_str("/schema.sql")?;
    Ok(name)
}

/// The name of a table's file in a folder.
pub(crate) fn table_file(alloc: Global, folder: &Text, table: &Text) -> Result<String, AllocError>
    ensures { IfOk result (λ name. string_bytes name ≡ table_file folder.now table.now) }
{
    let safe_name = safe(alloc, table.as_str())?;
    let mut name = String::from_str(alloc, folder.as_str())?;
    name.push_str("/")?;
    name.push_str(safe_name.as_str())?;
    name.push_str(".csv")?;
    Ok(name)
}

/// Loads a folder's schema file as the next step.
pub(crate) fn load_schema<S: Shelf>(
    alloc: Global,
    folder: &Text,
    shelf: &mut S,
) -> Result<Bytes, Status>
    ensures { Step (load Schema (schema_file folder.now)) (S.state shelf.old) (S.state shelf.new) result }
{
    let name = schema_file(alloc, folder)?;
    load_file(alloc, File::Schema, name.as_str(), shelf)
}

/// Loads the file of the table with this number, counted from 1, as the next step.
pub(crate) fn load_table<S: Shelf>(
    alloc: Global,
    folder: &Text,
    number: u64,
    table: &Text,
    shelf: &mut S,
) -> Result<Bytes, Status>
    ensures { Step (load (Table number) (table_file folder.now table.now)) (S.state shelf.old) (S.state shelf.new) result }
{
    let name = table_file(alloc, folder, table)?;
    load_file(alloc, File::Table(number), name.as_str(), shelf)
}

/// Loads the file with further rows of the table with this number, counted from 1, as the next step.
pub(crate) fn load_more<S: Shelf>(
    alloc: Global,
    folder: &Text,
    number: u64,
    table: &Text,
    shelf: &mut S,
) -> Result<Bytes, Status>
    ensures { Step (load (More number) (table_file folder.now table.now)) (S.state shelf.old) (S.state shelf.new) result }
{
    let name = table_file(alloc, folder, table)?;
    load_file(alloc, File::More(number), name.as_str(), shelf)
}
