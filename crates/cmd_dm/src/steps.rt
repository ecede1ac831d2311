ghost use Rattle.std.specs.Prelude.{◌≡◌, ◌<◌, ◌≤◌, ◌^◌, ◌+◌, IfOk, length};
ghost use Rattle.std.specs.List.{AllZip};
ghost use Rattle.members_dm.specs.Membership.{NoRepeats};
ghost use Rattle.schema_dm.specs.Naming.{column_names};
ghost use Rattle.schema_dm.specs.Schemas.{IsSchema};
ghost use Rattle.table_csv.specs.Cells.{AreRowsOf};
ghost use Rattle.keys_dm.specs.TableIndexes.{AreIndexesOf};
ghost use Rattle.keys_dm.specs.Violations.{KeepsKeys};
ghost use Rattle.graphs_dm.specs.Graphs.{IsDefined};
ghost use Rattle.cmd_dm.specs.Ending.{Step, PureStep};
ghost use Rattle.cmd_dm.specs.Script.{load};
ghost use Rattle.cmd_dm.specs.Steps.{base_step, database_step, declared_step, folder_step, graph_step, kept_step, keys_step, rows_step, schema_step, tables_step, triples_step};

use crate::folder::{load_schema, load_table};
use crate::reasons::{ddl_status, graph_status, key_status, table_status};
use crate::status::{File, Reason, Status};
use ddl_dm::read_ddl;
use graphs_dm::GraphName;
use keys_dm::{KeyIndexes, violations_by};
use names_dm::{Base, Triples};
use ntriples_reader_dm::read_graph;
use outside_dm::{LoadError, Shelf};
use schema_dm::{Schema, Table};
use std::alloc::Global;
use table_csv::{Database, Rows, RowsList, read_table};
use value_dm::{Bytes, NullMode, Text, TryCopy};

/// The code of a base that can't stand before names.
const BAD_BASE: u8 = 26;

/// Loads a file by its name as the next step.
pub(crate) fn load_file<S: Shelf>(
    alloc: Global,
    file: File,
    name: &str,
    shelf: &mut S,
) -> Result<Bytes, Status>
    ensures { Step (load file name.now) (S.state shelf.old) (S.state shelf.new) result }
{
    let mut bytes = Vec::new(alloc);
    match shelf.load(name, &mut bytes) {
        Ok(()) => Ok(Bytes::from_vec(bytes)),
        Err(LoadError::Absent) => Err(Status::Absent(file)),
        Err(LoadError::Failed) => Err(Status::ReadFault(file)),
        Err(LoadError::TooLong) => Err(Status::TooLong(file)),
        Err(LoadError::Memory) => Err(Status::Memory),
    }
}

/// Reads the base as the next step.
#[tactic(auto, unfolding(crate::specs::Steps::base_step))]
pub(crate) fn read_base(alloc: Global, word: &Text) -> Result<Base, Status>
    ensures { PureStep (base_step word.now) result }
{
    match Base::new(word.copy(alloc)?) {
        Ok(base) => Ok(base),
        Err(_) => Err(Status::Refused(Reason::of_code(BAD_BASE))),
    }
}

/// Reads the schema as the next step.
#[tactic(auto, unfolding(crate::specs::Steps::schema_step))]
fn read_schema(alloc: Global, bytes: &Bytes) -> Result<Schema, Status>
    ensures { PureStep (schema_step bytes.now) result }
{
    match read_ddl(alloc, bytes.as_slice()) {
        Ok(schema) => Ok(schema),
        Err(error) => Err(ddl_status(error)),
    }
}

/// Loads and reads a folder's schema as the next steps.
#[tactic(auto, unfolding(crate::specs::Steps::declared_step))]
pub(crate) fn read_declared<S: Shelf>(
    alloc: Global,
    folder: &Text,
    shelf: &mut S,
) -> Result<Schema, Status>
    ensures { Step (declared_step folder.now) (S.state shelf.old) (S.state shelf.new) result }
{
    let bytes = load_schema(alloc, folder, shelf)?;
    read_schema(alloc, &bytes)
}

/// Reads the rows of the table with this number, counted from 1, as the next step.
#[tactic(auto, unfolding(crate::specs::Steps::rows_step))]
pub(crate) fn read_rows(
    alloc: Global,
    table: &Table,
    nulls: NullMode,
    number: u64,
    bytes: &Bytes,
) -> Result<Rows, Status>
    requires { NoRepeats (column_names table.now.columns) }
    ensures step { PureStep (rows_step table.now.columns nulls number bytes.now) result }
    ensures fit { IfOk result (λ rows. AreRowsOf table.now.columns rows) }
{
    match read_table(alloc, table, bytes.as_slice(), nulls) {
        Ok(rows) => Ok(rows),
        Err(error) => Err(table_status(number, error)),
    }
}

/// Loads and reads the rows of all tables as the next steps.
fn read_tables<S: Shelf>(
    alloc: Global,
    folder: &Text,
    nulls: NullMode,
    tables: &[Table],
    shelf: &mut S,
) -> Result<RowsList, Status>
    requires { IsSchema tables.now }
    ensures step { Step (tables_step folder.now nulls 0 tables.now) (S.state shelf.old) (S.state shelf.new) result }
    ensures fit { IfOk result (λ rows. AllZip (λ table rows. AreRowsOf table.columns rows) tables.now rows) }
{
    let mut list = RowsList::new(alloc);
    for (place, table) in tables.iter().enumerate() {
        let number = place as u64 + 1;
        let bytes = load_table(alloc, folder, number, &table.name, shelf)?;
        list.push(read_rows(alloc, table, nulls, number, &bytes)?)?;
    }
    Ok(list)
}

/// A folder that was loaded.
#[derive(Drop)]
pub(crate) struct LoadedFolder {
    /// The bytes of its schema file.
    pub(crate) schema: Bytes,

    /// Its database.
    pub(crate) database: Database,
}

/// Loads and reads a folder as the next steps.
#[tactic(auto, unfolding(crate::specs::Steps::folder_step))]
pub(crate) fn read_folder<S: Shelf>(
    alloc: Global,
    folder: &Text,
    nulls: NullMode,
    shelf: &mut S,
) -> Result<LoadedFolder, Status>
    ensures { Step (folder_step folder.now nulls) (S.state shelf.old) (S.state shelf.new) result }
{
    let bytes = load_schema(alloc, folder, shelf)?;
    let schema = read_schema(alloc, &bytes)?;
    let rows = read_tables(alloc, folder, nulls, schema.tables(), shelf)?;
    match Database::new(schema, rows) {
        Some(database) => Ok(LoadedFolder {
            schema: bytes,
            database,
        }),
        None => unreachable!(),
    }
}

/// Loads and reads a folder's database as the next steps.
#[tactic(auto, unfolding(crate::specs::Steps::database_step))]
pub(crate) fn read_database<S: Shelf>(
    alloc: Global,
    folder: &Text,
    nulls: NullMode,
    shelf: &mut S,
) -> Result<Database, Status>
    ensures { Step (database_step folder.now nulls) (S.state shelf.old) (S.state shelf.new) result }
{
    let LoadedFolder {
        schema: _schema,
        database,
    } = read_folder(alloc, folder, nulls, shelf)?;
    Ok(database)
}

/// Reads the triples of a document as the next step.
#[tactic(auto, unfolding(crate::specs::Steps::triples_step))]
fn read_triples(alloc: Global, bytes: &Bytes) -> Result<Triples, Status>
    ensures step { PureStep (triples_step bytes.now) result }
    ensures few { IfOk result (λ triples. length triples ≤ 16777216) }
{
    match read_graph(alloc, bytes.as_slice()) {
        Ok(triples) => Ok(triples),
        Err(error) => Err(graph_status(error)),
    }
}

/// Loads and reads the triples of the file of this name as the next step.
#[tactic(auto, unfolding(crate::specs::Steps::graph_step))]
pub(crate) fn load_graph<S: Shelf>(
    alloc: Global,
    name: &Text,
    shelf: &mut S,
) -> Result<Triples, Status>
    ensures step { Step (graph_step name.now) (S.state shelf.old) (S.state shelf.new) result }
    ensures few { IfOk result (λ triples. length triples ≤ 16777216) }
{
    let bytes = load_file(alloc, File::Graph, name.as_str(), shelf)?;
    read_triples(alloc, &bytes)
}

/// Looks at the database's keys as the next step.
#[tactic(auto, unfolding(crate::specs::Steps::keys_step))]
pub(crate) fn check_keys(
    alloc: Global,
    database: &Database,
    indexes: &KeyIndexes,
) -> Result<(), Status>
    requires { AreIndexesOf database.now indexes.now }
    ensures step { PureStep (keys_step database.now) result }
    ensures kept { IfOk result (λ _. KeepsKeys database.now) }
{
    let found = violations_by(alloc, database, indexes)?;
    match found.as_slice() {
        [] => Ok(()),
        [first, ..] => Err(key_status(first)),
    }
}

/// Looks at the database's keys as the next step, where the graph of this name is refused for a violated one.
#[tactic(auto, unfolding(crate::specs::Steps::kept_step))]
pub(crate) fn check_kept(
    alloc: Global,
    name: GraphName,
    database: &Database,
    indexes: &KeyIndexes,
) -> Result<(), Status>
    requires { AreIndexesOf database.now indexes.now }
    ensures step { PureStep (kept_step name database.now) result }
    ensures defined { IfOk result (λ _. IsDefined name database.now) }
{
    match name {
        GraphName::Direct => check_keys(alloc, database, indexes),
        GraphName::Map => check_keys(alloc, database, indexes),
        GraphName::MapKeys => Ok(()),
    }
}
