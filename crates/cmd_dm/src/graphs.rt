ghost use Rattle.std.specs.Prelude.{◌≡◌};
ghost use Rattle.keys_dm.specs.TableIndexes.{AreIndexesOf};
ghost use Rattle.graphs_dm.specs.Graphs.{IsDefined, PutsGraph};
ghost use Rattle.cmd_dm.specs.Ending.{Ends, put_status, result_status, to_output};
ghost use Rattle.cmd_dm.specs.GraphScript.{graph_script};

use crate::status::Status;
use crate::steps::{check_kept, read_base, read_database};
use graphs_dm::{GraphName, write_direct_by, write_map_by, write_map_keys_by};
use keys_dm::KeyIndexes;
use names_dm::Base;
use outside_dm::{PutError, Shelf, Sink};
use std::alloc::Global;
use table_csv::Database;
use value_dm::{NullMode, Text};

/// The result of a command that ended with these puts.
pub(crate) fn end_of_puts(outcome: Result<(), PutError>) -> Result<(), Status>
    ensures { result_status result ≡ put_status outcome }
{
    match outcome {
        Ok(()) => Ok(()),
        Err(PutError::Failed) => Err(Status::WriteFault),
        Err(PutError::Memory) => Err(Status::Memory),
    }
}

/// Puts the text of the graph of this name.
fn put_graph<K: Sink>(
    alloc: Global,
    name: GraphName,
    base: &Base,
    database: &Database,
    indexes: &KeyIndexes,
    out: &mut K,
) -> Result<(), PutError>
    requires indexes { AreIndexesOf database.now indexes.now }
    requires defined { IsDefined name database.now }
    ensures { PutsGraph name base.now database.now (K.state out.old) (K.state out.new) result }
{
    match name {
        GraphName::Direct => write_direct_by(alloc, base, database, indexes, out),
        GraphName::Map => write_map_by(alloc, base, database, indexes, out),
        GraphName::MapKeys => write_map_keys_by(alloc, base, database, indexes, out),
    }
}

/// `direct`, `map` or `map-keys BASE FOLDER`: writes the graph of this name of the folder's database.
pub(crate) fn run_graph<S: Shelf, K: Sink>(
    alloc: Global,
    name: GraphName,
    base: &Text,
    folder: &Text,
    nulls: NullMode,
    shelf: &mut S,
    out: &mut K,
) -> Result<(), Status>
    ensures { Ends to_output (graph_script name base.now folder.now nulls) (S.state shelf.old) (S.state shelf.new) (K.state out.old) (K.state out.new) (result_status result) }
{
    let base = read_base(alloc, base)?;
    let database = read_database(alloc, folder, nulls, shelf)?;
    let indexes = KeyIndexes::new(alloc, &database)?;
    check_kept(alloc, name, &database, &indexes)?;
    end_of_puts(put_graph(alloc, name, &base, &database, &indexes, out))
}
