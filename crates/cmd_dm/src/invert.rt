ghost use Rattle.std.specs.Prelude.{◌≡◌, ◌≤◌, ◌⊎◌, IfErr, IfOk, IsTrue, length, map};
ghost use Rattle.names_dm.specs.Namespaces.{is_base};
ghost use Rattle.outside_dm.specs.Sinks.{SinkState};
ghost use Rattle.inverse_dm.specs.Answers.{Refuses, StandsWithin};
ghost use Rattle.inverse_dm.specs.declared.error.InverseError.{InverseError as Error};
ghost use Rattle.cmd_dm.specs.Ending.{Ends, result_status, to_shelf};
ghost use Rattle.cmd_dm.specs.Folder.{AreFolderFiles, entry_of};
ghost use Rattle.cmd_dm.specs.Invert.{invert_script};
ghost use Rattle.cmd_dm.specs.Reasons.{inverse_status};

use crate::reasons::inverse_status;
use crate::status::Status;
use crate::steps::{load_graph, read_base};
use crate::storing::{Files, folder_files, store_work};
use ddl_dm::shape_text;
use inverse_dm::{Tables, invert};
use names_dm::{Base, Triple};
use outside_dm::Shelf;
use std::alloc::{AllocError, Global};
use value_dm::{Bytes, Text};

/// The files of tables in a folder.
fn files_of(alloc: Global, folder: &Text, tables: &Tables) -> Result<Files, AllocError>
    ensures { IfOk result (λ files. AreFolderFiles folder.now tables.now (map entry_of files)) }
{
    let schema = shape_text(alloc, tables.shape())?;
    let bytes = Bytes::from_vec(Vec::from_slice(alloc, schema.as_bytes())?);
    folder_files(
        alloc,
        folder,
        bytes,
        tables.shape().as_slice(),
        tables.rows(),
    )
}

/// The tables that triples stand for, or how the run ends without them.
fn tables_of(alloc: Global, base: &Base, triples: &[Triple]) -> Result<Tables, Status>
    requires { length triples.now ≤ 16777216 }
    ensures ok { IfOk result (λ tables. StandsWithin base.now triples.now tables) }
    ensures err { IfErr result (λ status. (status ≡ Status.Memory) ⊎ ((error : Error) × Refuses base.now triples.now error × (status ≡ inverse_status error))) }
    ensures good { IsTrue (is_base base.now) }
{
    let _text = base.as_str();
    match invert(alloc, base, triples) {
        Ok(tables) => Ok(tables),
        Err(error) => Err(inverse_status(error)),
    }
}

/// `invert BASE GRAPH OUT`: stores the tables that the triples of the file stand for. All texts are made before the first file
/// is stored.
pub(crate) fn run_invert<S: Shelf>(
    alloc: Global,
    base: &Text,
    graph: &Text,
    stored: &Text,
    shelf: &mut S,
) -> Result<(), Status>
    ensures { (out : SinkState) → Ends to_shelf (invert_script base.now graph.now stored.now) (S.state shelf.old) (S.state shelf.new) out out (result_status result) }
{
    let base = read_base(alloc, base)?;
    let triples = load_graph(alloc, graph, shelf)?;
    let tables = tables_of(alloc, &base, triples.as_slice())?;
    let files = files_of(alloc, stored, &tables)?;
    store_work(files.as_slice(), shelf)
}
