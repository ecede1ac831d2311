ghost use Rattle.std.specs.Prelude.{◌≡◌, IfOk};
ghost use Rattle.algebra_dm.specs.Nodes.{IsWellFormed};
ghost use Rattle.cmd_dm.specs.Ending.{Step, PureStep};
ghost use Rattle.cmd_dm.specs.Steps.{query_step, query_text_step};

use crate::reasons::query_status;
use crate::status::{File, Status};
use crate::steps::load_file;
use algebra_dm::Query;
use outside_dm::Shelf;
use query_text_dm::read_query;
use schema_dm::Schema;
use std::alloc::Global;
use value_dm::{Bytes, Text};

/// Reads a query over the schema's tables as the next step.
#[tactic(auto, unfolding(crate::specs::Steps::query_text_step))]
fn read_query_text(alloc: Global, schema: &Schema, bytes: &Bytes) -> Result<Query, Status>
    ensures step { PureStep (query_text_step schema.now bytes.now) result }
    ensures formed { IfOk result (IsWellFormed schema.now) }
{
    match read_query(alloc, schema, bytes.as_slice()) {
        Ok(query) => Ok(query),
        Err(error) => Err(query_status(error)),
    }
}

/// Loads and reads the query of the file of this name, over the schema's tables, as the next step.
#[tactic(auto, unfolding(crate::specs::Steps::query_step))]
pub(crate) fn load_query<S: Shelf>(
    alloc: Global,
    name: &Text,
    schema: &Schema,
    shelf: &mut S,
) -> Result<Query, Status>
    ensures step { Step (query_step schema.now name.now) (S.state shelf.old) (S.state shelf.new) result }
    ensures formed { IfOk result (IsWellFormed schema.now) }
{
    let bytes = load_file(alloc, File::Query, name.as_str(), shelf)?;
    read_query_text(alloc, schema, &bytes)
}
