ghost use Rattle.std.specs.Prelude.{◌≡◌};
ghost use Rattle.cmd_dm.specs.Ending.{Ends, result_status, to_output};
ghost use Rattle.cmd_dm.specs.Rows.{rows_script};

use crate::graphs::end_of_puts;
use crate::query::load_query;
use crate::status::Status;
use crate::steps::read_database;
use outside_dm::{Shelf, Sink};
use query_lines_dm::query_lines;
use std::alloc::Global;
use value_dm::{NullMode, Text};

/// `rows FOLDER QUERY`: writes the rows of the file's query over the folder's database, as tab separated values.
pub(crate) fn run_rows<S: Shelf, K: Sink>(
    alloc: Global,
    folder: &Text,
    name: &Text,
    nulls: NullMode,
    shelf: &mut S,
    out: &mut K,
) -> Result<(), Status>
    ensures { Ends to_output (rows_script folder.now name.now nulls) (S.state shelf.old) (S.state shelf.new) (K.state out.old) (K.state out.new) (result_status result) }
{
    let database = read_database(alloc, folder, nulls, shelf)?;
    let query = load_query(alloc, name, database.schema(), shelf)?;
    let text = query_lines(alloc, &query, &database)?;
    end_of_puts(out.put(text.as_slice()))
}
