ghost use Rattle.std.specs.Prelude.{◌≡◌, IfOk};
ghost use Rattle.algebra_dm.specs.Nodes.{IsWellFormed};
ghost use Rattle.query_lines_dm.specs.Lines.{AreQueryLines};

use crate::names::header;
use algebra_dm::{Query, attributes};
use query_rows_dm::{grid, rows};
use std::alloc::{AllocError, Global};
use table_csv::Database;
use tsv_dm::tsv;

/// The lines of a well-formed query over a database, in UTF-8 (after SPARQL 1.1 Query Results CSV and TSV Formats, section 4):
/// the variables of its attributes, in the order of the attributes' bytes, and then its tuples, each once and in order, with
/// the natural literal of each value (R2RML, section 10.2) and nothing for NULL. Refused for want of memory alone.
pub fn query_lines(alloc: Global, query: &Query, database: &Database) -> Result<Vec<u8>, AllocError>
    requires { IsWellFormed database.now.tables query.now }
    ensures { IfOk result (λ text. AreQueryLines database.now query.now text.items) }
{
    let names = attributes(alloc, database.schema(), query)?;
    let variables = header(alloc, names.as_slice())?;
    let answers = rows(alloc, query, database)?;
    let terms = grid(alloc, &answers)?;
    tsv(alloc, &variables, &terms)
}
