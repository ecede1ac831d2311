// The table of a class.
ghost use Rattle.std.specs.Prelude.{IfOk};
ghost use Rattle.graph_tables_dm.specs.TableReadings.{IsClassTable};

use crate::columns::{columns_of, shape_columns};
use crate::lookups::subjects;
use crate::rows::rows_of;
use crate::table::GraphTable;
use roles_dm::{Role, Words};
use schema_dm::ShapeTable;
use std::alloc::{AllocError, Global};
use store_dm::Graph;
use value_dm::{Text, TryCopy};

/// The table of the class with the name, whose IRI has the number. Refused for want of memory alone.
pub fn class_table(
    alloc: Global,
    graph: &Graph,
    words: &Words,
    roles: &[Role],
    number: u32,
    name: &Text,
) -> Result<GraphTable, AllocError>
    ensures { IfOk result (IsClassTable graph.now words.now roles.now number name.now) }
{
    let columns = columns_of(alloc, graph, words, roles, number)?;
    let nodes = subjects(alloc, graph, words.rdf_type, number)?;
    let table = ShapeTable {
        name: name.copy(alloc)?,
        columns: shape_columns(alloc, roles, columns.as_slice())?,
    };
    let rows = rows_of(alloc, graph, roles, columns.as_slice(), nodes.as_slice())?;
    Ok(GraphTable { table, rows })
}
