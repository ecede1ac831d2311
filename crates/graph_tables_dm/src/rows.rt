// The rows of nodes.
ghost use Rattle.std.specs.Prelude.{IfOk};
ghost use Rattle.std.specs.List.{AllZip};
ghost use Rattle.graph_tables_dm.specs.Columns.{IsRowAt};

use crate::cells::cell_at;
use crate::listed::NumberedName;
use roles_dm::Role;
use std::alloc::{AllocError, Global};
use store_dm::Graph;
use value_dm::{Cells, Sequence};

// The cells of the node in the columns.
fn row_of(
    alloc: Global,
    graph: &Graph,
    roles: &[Role],
    columns: &[NumberedName],
    node: u32,
) -> Result<Cells, AllocError>
    ensures { IfOk result (IsRowAt graph.now roles.now columns.now node) }
{
    let mut row = Cells::new(alloc);
    for column in columns {
        row.push(cell_at(alloc, graph, roles, node, column.number)?)?;
    }
    Ok(row)
}

/// The row of each node.
pub fn rows_of(
    alloc: Global,
    graph: &Graph,
    roles: &[Role],
    columns: &[NumberedName],
    nodes: &[u32],
) -> Result<Sequence<Cells>, AllocError>
    ensures { IfOk result (AllZip (IsRowAt graph.now roles.now columns.now) nodes.now) }
{
    let mut rows = Sequence::new(alloc);
    for node in nodes {
        rows.push(row_of(alloc, graph, roles, columns, *node)?)?;
    }
    Ok(rows)
}
