// The table of a relation.
ghost use Rattle.std.specs.Prelude.{◌≡◌, IfOk, ℕ};
ghost use Rattle.std.specs.List.{AllZip};
ghost use Rattle.layouts_dm.specs.LayoutTables as layout;
ghost use Rattle.layouts_dm.specs.LayoutTables.{in_order};
ghost use Rattle.graph_tables_dm.specs.Cells as spec;
ghost use Rattle.graph_tables_dm.specs.TableReadings.{IsPairRow, IsRelationTable, shape_column};

use crate::cells::{cell_at, kind_at};
use crate::lookups::pairs;
use crate::table::GraphTable;
use names_dm::RelName;
use roles_dm::{LinkRole, Role};
use schema_dm::{Column, Columns, ShapeTable};
use std::alloc::{AllocError, Global};
use store_dm::Graph;
use value_dm::{Cells, Kind, Sequence, Text, TryCopy};

// Whether the name's bytes are before the other's.
#[tactic(auto, unfolding(layouts_dm::specs::LayoutTables::is_before))]
fn is_before(name: &Text, other: &Text) -> bool
    ensures { result ≡ layout.is_before name.now other.now }
{
    name.as_str().cmp(other.as_str()).is_lt()
}

fn column(alloc: Global, name: &Text, kind: Kind) -> Result<Column, AllocError>
    ensures { IfOk result (λ column. column ≡ shape_column name.now kind) }
{
    Ok(Column {
        name: name.copy(alloc)?,
        kind,
        not_null: false,
    })
}

// The two columns in the order of their names.
fn relation_columns(
    alloc: Global,
    name: &RelName,
    left: Kind,
    right: Kind,
) -> Result<Columns, AllocError>
    ensures { IfOk result (λ columns. columns ≡ in_order (layout.is_before name.now.left name.now.right) (shape_column name.now.left left) (shape_column name.now.right right)) }
{
    let left = column(alloc, &name.left, left)?;
    let right = column(alloc, &name.right, right)?;
    let mut columns = Columns::new(alloc);
    if is_before(&name.left, &name.right) {
        columns.push(left)?;
        columns.push(right)?;
    } else {
        columns.push(right)?;
        columns.push(left)?;
    }
    Ok(columns)
}

// The row of a pair of nodes, the left one's cell first where the flag says so.
fn pair_row(
    alloc: Global,
    graph: &Graph,
    roles: &[Role],
    link: &LinkRole,
    left_first: bool,
    pair: (u32, u32),
) -> Result<Cells, AllocError>
    ensures { IfOk result (IsPairRow graph.now roles.now link.now left_first pair) }
{
    let left = cell_at(alloc, graph, roles, pair.0, link.left)?;
    let right = cell_at(alloc, graph, roles, pair.1, link.right)?;
    let mut row = Cells::new(alloc);
    if left_first {
        row.push(left)?;
        row.push(right)?;
    } else {
        row.push(right)?;
        row.push(left)?;
    }
    Ok(row)
}

fn pair_rows(
    alloc: Global,
    graph: &Graph,
    roles: &[Role],
    link: &LinkRole,
    left_first: bool,
    pairs: &[(u32, u32)],
) -> Result<Sequence<Cells>, AllocError>
    ensures { IfOk result (AllZip (IsPairRow graph.now roles.now link.now left_first) pairs.now) }
{
    let mut rows = Sequence::new(alloc);
    for pair in pairs {
        rows.push(pair_row(alloc, graph, roles, link, left_first, *pair)?)?;
    }
    Ok(rows)
}

/// The table of the relation, whose IRI has the number. Refused for want of memory alone.
pub fn relation_table(
    alloc: Global,
    graph: &Graph,
    roles: &[Role],
    number: u32,
    link: &LinkRole,
    name: &RelName,
) -> Result<GraphTable, AllocError>
    ensures { IfOk result (IsRelationTable graph.now roles.now number link.now name.now) }
{
    let pairs = pairs(alloc, graph, number)?;
    let left_first = is_before(&name.left, &name.right);
    let rows = pair_rows(alloc, graph, roles, link, left_first, pairs.as_slice())?;
    let left = kind_at(roles, link.left);
    let right = kind_at(roles, link.right);
    let table = ShapeTable {
        name: name.table.copy(alloc)?,
        columns: relation_columns(alloc, name, left, right)?,
    };
    Ok(GraphTable { table, rows })
}
