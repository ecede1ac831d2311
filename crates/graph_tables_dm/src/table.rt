use schema_dm::ShapeTable;
use value_dm::{Cells, Sequence};

/// A table that a graph stands for: its columns in the order of their names' bytes, and its rows in some order, each with
/// its cells in the columns' order.
#[derive(Drop)]
pub struct GraphTable {
    pub table: ShapeTable,
    pub rows: Sequence<Cells>,
}

/// Tables that a graph stands for.
pub type GraphTables = Sequence<GraphTable>;
