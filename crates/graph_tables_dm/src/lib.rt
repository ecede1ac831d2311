//! The tables that a graph stands for, read off it.
#![tactic(auto)]

mod cells;
mod classes;
mod columns;
mod listed;
mod lookups;
mod relations;
mod rows;
mod table;
mod tables;

pub use table::{GraphTable, GraphTables};
pub use tables::tables_of;
