//! The pattern of a table of a schema, whose solutions over a graph of a database are the table's rows.
#![tactic(auto)]

mod columns;
mod relations;
mod tables;
mod triples;

pub use tables::{sides_in, table_pattern};
