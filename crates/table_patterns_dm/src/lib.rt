//! The pattern of a table, and that its solutions over a graph of a database are the table's rows.
#![tactic(auto)]

mod laws;

pub use laws::tables_are_kept;
