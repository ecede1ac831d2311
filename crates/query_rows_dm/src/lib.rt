//! The rows of queries in the algebra over tables: numbers for the values that stand in the tables, the operators on rows
//! of numbers, and the rows and grids that are answered.
#![tactic(auto)]

mod answers;
mod dictionary;
mod evaluation;
mod filters;
mod grids;
mod joins;
mod key;
mod named;
mod operators;
mod relation;
mod tables;
mod variables;

pub use answers::rows;
pub use grids::grid;
pub use named::is_named;
