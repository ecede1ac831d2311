//! Queries over tables as patterns over the graph of a database, whose solutions are the queries' tuples.
#![tactic(auto)]

mod classes;
mod context;
mod laws;
mod operators;
mod translation;

pub use laws::queries_are_kept;
pub use translation::translate;
