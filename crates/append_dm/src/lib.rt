//! The triples by which a batch of rows enlarges a map graph.
#![tactic(auto)]

mod batch;
mod combining;
mod fitting;

pub use batch::{write_batch, write_batch_by};
pub use combining::combined;
pub use fitting::is_batch_for;
