//! What a graph stands for: the tables that come back from the triples of a relational database, or why they don't.
#![tactic(auto)]

mod error;
mod inversion;
mod limits;
mod tables;

pub use error::InverseError;
pub use inversion::invert;
pub use tables::Tables;
