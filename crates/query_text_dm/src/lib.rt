//! Queries by their text.
#![tactic(auto)]

mod answer;
mod depth;
mod operands;
mod operator;
mod query;
mod reader;

pub use query::read_query;
