//! The graphs of a database stand for its tables.
#![tactic(auto)]

mod laws;

pub use laws::graphs_stand;
