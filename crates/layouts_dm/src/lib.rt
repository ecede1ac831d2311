//! Layouts: what a graph can say of tables without their keys, by which rules its triples are explained, and which tables it
//! stands for.
#![tactic(auto)]

mod laws;

pub use laws::{
    accepted_graphs_are_described, described_graphs_are_accepted, one_outcome,
    tables_are_determined,
};
