//! The graphs of a database.
#![tactic(auto)]

mod graph_name;
mod heads;
mod interpreted;
mod nodes;
mod ontology;
mod plan;
mod relations;
mod rows;
mod triples;
mod writer;

pub use graph_name::GraphName;
pub use writer::{
    write_direct, write_direct_by, write_map, write_map_by, write_map_keys, write_map_keys_by,
    write_map_rows,
};
