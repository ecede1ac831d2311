//! RDF 1.1 N-Triples read: a document's triples, or its first bad line.
#![tactic(auto)]

mod classes;
mod fault;
mod inside;
mod lawful;
mod laws;
mod line;
mod lines;
mod names;
mod terms;
mod text;

pub use fault::GraphError;
pub use lawful::{lawful_iri, lawful_literal, lawful_triple};
pub use laws::{one_meaning, written_text};
pub use lines::read_graph;
pub use terms::{iri_in_front, literal_in_front};
