//! RDF 1.1 N-Triples: terms and triples as text.
#![tactic(auto)]

mod texts;
mod writer;

pub use texts::{term_text, triple_text};
pub use writer::write_triple;
