//! What the triples of a database's graph say, and the words of the vocabularies that they say it with.
#![tactic(auto)]

mod naming;
mod word;

pub use naming::naming_laws;
pub use word::{Word, literal_type};
