//! Patterns by their text in SPARQL.
#![tactic(auto)]

mod answer;
mod conditions;
mod connective;
mod depth;
mod error;
mod makers;
mod pairing;
mod parsed;
mod patterns;
mod query;
mod reader;
mod selection;
mod targets;

pub use error::SparqlError;
pub use parsed::Parsed;
pub use query::read_sparql;
