//! The tokens of a query in SPARQL, each with its place.
#![tactic(auto)]

mod lexer;
mod text;
mod token;
mod words;

pub use lexer::tokens;
pub use token::{Keyword, Placed, Sign, Token};
