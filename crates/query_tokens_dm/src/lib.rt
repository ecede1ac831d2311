//! The tokens of a query's text, each with its place.
#![tactic(auto)]

mod fits;
mod lexer;
mod token;

pub use fits::kind_word;
pub use lexer::tokens;
pub use token::{Placed, Token};
