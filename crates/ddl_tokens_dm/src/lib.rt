//! The tokens of SQL's table definitions, each with its place in the file.
#![tactic(auto)]

mod lexer;
mod text;
mod token;

pub use lexer::{TokenError, tokens};
pub use token::{Placed, Sign, Token};
