//! Parts of grammars: what it is to be a part and to begin one, the first fault of a list of tokens, and the laws of readers that go from left to right.
#![tactic(auto)]

mod read_error;

pub use read_error::ReadError;
