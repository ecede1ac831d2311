//! The texts of the graphs of a database, read back.
#![tactic(auto)]

mod laws;

pub use laws::texts_read_back;
