//! The solutions of a pattern over triples, as text: lines of tab separated values.
#![tactic(auto)]

mod laws;
mod lines;

pub use laws::lines_are_determined;
pub use lines::solution_lines;
