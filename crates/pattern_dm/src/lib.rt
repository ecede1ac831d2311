//! Patterns over a graph: their solutions, and their text in SPARQL.
#![tactic(auto)]

mod answers;
mod conditions;
mod formed;
mod masks;
mod operands;
mod operators;
mod pattern;
mod solver;
mod texts;

pub use answers::answer_grid;
pub use formed::is_well_formed;
pub use pattern::{Condition, Operand, Pattern};
pub use solver::solve;
pub use texts::sparql_text;
