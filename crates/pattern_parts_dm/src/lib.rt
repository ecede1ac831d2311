//! The parts of which the patterns of queries consist: their variables, conditions, renames, joins and differences.
#![tactic(auto)]

mod conditions;
mod differences;
mod joins;
mod patterns;
mod renames;
mod selections;
mod variables;

pub use conditions::{is_bound, is_other_value, is_unbound, is_value};
pub use differences::guarded;
pub use joins::joined;
pub use patterns::{both, empty, filter, left_join, minus, triple, union};
pub use selections::{projected, renamed};
pub use variables::{literal_of, row_variable, second_variable, variable_of};
