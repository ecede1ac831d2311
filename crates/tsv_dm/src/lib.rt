//! Rows of terms as tab separated values.
#![tactic(auto)]

mod cells;
mod rows;
mod text;

pub use text::tsv;
