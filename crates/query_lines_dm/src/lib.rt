//! What a query over tables is answered, as text: its tuples as lines of tab separated values.
#![tactic(auto)]

mod lines;
mod names;

pub use lines::query_lines;
pub use names::header;
