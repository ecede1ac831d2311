//! Solution mappings as rows of numbers in columns, and the operators on them, joined by sorting.
#![tactic(auto)]

mod columns;
mod differences;
mod joint;
mod keys;
mod marks;
mod merges;
mod numbers;
mod picks;
mod repeats;
mod row_pair;
mod runs;
mod selects;
mod solutions;
mod unions;

pub use columns::Column;
pub use differences::minus;
pub use marks::{keep, unmatched};
pub use merges::merge;
pub use repeats::distinct;
pub use row_pair::{PairList, RowPair};
pub use runs::pairs;
pub use selects::{Rename, Renames, select};
pub use solutions::{Solutions, unit};
pub use unions::union;
