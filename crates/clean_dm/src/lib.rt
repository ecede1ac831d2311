//! Removing rows until a database keeps all its keys: the largest part that does.
#![tactic(auto)]

mod candidates;
mod checking;
mod cleaning;
mod dangling;
mod keeping;
mod own_keys;
mod references;
mod removal;
mod row_set;
mod turns;

pub use checking::check_removals;
pub use cleaning::clean;
pub use keeping::kept;
pub use removal::{Removal, Removals};
