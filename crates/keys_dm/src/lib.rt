//! Violations of the primary, unique and foreign keys of a database, and its rows by their keys.
#![tactic(auto)]

mod cells;
mod database;
mod hashes;
mod index;
mod order;
mod row;
mod table_indexes;
mod twins;
mod violation;

pub use cells::has_null_at;
pub use database::{holds_all, is_violated, violations, violations_by};
pub use index::{Entry, KeyIndex};
pub use table_indexes::{KeyIndexes, rows_of, table_of};
pub use violation::{Violation, ViolationKind, ViolationList};
