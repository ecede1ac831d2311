//! The algebra over tables: queries, when they are well-formed, which attributes and tuples they have, and which
//! attributes are never NULL.
#![tactic(auto)]

mod columns;
mod error;
mod known;
mod name_lists;
mod operators;
mod query;
mod recall;

pub use columns::{column_names, table_names};
pub use error::QueryError;
pub use known::Known;
pub use name_lists::{lacks_some, rising, shared};
pub use query::{Mode, Query};
pub use recall::{attributes, certain, check_query, known_of};
