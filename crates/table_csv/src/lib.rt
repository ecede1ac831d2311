//! Tables as files of comma-separated values (RFC 4180): which bytes mean which rows, databases of a
//! schema and rows, and the canonical file of a table.
#![tactic(auto)]

mod database;
mod fault;
mod header;
mod line;
mod reading;
mod rows;
mod writing;

pub use database::Database;
pub use fault::TableError;
pub use reading::read_table;
pub use rows::Rows;
use value_dm::Sequence;
pub use writing::table_text;

/// The rows of each table.
pub type RowsList = Sequence<Rows>;
