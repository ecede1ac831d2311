//! The database of the benchmark: four small tables whose rows are functions of their numbers.
#![tactic(auto)]

mod cells;
mod database;
mod drafts;
mod rows;

pub use database::make_database;
