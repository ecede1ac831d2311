//! SQL's CREATE TABLE and ALTER TABLE as a schema, or the first fault of a text; and the statements of a shape.
#![tactic(auto)]

mod canonical;
mod ddl;
mod drafts;

pub use canonical::shape_text;
pub use ddl::{DdlError, read_ddl};
