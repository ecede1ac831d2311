//! SQL's CREATE TABLE and ALTER TABLE: tokens, statements, and the first fault of a text.
#![tactic(auto)]

mod columns;
mod file;
mod keys;
mod reader;
mod statements;
mod syntax;
mod token;

pub use file::{SyntaxError, read_statements};
pub use statements::parse;
pub use syntax::{
    AlterTable, Column, ColumnType, Constraint, CreateTable, ForeignKey, Item, Key, Statement,
    Target,
};
pub use token::{Keyword, TypeWord};
