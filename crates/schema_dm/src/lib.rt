//! Schemas of relational databases: what a table's draft may say, which schema drafts stand for,
//! which tables are binary relations, and the shapes of tables without keys.
#![tactic(auto)]

mod build;
mod causes;
mod draft;
mod index;
mod indexed;
mod keyed;
mod keys;
mod name_list;
mod order;
mod refusal;
mod relation;
mod schema;
mod shape;
mod table;
mod verdict;

pub use draft::{Column, ForeignDraft, TableDraft};
pub use index::Index;
pub use refusal::{SchemaCause, SchemaError, SchemaFault};
pub use schema::Schema;
pub use shape::Shape;
pub use table::{Binary, ForeignKey, ShapeTable, Table};
use value_dm::{Names, Sequence};

/// Lists of names in order.
pub type NameLists = Sequence<Names>;

/// Columns in declared order.
pub type Columns = Sequence<Column>;

/// Places of columns in a table, counted from 0.
pub type Places = Sequence<u32>;

/// Lists of places.
pub type PlaceLists = Sequence<Places>;

/// Drafts of tables in declared order.
pub type Drafts = Sequence<TableDraft>;

/// Drafts of a table's foreign keys in declared order.
pub type ForeignDrafts = Sequence<ForeignDraft>;

/// A table's foreign keys in declared order.
pub type ForeignKeys = Sequence<ForeignKey>;

/// Tables without keys.
pub type ShapeTables = Sequence<ShapeTable>;
