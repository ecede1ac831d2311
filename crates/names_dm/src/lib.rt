//! The terms and triples of RDF, and the names of tables, columns, keys and rows in it.
#![tactic(auto)]

mod base;
mod characters;
mod exact;
mod iri;
mod iri_safe;
mod key;
mod label;
mod literal;
mod makers;
mod names;
mod readers;
mod spelling;
mod tag;
mod term;
mod triple;
mod var;
mod variables;

pub use base::{BadBase, Base};
pub use iri::Iri;
pub use iri_safe::{SafeError, safe, unsafe_of};
pub use key::{KeyPart, KeyParts, row_iri};
pub use label::{Label, row_label};
pub use literal::{Literal, LiteralType};
pub use makers::{column_iri, ref_iri, rel_iri, table_iri};
pub use names::{ColumnName, RefName, RelName};
pub use readers::{read_column_iri, read_ref_iri, read_rel_iri, read_table_iri};
pub use tag::Tag;
pub use term::Term;
pub use triple::Triple;
pub use var::Var;
pub use variables::variable;

/// Triples in order.
pub type Triples = value_dm::Sequence<Triple>;

/// Names of variables in order.
pub type Vars = value_dm::Sequence<Var>;
