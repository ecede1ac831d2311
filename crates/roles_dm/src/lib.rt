//! What a graph of a relational database says of each of its terms.
#![tactic(auto)]

mod bad;
mod canonical;
mod cause;
mod columned;
mod columns;
mod finding;
mod links;
mod naming;
mod numbered;
mod numbers;
mod relations;
mod role;
mod roles;
mod seen;
mod words;

pub use bad::first_bad;
pub use cause::{BadTriple, Cause};
pub use numbered::Numbered;
pub use numbers::{GraphWithNumbers, graph_of, has, number_of, only_object};
pub use relations::{Relations, relations_of, stated_relation};
pub use role::{ColumnRole, LinkName, LinkRole, Role, Roles};
pub use roles::{role_of, roles_of};
pub use words::{Datatypes, Words, datatypes_of, words_of};
