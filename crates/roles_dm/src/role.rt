// What a graph says of a term.

use names_dm::{ColumnName, RefName, RelName};
use value_dm::{Kind, Sequence, Text};

/// A column of a class.
#[derive(Drop)]
pub struct ColumnRole {
    pub name: ColumnName,
    /// The number of the class's IRI.
    pub class: u32,
    pub kind: Kind,
}

/// What the IRI of a reference or a relation names.
#[derive(Drop)]
pub enum LinkName {
    Reference(RefName),
    Relation(RelName),
}

/// A reference or a relation between the nodes of two classes.
#[derive(Drop)]
pub struct LinkRole {
    pub name: LinkName,
    /// The number of the IRI of the class that it leads from.
    pub from: u32,
    /// The number of the IRI of the class that it leads to.
    pub to: u32,
    /// The number of the IRI of the column that a relation's left column references, 0 of a reference.
    pub left: u32,
    /// The number of the IRI of the column that a relation's right column references, 0 of a reference.
    pub right: u32,
}

/// What a graph says of a term: one of these at most.
#[derive(Drop)]
pub enum Role {
    Class(Text),
    Column(ColumnRole),
    Link(LinkRole),
    Nothing,
}

/// The role of each term of a graph, in the order of their numbers: that of the number n stands at the place n - 1.
pub type Roles = Sequence<Role>;
