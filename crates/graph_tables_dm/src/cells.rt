// The cells of nodes.
ghost use Rattle.std.specs.Prelude.{◌≡◌, ◌≤◌, ◌↔◌, IfOk, IsTrue, length};
ghost use Rattle.facts_dm.specs.Vocabulary.{datatype_iri, literal_type};
ghost use Rattle.graph_tables_dm.specs.Cells as spec;
ghost use Rattle.graph_tables_dm.specs.Cells.{IsCellAt, TellsValue};

use crate::listed::role_numbered;
use crate::lookups::first_object;
use facts_dm::Word;
use names_dm::{Iri, Literal, LiteralType, Term};
use roles_dm::Role;
use std::alloc::{AllocError, Global};
use store_dm::Graph;
use value_dm::{Cell, Kind, LexicalError, Text, read_lexical};

// Whether the IRI is that of the kind's datatype.
fn is_datatype(iri: &Iri, kind: Kind) -> bool
    ensures { IsTrue result ↔ (iri.now ≡ datatype_iri kind) }
{
    iri.as_str() == Word::Datatype(kind).as_str()
}

// Whether the literal has the type of the kind's literals.
fn has_type(literal: &Literal, kind: Kind) -> bool
    ensures { IsTrue result ↔ (literal.now.kind ≡ literal_type kind) }
{
    match literal.kind() {
        LiteralType::Plain => kind == Kind::Text,
        LiteralType::Typed(datatype) => kind != Kind::Text && is_datatype(datatype, kind),
        LiteralType::Tagged(_) => false,
    }
}

// The value of the kind whose canonical lexical form is the text; None where there is none.
fn canonical_value(alloc: Global, kind: Kind, text: &Text) -> Result<Cell, AllocError>
    ensures { IfOk result (spec.TellsCanonical kind text.now) }
{
    match read_lexical(alloc, kind, text.as_str()) {
        Ok(value) => Ok(Some(value)),
        Err(LexicalError::NotCanonical) => Ok(None),
        Err(LexicalError::Memory) => Err(AllocError),
    }
}

// The value that a literal has, if it is in the canonical form of its kind.
fn literal_value(alloc: Global, literal: &Literal, kind: Kind) -> Result<Cell, AllocError>
    ensures { IfOk result (TellsValue kind (Term.Literal literal.now)) }
{
    if has_type(literal, kind) {
        canonical_value(alloc, kind, literal.text())
    } else {
        Ok(None)
    }
}

// The value of the kind whose canonical literal the term is; None where it is none.
fn value_of(alloc: Global, term: &Term, kind: Kind) -> Result<Cell, AllocError>
    ensures { IfOk result (TellsValue kind term.now) }
{
    match term {
        Term::Literal(literal) => literal_value(alloc, literal, kind),
        Term::Iri(_) => Ok(None),
        Term::Blank(_) => Ok(None),
    }
}

/// The kind of the column whose IRI has the number, `Text` where there is no column.
pub fn kind_at(roles: &[Role], number: u32) -> Kind
    ensures { result ≡ spec.kind_at roles.now number }
{
    match role_numbered(roles, number) {
        Some(role) => role_kind(role),
        None => Kind::Text,
    }
}

fn role_kind(role: &Role) -> Kind
    ensures { result ≡ spec.role_kind role.now }
{
    match role {
        Role::Column(column) => column.kind,
        Role::Class(_) => Kind::Text,
        Role::Link(_) => Kind::Text,
        Role::Nothing => Kind::Text,
    }
}

/// The cell that the node has in the column: the value of its first literal, and NULL where it has none. Refused for want of
/// memory alone.
pub fn cell_at(
    alloc: Global,
    graph: &Graph,
    roles: &[Role],
    node: u32,
    column: u32,
) -> Result<Cell, AllocError>
    ensures { IfOk result (IsCellAt graph.now roles.now node column) }
{
    match first_object(graph, node, column) {
        Some(object) => object_value(alloc, graph, object, kind_at(roles, column)),
        None => Ok(None),
    }
}

// The value of the kind whose canonical literal the term of the number is; None where it is none.
fn object_value(alloc: Global, graph: &Graph, object: u32, kind: Kind) -> Result<Cell, AllocError>
    requires low { 1 ≤ object }
    requires high { object ≤ length graph.now.terms }
    ensures { IfOk result (spec.TellsObject graph.now kind object) }
{
    value_of(alloc, graph.term_of(object), kind)
}
