ghost use Rattle.std.specs.Prelude.{◌≡◌};
ghost use Rattle.names_dm.specs.Statements.{is_literal};

use crate::iri::Iri;
use crate::label::Label;
use crate::literal::Literal;
use std::alloc::{AllocError, Global};
use value_dm::TryCopy;

/// An RDF term (RDF 1.1 Concepts, section 3.1).
#[derive(PartialEq, Eq, Hash, Drop)]
pub enum Term {
    Iri(Iri),
    Blank(Label),
    Literal(Literal),
}

impl TryCopy for Term {
    fn copy(&self, alloc: Global) -> Result<Term, AllocError> {
        match self {
            Term::Iri(iri) => Ok(Term::Iri(iri.copy(alloc)?)),
            Term::Blank(label) => Ok(Term::Blank(label.copy(alloc)?)),
            Term::Literal(literal) => Ok(Term::Literal(literal.copy(alloc)?)),
        }
    }
}

// Whether the term is a literal.
pub fn is_literal(term: &Term) -> bool
    ensures { result ≡ is_literal term.now }
{
    match term {
        Term::Literal(_) => true,
        Term::Iri(_) => false,
        Term::Blank(_) => false,
    }
}
