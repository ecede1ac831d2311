ghost use Rattle.std.specs.Prelude.{◌≡◌, ◌↔◌, IfSome, IsNone, IsTrue, not};
ghost use Rattle.names_dm.specs.Statements.{is_literal};

use crate::iri::Iri;
use crate::term::{Term, is_literal};
use std::alloc::{AllocError, Global};
use std::marker::Model;
use value_dm::TryCopy;

/// A triple (RDF 1.1 Concepts, section 3.1), which contracts see as its three terms. Its subject is no literal.
#[derive(PartialEq, Eq, Drop)]
pub struct Triple {
    subject: Term,
    predicate: Iri,
    object: Term,
}

impl Model for Triple {
    ghost use Rattle.std.specs.Prelude.{IsTrue, not};
    ghost use Rattle.names_dm.specs.Statements.{Statement, is_literal};

    ghost Value = { Statement };

    ghost view = { λ triple. record { subject = triple.subject; predicate = triple.predicate; object = triple.object } };

    ghost invariant = { λ triple. IsTrue (not (is_literal triple.subject)) };

    ghost inverse = { λ triple. record { subject = triple.subject; predicate = triple.predicate; object = triple.object } };
}

impl Triple {
    /// The triple of these terms, None exactly where the subject is a literal.
    pub fn new(subject: Term, predicate: Iri, object: Term) -> Option<Triple>
        ensures refused { IsNone result ↔ IsTrue (is_literal subject) }
        ensures terms { IfSome result (λ triple. triple ≡ record { subject = subject; predicate = predicate; object = object }) }
    {
        if is_literal(&subject) {
            None
        } else {
            Some(Triple {
                subject,
                predicate,
                object,
            })
        }
    }

    /// The three terms, the predicate as a term too.
    pub fn into_terms(self) -> (Term, Term, Term)
        ensures { result ≡ record { 0 = self.subject; 1 = Term.Iri self.predicate; 2 = self.object } }
    {
        let Triple {
            subject,
            predicate,
            object,
        } = self;
        (subject, Term::Iri(predicate), object)
    }

    /// The subject, which is no literal.
    pub fn subject(&self) -> &Term
        ensures subject { result.now ≡ self.now.subject }
        ensures node { IsTrue (not (is_literal result.now)) }
    {
        &self.subject
    }

    /// The predicate.
    pub fn predicate(&self) -> &Iri
        ensures { result.now ≡ self.now.predicate }
    {
        &self.predicate
    }

    /// The object.
    pub fn object(&self) -> &Term
        ensures { result.now ≡ self.now.object }
    {
        &self.object
    }
}

impl TryCopy for Triple {
    fn copy(&self, alloc: Global) -> Result<Triple, AllocError> {
        Ok(Triple {
            subject: self.subject.copy(alloc)?,
            predicate: self.predicate.copy(alloc)?,
            object: self.object.copy(alloc)?,
        })
    }
}
