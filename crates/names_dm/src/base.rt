ghost use Rattle.std.specs.Prelude.{◌≡◌, ◌↔◌, IfOk, IsOk, IsTrue, chars, encode_utf8_all};
ghost use Rattle.std.specs.List.{list_all};
ghost use Rattle.names_dm.specs.Characters.{is_ascii};
ghost use Rattle.names_dm.specs.Namespaces.{is_base, one_begins};

use crate::iri::is_iri;
use std::alloc::{AllocError, Global};
use std::marker::Model;
use thiserror::Error;
use value_dm::{Text, TryCopy};

/// What the IRIs of a database begin with. Contracts see its characters.
#[derive(PartialEq, Eq, Drop)]
pub struct Base {
    text: Text,
}

impl Model for Base {
    ghost use Rattle.std.specs.Prelude.{List, ℕ, IsTrue};
    ghost use Rattle.names_dm.specs.Namespaces.{is_base};

    ghost Value = { List ℕ };

    ghost view = { λ base. base.text };

    ghost invariant = { λ base. IsTrue (is_base base.text) };

    ghost inverse = { λ text. record { text = text } };
}

/// A text that cannot be a base.
#[derive(Debug, Drop, Error, Clone, Copy, PartialEq, Eq)]
#[error("not a base")]
pub struct BadBase;

const RDF: &str = "http://www.w3.org/1999/02/22-rdf-syntax-ns#";

const RDFS: &str = "http://www.w3.org/2000/01/rdf-schema#";

const OWL: &str = "http://www.w3.org/2002/07/owl#";

const XSD: &str = "http://www.w3.org/2001/XMLSchema#";

// Whether one of the texts begins with the other.
fn one_begins(text: &str, namespace: &str) -> bool
    requires { IsTrue (list_all is_ascii namespace.now) }
    ensures { result ≡ one_begins (chars text.now) namespace.now }
{
    text.starts_with(namespace) | namespace.starts_with(text)
}

// Whether the text can be a base. The empty text is a front of each namespace.
fn is_base(text: &Text) -> bool
    ensures { result ≡ is_base text.now }
{
    let letters = text.as_str();
    let clashes = one_begins(letters, RDF)
        | one_begins(letters, RDFS)
        | one_begins(letters, OWL)
        | one_begins(letters, XSD);
    is_iri(text) & !clashes
}

impl Base {
    /// The base of this text. Refused exactly where it is empty, where it holds a character that IRIREF forbids, and
    /// where it is a front of one of the namespaces rdf, rdfs, owl and xsd or begins with one.
    pub fn new(text: Text) -> Result<Base, BadBase>
        ensures grammar { IsOk result ↔ IsTrue (is_base text) }
        ensures text { IfOk result (λ base. base ≡ text) }
    {
        if is_base(&text) {
            Ok(Base { text })
        } else {
            Err(BadBase)
        }
    }

    /// The characters.
    pub fn as_str(&self) -> &str
        ensures bytes { result.now ≡ encode_utf8_all self.now }
        ensures chars { chars result.now ≡ self.now }
        ensures grammar { IsTrue (is_base self.now) }
    {
        self.text.as_str()
    }
}

impl TryCopy for Base {
    fn copy(&self, alloc: Global) -> Result<Base, AllocError> {
        Ok(Base {
            text: self.text.copy(alloc)?,
        })
    }
}
