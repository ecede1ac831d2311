ghost use Rattle.std.specs.Prelude.{◌≡◌, ◌≢◌, IsTrue, not};
ghost use Rattle.names_dm.specs.Literals.{is_string_type, literal_of};

use crate::iri::Iri;
use crate::tag::Tag;
use std::alloc::{AllocError, Global};
use std::marker::Model;
use value_dm::{Text, TryCopy};

/// What stands beside a literal's text.
#[derive(PartialEq, Eq, Hash, Drop)]
pub enum LiteralType {
    Plain,
    Typed(Iri),
    Tagged(Tag),
}

impl TryCopy for LiteralType {
    fn copy(&self, alloc: Global) -> Result<LiteralType, AllocError> {
        match self {
            LiteralType::Plain => Ok(LiteralType::Plain),
            LiteralType::Typed(datatype) => Ok(LiteralType::Typed(datatype.copy(alloc)?)),
            LiteralType::Tagged(tag) => Ok(LiteralType::Tagged(tag.copy(alloc)?)),
        }
    }
}

const XSD_STRING: &str = "http://www.w3.org/2001/XMLSchema#string";

/// A literal (RDF 1.1 Concepts, section 3.3), which contracts see as its text and its type. A plain one has the type
/// xsd:string, so that type is never kept beside a text.
#[derive(PartialEq, Eq, Hash, Drop)]
pub struct Literal {
    text: Text,
    kind: LiteralType,
}

impl Model for Literal {
    ghost use Rattle.std.specs.Prelude.{◌≡◌, false};
    ghost use Rattle.names_dm.specs.Literals.{LiteralValue, is_string_type};

    ghost Value = { LiteralValue };

    ghost view = { λ literal. record { text = literal.text; kind = literal.kind } };

    ghost invariant = { λ literal. is_string_type literal.kind ≡ false };

    ghost inverse = { λ literal. record { text = literal.text; kind = literal.kind } };
}

// Whether the type is xsd:string, written out.
fn is_string_type(kind: &LiteralType) -> bool
    ensures { result ≡ is_string_type kind.now }
{
    match kind {
        LiteralType::Plain => false,
        LiteralType::Tagged(_) => false,
        LiteralType::Typed(datatype) => datatype.as_str() == XSD_STRING,
    }
}

impl Literal {
    /// The literal of this text and type. The type xsd:string becomes `Plain`.
    pub fn new(text: Text, kind: LiteralType) -> Literal
        ensures { result ≡ literal_of text kind }
    {
        if is_string_type(&kind) {
            Literal {
                text,
                kind: LiteralType::Plain,
            }
        } else {
            Literal { text, kind }
        }
    }

    /// The text, its escapes read.
    pub fn text(&self) -> &Text
        ensures { result.now ≡ self.now.text }
    {
        &self.text
    }

    /// The type, which is never xsd:string written out.
    pub fn kind(&self) -> &LiteralType
        ensures kind { result.now ≡ self.now.kind }
        ensures normal { IsTrue (not (is_string_type result.now)) }
    {
        &self.kind
    }
}

impl TryCopy for Literal {
    fn copy(&self, alloc: Global) -> Result<Literal, AllocError> {
        Ok(Literal {
            text: self.text.copy(alloc)?,
            kind: self.kind.copy(alloc)?,
        })
    }
}
