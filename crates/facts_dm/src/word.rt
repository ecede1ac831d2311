ghost use Rattle.std.specs.Prelude.{◌≡◌, IfOk};
ghost use Rattle.facts_dm.specs.Vocabulary.{datatype_iri, literal_type, word_iri};

use names_dm::{Iri, LiteralType};
use std::alloc::{AllocError, Global};
use value_dm::{Kind, Text};

/// The words of the vocabularies rdf, rdfs and owl that graphs are written with, and the datatypes of xsd.
#[derive(Clone, Copy, Debug, PartialEq, Eq)]
pub enum Word {
    RdfType,
    RdfsDomain,
    RdfsRange,
    OwlDifferentFrom,
    OwlClass,
    OwlDatatypeProperty,
    OwlObjectProperty,
    Datatype(Kind),
}

// The datatype of a kind's literals.
fn datatype(kind: Kind) -> &'static str
    ensures { result.now ≡ datatype_iri kind }
{
    match kind {
        Kind::Text => "http://www.w3.org/2001/XMLSchema#string",
        Kind::Integer => "http://www.w3.org/2001/XMLSchema#integer",
        Kind::Decimal => "http://www.w3.org/2001/XMLSchema#decimal",
        Kind::Boolean => "http://www.w3.org/2001/XMLSchema#boolean",
        Kind::Date => "http://www.w3.org/2001/XMLSchema#date",
        Kind::Time => "http://www.w3.org/2001/XMLSchema#time",
        Kind::DateTime => "http://www.w3.org/2001/XMLSchema#dateTime",
        Kind::Binary => "http://www.w3.org/2001/XMLSchema#hexBinary",
    }
}

impl Word {
    /// The word's IRI, in ASCII.
    pub fn as_str(self) -> &'static str
        ensures { result.now ≡ word_iri self }
    {
        match self {
            Word::RdfType => "http://www.w3.org/1999/02/22-rdf-syntax-ns#type",
            Word::RdfsDomain => "http://www.w3.org/2000/01/rdf-schema#domain",
            Word::RdfsRange => "http://www.w3.org/2000/01/rdf-schema#range",
            Word::OwlDifferentFrom => "http://www.w3.org/2002/07/owl#differentFrom",
            Word::OwlClass => "http://www.w3.org/2002/07/owl#Class",
            Word::OwlDatatypeProperty => "http://www.w3.org/2002/07/owl#DatatypeProperty",
            Word::OwlObjectProperty => "http://www.w3.org/2002/07/owl#ObjectProperty",
            Word::Datatype(kind) => datatype(kind),
        }
    }

    /// The word's IRI. Refused for want of memory alone.
    pub fn iri(self, alloc: Global) -> Result<Iri, AllocError>
        ensures { IfOk result (λ iri. iri ≡ word_iri self) }
    {
        let text = Text::from_str(alloc, self.as_str())?;
        Ok(Iri::of_grammar(text))
    }
}

/// The type of a literal of this kind (R2RML, section 10.2): plain for texts, and for the others their datatype. Refused
/// for want of memory alone.
pub fn literal_type(alloc: Global, kind: Kind) -> Result<LiteralType, AllocError>
    ensures { IfOk result (λ type_of. type_of ≡ literal_type kind) }
{
    match kind {
        Kind::Text => Ok(LiteralType::Plain),
        _ => Ok(LiteralType::Typed(Word::Datatype(kind).iri(alloc)?)),
    }
}
