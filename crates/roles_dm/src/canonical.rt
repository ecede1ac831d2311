// Literals in the canonical form of a kind.
ghost use Rattle.std.specs.Prelude.{◌≡◌, ◌↔◌, IfOk, IsTrue};
ghost use Rattle.facts_dm.specs.Vocabulary.{datatype_iri, literal_type};
ghost use Rattle.layouts_dm.specs.Layouts.{IsCanonical};
ghost use Rattle.roles_dm.specs.Canonical.{IsCanonicalOf};

use facts_dm::Word;
use names_dm::{Iri, LiteralType, Term};
use std::alloc::{AllocError, Global};
use value_dm::{Kind, LexicalError, Text, read_lexical};

// Whether it is the kind of texts.
fn is_text(kind: Kind) -> bool
    ensures { IsTrue result ↔ (kind ≡ Kind.Text) }
{
    kind == Kind::Text
}

// Whether the IRI is that of the kind's datatype.
fn is_datatype(datatype: &Iri, kind: Kind) -> bool
    ensures { IsTrue result ↔ (datatype.now ≡ datatype_iri kind) }
{
    datatype.as_str() == Word::Datatype(kind).as_str()
}

// Whether the type of the datatype is that of the kind's literals, which of texts is none.
fn is_typed(kind: Kind, datatype: &Iri) -> bool
    ensures { IsTrue result ↔ (LiteralType.Typed datatype.now ≡ literal_type kind) }
{
    if is_text(kind) {
        return false;
    }
    is_datatype(datatype, kind)
}

// Whether the type is that of the kind's literals.
fn is_type_of(kind: Kind, given: &LiteralType) -> bool
    ensures { IsTrue result ↔ (given.now ≡ literal_type kind) }
{
    match given {
        LiteralType::Plain => is_text(kind),
        LiteralType::Typed(datatype) => is_typed(kind, datatype),
        LiteralType::Tagged(_) => false,
    }
}

// Whether a value of the kind has this text as its canonical form.
fn is_form(alloc: Global, kind: Kind, text: &Text) -> Result<bool, AllocError>
    ensures { IfOk result (λ told. IsTrue told ↔ IsCanonical (record { kind = kind; text = text.now })) }
{
    let characters = text.as_str();
    if is_text(kind) {
        return Ok(true);
    }
    match read_lexical(alloc, kind, characters) {
        Ok(_) => Ok(true),
        Err(LexicalError::NotCanonical) => Ok(false),
        Err(LexicalError::Memory) => Err(AllocError),
    }
}

/// Whether the term is a literal of the kind in its canonical form (R2RML, section 10.2). Refused for want of memory alone.
pub fn is_canonical(alloc: Global, kind: Kind, term: &Term) -> Result<bool, AllocError>
    ensures { IfOk result (λ told. IsTrue told ↔ IsCanonicalOf kind term.now) }
{
    let Term::Literal(literal) = term else {
        return Ok(false);
    };
    if !is_type_of(kind, literal.kind()) {
        return Ok(false);
    }
    is_form(alloc, kind, literal.text())
}
