// The texts of triples are of their types.
ghost use Rattle.std.specs.Prelude.{IsTrue, not};
ghost use Rattle.names_dm.specs.Literals.{is_string_type};
ghost use Rattle.ntriples_reader_dm.specs.Lawful.{IsIri, IsLabel, IsTag, IsLawful, IsLawfulTerm, IsLawfulType};

use names_dm::{Iri, Label, Literal, LiteralType, Tag, Term, Triple};

/// The text of an IRI is an IRI's. The call does nothing; its clause is the law.
pub fn lawful_iri(iri: &Iri)
    ensures { IsIri iri.now }
{
    let _characters = iri.as_str();
}

fn lawful_label(label: &Label)
    ensures { IsLabel label.now }
{
    let _characters = label.as_str();
}

fn lawful_tag(tag: &Tag)
    ensures { IsTag tag.now }
{
    let _characters = tag.as_str();
}

fn lawful_type(kind: &LiteralType)
    requires { IsTrue (not (is_string_type kind.now)) }
    ensures { IsLawfulType kind.now }
{
    match kind {
        LiteralType::Plain => {}
        LiteralType::Typed(datatype) => lawful_iri(datatype),
        LiteralType::Tagged(tag) => lawful_tag(tag),
    }
}

/// The texts of a literal are of their types. The call does nothing; its clause is the law.
pub fn lawful_literal(literal: &Literal)
    ensures { IsLawfulTerm (Term.Literal literal.now) }
{
    let _characters = literal.text().as_str();
    lawful_type(literal.kind());
}

fn lawful_term(term: &Term)
    ensures { IsLawfulTerm term.now }
{
    match term {
        Term::Iri(iri) => lawful_iri(iri),
        Term::Blank(label) => lawful_label(label),
        Term::Literal(literal) => lawful_literal(literal),
    }
}

/// The texts of every triple are of their types, so that its line is read back. The call does nothing; its clause is the
/// law.
pub fn lawful_triple(triple: &Triple)
    ensures { IsLawful triple.now }
{
    lawful_term(triple.subject());
    lawful_iri(triple.predicate());
    lawful_term(triple.object());
}
