ghost use Rattle.std.specs.Prelude.{◌≡◌, ◌++◌, OnOk};
ghost use Rattle.std.specs.List.{flat_map};
ghost use Rattle.outside_dm.specs.Putting.{Writes};
ghost use Rattle.pages_dm.specs.Streams.{Streams};
ghost use Rattle.ntriples_dm.specs.Written.{iri_text, term_text, triple_text, type_text};

use crate::literals::append_quoted;
use names_dm::{Iri, Literal, LiteralType, Term, Triple};
use outside_dm::{PutError, Sink};
use pages_dm::{put_if_full, put_rest};
use std::alloc::{AllocError, Global};

// Appends a text.
fn append_text(text: &str, out: &mut Vec<u8>) -> Result<(), AllocError>
    ensures { OnOk result (out.new.items ≡ out.old.items ++ text.now) }
{
    out.extend_from_slice(text.as_bytes())
}

// Appends an IRI in its brackets.
fn append_iri(iri: &Iri, out: &mut Vec<u8>) -> Result<(), AllocError>
    ensures { OnOk result (out.new.items ≡ out.old.items ++ iri_text iri.now) }
{
    append_text("<", out)?;
    append_text(iri.as_str(), out)?;
    append_text(">", out)
}

// Appends what stands behind the quotes of a literal.
fn append_type(kind: &LiteralType, out: &mut Vec<u8>) -> Result<(), AllocError>
    ensures { OnOk result (out.new.items ≡ out.old.items ++ type_text kind.now) }
{
    match kind {
        LiteralType::Plain => Ok(()),
        LiteralType::Typed(datatype) => {
            append_text("^^", out)?;
            append_iri(datatype, out)
        }
        LiteralType::Tagged(tag) => {
            append_text("@", out)?;
            append_text(tag.as_str(), out)
        }
    }
}

// Appends a literal.
fn append_literal(literal: &Literal, out: &mut Vec<u8>) -> Result<(), AllocError>
    ensures { OnOk result (out.new.items ≡ out.old.items ++ term_text (Term.Literal literal.now)) }
{
    append_text("\"", out)?;
    append_quoted(literal.text(), out)?;
    append_text("\"", out)?;
    append_type(literal.kind(), out)
}

// Appends a term.
fn append_term(term: &Term, out: &mut Vec<u8>) -> Result<(), AllocError>
    ensures { OnOk result (out.new.items ≡ out.old.items ++ term_text term.now) }
{
    match term {
        Term::Iri(iri) => append_iri(iri, out),
        Term::Blank(label) => {
            append_text("_:", out)?;
            append_text(label.as_str(), out)
        }
        Term::Literal(literal) => append_literal(literal, out),
    }
}

// Appends the line of a triple.
#[tactic(auto, unfolding(ntriples_dm::specs::Written::triple_text))]
fn append_triple(triple: &Triple, out: &mut Vec<u8>) -> Result<(), AllocError>
    ensures { OnOk result (out.new.items ≡ out.old.items ++ triple_text triple.now) }
{
    append_term(triple.subject(), out)?;
    append_text(" ", out)?;
    append_iri(triple.predicate(), out)?;
    append_text(" ", out)?;
    append_term(triple.object(), out)?;
    append_text(" .\n", out)
}

// Gathers the line of a triple on the page.
fn put_triple<K: Sink>(triple: &Triple, page: &mut Vec<u8>, out: &mut K) -> Result<(), PutError>
    ensures { Streams (triple_text triple.now) (K.state out.old) page.old.items (K.state out.new) page.new.items result }
{
    let Ok(()) = append_triple(triple, page) else {
        return Err(PutError::Memory);
    };
    put_if_full(page, out)
}

// Gathers the lines of triples on the page.
fn put_all<K: Sink>(triples: &[Triple], page: &mut Vec<u8>, out: &mut K) -> Result<(), PutError>
    ensures { Streams (flat_map triple_text triples.now) (K.state out.old) page.old.items (K.state out.new) page.new.items result }
{
    for triple in triples {
        put_triple(triple, page, out)?;
    }
    Ok(())
}

/// Puts the lines of triples in order, each as `ntriples_dm`'s `triple_text` gives it. They are gathered on a page of about 64 KiB,
/// which is all the memory that the call takes beside the longest line.
///
/// After a refusal a prefix of that text was put. `Failed` comes only where the sink's faults rose, `Memory` for want of
/// memory alone.
pub fn write_triples<K: Sink>(
    alloc: Global,
    triples: &[Triple],
    out: &mut K,
) -> Result<(), PutError>
    ensures { Writes (flat_map triple_text triples.now) (K.state out.old) (K.state out.new) result }
{
    let mut page = Vec::new(alloc);
    put_all(triples, &mut page, out)?;
    put_rest(page.as_slice(), out)
}
