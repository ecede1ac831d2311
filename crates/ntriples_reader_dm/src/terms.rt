// Terms at the front of a text, for readers of other grammars.
ghost use Rattle.std.specs.Prelude.{◌≡◌, ◌≤◌, chars, length, IfOk, IfSome, IsUtf8};
ghost use Rattle.names_dm.specs.Literals.{LiteralValue};
ghost use Rattle.ntriples_reader_dm.specs.Front.{IsFront, as_term, iri_seen, literal_seen};
ghost use Rattle.ntriples_reader_dm.specs.Grammar.{iri_ref, literal};
ghost use Rattle.ntriples_reader_dm.specs.Reading.{iri_at, longest_literal, longest_type, written_type};
ghost use Rattle.ntriples_reader_dm.specs.Views.{AreClasses, Gives};

use crate::classes::{Classes, iri_class, quoted_class};
use crate::fault::LineFault;
use crate::line::{quoted, tagged, typed};
use crate::names::iri;
use crate::text::{begins, skip};
use names_dm::{Iri, Literal, LiteralType};
use std::alloc::{AllocError, Global};

// A datatype or a tag.
fn written_type<'a>(
    alloc: Global,
    classes: &Classes,
    text: &'a str,
) -> Result<(LiteralType, &'a str), LineFault>
    requires { AreClasses classes.now }
    ensures seen { Gives (λ x. (x.0, chars x.1.now)) result (written_type (chars text.now)) }
    ensures utf8 { IfOk result (λ x. IsUtf8 x.1.now) }
{
    if begins(text, '^') {
        typed(alloc, classes, text)
    } else {
        tagged(alloc, text)
    }
}

// The longest type behind quotes.
#[tactic(auto, unfolding(crate::specs::Reading::longest_type))]
fn longest_type<'a>(
    alloc: Global,
    classes: &Classes,
    text: &'a str,
) -> Result<(LiteralType, &'a str), AllocError>
    requires { AreClasses classes.now }
    ensures seen { IfOk result (λ x. (x.0, chars x.1.now) ≡ longest_type (chars text.now)) }
    ensures utf8 { IfOk result (λ x. IsUtf8 x.1.now) }
{
    match written_type(alloc, classes, skip(text)) {
        Ok((kind, rest)) => Ok((kind, rest)),
        Err(LineFault::Bad) => Ok((LiteralType::Plain, text)),
        Err(LineFault::Memory) => Err(AllocError),
    }
}

/// The IRI in brackets (IRIREF of RDF 1.1 N-Triples, section 7) that stands at the front of a text, and the text behind it, if
/// one stands there. Refused for want of memory alone.
pub fn iri_in_front(alloc: Global, text: &str) -> Result<Option<(Iri, &str)>, AllocError>
    ensures front { IfOk result (λ x. IsFront iri_ref (chars text.now) (iri_seen x)) }
    ensures seen { IfOk result (λ x. iri_seen x ≡ iri_at (chars text.now)) }
    ensures utf8 { IfOk result (λ x. IfSome x (λ y. IsUtf8 y.1.now)) }
{
    match iri(alloc, &iri_class(), text) {
        Ok((iri, rest)) => Ok(Some((iri, rest))),
        Err(LineFault::Bad) => Ok(None),
        Err(LineFault::Memory) => Err(AllocError),
    }
}

/// The longest literal (RDF 1.1 N-Triples, section 7) that stands at the front of a text, and the text behind it, if one stands
/// there. Blanks may stand before `^^`, behind it and before `@`. Refused for want of memory alone.
#[tactic(auto, unfolding(crate::specs::Reading::longest_literal))]
pub fn literal_in_front(alloc: Global, text: &str) -> Result<Option<(Literal, &str)>, AllocError>
    ensures front { IfOk result (λ x. IsFront literal (chars text.now) (as_term (literal_seen x))) }
    ensures seen { IfOk result (λ x. literal_seen x ≡ longest_literal (chars text.now)) }
    ensures utf8 { IfOk result (λ x. IfSome x (λ y. IsUtf8 y.1.now)) }
{
    let classes = Classes {
        iri: iri_class(),
        quoted: quoted_class(),
    };
    match quoted(alloc, &classes, text) {
        Ok((letters, rest)) => {
            let (kind, rest) = longest_type(alloc, &classes, rest)?;
            Ok(Some((Literal::new(letters, kind), rest)))
        }
        Err(LineFault::Bad) => Ok(None),
        Err(LineFault::Memory) => Err(AllocError),
    }
}
