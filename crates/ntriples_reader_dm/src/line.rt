// A line: a triple, a comment, or nothing.
ghost use Rattle.std.specs.Prelude.{◌≡◌, ℕ, chars, IfOk, IsUtf8, IsTrue, not, Some, None};
ghost use Rattle.names_dm.specs.Statements.{is_literal};
ghost use Rattle.lanes_dm.specs.ByteSet.{has_byte};
ghost use Rattle.ntriples_reader_dm.specs.Reading.{begins, ended, skip, quoted_at, typed_at, tagged_at, type_at, literal_at, subject_at, object_at, triple_at, line_at};
ghost use Rattle.ntriples_reader_dm.specs.Views.{Gives, IsLineAnswer, special, AreClasses};

use crate::classes::{Classes, Kind};
use crate::fault::LineFault;
use crate::inside::inside;
use crate::names::{iri, label, tag};
use crate::text::{begins, behind, first_char, skip};
use names_dm::{Literal, LiteralType, Term, Triple};
use std::alloc::Global;
use value_dm::Text;

/// A text in quotes.
#[tactic(auto, unfolding(crate::specs::Reading::quoted_at))]
pub(crate) fn quoted<'a>(
    alloc: Global,
    classes: &Classes,
    text: &'a str,
) -> Result<(Text, &'a str), LineFault>
    requires { AreClasses classes.now }
    ensures seen { Gives (λ x. (x.0, chars x.1.now)) result (quoted_at (chars text.now)) }
    ensures utf8 { IfOk result (λ x. IsUtf8 x.1.now) }
{
    let rest = behind(text, '"')?;
    inside(alloc, Kind::Quoted, &classes.quoted, rest)
}

/// `^^` and a datatype.
pub(crate) fn typed<'a>(
    alloc: Global,
    classes: &Classes,
    text: &'a str,
) -> Result<(LiteralType, &'a str), LineFault>
    requires { AreClasses classes.now }
    ensures seen { Gives (λ x. (x.0, chars x.1.now)) result (typed_at (chars text.now)) }
    ensures utf8 { IfOk result (λ x. IsUtf8 x.1.now) }
{
    let rest = behind(text, '^')?;
    let rest = behind(rest, '^')?;
    let (datatype, rest) = iri(alloc, &classes.iri, skip(rest))?;
    Ok((LiteralType::Typed(datatype), rest))
}

/// A tag with its `@`.
pub(crate) fn tagged(alloc: Global, text: &str) -> Result<(LiteralType, &str), LineFault>
    ensures seen { Gives (λ x. (x.0, chars x.1.now)) result (tagged_at (chars text.now)) }
    ensures utf8 { IfOk result (λ x. IsUtf8 x.1.now) }
{
    let (tag, rest) = tag(alloc, text)?;
    Ok((LiteralType::Tagged(tag), rest))
}

#[tactic(auto, unfolding(crate::specs::Reading::type_at))]
fn kind<'a>(
    alloc: Global,
    classes: &Classes,
    text: &'a str,
) -> Result<(LiteralType, &'a str), LineFault>
    requires { AreClasses classes.now }
    ensures seen { Gives (λ x. (x.0, chars x.1.now)) result (type_at (chars text.now)) }
    ensures utf8 { IfOk result (λ x. IsUtf8 x.1.now) }
{
    if begins(text, '^') {
        typed(alloc, classes, text)
    } else if begins(text, '@') {
        tagged(alloc, text)
    } else {
        Ok((LiteralType::Plain, text))
    }
}

#[tactic(auto, unfolding(crate::specs::Reading::literal_at))]
fn literal<'a>(
    alloc: Global,
    classes: &Classes,
    text: &'a str,
) -> Result<(Term, &'a str), LineFault>
    requires { AreClasses classes.now }
    ensures seen { Gives (λ x. (x.0, chars x.1.now)) result (literal_at (chars text.now)) }
    ensures utf8 { IfOk result (λ x. IsUtf8 x.1.now) }
{
    let (letters, rest) = quoted(alloc, classes, text)?;
    let (kind, rest) = kind(alloc, classes, skip(rest))?;
    Ok((Term::Literal(Literal::new(letters, kind)), rest))
}

#[tactic(auto, unfolding(crate::specs::Reading::subject_at))]
fn subject<'a>(
    alloc: Global,
    classes: &Classes,
    text: &'a str,
) -> Result<(Term, &'a str), LineFault>
    requires { AreClasses classes.now }
    ensures seen { Gives (λ x. (x.0, chars x.1.now)) result (subject_at (chars text.now)) }
    ensures utf8 { IfOk result (λ x. IsUtf8 x.1.now) }
{
    if begins(text, '<') {
        let (iri, rest) = iri(alloc, &classes.iri, text)?;
        Ok((Term::Iri(iri), rest))
    } else {
        let (label, rest) = label(alloc, text)?;
        Ok((Term::Blank(label), rest))
    }
}

#[tactic(auto, unfolding(crate::specs::Reading::object_at))]
fn object<'a>(alloc: Global, classes: &Classes, text: &'a str) -> Result<(Term, &'a str), LineFault>
    requires { AreClasses classes.now }
    ensures seen { Gives (λ x. (x.0, chars x.1.now)) result (object_at (chars text.now)) }
    ensures utf8 { IfOk result (λ x. IsUtf8 x.1.now) }
{
    if begins(text, '"') {
        literal(alloc, classes, text)
    } else {
        subject(alloc, classes, text)
    }
}

// The triple of terms of which the first is no literal.
fn whole(subject: Term, predicate: names_dm::Iri, object: Term) -> Result<Triple, LineFault>
    requires { IsTrue (not (is_literal subject)) }
    ensures { Gives (λ t. t) result (Some (record { subject = subject; predicate = predicate; object = object })) }
{
    match Triple::new(subject, predicate, object) {
        Some(triple) => Ok(triple),
        None => Err(LineFault::Bad),
    }
}

#[tactic(auto, unfolding(crate::specs::Reading::triple_at))]
fn triple<'a>(
    alloc: Global,
    classes: &Classes,
    text: &'a str,
) -> Result<(Triple, &'a str), LineFault>
    requires { AreClasses classes.now }
    ensures seen { Gives (λ x. (x.0, chars x.1.now)) result (triple_at (chars text.now)) }
    ensures utf8 { IfOk result (λ x. IsUtf8 x.1.now) }
{
    let (subject, rest) = subject(alloc, classes, text)?;
    let (predicate, rest) = iri(alloc, &classes.iri, skip(rest))?;
    let (object, rest) = object(alloc, classes, skip(rest))?;
    let rest = behind(skip(rest), '.')?;
    Ok((whole(subject, predicate, object)?, rest))
}

// Whether nothing is left but a comment.
fn ended(text: &str) -> bool
    ensures { result ≡ ended (chars text.now) }
{
    match first_char(text) {
        Some((first, _)) => first == '#',
        None => true,
    }
}

#[tactic(auto, unfolding(crate::specs::Reading::line_at))]
fn content(alloc: Global, classes: &Classes, text: &str) -> Result<Option<Triple>, LineFault>
    requires { AreClasses classes.now }
    ensures { Gives (λ x. x) result (line_at (chars text.now)) }
{
    let text = skip(text);
    if ended(text) {
        return Ok(None);
    }
    let (triple, rest) = triple(alloc, classes, text)?;
    if ended(skip(rest)) {
        Ok(Some(triple))
    } else {
        Err(LineFault::Bad)
    }
}

/// What a line of bytes says.
pub(crate) fn line(
    alloc: Global,
    classes: &Classes,
    bytes: &[u8],
) -> Result<Option<Triple>, LineFault>
    requires { AreClasses classes.now }
    ensures { IsLineAnswer bytes.now result }
{
    match str::from_utf8(bytes) {
        Ok(text) => content(alloc, classes, text),
        Err(_) => Err(LineFault::Bad),
    }
}
