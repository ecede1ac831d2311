ghost use Rattle.std.specs.Prelude.{◌≡◌, ◌++◌, IfOk, OnOk, chars, encode_utf8_all, string_bytes};
ghost use Rattle.ntriples_dm.specs.Written.{escaped, iri_text, quoted_text, term_text, triple_text, type_text};

use names_dm::{Iri, LiteralType, Term, Triple};
use std::alloc::{AllocError, Global};

// Adds a character as it stands inside quotes.
#[tactic(auto, unfolding(crate::specs::Written::escaped))]
fn push_escaped(out: &mut String, c: char) -> Result<(), AllocError>
    ensures { OnOk result (string_bytes out.new ≡ string_bytes out.old ++ encode_utf8_all (escaped c)) }
{
    match c {
        '"' => out.push_str("\\\""),
        '\\' => out.push_str("\\\\"),
        '\n' => out.push_str("\\n"),
        '\r' => out.push_str("\\r"),
        _ => out.push(c),
    }
}

// Adds a text as it stands inside quotes.
fn push_quoted(out: &mut String, text: &str) -> Result<(), AllocError>
    ensures { OnOk result (string_bytes out.new ≡ string_bytes out.old ++ quoted_text (chars text.now)) }
{
    for c in text.chars() {
        push_escaped(out, c)?;
    }
    Ok(())
}

// Adds an IRI in its brackets.
fn push_iri(out: &mut String, iri: &Iri) -> Result<(), AllocError>
    ensures { OnOk result (string_bytes out.new ≡ string_bytes out.old ++ iri_text iri.now) }
{
    out.push_str("<")?;
    out.push_str(iri.as_str())?;
    out.push_str(">")?;
    Ok(())
}

// Adds what stands behind the quotes of a literal.
fn push_type(out: &mut String, kind: &LiteralType) -> Result<(), AllocError>
    ensures { OnOk result (string_bytes out.new ≡ string_bytes out.old ++ type_text kind.now) }
{
    match kind {
        LiteralType::Plain => Ok(()),
        LiteralType::Typed(datatype) => {
            out.push_str("^^")?;
            push_iri(out, datatype)
        }
        LiteralType::Tagged(tag) => {
            out.push_str("@")?;
            out.push_str(tag.as_str())
        }
    }
}

// Adds the written form of a term.
fn push_term(out: &mut String, term: &Term) -> Result<(), AllocError>
    ensures { OnOk result (string_bytes out.new ≡ string_bytes out.old ++ term_text term.now) }
{
    match term {
        Term::Iri(iri) => push_iri(out, iri),
        Term::Blank(label) => {
            out.push_str("_:")?;
            out.push_str(label.as_str())
        }
        Term::Literal(literal) => {
            out.push_str("\"")?;
            push_quoted(out, literal.text().as_str())?;
            out.push_str("\"")?;
            push_type(out, literal.kind())
        }
    }
}

/// The written form of a term (RDF 1.1 N-Triples, section 4): an IRI in its brackets, a label behind `_:`, a literal in
/// quotes with its datatype or tag behind them. Inside quotes `"`, `\`, LF and CR are escaped, and nothing else. Refused
/// for want of memory alone.
pub fn term_text(alloc: Global, term: &Term) -> Result<String, AllocError>
    ensures { IfOk result (λ text. string_bytes text ≡ term_text term.now) }
{
    let mut text = String::new(alloc);
    push_term(&mut text, term)?;
    Ok(text)
}

/// The line of a triple (RDF 1.1 N-Triples, section 4): its three terms with a space behind each, a full stop and LF.
/// Refused for want of memory alone.
#[tactic(auto, unfolding(crate::specs::Written::triple_text))]
pub fn triple_text(alloc: Global, triple: &Triple) -> Result<String, AllocError>
    ensures { IfOk result (λ line. string_bytes line ≡ triple_text triple.now) }
{
    let mut line = String::new(alloc);
    push_term(&mut line, triple.subject())?;
    line.push_str(" ")?;
    push_iri(&mut line, triple.predicate())?;
    line.push_str(" ")?;
    push_term(&mut line, triple.object())?;
    line.push_str(" .\n")?;
    Ok(line)
}
