ghost use Rattle.std.specs.Prelude.{◌≡◌, ◌+◌, ◌<◌, ◌++◌, ◌∷◌, ℕ, IsTrue, codes, drop, length};
ghost use Rattle.std.specs.List.{flat_map};
ghost use Rattle.lanes_dm.specs.ByteSet.{has_byte};
ghost use Rattle.outside_dm.specs.Putting.{Passes};
ghost use Rattle.ntriples_dm.specs.Written.{escaped, iri_text, is_escaped, quoted_text, term_text, triple_text, type_text};

use lanes_dm::{ByteClass, first_of};
use names_dm::{Iri, Literal, LiteralType, Term, Triple};
use outside_dm::{PutError, Sink};
use std::alloc::Global;
use value_dm::Text;

// Puts a piece.
fn put_piece<K: Sink>(piece: &str, out: &mut K) -> Result<(), PutError>
    ensures { Passes piece.now (K.state out.old) (K.state out.new) result }
{
    out.put(piece.as_bytes())
}

// Puts the pieces in order.
fn put_all<K: Sink>(pieces: &[&str], out: &mut K) -> Result<(), PutError>
    ensures { Passes (flat_map (λ piece. piece.now) pieces.now) (K.state out.old) (K.state out.new) result }
{
    for piece in pieces {
        put_piece(piece, out)?;
    }
    Ok(())
}

// The bytes that can't stand for themselves inside quotes.
fn escaped_bytes() -> ByteClass
    ensures { (b : ℕ) → has_byte result b ≡ is_escaped b }
{
    ByteClass::new()
        .with(b'"')
        .with(b'\\')
        .with(b'\n')
        .with(b'\r')
}

// What stands for such a byte.
#[tactic(auto, unfolding(crate::specs::Written::escaped))]
fn escape(b: u8) -> &'static str
    requires { IsTrue (is_escaped b) }
    ensures { result.now ≡ escaped b }
{
    match b {
        b'"' => "\\\"",
        b'\\' => "\\\\",
        b'\n' => "\\n",
        _ => "\\r",
    }
}

// Puts bytes that stand for themselves, and the escape of the byte behind them.
fn put_run<K: Sink>(run: &[u8], b: u8, out: &mut K) -> Result<(), PutError>
    requires { IsTrue (is_escaped b) }
    ensures { Passes (run.now ++ escaped b) (K.state out.old) (K.state out.new) result }
{
    out.put(run)?;
    put_piece(escape(b), out)
}

// The bytes behind the one at this place.
fn behind(bytes: &[u8], place: usize) -> &[u8]
    requires { place < length bytes.now }
    ensures { result.now ≡ drop (place + 1) bytes.now }
{
    &bytes[place + 1..]
}

// Puts the bytes of a text as they stand inside quotes.
fn put_escaped<K: Sink>(bytes: &[u8], out: &mut K) -> Result<(), PutError>
    ensures { Passes (flat_map escaped bytes.now) (K.state out.old) (K.state out.new) result }
{
    let class = escaped_bytes();
    let mut rest = bytes;
    while let Some(place) = first_of(rest, &class) {
        put_run(&rest[..place], rest[place], out)?;
        rest = behind(rest, place);
    }
    out.put(rest)
}

// Puts a text as it stands inside quotes.
fn put_quoted<K: Sink>(text: &Text, out: &mut K) -> Result<(), PutError>
    ensures { Passes (quoted_text text.now) (K.state out.old) (K.state out.new) result }
{
    put_escaped(text.as_str().as_bytes(), out)
}

// Puts the closing quotation mark, and what stands behind it.
fn put_type<K: Sink>(kind: &LiteralType, out: &mut K) -> Result<(), PutError>
    ensures { Passes (34 ∷ type_text kind.now) (K.state out.old) (K.state out.new) result }
{
    match kind {
        LiteralType::Plain => put_all(&["\""], out),
        LiteralType::Typed(datatype) => put_all(&["\"^^<", datatype.as_str(), ">"], out),
        LiteralType::Tagged(tag) => put_all(&["\"@", tag.as_str()], out),
    }
}

// Puts a literal.
fn put_literal<K: Sink>(literal: &Literal, out: &mut K) -> Result<(), PutError>
    ensures { Passes (term_text (Term.Literal literal.now)) (K.state out.old) (K.state out.new) result }
{
    put_piece("\"", out)?;
    put_quoted(literal.text(), out)?;
    put_type(literal.kind(), out)
}

// Puts a term.
fn put_term<K: Sink>(term: &Term, out: &mut K) -> Result<(), PutError>
    ensures { Passes (term_text term.now) (K.state out.old) (K.state out.new) result }
{
    match term {
        Term::Iri(iri) => put_all(&["<", iri.as_str(), ">"], out),
        Term::Blank(label) => put_all(&["_:", label.as_str()], out),
        Term::Literal(literal) => put_literal(literal, out),
    }
}

// Puts a predicate, with the space on both sides.
fn put_predicate<K: Sink>(predicate: &Iri, out: &mut K) -> Result<(), PutError>
    ensures { Passes (codes " " ++ (iri_text predicate.now ++ codes " ")) (K.state out.old) (K.state out.new) result }
{
    put_all(&[" <", predicate.as_str(), "> "], out)
}

/// Puts the line of a triple, piece by piece: exactly what `triple_text` gives. After a refusal a prefix of it was put.
/// `Failed` comes only where the sink's faults rose, and `Memory` only where its shortages did: it takes no memory itself.
pub fn write_triple<K: Sink>(_alloc: Global, triple: &Triple, out: &mut K) -> Result<(), PutError>
    ensures { Passes (triple_text triple.now) (K.state out.old) (K.state out.new) result }
{
    put_term(triple.subject(), out)?;
    put_predicate(triple.predicate(), out)?;
    put_term(triple.object(), out)?;
    put_piece(" .\n", out)
}
