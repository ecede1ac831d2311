// Sets of bytes at which a scan stops.
ghost use Rattle.std.specs.Prelude.{◌≡◌, ◌||◌, ◌==◌, ℕ, nat_lt};
ghost use Rattle.lanes_dm.specs.ByteSet.{has_byte};
ghost use Rattle.ntriples_reader_dm.specs.Views.{special};
ghost use Rattle.ntriples_reader_dm.specs.Lines.{is_end};

use lanes_dm::ByteClass;

/// Which characters a text is made of.
#[derive(Clone, Copy, Debug, Drop)]
pub(crate) enum Kind {
    /// Those of an IRI.
    Iri,
    /// Those inside quotes.
    Quoted,
}

// The bytes up to a space.
fn controls() -> ByteClass
    ensures { (x : ℕ) → has_byte result x ≡ nat_lt x 33 }
{
    let mut class = ByteClass::new();
    for b in 0..33 {
        class = class.with(b);
    }
    class
}

/// What can't stand for itself in an IRI.
pub(crate) fn iri_class() -> ByteClass
    ensures { (x : ℕ) → has_byte result x ≡ special Kind.Iri x }
{
    controls()
        .with(b'<')
        .with(b'>')
        .with(b'"')
        .with(b'{')
        .with(b'}')
        .with(b'|')
        .with(b'^')
        .with(b'`')
        .with(b'\\')
}

/// What can't stand for itself inside quotes.
pub(crate) fn quoted_class() -> ByteClass
    ensures { (x : ℕ) → has_byte result x ≡ special Kind.Quoted x }
{
    ByteClass::new()
        .with(b'"')
        .with(b'\\')
        .with(b'\n')
        .with(b'\r')
}

/// What ends a line.
pub(crate) fn end_class() -> ByteClass
    ensures { (x : ℕ) → has_byte result x ≡ is_end x }
{
    ByteClass::new().with(b'\n').with(b'\r')
}

/// The sets, made once.
#[derive(Drop)]
pub(crate) struct Classes {
    pub iri: ByteClass,
    pub quoted: ByteClass,
}
