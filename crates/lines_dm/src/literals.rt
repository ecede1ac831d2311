ghost use Rattle.std.specs.Prelude.{◌≡◌, ◌+◌, ◌<◌, ◌++◌, ◌∷◌, ℕ, IsTrue, OnOk, codes, drop, length};
ghost use Rattle.std.specs.List.{flat_map};
ghost use Rattle.lanes_dm.specs.ByteSet.{has_byte};
ghost use Rattle.value_dm.specs.Lexical.{lexical_form};
ghost use Rattle.ntriples_dm.specs.Written.{escaped, is_escaped, quoted_text, type_text};
ghost use Rattle.facts_dm.specs.Vocabulary.{literal_type};

use itoa::Buffer;
use lanes_dm::{ByteClass, first_of};
use std::alloc::{AllocError, Global};
use value_dm::{Kind, Text, Value, lexical};

// The bytes that can't stand for themselves inside quotes.
fn escaped_bytes() -> ByteClass
    ensures { (b : ℕ) → has_byte result b ≡ is_escaped b }
{
    ByteClass::new()
        .with(b'"')
        .with(b'\\')
        .with(b'\n')
        .with(b'\r')
}

// What stands for such a byte.
#[tactic(auto, unfolding(ntriples_dm::specs::Written::escaped))]
fn escape(b: u8) -> &'static str
    requires { IsTrue (is_escaped b) }
    ensures { result.now ≡ escaped b }
{
    match b {
        b'"' => "\\\"",
        b'\\' => "\\\\",
        b'\n' => "\\n",
        _ => "\\r",
    }
}

// Appends bytes that stand for themselves, and the escape of the byte behind them.
fn append_run(run: &[u8], b: u8, out: &mut Vec<u8>) -> Result<(), AllocError>
    requires { IsTrue (is_escaped b) }
    ensures { OnOk result (out.new.items ≡ out.old.items ++ (run.now ++ escaped b)) }
{
    out.extend_from_slice(run)?;
    out.extend_from_slice(escape(b).as_bytes())
}

// The bytes behind the one at this place.
fn behind(bytes: &[u8], place: usize) -> &[u8]
    requires { place < length bytes.now }
    ensures { result.now ≡ drop (place + 1) bytes.now }
{
    &bytes[place + 1..]
}

// Appends the bytes of a text as they stand inside quotes.
fn append_escaped(bytes: &[u8], out: &mut Vec<u8>) -> Result<(), AllocError>
    ensures { OnOk result (out.new.items ≡ out.old.items ++ flat_map escaped bytes.now) }
{
    let class = escaped_bytes();
    let mut rest = bytes;
    while let Some(place) = first_of(rest, &class) {
        append_run(&rest[..place], rest[place], out)?;
        rest = behind(rest, place);
    }
    out.extend_from_slice(rest)
}

// Appends a text as it stands inside quotes.
pub(crate) fn append_quoted(text: &Text, out: &mut Vec<u8>) -> Result<(), AllocError>
    ensures { OnOk result (out.new.items ≡ out.old.items ++ quoted_text text.now) }
{
    append_escaped(text.as_str().as_bytes(), out)
}

// Appends an integer.
fn append_integer(number: i64, out: &mut Vec<u8>) -> Result<(), AllocError>
    ensures { OnOk result (out.new.items ≡ out.old.items ++ quoted_text (lexical_form (Value.Integer number))) }
{
    let mut digits = Buffer::new();
    append_escaped(digits.format(number).as_bytes(), out)
}

/// Appends the lexical form of a value as it stands inside quotes. Refused for want of memory alone.
pub fn append_value(alloc: Global, value: &Value, out: &mut Vec<u8>) -> Result<(), AllocError>
    ensures { OnOk result (out.new.items ≡ out.old.items ++ quoted_text (lexical_form value.now)) }
{
    match value {
        Value::Text(text) => append_quoted(text, out),
        Value::Integer(number) => append_integer(*number, out),
        _ => {
            let form = lexical(alloc, value)?;
            append_escaped(form.as_bytes(), out)
        }
    }
}

/// What stands behind the text of a literal of this kind, up to the end of its line.
pub fn line_end(kind: Kind) -> &'static str
    ensures { result.now ≡ 34 ∷ type_text (literal_type kind) ++ codes " .\n" }
{
    match kind {
        Kind::Text => "\" .\n",
        Kind::Integer => "\"^^<http://www.w3.org/2001/XMLSchema#integer> .\n",
        Kind::Decimal => "\"^^<http://www.w3.org/2001/XMLSchema#decimal> .\n",
        Kind::Boolean => "\"^^<http://www.w3.org/2001/XMLSchema#boolean> .\n",
        Kind::Date => "\"^^<http://www.w3.org/2001/XMLSchema#date> .\n",
        Kind::Time => "\"^^<http://www.w3.org/2001/XMLSchema#time> .\n",
        Kind::DateTime => "\"^^<http://www.w3.org/2001/XMLSchema#dateTime> .\n",
        Kind::Binary => "\"^^<http://www.w3.org/2001/XMLSchema#hexBinary> .\n",
    }
}
