ghost use Rattle.std.specs.Prelude.{◌≡◌, ◌≢◌, ◌⊎◌, ◌↔◌, MatchBool, Option, Err, IfOk, IsTrue, chars};
ghost use Rattle.value_dm.specs.Reading.{BeginsWithTwoBackslashes};
ghost use Rattle.value_dm.specs.Spelling.{IsNull, Spells, unescaped};
ghost use Rattle.value_dm.specs.declared.value.Value.{Value as AnyValue};

use crate::canonical::read_value;
use crate::errors::ValueError;
use crate::kind::Kind;
use crate::mode::NullMode;
use crate::value::Cell;
use std::alloc::Global;

/// The cell that a field of a column of this kind stands for: NULL, or a value by a spelling of the
/// kind.
///
/// - `BadValue` exactly where the field is neither NULL nor a spelling of the kind.
/// - `Memory` for want of memory.
pub fn read_field(alloc: Global, kind: Kind, text: &str, mode: NullMode) -> Result<Cell, ValueError>
    ensures ok { IfOk result (Spells kind (chars text.now) mode) }
    ensures bad { result ≡ Err ValueError.BadValue → (cell : Option AnyValue) → ¬ Spells kind (chars text.now) mode cell }
    ensures one { (first second : Option AnyValue) → Spells kind (chars text.now) mode first →
        Spells kind (chars text.now) mode second → first ≡ second }
{
    if is_null(kind, text, mode) {
        return Ok(None);
    }
    match read_value(alloc, kind, without_escape(kind, text)) {
        Ok(value) => Ok(Some(value)),
        Err(error) => Err(error),
    }
}

fn is_null(kind: Kind, text: &str, mode: NullMode) -> bool
    ensures { IsTrue result ↔ IsNull kind (chars text.now) mode }
{
    if text == "\\N" {
        return true;
    }
    if text != "" {
        return false;
    }
    empty_is_null(kind, mode)
}

fn empty_is_null(kind: Kind, mode: NullMode) -> bool
    ensures { IsTrue result ↔ ((kind ≢ Kind.Text) ⊎ (mode ≡ NullMode.EmptyNull)) }
{
    match kind {
        Kind::Text => mode == NullMode::EmptyNull,
        _ => true,
    }
}

// The text of a field, where one that begins with two backslashes loses one.
fn without_escape(kind: Kind, text: &str) -> &str
    ensures { chars result.now ≡ unescaped kind (chars text.now) }
{
    match kind {
        Kind::Text => without_backslash(text),
        _ => text,
    }
}

fn without_backslash(text: &str) -> &str
    ensures { chars result.now ≡ unescaped Kind.Text (chars text.now) }
{
    if has_two_backslashes(text.as_bytes()) {
        &text[1..]
    } else {
        text
    }
}

fn has_two_backslashes(text: &[u8]) -> bool
    ensures { MatchBool result (BeginsWithTwoBackslashes text.now) (¬ BeginsWithTwoBackslashes text.now) }
{
    if text.len() < 2 {
        return false;
    }
    if text[0] != b'\\' {
        return false;
    }
    text[1] == b'\\'
}
