ghost use Rattle.std.specs.Prelude.{◌≡◌, ◌++◌, Some, Option, IfOk, MatchBool, chars, codes, encode_utf8_all, string_bytes};
ghost use Rattle.value_dm.specs.Kinds.{IsOfKind, kind_of};
ghost use Rattle.value_dm.specs.Lexical.{canonical_field, escaped};
ghost use Rattle.value_dm.specs.Reading.{BeginsWithBackslash};
ghost use Rattle.value_dm.specs.Spelling.{Spells, mode_plain};
ghost use Rattle.value_dm.specs.Written.{Writes};
ghost use Rattle.value_dm.specs.declared.kind.Kind.{Kind as AnyKind};

use crate::canonical::lexical;
use crate::kind::Kind;
use crate::value::{Cell, Value};
use std::alloc::{AllocError, Global};

/// The canonical field of the cell: `\N` for NULL, a text with its first backslash doubled where it
/// begins with one, `\x` and the lexical form for a binary value, and else the lexical form. In the
/// mode Plain it stands for the cell. Refused for want of memory alone.
pub fn field_text(alloc: Global, cell: &Cell) -> Result<String, AllocError>
    ensures bytes { IfOk result (λ field. string_bytes field ≡ encode_utf8_all (canonical_field cell.now)) }
    ensures characters { IfOk result (λ field. chars (string_bytes field) ≡ canonical_field cell.now) }
    ensures spells { (kind : AnyKind) → IsOfKind kind cell.now → Spells kind (canonical_field cell.now) mode_plain cell.now }
{
    match cell {
        None => null_field(alloc),
        Some(value) => value_field(alloc, value),
    }
}

fn null_field(alloc: Global) -> Result<String, AllocError>
    ensures { IfOk result (λ field. Writes (string_bytes field) (codes "\\N")) }
{
    String::from_str(alloc, "\\N")
}

fn value_field(alloc: Global, value: &Value) -> Result<String, AllocError>
    ensures written { IfOk result (λ field. Writes (string_bytes field) (canonical_field (Some value.now))) }
    ensures spells { Spells (kind_of value.now) (canonical_field (Some value.now)) mode_plain (Some value.now) }
{
    let form = lexical(alloc, value)?;
    match value.kind() {
        Kind::Text => escaped_field(alloc, form),
        Kind::Binary => marked_field(alloc, form),
        _ => Ok(form),
    }
}

// A text with its first backslash doubled where it begins with one.
fn escaped_field(alloc: Global, text: String) -> Result<String, AllocError>
    ensures { IfOk result (λ field. Writes (string_bytes field) (escaped (chars (string_bytes text)))) }
{
    if !has_backslash(text.as_str().as_bytes()) {
        return Ok(text);
    }
    let mut field = String::from_str(alloc, "\\")?;
    field.push_str(text.as_str())?;
    Ok(field)
}

fn has_backslash(text: &[u8]) -> bool
    ensures { MatchBool result (BeginsWithBackslash text.now) (¬ BeginsWithBackslash text.now) }
{
    if text.len() == 0 {
        return false;
    }
    text[0] == b'\\'
}

// Hexadecimal digits behind their mark.
fn marked_field(alloc: Global, digits: String) -> Result<String, AllocError>
    ensures { IfOk result (λ field. Writes (string_bytes field) (codes "\\x" ++ chars (string_bytes digits))) }
{
    let mut field = String::from_str(alloc, "\\x")?;
    field.push_str(digits.as_str())?;
    Ok(field)
}
