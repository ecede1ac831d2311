ghost use Rattle.std.specs.Prelude.{◌≡◌, ◌≢◌, List, ℕ, FitsSigned, Err, IfOk, MatchOption, chars, encode_utf8_all, string_bytes};
ghost use Rattle.std.specs.Int.{w64};
ghost use Rattle.std.specs.Fmt.{signed_decimal};
ghost use Rattle.hex.specs.Hex.{IsBytes, encode_upper};
ghost use Rattle.value_dm.specs.Kinds.{kind_of};
ghost use Rattle.value_dm.specs.Lawful.{IsLawful};
ghost use Rattle.value_dm.specs.Lexical.{lexical_form};
ghost use Rattle.value_dm.specs.Spelling.{SpellsBinary, SpellsValue};
ghost use Rattle.value_dm.specs.Written.{Writes};
ghost use Rattle.value_dm.specs.declared.value.Value.{Value as AnyValue};

use crate::binary::read_binary;
use crate::boolean::read_boolean;
use crate::bytes::Bytes;
use crate::calendar_text::{read_date, read_date_time, read_time};
use crate::errors::ValueError;
use crate::forms::{boolean_form, date_form, date_time_form, decimal_form, time_form};
use crate::kind::Kind;
use crate::number::{read_decimal, read_integer};
use crate::text::Text;
use crate::value::Value;
use std::alloc::{AllocError, Global};

/// The canonical lexical form of the value: one text for each value of a kind, a form of the
/// datatype that R2RML's natural mapping gives the kind (XML Schema 1.1 part 2; for a text the text
/// itself). Refused for want of memory alone.
pub fn lexical(alloc: Global, value: &Value) -> Result<String, AllocError>
    ensures bytes { IfOk result (λ form. string_bytes form ≡ encode_utf8_all (lexical_form value.now)) }
    ensures characters { IfOk result (λ form. chars (string_bytes form) ≡ lexical_form value.now) }

    // A value is lawful by its type, and of lawful values of a kind no two have one form.
    ensures lawful { IsLawful value.now }
    ensures determines { (other : AnyValue) → IsLawful other → kind_of other ≡ kind_of value.now →
        lexical_form other ≡ lexical_form value.now → other ≡ value.now }
{
    value_form(alloc, value)
}

fn value_form(alloc: Global, value: &Value) -> Result<String, AllocError>
    ensures written { IfOk result (λ form. Writes (string_bytes form) (lexical_form value.now)) }
    ensures lawful { IsLawful value.now }
{
    match value {
        Value::Text(text) => String::from_str(alloc, text.as_str()),
        Value::Integer(number) => integer_form(alloc, *number),
        Value::Decimal(number) => decimal_form(alloc, *number),
        Value::Boolean(truth) => boolean_form(alloc, *truth),
        Value::Date(date) => date_form(alloc, *date),
        Value::Time(time) => time_form(alloc, *time),
        Value::DateTime(both) => date_time_form(alloc, *both),
        Value::Binary(bytes) => bytes_form(alloc, bytes),
    }
}

fn integer_form(alloc: Global, number: i64) -> Result<String, AllocError>
    ensures written { IfOk result (λ form. string_bytes form ≡ signed_decimal number) }
    ensures lawful { FitsSigned w64 number }
{
    number.to_string(alloc)
}

fn bytes_form(alloc: Global, bytes: &Bytes) -> Result<String, AllocError>
    ensures written { IfOk result (λ form. string_bytes form ≡ encode_upper bytes.now) }
    ensures lawful { IsBytes bytes.now }
{
    let digits = bytes.as_slice();
    hex::encode_upper(alloc, digits)
}

// The value of the kind that the text spells, where a text is taken as it is.
pub fn read_value(alloc: Global, kind: Kind, text: &str) -> Result<Value, ValueError>
    ensures ok { IfOk result (λ v. (kind_of v ≡ kind) × SpellsValue (chars text.now) v) }
    ensures bad { result ≡ Err ValueError.BadValue →
        (v : AnyValue) → kind_of v ≡ kind → ¬ SpellsValue (chars text.now) v }
{
    match kind {
        Kind::Text => Ok(Value::Text(Text::from_str(alloc, text)?)),
        Kind::Binary => match read_bytes(alloc, text) {
            Ok(bytes) => Ok(Value::Binary(bytes)),
            Err(error) => Err(error),
        },
        _ => match read_scalar(kind, text) {
            Some(value) => Ok(value),
            None => Err(ValueError::BadValue),
        },
    }
}

// The bytes that the text spells.
fn read_bytes(alloc: Global, text: &str) -> Result<Bytes, ValueError>
    ensures ok { IfOk result (SpellsBinary (chars text.now)) }
    ensures bad { result ≡ Err ValueError.BadValue → (bytes : List ℕ) → ¬ SpellsBinary (chars text.now) bytes }
{
    if !text.is_ascii() {
        return Err(ValueError::BadValue);
    }
    read_binary(alloc, text.as_bytes())
}

// The number, truth value, date or time of the kind that the text spells.
fn read_scalar(kind: Kind, text: &str) -> Option<Value>
    requires text { kind ≢ Kind.Text }
    requires binary { kind ≢ Kind.Binary }
    ensures { MatchOption result
        ((v : AnyValue) → kind_of v ≡ kind → ¬ SpellsValue (chars text.now) v)
        (λ v. (kind_of v ≡ kind) × SpellsValue (chars text.now) v) }
{
    if !text.is_ascii() {
        return None;
    }
    match scalar_of(kind, text) {
        Some(value) => Some(value),
        None => None,
    }
}

// The same of a text whose characters are its bytes.
fn scalar_of(kind: Kind, text: &str) -> Option<Value>
    requires text { kind ≢ Kind.Text }
    requires binary { kind ≢ Kind.Binary }
    ensures { MatchOption result
        ((v : AnyValue) → kind_of v ≡ kind → ¬ SpellsValue text.now v)
        (λ v. (kind_of v ≡ kind) × SpellsValue text.now v) }
{
    match kind {
        Kind::Integer => read_integer(text).map(Value::Integer),
        Kind::Decimal => read_decimal(text.as_bytes()).map(Value::Decimal),
        Kind::Boolean => read_boolean(text).map(Value::Boolean),
        Kind::Date => read_date(text.as_bytes()).map(Value::Date),
        Kind::Time => read_time(text.as_bytes()).map(Value::Time),
        Kind::DateTime => read_date_time(text.as_bytes()).map(Value::DateTime),
        Kind::Text | Kind::Binary => None,
    }
}
