// What a quoted text behind the word of a kind spells.
ghost use Rattle.std.specs.Prelude.{◌≡◌, IfOk};
ghost use Rattle.std.specs.Prelude.{◌≢◌};
ghost use Rattle.query_tokens_dm.specs.Tokens.{IsFitting, IsSpelled, kind_named, kind_word};

use crate::token::Token;
use std::alloc::{AllocError, Global};
use value_dm::{Kind, NullMode, Text, TryCopy, Value, ValueError, read_field};

// The kind of this name.
fn kind_named(name: &Text) -> Option<Kind>
    ensures { result ≡ kind_named name.now }
{
    let word = name.as_str();
    if word == "text" {
        Some(Kind::Text)
    } else if word == "integer" {
        Some(Kind::Integer)
    } else if word == "decimal" {
        Some(Kind::Decimal)
    } else if word == "boolean" {
        Some(Kind::Boolean)
    } else if word == "date" {
        Some(Kind::Date)
    } else if word == "time" {
        Some(Kind::Time)
    } else if word == "datetime" {
        Some(Kind::DateTime)
    } else if word == "binary" {
        Some(Kind::Binary)
    } else {
        None
    }
}

/// The kind whose word the token is.
pub fn kind_word(token: &Token) -> Option<Kind>
    ensures { result ≡ kind_word token.now }
{
    match token {
        Token::Word(name) => kind_named(name),
        _ => None,
    }
}

// The value that a field of this kind spells, which is no text.
fn spelled(alloc: Global, kind: Kind, text: &Text) -> Result<Option<Value>, AllocError>
    requires { kind ≢ Kind.Text }
    ensures { IfOk result (λ value. IsSpelled kind text.now value) }
{
    match read_field(alloc, kind, text.as_str(), NullMode::Plain) {
        Ok(cell) => Ok(cell),
        Err(ValueError::BadValue) => Ok(None),
        Err(ValueError::Memory) => Err(AllocError),
    }
}

// The value of this kind that a quoted text spells.
fn value_of(alloc: Global, kind: Kind, text: &Text) -> Result<Option<Value>, AllocError>
    ensures { IfOk result (λ value. IsSpelled kind text.now value) }
{
    match kind {
        Kind::Text => Ok(Some(Value::Text(text.copy(alloc)?))),
        _ => spelled(alloc, kind, text),
    }
}

/// The value of the kind whose word stood before that the token spells, if it is a quoted text and spells one.
pub fn fitting(
    alloc: Global,
    kind: Option<Kind>,
    token: &Token,
) -> Result<Option<Value>, AllocError>
    ensures { IfOk result (IsFitting kind token.now) }
{
    match token {
        Token::Quoted(text) => match kind {
            Some(kind) => value_of(alloc, kind, text),
            None => Ok(None),
        },
        _ => Ok(None),
    }
}
