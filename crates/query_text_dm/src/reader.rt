// Single tokens, names and values.
ghost use Rattle.std.specs.Prelude.{◌≡◌};
ghost use Rattle.grammar_dm.specs.Exits.{Gives};
ghost use Rattle.query_text_dm.specs.Words.{name_of, named, operator_of, some_name};
ghost use Rattle.query_text_dm.specs.Reading.{close_at, is_name, kind_at, name_at, names_at, open_at, operator_at, spelled_at, value_at};

use crate::operator::{Operator, operator_named};
use grammar_dm::ReadError;
use query_tokens_dm::{Placed, Token, kind_word};
use std::alloc::Global;
use value_dm::{Kind, Names, Sequence, Text, TryCopy, Value};

/// A value and the tokens behind it.
pub(crate) type Read<'a, V> = Result<(V, &'a [Placed]), ReadError<'a, Placed>>;

/// The tokens behind a part whose value has no effect.
pub(crate) type Skip<'a> = Result<&'a [Placed], ReadError<'a, Placed>>;

pub(crate) fn open(tokens: &[Placed]) -> Skip<'_>
    ensures { Gives (λ x. (tt, x.now)) result (open_at tokens.now) }
{
    match tokens {
        [first, rest @ ..] => match &first.token {
            Token::Open => Ok(rest),
            _ => Err(ReadError::At(tokens, false)),
        },
        [] => Err(ReadError::At(tokens, false)),
    }
}

pub(crate) fn close(tokens: &[Placed]) -> Skip<'_>
    ensures { Gives (λ x. (tt, x.now)) result (close_at tokens.now) }
{
    match tokens {
        [first, rest @ ..] => match &first.token {
            Token::Close => Ok(rest),
            _ => Err(ReadError::At(tokens, false)),
        },
        [] => Err(ReadError::At(tokens, false)),
    }
}

// The operator whose word the token is.
fn operator_of(token: &Token) -> Option<Operator>
    ensures { result ≡ operator_of token.now }
{
    match token {
        Token::Word(name) => operator_named(name),
        _ => None,
    }
}

pub(crate) fn operator(tokens: &[Placed]) -> Read<'_, Operator>
    ensures { Gives (λ x. (x.0, x.1.now)) result (operator_at tokens.now) }
{
    match tokens {
        [first, rest @ ..] => match operator_of(&first.token) {
            Some(operator) => Ok((operator, rest)),
            None => Err(ReadError::At(tokens, false)),
        },
        [] => Err(ReadError::At(tokens, false)),
    }
}

// The text as a name, which isn't empty.
fn some_name(text: &Text) -> Option<&Text>
    ensures { named result ≡ some_name text.now }
{
    if text.as_str().is_empty() {
        None
    } else {
        Some(text)
    }
}

// The name that the token is.
fn name_of(token: &Token) -> Option<&Text>
    ensures { named result ≡ name_of token.now }
{
    match token {
        Token::Word(name) | Token::Quoted(name) => some_name(name),
        _ => None,
    }
}

fn has_name(token: &Placed) -> bool
    ensures { result ≡ is_name token.now }
{
    name_of(&token.token).is_some()
}

pub(crate) fn name(alloc: Global, tokens: &[Placed]) -> Read<'_, Text>
    ensures { Gives (λ x. (x.0, x.1.now)) result (name_at tokens.now) }
{
    match tokens {
        [first, rest @ ..] => match name_of(&first.token) {
            Some(name) => Ok((name.copy(alloc)?, rest)),
            None => Err(ReadError::At(tokens, false)),
        },
        [] => Err(ReadError::At(tokens, false)),
    }
}

#[tactic(auto, using(crate::proofs::Loops::names_loop), unfolding(crate::specs::Reading::names_at))]
pub(crate) fn names(alloc: Global, tokens: &[Placed]) -> Read<'_, Names>
    ensures { Gives (λ x. (x.0, x.1.now)) result (names_at tokens.now) }
{
    let mut found = Sequence::new(alloc);
    let mut rest = tokens;
    'names: while let Some((first, _)) = rest.split_first() {
        if !has_name(first) {
            break;
        }
        let (next, after) = name(alloc, rest)?;
        found.push(next)?;
        rest = after;
    }
    Ok((found, rest))
}

fn kind(tokens: &[Placed]) -> Read<'_, Kind>
    ensures { Gives (λ x. (x.0, x.1.now)) result (kind_at tokens.now) }
{
    match tokens {
        [first, rest @ ..] => match kind_word(&first.token) {
            Some(kind) => Ok((kind, rest)),
            None => Err(ReadError::At(tokens, false)),
        },
        [] => Err(ReadError::At(tokens, false)),
    }
}

// The value that a quoted text spells behind the word of its kind.
fn spelled(alloc: Global, tokens: &[Placed]) -> Read<'_, Value>
    ensures { Gives (λ x. (x.0, x.1.now)) result (spelled_at tokens.now) }
{
    match tokens {
        [first, rest @ ..] => match &first.value {
            Some(value) => Ok((value.copy(alloc)?, rest)),
            None => Err(ReadError::At(tokens, false)),
        },
        [] => Err(ReadError::At(tokens, false)),
    }
}

#[tactic(auto, unfolding(crate::specs::Reading::value_at))]
pub(crate) fn value(alloc: Global, tokens: &[Placed]) -> Read<'_, Value>
    ensures { Gives (λ x. (x.0, x.1.now)) result (value_at tokens.now) }
{
    let (_, rest) = kind(tokens)?;
    spelled(alloc, rest)
}
