// A query's text without a schema.
ghost use Rattle.std.specs.Prelude.{◌≡◌, ◌<◌, ◌-◌, ◌^◌};
ghost use Rattle.query_text_dm.specs.Answer.{IsSyntaxAnswer};
ghost use Rattle.query_text_dm.specs.Telling.{IsTold, end_of, fault_told, refusal, whole_told};

use crate::depth::before_too_deep;
use crate::operands::parse;
use algebra_dm::{Query, QueryError};
use grammar_dm::ReadError;
use query_tokens_dm::{Placed, tokens};
use std::alloc::Global;

/// What stands behind the tokens that are read.
#[derive(Clone, Copy, Debug, Drop)]
pub(crate) enum End {
    /// An opening parenthesis inside 64 open ones.
    TooDeep(usize),
    /// A text that is no token.
    NoToken(usize),
    /// Nothing; and the place of the byte behind the text.
    Nothing(usize),
}

// What stands behind the tokens.
fn end_of(deep: Option<usize>, stop: Option<usize>, len: usize) -> End
    requires { len < 2 ^ 64 - 1 }
    ensures { result ≡ end_of deep stop len }
{
    match deep {
        Some(place) => End::TooDeep(place),
        None => match stop {
            Some(place) => End::NoToken(place),
            None => End::Nothing(len + 1),
        },
    }
}

// The refusal of tokens that begin a query, which is not whole or stands before a stop.
fn refusal(end: End) -> QueryError
    ensures { result ≡ refusal end }
{
    match end {
        End::TooDeep(place) => QueryError::TooDeep(place as u64),
        End::NoToken(place) => QueryError::BadQuery(place as u64),
        End::Nothing(place) => QueryError::BadQuery(place as u64),
    }
}

// The refusal of tokens of which these are left at the first fault.
fn fault(rest: &[Placed], end: End) -> QueryError
    ensures { result ≡ fault_told rest.now end }
{
    match rest {
        [first, ..] => QueryError::BadQuery(first.place as u64),
        [] => refusal(end),
    }
}

// A whole query, where nothing stands behind it.
fn whole(query: Query, end: End) -> Result<Query, QueryError>
    ensures { result ≡ whole_told query end }
{
    match end {
        End::Nothing(_) => Ok(query),
        _ => Err(refusal(end)),
    }
}

fn judged(alloc: Global, kept: &[Placed], end: End) -> Result<Query, QueryError>
    ensures { IsTold kept.now end result }
{
    match parse(alloc, kept) {
        Ok(query) => whole(query, end),
        Err(ReadError::Memory) => Err(QueryError::Memory),
        Err(ReadError::At(rest, _)) => Err(fault(rest, end)),
    }
}

/// The query of a text, or the text's first fault.
pub(crate) fn read_text(alloc: Global, bytes: &[u8]) -> Result<Query, QueryError>
    ensures { IsSyntaxAnswer bytes.now result }
{
    let (found, stop) = tokens(alloc, bytes)?;
    let (kept, deep) = before_too_deep(found.as_slice());
    judged(alloc, kept, end_of(deep, stop, bytes.len()))
}
