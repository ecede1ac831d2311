// What a text is answered.
ghost use Rattle.std.specs.Prelude.{◌≡◌, ◌<◌, ◌-◌, ◌^◌, length};
ghost use Rattle.grammar_dm.specs.Exits.{Gives};
ghost use Rattle.grammar_dm.specs.Reading.{all_of};
ghost use Rattle.sparql_text_dm.specs.Answer.{IsAnswer};
ghost use Rattle.sparql_text_dm.specs.Reading.{header_at, query_at};
ghost use Rattle.sparql_text_dm.specs.Telling.{IsParsed, IsTold, end_of, fault_told, refusal, seen, whole_told};

use crate::depth::before_too_nested;
use crate::error::SparqlError;
use crate::parsed::Parsed;
use crate::patterns::pattern;
use crate::reader::{Read, starts_with_variable, variables, word};
use grammar_dm::ReadError;
use names_dm::Vars;
use sparql_tokens_dm::{Keyword, Placed, tokens};
use std::alloc::Global;

/// What stands behind the tokens that are read.
#[derive(Clone, Copy, Debug, Drop)]
pub(crate) enum End {
    /// An opening brace or parenthesis inside 2,048 open ones.
    TooNested(usize),
    /// A text that is no token.
    NoToken(usize),
    /// Nothing; and the place of the byte behind the text.
    Nothing(usize),
}

// One variable at least.
#[tactic(auto, unfolding(crate::specs::Reading::header_at))]
fn header(alloc: Global, tokens: &[Placed]) -> Read<'_, Vars>
    ensures { Gives (λ x. (x.0, x.1.now)) result (header_at tokens.now) }
{
    if !starts_with_variable(tokens) {
        return Err(ReadError::At(tokens, false));
    }
    variables(alloc, tokens)
}

#[tactic(auto, unfolding(crate::specs::Reading::query_at))]
fn query(alloc: Global, tokens: &[Placed]) -> Read<'_, Parsed>
    ensures { Gives (λ x. (seen x.0, x.1.now)) result (query_at tokens.now) }
{
    let rest = word(tokens, Keyword::Select)?;
    let rest = word(rest, Keyword::Distinct)?;
    let (header, rest) = header(alloc, rest)?;
    let rest = word(rest, Keyword::Where)?;
    let (pattern, rest) = pattern(alloc, rest.len(), rest)?;
    Ok((Parsed { header, pattern }, rest))
}

fn all(alloc: Global, tokens: &[Placed]) -> Result<Parsed, ReadError<'_, Placed>>
    ensures { Gives seen result (all_of (query_at tokens.now)) }
{
    let (found, rest) = query(alloc, tokens)?;
    if !rest.is_empty() {
        return Err(ReadError::At(rest, false));
    }
    Ok(found)
}

// The header and the pattern that the tokens are, or else their first fault.
fn parse(alloc: Global, tokens: &[Placed]) -> Result<Parsed, ReadError<'_, Placed>>
    ensures { IsParsed tokens.now result }
{
    all(alloc, tokens)
}

// What stands behind the tokens.
fn end_of(deep: Option<usize>, stop: Option<usize>, len: usize) -> End
    requires { len < 2 ^ 64 - 1 }
    ensures { result ≡ end_of deep stop len }
{
    match deep {
        Some(place) => End::TooNested(place),
        None => match stop {
            Some(place) => End::NoToken(place),
            None => End::Nothing(len + 1),
        },
    }
}

// The refusal of tokens that begin a query, which is not whole or stands before a stop.
fn refusal(end: End) -> SparqlError
    ensures { result ≡ refusal end }
{
    match end {
        End::TooNested(place) => SparqlError::TooNested(place as u64),
        End::NoToken(place) => SparqlError::BadPattern(place as u64),
        End::Nothing(place) => SparqlError::BadPattern(place as u64),
    }
}

// The refusal of tokens of which these are left at the first fault.
fn fault(rest: &[Placed], end: End) -> SparqlError
    ensures { result ≡ fault_told rest.now end }
{
    match rest {
        [first, ..] => SparqlError::BadPattern(first.place as u64),
        [] => refusal(end),
    }
}

// A whole query, where nothing stands behind it.
fn whole(found: Parsed, end: End) -> Result<Parsed, SparqlError>
    ensures { result ≡ whole_told found end }
{
    match end {
        End::Nothing(_) => Ok(found),
        _ => Err(refusal(end)),
    }
}

fn judged(alloc: Global, kept: &[Placed], end: End) -> Result<Parsed, SparqlError>
    ensures { IsTold kept.now end result }
{
    match parse(alloc, kept) {
        Ok(found) => whole(found, end),
        Err(ReadError::Memory) => Err(SparqlError::Memory),
        Err(ReadError::At(rest, _)) => Err(fault(rest, end)),
    }
}

/// The header and the pattern of a text, or the text's first fault.
pub(crate) fn read_text(alloc: Global, bytes: &[u8]) -> Result<Parsed, SparqlError>
    ensures { IsAnswer bytes.now result }
{
    let (found, stop) = tokens(alloc, bytes)?;
    let (kept, deep) = before_too_nested(found.as_slice());
    judged(alloc, kept, end_of(deep, stop, bytes.len()))
}
