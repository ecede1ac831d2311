ghost use Rattle.std.specs.Prelude.{◌≡◌, ◌+◌, length};
ghost use Rattle.ddl_syntax_dm.specs.Answer.{IsRead, IsTold, is_bare_word, fault_told, whole_told};

use crate::statements::parse;
use crate::syntax::Statement;
use ddl_tokens_dm::{Placed, Token, TokenError, tokens};
use grammar_dm::ReadError;
use std::alloc::Global;
use value_dm::Sequence;

/// Why a file gave no statements. Places count its bytes from 1.
#[derive(Debug, Drop)]
pub enum SyntaxError {
    /// Memory ran out.
    Memory,
    /// The bytes are not UTF-8: the byte behind their longest front that is.
    NotUtf8(usize),
    /// All tokens before begin a file, and then comes a text that is no token.
    BadToken(usize),
    /// The first token with which the tokens so far begin no file, or the place behind the end.
    Unexpected(usize),
    /// The same, where it is a bare word in the place of a column's type.
    UnknownType(usize),
}

impl From<TokenError> for SyntaxError {
    ghost use Rattle.ddl_syntax_dm.specs.Answer.{token_error_told};

    ghost from_gives = { λ fault e. token_error_told fault e };

    fn from(fault: TokenError) -> Self {
        match fault {
            TokenError::Memory => SyntaxError::Memory,
            TokenError::NotUtf8(place) => SyntaxError::NotUtf8(place),
        }
    }
}

fn is_bare_word(token: &Placed) -> bool
    ensures { result ≡ is_bare_word token.now }
{
    match &token.token {
        Token::Word(_) => true,
        _ => false,
    }
}

/// What is told of a fault at the front of `rest`, behind which a bad text may stand.
fn told(rest: &[Placed], at_type: bool, stop: Option<usize>, end: usize) -> SyntaxError
    ensures { result ≡ fault_told rest.now at_type stop end }
{
    match rest {
        [first, ..] => {
            if at_type && is_bare_word(first) {
                SyntaxError::UnknownType(first.place)
            } else {
                SyntaxError::Unexpected(first.place)
            }
        }
        [] => match stop {
            Some(place) => SyntaxError::BadToken(place),
            None => SyntaxError::Unexpected(end),
        },
    }
}

/// What is told of statements behind which a bad text may stand.
fn whole(
    statements: Sequence<Statement>,
    stop: Option<usize>,
) -> Result<Sequence<Statement>, SyntaxError>
    ensures { result ≡ whole_told statements stop }
{
    match stop {
        None => Ok(statements),
        Some(place) => Err(SyntaxError::BadToken(place)),
    }
}

/// The statements of the tokens that stand before a bad text, if there is one, or before the end.
fn judged(
    alloc: Global,
    found: &[Placed],
    stop: Option<usize>,
    end: usize,
) -> Result<Sequence<Statement>, SyntaxError>
    ensures { IsTold found.now stop end result }
{
    match parse(alloc, found) {
        Ok(statements) => whole(statements, stop),
        Err(ReadError::Memory) => Err(SyntaxError::Memory),
        Err(ReadError::At(rest, at_type)) => Err(told(rest, at_type, stop, end)),
    }
}

/// The statements of a file of CREATE TABLE and ALTER TABLE, in order, empty ones left out; else its first
/// fault, in the order of the text: bytes that are not UTF-8 before all, then a text that is no token, a
/// token that doesn't fit, or a word that is no type, whichever stands first. Refused for want of memory
/// besides. The grammar is a part of ISO/IEC 9075-2, 11.3 and 11.10.
pub fn read_statements(alloc: Global, bytes: &[u8]) -> Result<Sequence<Statement>, SyntaxError>
    ensures { IsRead bytes.now result }
{
    let (found, stop) = tokens(alloc, bytes)?;
    judged(alloc, found.as_slice(), stop, bytes.len() + 1)
}
