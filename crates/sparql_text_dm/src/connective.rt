// What stands between two conditions.
ghost use Rattle.std.specs.Prelude.{◌≡◌};
ghost use Rattle.grammar_dm.specs.Exits.{Gives};
ghost use Rattle.sparql_text_dm.specs.Reading.{connective_at};
ghost use Rattle.sparql_text_dm.specs.Words.{connective_of};

use crate::reader::Read;
use grammar_dm::ReadError;
use sparql_tokens_dm::{Placed, Sign, Token};

/// `&&` or `||`.
#[derive(Clone, Copy, Debug, Drop)]
pub(crate) enum Connective {
    And,
    Or,
}

fn connective_of(token: &Token) -> Option<Connective>
    ensures { result ≡ connective_of token.now }
{
    match token {
        Token::Sign(Sign::And) => Some(Connective::And),
        Token::Sign(Sign::Or) => Some(Connective::Or),
        _ => None,
    }
}

pub(crate) fn next_connective(tokens: &[Placed]) -> Read<'_, Connective>
    ensures { Gives (λ x. (x.0, x.1.now)) result (connective_at tokens.now) }
{
    match tokens {
        [first, rest @ ..] => match connective_of(&first.token) {
            Some(found) => Ok((found, rest)),
            None => Err(ReadError::At(tokens, false)),
        },
        [] => Err(ReadError::At(tokens, false)),
    }
}
