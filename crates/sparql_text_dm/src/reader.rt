// Single tokens.
ghost use Rattle.std.specs.Prelude.{◌≡◌, IfOk};
ghost use Rattle.grammar_dm.specs.Exits.{Gives};
ghost use Rattle.grammar_dm.specs.Reading.{starts};
ghost use Rattle.sparql_text_dm.specs.Words.{is_operand, is_sign, is_variable_token, is_word, named, variable_of};
ghost use Rattle.sparql_text_dm.specs.Reading.{sign_at, term_at, variable_at, variables_at, word_at};

use grammar_dm::ReadError;
use names_dm::{Var, Vars};
use pattern_dm::Operand;
use sparql_tokens_dm::{Keyword, Placed, Sign, Token};
use std::alloc::Global;
use value_dm::{Sequence, TryCopy};

/// A value and the tokens behind it.
pub(crate) type Read<'a, V> = Result<(V, &'a [Placed]), ReadError<'a, Placed>>;

/// The tokens behind a part whose value has no effect.
pub(crate) type Skip<'a> = Result<&'a [Placed], ReadError<'a, Placed>>;

pub(crate) fn has_sign(token: &Placed, sign: Sign) -> bool
    ensures { result ≡ is_sign sign token.now }
{
    match &token.token {
        Token::Sign(found) => found.text() == sign.text(),
        _ => false,
    }
}

pub(crate) fn has_word(token: &Placed, word: Keyword) -> bool
    ensures { result ≡ is_word word token.now }
{
    match &token.token {
        Token::Word(found) => found.spelling() == word.spelling(),
        _ => false,
    }
}

pub(crate) fn starts_with_sign(tokens: &[Placed], sign: Sign) -> bool
    ensures { result ≡ starts (is_sign sign) tokens.now }
{
    match tokens {
        [first, ..] => has_sign(first, sign),
        [] => false,
    }
}

pub(crate) fn starts_with(tokens: &[Placed], word: Keyword) -> bool
    ensures { result ≡ starts (is_word word) tokens.now }
{
    match tokens {
        [first, ..] => has_word(first, word),
        [] => false,
    }
}

pub(crate) fn sign(tokens: &[Placed], sign: Sign) -> Skip<'_>
    ensures { Gives (λ x. (tt, x.now)) result (sign_at sign tokens.now) }
{
    match tokens {
        [first, rest @ ..] if has_sign(first, sign) => Ok(rest),
        _ => Err(ReadError::At(tokens, false)),
    }
}

pub(crate) fn word(tokens: &[Placed], word: Keyword) -> Skip<'_>
    ensures { Gives (λ x. (tt, x.now)) result (word_at word tokens.now) }
{
    match tokens {
        [first, rest @ ..] if has_word(first, word) => Ok(rest),
        _ => Err(ReadError::At(tokens, false)),
    }
}

/// The variable that the token is.
pub(crate) fn variable_of(token: &Placed) -> Option<&Var>
    ensures { named result ≡ variable_of token.now.token }
{
    match &token.token {
        Token::Var(name) => Some(name),
        _ => None,
    }
}

pub(crate) fn has_variable(token: &Placed) -> bool
    ensures { result ≡ is_variable_token token.now }
{
    match &token.token {
        Token::Var(_) => true,
        _ => false,
    }
}

fn has_operand(token: &Placed) -> bool
    ensures { result ≡ is_operand token.now }
{
    match &token.token {
        Token::Var(_) | Token::Iri(_) | Token::Literal(_) => true,
        _ => false,
    }
}

pub(crate) fn starts_with_operand(tokens: &[Placed]) -> bool
    ensures { result ≡ starts is_operand tokens.now }
{
    match tokens {
        [first, ..] => has_operand(first),
        [] => false,
    }
}

pub(crate) fn starts_with_variable(tokens: &[Placed]) -> bool
    ensures { result ≡ starts is_variable_token tokens.now }
{
    match tokens {
        [first, ..] => has_variable(first),
        [] => false,
    }
}

pub(crate) fn variable(alloc: Global, tokens: &[Placed]) -> Read<'_, Var>
    ensures { Gives (λ x. (x.0, x.1.now)) result (variable_at tokens.now) }
{
    match tokens {
        [first, rest @ ..] => match &first.token {
            Token::Var(name) => Ok((name.copy(alloc)?, rest)),
            _ => Err(ReadError::At(tokens, false)),
        },
        [] => Err(ReadError::At(tokens, false)),
    }
}

/// A variable, an IRI or a literal.
pub(crate) fn term(alloc: Global, tokens: &[Placed]) -> Read<'_, Operand>
    ensures { Gives (λ x. (x.0, x.1.now)) result (term_at tokens.now) }
{
    match tokens {
        [first, rest @ ..] => match &first.token {
            Token::Var(name) => Ok((Operand::Var(name.copy(alloc)?), rest)),
            Token::Iri(iri) => Ok((Operand::Iri(iri.copy(alloc)?), rest)),
            Token::Literal(literal) => Ok((Operand::Literal(literal.copy(alloc)?), rest)),
            _ => Err(ReadError::At(tokens, false)),
        },
        [] => Err(ReadError::At(tokens, false)),
    }
}

/// Variables, as many as there are.
#[tactic(auto, using(crate::proofs::Loops::variables_loop), unfolding(crate::specs::Reading::variables_at))]
pub(crate) fn variables(alloc: Global, tokens: &[Placed]) -> Read<'_, Vars>
    ensures { Gives (λ x. (x.0, x.1.now)) result (variables_at tokens.now) }
{
    let mut found = Sequence::new(alloc);
    let mut rest = tokens;
    'variables: while let Some((first, _)) = rest.split_first() {
        if !has_variable(first) {
            break;
        }
        let (next, after) = variable(alloc, rest)?;
        found.push(next)?;
        rest = after;
    }
    Ok((found, rest))
}
