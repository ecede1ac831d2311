// Single tokens.
ghost use Rattle.std.specs.Prelude.{◌≡◌, encode_utf8_all};
ghost use Rattle.grammar_dm.specs.Exits.{Gives};
ghost use Rattle.grammar_dm.specs.Reading.{starts};
ghost use Rattle.ddl_tokens_dm.specs.Characters.{character};
ghost use Rattle.ddl_syntax_dm.specs.Words.{spelling, spells_word, begins_key};
ghost use Rattle.ddl_syntax_dm.specs.Reading.{is_sign, is_word, sign_at, word_at, number_at, name_at, column_name_at};

use crate::token::Keyword;
use ddl_tokens_dm::{Placed, Sign, Token};
use grammar_dm::ReadError;
use std::alloc::Global;
use value_dm::{Text, TryCopy};

/// A value and the tokens behind it.
pub(crate) type Read<'a, V> = Result<(V, &'a [Placed]), ReadError<'a, Placed>>;

/// The tokens behind a part whose value has no effect.
pub(crate) type Skip<'a> = Result<&'a [Placed], ReadError<'a, Placed>>;

pub(crate) fn is_spelled(name: &Text, word: &str) -> bool
    ensures { result ≡ spells_word word.now name.now }
{
    name.as_str().eq_ignore_ascii_case(word)
}

pub(crate) fn has_sign(token: &Placed, sign: Sign) -> bool
    ensures { result ≡ is_sign sign token.now }
{
    match &token.token {
        Token::Sign(found) => found.character() == sign.character(),
        _ => false,
    }
}

pub(crate) fn has_word(token: &Placed, word: Keyword) -> bool
    ensures { result ≡ is_word word token.now }
{
    match &token.token {
        Token::Word(name) => is_spelled(name, word.spelling()),
        _ => false,
    }
}

pub(crate) fn starts_with_sign(tokens: &[Placed], sign: Sign) -> bool
    ensures { result ≡ starts (is_sign sign) tokens.now }
{
    match tokens {
        [first, ..] => has_sign(first, sign),
        [] => false,
    }
}

pub(crate) fn starts_with(tokens: &[Placed], word: Keyword) -> bool
    ensures { result ≡ starts (is_word word) tokens.now }
{
    match tokens {
        [first, ..] => has_word(first, word),
        [] => false,
    }
}

pub(crate) fn sign(tokens: &[Placed], sign: Sign) -> Skip<'_>
    ensures { Gives (λ x. (tt, x.now)) result (sign_at sign tokens.now) }
{
    match tokens {
        [first, rest @ ..] if has_sign(first, sign) => Ok(rest),
        _ => Err(ReadError::At(tokens, false)),
    }
}

pub(crate) fn word(tokens: &[Placed], word: Keyword) -> Skip<'_>
    ensures { Gives (λ x. (tt, x.now)) result (word_at word tokens.now) }
{
    match tokens {
        [first, rest @ ..] if has_word(first, word) => Ok(rest),
        _ => Err(ReadError::At(tokens, false)),
    }
}

pub(crate) fn number(tokens: &[Placed]) -> Skip<'_>
    ensures { Gives (λ x. (tt, x.now)) result (number_at tokens.now) }
{
    match tokens {
        [first, rest @ ..] => match &first.token {
            Token::Number => Ok(rest),
            _ => Err(ReadError::At(tokens, false)),
        },
        [] => Err(ReadError::At(tokens, false)),
    }
}

pub(crate) fn name(alloc: Global, tokens: &[Placed]) -> Read<'_, Text>
    ensures { Gives (λ x. (x.0, x.1.now)) result (name_at tokens.now) }
{
    match tokens {
        [first, rest @ ..] => match &first.token {
            Token::Word(name) | Token::Quoted(name) => Ok((name.copy(alloc)?, rest)),
            _ => Err(ReadError::At(tokens, false)),
        },
        [] => Err(ReadError::At(tokens, false)),
    }
}

fn is_key_word(name: &Text) -> bool
    ensures { result ≡ begins_key name.now }
{
    is_spelled(name, Keyword::Constraint.spelling())
        || is_spelled(name, Keyword::Primary.spelling())
        || is_spelled(name, Keyword::Unique.spelling())
        || is_spelled(name, Keyword::Foreign.spelling())
}

pub(crate) fn column_name(alloc: Global, tokens: &[Placed]) -> Read<'_, Text>
    ensures { Gives (λ x. (x.0, x.1.now)) result (column_name_at tokens.now) }
{
    match tokens {
        [first, rest @ ..] => match &first.token {
            Token::Word(name) => {
                if is_key_word(name) {
                    return Err(ReadError::At(tokens, false));
                }
                Ok((name.copy(alloc)?, rest))
            }
            Token::Quoted(name) => Ok((name.copy(alloc)?, rest)),
            _ => Err(ReadError::At(tokens, false)),
        },
        [] => Err(ReadError::At(tokens, false)),
    }
}
