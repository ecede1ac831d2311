// Parentheses inside too many others.
ghost use Rattle.std.specs.Prelude.{◌≡◌, ◌<◌, ◌^◌, ◌&&◌, is_some, nat_le};
ghost use Rattle.query_text_dm.specs.Depth.{IsCut, past};
ghost use Rattle.query_text_dm.specs.Words.{open_of};

use query_tokens_dm::{Placed, Token};

const MOST_OPEN: usize = 64;

// How many are open behind the token, where so many were open before it.
fn past(token: &Token, count: usize) -> usize
    requires { count < 2 ^ 32 }
    ensures { result ≡ past token.now count }
{
    match token {
        Token::Open => count + 1,
        Token::Close => count.saturating_sub(1),
        _ => count,
    }
}

// Whether the token is an opening parenthesis, where too many are open before it.
fn is_too_deep(token: &Token, count: usize) -> bool
    ensures { result ≡ (nat_le 64 count && is_some (open_of token.now)) }
{
    match token {
        Token::Open => MOST_OPEN <= count,
        _ => false,
    }
}

/// The tokens before the first opening parenthesis inside 64 open ones, and its place, if there is one.
pub(crate) fn before_too_deep(tokens: &[Placed]) -> (&[Placed], Option<usize>)
    ensures { IsCut tokens.now result.0.now result.1 }
{
    let mut count = 0;
    let mut kept = 0;
    let mut rest = tokens;
    'depth: while let Some((first, behind)) = rest.split_first() {
        if is_too_deep(&first.token, count) {
            return (&tokens[..kept], Some(first.place));
        }
        count = past(&first.token, count);
        kept += 1;
        rest = behind;
    }
    (tokens, None)
}
