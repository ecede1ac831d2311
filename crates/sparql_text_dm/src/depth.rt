// Braces and parentheses inside too many others.
ghost use Rattle.std.specs.Prelude.{◌≡◌, ◌<◌, ◌^◌, ◌&&◌, nat_le};
ghost use Rattle.sparql_text_dm.specs.Depth.{IsCut, closes, opens, past};

use crate::reader::has_sign;
use sparql_tokens_dm::{Placed, Sign};

const MOST_OPEN: usize = 2048;

fn opens(token: &Placed) -> bool
    ensures { result ≡ opens token.now }
{
    has_sign(token, Sign::OpenBrace) || has_sign(token, Sign::OpenParenthesis)
}

fn closes(token: &Placed) -> bool
    ensures { result ≡ closes token.now }
{
    has_sign(token, Sign::CloseBrace) || has_sign(token, Sign::CloseParenthesis)
}

// How many are open behind the token, where so many were open before it.
fn past(token: &Placed, count: usize) -> usize
    requires { count < 2 ^ 32 }
    ensures { result ≡ past token.now count }
{
    if opens(token) {
        count + 1
    } else if closes(token) {
        count.saturating_sub(1)
    } else {
        count
    }
}

// Whether the token opens one more, where too many are open before it.
fn is_too_nested(token: &Placed, count: usize) -> bool
    ensures { result ≡ (nat_le 2048 count && opens token.now) }
{
    MOST_OPEN <= count && opens(token)
}

/// The tokens before the first opening brace or parenthesis inside 2,048 open ones, and its place, if there is one.
pub(crate) fn before_too_nested(tokens: &[Placed]) -> (&[Placed], Option<usize>)
    ensures { IsCut tokens.now result.0.now result.1 }
{
    let mut count = 0;
    let mut kept = 0;
    let mut rest = tokens;
    'depth: while let Some((first, behind)) = rest.split_first() {
        if is_too_nested(first, count) {
            return (&tokens[..kept], Some(first.place));
        }
        count = past(first, count);
        kept += 1;
        rest = behind;
    }
    (tokens, None)
}
