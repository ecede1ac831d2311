// The targets of a selection.
ghost use Rattle.std.specs.Prelude.{◌≡◌, length};
ghost use Rattle.grammar_dm.specs.Exits.{Gives};
ghost use Rattle.sparql_text_dm.specs.Reading.{all_targets_at, begins_target, new_name_at, other_name_at, other_target_at, same_target_at, target_at};
ghost use Rattle.sparql_text_dm.specs.Words.{named, new_name_of, other_name_of};

use crate::reader::{
    Read, has_sign, has_variable, sign, starts_with_sign, variable, variable_of, word,
};
use crate::selection::Selection;
use grammar_dm::ReadError;
use names_dm::Var;
use solutions_dm::{Rename, Renames};
use sparql_tokens_dm::{Keyword, Placed, Sign};
use std::alloc::Global;
use value_dm::{TryCopy, same};

// The variable that the token is, where it is no target.
fn new_name_of<'a>(taken: &Selection, token: &'a Placed) -> Option<&'a Var>
    ensures { named result ≡ new_name_of taken.now token.now.token }
{
    match variable_of(token) {
        Some(name) => { if taken.has(name) { None } else { Some(name) } }
        None => None,
    }
}

// The same, where it isn't this variable.
fn other_name_of<'a>(taken: &Selection, from: &Var, token: &'a Placed) -> Option<&'a Var>
    ensures { named result ≡ other_name_of taken.now from.now token.now.token }
{
    match new_name_of(taken, token) {
        Some(name) => { if same(from, name) { None } else { Some(name) } }
        None => None,
    }
}

fn new_name<'a>(alloc: Global, taken: &Selection, tokens: &'a [Placed]) -> Read<'a, Var>
    ensures { Gives (λ x. (x.0, x.1.now)) result (new_name_at taken.now tokens.now) }
{
    match tokens {
        [first, rest @ ..] => match new_name_of(taken, first) {
            Some(name) => Ok((name.copy(alloc)?, rest)),
            None => Err(ReadError::At(tokens, false)),
        },
        [] => Err(ReadError::At(tokens, false)),
    }
}

fn other_name<'a>(
    alloc: Global,
    taken: &Selection,
    from: &Var,
    tokens: &'a [Placed],
) -> Read<'a, Var>
    ensures { Gives (λ x. (x.0, x.1.now)) result (other_name_at taken.now from.now tokens.now) }
{
    match tokens {
        [first, rest @ ..] => match other_name_of(taken, from, first) {
            Some(name) => Ok((name.copy(alloc)?, rest)),
            None => Err(ReadError::At(tokens, false)),
        },
        [] => Err(ReadError::At(tokens, false)),
    }
}

#[tactic(auto, unfolding(crate::specs::Reading::same_target_at))]
fn same_target<'a>(alloc: Global, taken: &Selection, tokens: &'a [Placed]) -> Read<'a, Rename>
    ensures { Gives (λ x. (x.0, x.1.now)) result (same_target_at taken.now tokens.now) }
{
    let (to, rest) = new_name(alloc, taken, tokens)?;
    let from = to.copy(alloc)?;
    Ok((Rename { from, to }, rest))
}

#[tactic(auto, unfolding(crate::specs::Reading::other_target_at))]
fn other_target<'a>(alloc: Global, taken: &Selection, tokens: &'a [Placed]) -> Read<'a, Rename>
    ensures { Gives (λ x. (x.0, x.1.now)) result (other_target_at taken.now tokens.now) }
{
    let rest = sign(tokens, Sign::OpenParenthesis)?;
    let (from, rest) = variable(alloc, rest)?;
    let rest = word(rest, Keyword::As)?;
    let (to, rest) = other_name(alloc, taken, &from, rest)?;
    let rest = sign(rest, Sign::CloseParenthesis)?;
    Ok((Rename { from, to }, rest))
}

fn target<'a>(alloc: Global, taken: &Selection, tokens: &'a [Placed]) -> Read<'a, Rename>
    ensures { Gives (λ x. (x.0, x.1.now)) result (target_at taken.now tokens.now) }
{
    if starts_with_sign(tokens, Sign::OpenParenthesis) {
        other_target(alloc, taken, tokens)
    } else {
        same_target(alloc, taken, tokens)
    }
}

fn begins_target(token: &Placed) -> bool
    ensures { result ≡ begins_target token.now }
{
    has_variable(token) || has_sign(token, Sign::OpenParenthesis)
}

/// The targets, of which there is one at least, and no two have one new name.
#[tactic(auto, using(crate::proofs::TargetLoops::targets_loop))]
pub(crate) fn targets(alloc: Global, tokens: &[Placed]) -> Read<'_, Renames>
    ensures { Gives (λ x. (x.0, x.1.now)) result (all_targets_at tokens.now) }
{
    let mut found = Selection::new(alloc);
    let (first, mut rest) = target(alloc, &found, tokens)?;
    found = found.with(alloc, first)?;
    'targets: while let Some((next, _)) = rest.split_first() {
        if !begins_target(next) {
            break;
        }
        let (more, after) = target(alloc, &found, rest)?;
        found = found.with(alloc, more)?;
        rest = after;
    }
    Ok((found.into_renames(), rest))
}
