// Conditions.
ghost use Rattle.std.specs.Prelude.{Ok};
ghost use Rattle.grammar_dm.specs.Exits.{Gives};
ghost use Rattle.sparql_text_dm.specs.Following.{GoesOn, closed_at};
ghost use Rattle.sparql_text_dm.specs.Grammar.{connected};
ghost use Rattle.sparql_text_dm.specs.Reading.{all_proper_at, bound_at, condition_at, connected_at, filter_at, grouped_at, join_condition_at, negation_at, proper_at, same_term_at, terms_at, true_at, true_or_at};

use crate::connective::{Connective, next_connective};
use crate::makers;
use crate::reader::{Read, sign, starts_with, starts_with_sign, term, variable, word};
use grammar_dm::ReadError;
use pattern_dm::{Condition, Operand};
use sparql_tokens_dm::{Keyword, Placed, Sign};
use sqlite_items::Boxed;
use std::alloc::Global;

#[tactic(auto, unfolding(crate::specs::Reading::bound_at))]
fn bound(alloc: Global, tokens: &[Placed]) -> Read<'_, Boxed<Condition>>
    ensures { Gives (λ x. (x.0, x.1.now)) result (bound_at tokens.now) }
{
    let rest = word(tokens, Keyword::Bound)?;
    let rest = sign(rest, Sign::OpenParenthesis)?;
    let (name, rest) = variable(alloc, rest)?;
    let rest = sign(rest, Sign::CloseParenthesis)?;
    Ok((makers::bound(alloc, name)?, rest))
}

// Two terms in parentheses.
#[tactic(auto, unfolding(crate::specs::Reading::terms_at))]
fn terms(alloc: Global, tokens: &[Placed]) -> Read<'_, (Operand, Operand)>
    ensures { Gives (λ x. ((x.0.0, x.0.1), x.1.now)) result (terms_at tokens.now) }
{
    let rest = sign(tokens, Sign::OpenParenthesis)?;
    let (first, rest) = term(alloc, rest)?;
    let rest = sign(rest, Sign::Comma)?;
    let (second, rest) = term(alloc, rest)?;
    let rest = sign(rest, Sign::CloseParenthesis)?;
    Ok(((first, second), rest))
}

#[tactic(auto, unfolding(crate::specs::Reading::same_term_at))]
fn same_term(alloc: Global, tokens: &[Placed]) -> Read<'_, Boxed<Condition>>
    ensures { Gives (λ x. (x.0, x.1.now)) result (same_term_at tokens.now) }
{
    let rest = word(tokens, Keyword::SameTerm)?;
    let ((first, second), rest) = terms(alloc, rest)?;
    Ok((makers::same_term(alloc, first, second)?, rest))
}

#[tactic(auto, unfolding(crate::specs::Reading::true_at))]
fn truth(alloc: Global, tokens: &[Placed]) -> Read<'_, Boxed<Condition>>
    ensures { Gives (λ x. (x.0, x.1.now)) result (true_at tokens.now) }
{
    let rest = word(tokens, Keyword::True)?;
    Ok((makers::truth(alloc)?, rest))
}

fn negated(alloc: Global, part: Read<'_, Boxed<Condition>>) -> Read<'_, Boxed<Condition>>
    ensures { GoesOn part.entry (λ f. Ok (Condition.Not f.0, f.1)) result }
{
    let (part, rest) = part?;
    Ok((makers::not(alloc, part)?, rest))
}

// The two parts, of which the second was read behind the mark.
fn joined(
    alloc: Global,
    mark: Connective,
    left: Boxed<Condition>,
    right: Read<'_, Boxed<Condition>>,
) -> Read<'_, Boxed<Condition>>
    ensures { GoesOn right.entry (λ g. Ok (connected mark left g.0, g.1)) result }
{
    let (right, rest) = right?;
    Ok((makers::connected(alloc, mark, left, right)?, rest))
}

// What was read, where a closing parenthesis stands behind it.
fn closed(content: Read<'_, Boxed<Condition>>) -> Read<'_, Boxed<Condition>>
    ensures { GoesOn content.entry (closed_at Sign.CloseParenthesis) result }
{
    let (found, rest) = content?;
    let rest = sign(rest, Sign::CloseParenthesis)?;
    Ok((found, rest))
}

// A condition of so many levels at most below `true`. As with patterns, what is read behind the recursion is read by functions of
// their own.
#[cycle(condition)]
fn condition_within(alloc: Global, levels: usize, tokens: &[Placed]) -> Read<'_, Boxed<Condition>>
    ensures { Gives (λ x. (x.0, x.1.now)) result (true_or_at (proper_at levels) tokens.now) }
{
    if starts_with(tokens, Keyword::True) {
        truth(alloc, tokens)
    } else {
        proper_within(alloc, levels, tokens)
    }
}

#[cycle(condition)]
#[tactic(auto, unfolding(crate::specs::Reading::negation_at))]
fn negation(alloc: Global, levels: usize, tokens: &[Placed]) -> Read<'_, Boxed<Condition>>
    ensures { Gives (λ x. (x.0, x.1.now)) result (negation_at (true_or_at (proper_at levels)) tokens.now) }
{
    let rest = sign(tokens, Sign::Not)?;
    negated(alloc, condition_within(alloc, levels, rest))
}

// Two conditions and the mark between them.
#[cycle(condition)]
#[tactic(auto, unfolding(crate::specs::Reading::connected_at))]
fn connected(alloc: Global, levels: usize, tokens: &[Placed]) -> Read<'_, Boxed<Condition>>
    ensures { Gives (λ x. (x.0, x.1.now)) result (connected_at (true_or_at (proper_at levels)) tokens.now) }
{
    let (left, rest) = condition_within(alloc, levels, tokens)?;
    let (mark, rest) = next_connective(rest)?;
    joined(alloc, mark, left, condition_within(alloc, levels, rest))
}

// A condition in parentheses.
#[cycle(condition)]
#[tactic(auto, unfolding(crate::specs::Reading::grouped_at))]
fn grouped(alloc: Global, levels: usize, tokens: &[Placed]) -> Read<'_, Boxed<Condition>>
    ensures { Gives (λ x. (x.0, x.1.now)) result (grouped_at (true_or_at (proper_at levels)) tokens.now) }
{
    let rest = sign(tokens, Sign::OpenParenthesis)?;
    if starts_with_sign(rest, Sign::Not) {
        closed(negation(alloc, levels, rest))
    } else {
        closed(connected(alloc, levels, rest))
    }
}

// A condition of so many levels at most, which is not `true`.
#[cycle(condition)]
fn proper_within(alloc: Global, levels: usize, tokens: &[Placed]) -> Read<'_, Boxed<Condition>>
    ensures { Gives (λ x. (x.0, x.1.now)) result (proper_at levels tokens.now) }
{
    if levels == 0 {
        Err(ReadError::At(tokens, false))
    } else if starts_with(tokens, Keyword::Bound) {
        bound(alloc, tokens)
    } else if starts_with(tokens, Keyword::SameTerm) {
        same_term(alloc, tokens)
    } else {
        grouped(alloc, levels - 1, tokens)
    }
}

// A condition that is not `true`.
fn all_proper(alloc: Global, tokens: &[Placed]) -> Read<'_, Boxed<Condition>>
    ensures { Gives (λ x. (x.0, x.1.now)) result (all_proper_at tokens.now) }
{
    proper_within(alloc, tokens.len(), tokens)
}

fn condition(alloc: Global, tokens: &[Placed]) -> Read<'_, Boxed<Condition>>
    ensures { Gives (λ x. (x.0, x.1.now)) result (condition_at tokens.now) }
{
    if starts_with(tokens, Keyword::True) {
        truth(alloc, tokens)
    } else {
        all_proper(alloc, tokens)
    }
}

/// `FILTER` and a condition in parentheses.
#[tactic(auto, unfolding(crate::specs::Reading::filter_at))]
pub(crate) fn filter(alloc: Global, tokens: &[Placed]) -> Read<'_, Boxed<Condition>>
    ensures { Gives (λ x. (x.0, x.1.now)) result (filter_at condition_at tokens.now) }
{
    let rest = word(tokens, Keyword::Filter)?;
    let rest = sign(rest, Sign::OpenParenthesis)?;
    let (found, rest) = condition(alloc, rest)?;
    let rest = sign(rest, Sign::CloseParenthesis)?;
    Ok((found, rest))
}

// The same, but for the condition `true`.
#[tactic(auto, unfolding(crate::specs::Reading::filter_at))]
fn proper_filter(alloc: Global, tokens: &[Placed]) -> Read<'_, Boxed<Condition>>
    ensures { Gives (λ x. (x.0, x.1.now)) result (filter_at all_proper_at tokens.now) }
{
    let rest = word(tokens, Keyword::Filter)?;
    let rest = sign(rest, Sign::OpenParenthesis)?;
    let (found, rest) = all_proper(alloc, rest)?;
    let rest = sign(rest, Sign::CloseParenthesis)?;
    Ok((found, rest))
}

/// The condition of a left join, which is `true` where no filter stands.
#[tactic(auto, unfolding(crate::specs::Reading::join_condition_at))]
pub(crate) fn join_condition(alloc: Global, tokens: &[Placed]) -> Read<'_, Boxed<Condition>>
    ensures { Gives (λ x. (x.0, x.1.now)) result (join_condition_at tokens.now) }
{
    if starts_with(tokens, Keyword::Filter) {
        proper_filter(alloc, tokens)
    } else {
        Ok((makers::truth(alloc)?, tokens))
    }
}
