// Patterns.
ghost use Rattle.std.specs.Prelude.{Ok};
ghost use Rattle.grammar_dm.specs.Exits.{Gives};
ghost use Rattle.sparql_text_dm.specs.Following.{GoesOn, empty_at, closed_at};
ghost use Rattle.sparql_text_dm.specs.Reading.{and_pattern_at, content_at, filtered_at, left_join_at, minus_at, operation_at, operator_at, optional_part_at, pattern_at, select_at, triple_at, union_at};
ghost use Rattle.sparql_text_dm.specs.Pairs.{paired};

use crate::conditions::{filter, join_condition};
use crate::makers;
use crate::pairing::Pairing;
use crate::reader::{Read, sign, starts_with, starts_with_operand, starts_with_sign, term, word};
use crate::targets::targets;
use grammar_dm::ReadError;
use pattern_dm::{Condition, Pattern};
use solutions_dm::Renames;
use sparql_tokens_dm::{Keyword, Placed, Sign};
use sqlite_items::Boxed;
use std::alloc::Global;

#[tactic(auto, unfolding(crate::specs::Reading::triple_at))]
fn triple(alloc: Global, tokens: &[Placed]) -> Read<'_, Boxed<Pattern>>
    ensures { Gives (λ x. (x.0, x.1.now)) result (triple_at tokens.now) }
{
    let (subject, rest) = term(alloc, tokens)?;
    let (predicate, rest) = term(alloc, rest)?;
    let (object, rest) = term(alloc, rest)?;
    let rest = sign(rest, Sign::Dot)?;
    Ok((makers::triple(alloc, subject, predicate, object)?, rest))
}

#[tactic(auto, unfolding(crate::specs::Reading::filtered_at))]
fn filtered(alloc: Global, part: Boxed<Pattern>, tokens: &[Placed]) -> Read<'_, Boxed<Pattern>>
    ensures { Gives (λ x. (x.0, x.1.now)) result (filtered_at part tokens.now) }
{
    let (condition, rest) = filter(alloc, tokens)?;
    Ok((makers::filter(alloc, part, condition)?, rest))
}

// The columns of the part under other names.
fn selected(
    alloc: Global,
    renames: Renames,
    part: Read<'_, Boxed<Pattern>>,
) -> Read<'_, Boxed<Pattern>>
    ensures { GoesOn part.entry (λ p. Ok (Pattern.Select p.0 renames, p.1)) result }
{
    let (part, rest) = part?;
    Ok((makers::select(alloc, part, renames)?, rest))
}

#[cycle(pattern)]
#[tactic(auto, unfolding(crate::specs::Reading::select_at))]
fn select(alloc: Global, levels: usize, tokens: &[Placed]) -> Read<'_, Boxed<Pattern>>
    ensures { Gives (λ x. (x.0, x.1.now)) result (select_at (pattern_at levels) tokens.now) }
{
    let rest = word(tokens, Keyword::Select)?;
    let (renames, rest) = targets(alloc, rest)?;
    let rest = word(rest, Keyword::Where)?;
    selected(alloc, renames, pattern(alloc, levels, rest))
}

// The second part of a left join, and its condition.
#[cycle(pattern)]
#[tactic(auto, unfolding(crate::specs::Reading::optional_part_at))]
fn optional_part(
    alloc: Global,
    levels: usize,
    tokens: &[Placed],
) -> Read<'_, (Boxed<Pattern>, Boxed<Condition>)>
    ensures { Gives (λ x. ((x.0.0, x.0.1), x.1.now)) result (optional_part_at (pattern_at levels) tokens.now) }
{
    let rest = word(tokens, Keyword::Optional)?;
    let rest = sign(rest, Sign::OpenBrace)?;
    let (part, rest) = pattern(alloc, levels, rest)?;
    let (condition, rest) = join_condition(alloc, rest)?;
    let rest = sign(rest, Sign::CloseBrace)?;
    Ok(((part, condition), rest))
}

#[cycle(pattern)]
#[tactic(auto, unfolding(crate::specs::Reading::left_join_at))]
fn left_join(
    alloc: Global,
    levels: usize,
    left: Boxed<Pattern>,
    tokens: &[Placed],
) -> Read<'_, Boxed<Pattern>>
    ensures { Gives (λ x. (x.0, x.1.now)) result (left_join_at (pattern_at levels) left tokens.now) }
{
    let ((right, condition), rest) = optional_part(alloc, levels, tokens)?;
    Ok((makers::left_join(alloc, left, right, condition)?, rest))
}

// The two parts, of which the second was read behind the first.
fn paired(
    alloc: Global,
    pairing: Pairing,
    left: Boxed<Pattern>,
    right: Read<'_, Boxed<Pattern>>,
) -> Read<'_, Boxed<Pattern>>
    ensures { GoesOn right.entry (λ q. Ok (paired pairing left q.0, q.1)) result }
{
    let (right, rest) = right?;
    Ok((makers::paired(alloc, pairing, left, right)?, rest))
}

#[cycle(pattern)]
#[tactic(auto, unfolding(crate::specs::Reading::union_at))]
fn union(
    alloc: Global,
    levels: usize,
    left: Boxed<Pattern>,
    tokens: &[Placed],
) -> Read<'_, Boxed<Pattern>>
    ensures { Gives (λ x. (x.0, x.1.now)) result (union_at (pattern_at levels) left tokens.now) }
{
    let rest = word(tokens, Keyword::Union)?;
    paired(alloc, Pairing::Union, left, pattern(alloc, levels, rest))
}

#[cycle(pattern)]
#[tactic(auto, unfolding(crate::specs::Reading::minus_at))]
fn minus(
    alloc: Global,
    levels: usize,
    left: Boxed<Pattern>,
    tokens: &[Placed],
) -> Read<'_, Boxed<Pattern>>
    ensures { Gives (λ x. (x.0, x.1.now)) result (minus_at (pattern_at levels) left tokens.now) }
{
    let rest = word(tokens, Keyword::Minus)?;
    paired(alloc, Pairing::Minus, left, pattern(alloc, levels, rest))
}

#[cycle(pattern)]
#[tactic(auto, unfolding(crate::specs::Reading::and_pattern_at))]
fn both(
    alloc: Global,
    levels: usize,
    left: Boxed<Pattern>,
    tokens: &[Placed],
) -> Read<'_, Boxed<Pattern>>
    ensures { Gives (λ x. (x.0, x.1.now)) result (and_pattern_at (pattern_at levels) left tokens.now) }
{
    paired(alloc, Pairing::And, left, pattern(alloc, levels, tokens))
}

// A pattern in braces, and what stands behind it.
#[cycle(pattern)]
#[tactic(auto, unfolding(crate::specs::Reading::operation_at, crate::specs::Reading::operator_at))]
fn operation(alloc: Global, levels: usize, tokens: &[Placed]) -> Read<'_, Boxed<Pattern>>
    ensures { Gives (λ x. (x.0, x.1.now)) result (operation_at (pattern_at levels) tokens.now) }
{
    let (left, rest) = pattern(alloc, levels, tokens)?;
    if starts_with(rest, Keyword::Union) {
        union(alloc, levels, left, rest)
    } else if starts_with(rest, Keyword::Minus) {
        minus(alloc, levels, left, rest)
    } else if starts_with(rest, Keyword::Optional) {
        left_join(alloc, levels, left, rest)
    } else if starts_with(rest, Keyword::Filter) {
        filtered(alloc, left, rest)
    } else {
        both(alloc, levels, left, rest)
    }
}

// Nothing.
fn empty(alloc: Global, tokens: &[Placed]) -> Read<'_, Boxed<Pattern>>
    ensures { Gives (λ x. (x.0, x.1.now)) result (empty_at tokens.now) }
{
    Ok((makers::empty(alloc)?, tokens))
}

// What stands in braces.
#[cycle(pattern)]
#[tactic(auto, unfolding(crate::specs::Reading::content_at))]
fn content(alloc: Global, levels: usize, tokens: &[Placed]) -> Read<'_, Boxed<Pattern>>
    ensures { Gives (λ x. (x.0, x.1.now)) result (content_at (pattern_at levels) tokens.now) }
{
    if starts_with_operand(tokens) {
        triple(alloc, tokens)
    } else if starts_with(tokens, Keyword::Select) {
        select(alloc, levels, tokens)
    } else if starts_with_sign(tokens, Sign::OpenBrace) {
        operation(alloc, levels, tokens)
    } else {
        empty(alloc, tokens)
    }
}

// What was read, where a closing brace stands behind it.
fn closed(content: Read<'_, Boxed<Pattern>>) -> Read<'_, Boxed<Pattern>>
    ensures { GoesOn content.entry (closed_at Sign.CloseBrace) result }
{
    let (found, rest) = content?;
    let rest = sign(rest, Sign::CloseBrace)?;
    Ok((found, rest))
}

/// A pattern of so many levels at most. What is read behind the recursion is read by functions of their own, so that 2,048 levels
/// take little of the stack.
#[cycle(pattern)]
pub(crate) fn pattern(alloc: Global, levels: usize, tokens: &[Placed]) -> Read<'_, Boxed<Pattern>>
    ensures { Gives (λ x. (x.0, x.1.now)) result (pattern_at levels tokens.now) }
{
    if levels == 0 {
        return Err(ReadError::At(tokens, false));
    }
    let rest = sign(tokens, Sign::OpenBrace)?;
    closed(content(alloc, levels - 1, rest))
}
