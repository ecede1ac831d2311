// What stands behind an operator, and whole queries.
ghost use Rattle.std.specs.Prelude.{◌≡◌, IfOk, length};
ghost use Rattle.grammar_dm.specs.Exits.{Gives, IsJudged};
ghost use Rattle.grammar_dm.specs.Reading.{all_of};
ghost use Rattle.query_text_dm.specs.Grammar.{query};
ghost use Rattle.query_text_dm.specs.Reading.{compared_at, diff_at, eq_at, inside_at, is_null_at, join_at, named_at, ne_at, not_null_at, null_at, operands_at, project_at, query_at, rename_at, table_at, two_at, union_at};

use crate::operator::Operator;
use crate::reader::{Read, close, name, names, open, operator, value};
use algebra_dm::Query;
use grammar_dm::ReadError;
use query_tokens_dm::Placed;
use sqlite_items::Boxed;
use std::alloc::{AllocError, Global};
use value_dm::{Text, Value};

fn boxed(alloc: Global, part: Query) -> Result<Boxed<Query>, AllocError>
    ensures { IfOk result (λ made. made ≡ part) }
{
    Boxed::new(alloc, part)
}

#[tactic(auto, unfolding(crate::specs::Reading::table_at))]
fn table(alloc: Global, tokens: &[Placed]) -> Read<'_, Query>
    ensures { Gives (λ x. (x.0, x.1.now)) result (table_at tokens.now) }
{
    let (name, rest) = name(alloc, tokens)?;
    Ok((Query::Table(name), rest))
}

#[tactic(auto, unfolding(crate::specs::Reading::null_at))]
fn null(alloc: Global, tokens: &[Placed]) -> Read<'_, Query>
    ensures { Gives (λ x. (x.0, x.1.now)) result (null_at tokens.now) }
{
    let (name, rest) = name(alloc, tokens)?;
    Ok((Query::Null(name), rest))
}

// A part, and an attribute and a value that it is compared with.
#[cycle(query)]
#[tactic(auto, unfolding(crate::specs::Reading::compared_at))]
fn compared(alloc: Global, levels: usize, tokens: &[Placed]) -> Read<'_, (Query, Text, Value)>
    ensures { Gives (λ x. ((x.0.0, x.0.1, x.0.2), x.1.now)) result (compared_at (query_at levels) tokens.now) }
{
    let (part, rest) = query(alloc, levels, tokens)?;
    let (name, rest) = name(alloc, rest)?;
    let (value, rest) = value(alloc, rest)?;
    Ok(((part, name, value), rest))
}

#[cycle(query)]
#[tactic(auto, unfolding(crate::specs::Reading::eq_at))]
fn eq(alloc: Global, levels: usize, tokens: &[Placed]) -> Read<'_, Query>
    ensures { Gives (λ x. (x.0, x.1.now)) result (eq_at (query_at levels) tokens.now) }
{
    let ((part, name, value), rest) = compared(alloc, levels, tokens)?;
    Ok((Query::Eq(boxed(alloc, part)?, name, value), rest))
}

#[cycle(query)]
#[tactic(auto, unfolding(crate::specs::Reading::ne_at))]
fn ne(alloc: Global, levels: usize, tokens: &[Placed]) -> Read<'_, Query>
    ensures { Gives (λ x. (x.0, x.1.now)) result (ne_at (query_at levels) tokens.now) }
{
    let ((part, name, value), rest) = compared(alloc, levels, tokens)?;
    Ok((Query::Ne(boxed(alloc, part)?, name, value), rest))
}

// A part and an attribute.
#[cycle(query)]
#[tactic(auto, unfolding(crate::specs::Reading::named_at))]
fn named(alloc: Global, levels: usize, tokens: &[Placed]) -> Read<'_, (Query, Text)>
    ensures { Gives (λ x. ((x.0.0, x.0.1), x.1.now)) result (named_at (query_at levels) tokens.now) }
{
    let (part, rest) = query(alloc, levels, tokens)?;
    let (name, rest) = name(alloc, rest)?;
    Ok(((part, name), rest))
}

#[cycle(query)]
#[tactic(auto, unfolding(crate::specs::Reading::is_null_at))]
fn is_null(alloc: Global, levels: usize, tokens: &[Placed]) -> Read<'_, Query>
    ensures { Gives (λ x. (x.0, x.1.now)) result (is_null_at (query_at levels) tokens.now) }
{
    let ((part, name), rest) = named(alloc, levels, tokens)?;
    Ok((Query::IsNull(boxed(alloc, part)?, name), rest))
}

#[cycle(query)]
#[tactic(auto, unfolding(crate::specs::Reading::not_null_at))]
fn not_null(alloc: Global, levels: usize, tokens: &[Placed]) -> Read<'_, Query>
    ensures { Gives (λ x. (x.0, x.1.now)) result (not_null_at (query_at levels) tokens.now) }
{
    let ((part, name), rest) = named(alloc, levels, tokens)?;
    Ok((Query::NotNull(boxed(alloc, part)?, name), rest))
}

#[cycle(query)]
#[tactic(auto, unfolding(crate::specs::Reading::project_at))]
fn project(alloc: Global, levels: usize, tokens: &[Placed]) -> Read<'_, Query>
    ensures { Gives (λ x. (x.0, x.1.now)) result (project_at (query_at levels) tokens.now) }
{
    let (part, rest) = query(alloc, levels, tokens)?;
    let (names, rest) = names(alloc, rest)?;
    Ok((Query::Project(boxed(alloc, part)?, names), rest))
}

#[cycle(query)]
#[tactic(auto, unfolding(crate::specs::Reading::rename_at))]
fn rename(alloc: Global, levels: usize, tokens: &[Placed]) -> Read<'_, Query>
    ensures { Gives (λ x. (x.0, x.1.now)) result (rename_at (query_at levels) tokens.now) }
{
    let ((part, from), rest) = named(alloc, levels, tokens)?;
    let (to, rest) = name(alloc, rest)?;
    Ok((Query::Rename(boxed(alloc, part)?, from, to), rest))
}

// Two parts.
#[cycle(query)]
#[tactic(auto, unfolding(crate::specs::Reading::two_at))]
fn two(alloc: Global, levels: usize, tokens: &[Placed]) -> Read<'_, (Query, Query)>
    ensures { Gives (λ x. ((x.0.0, x.0.1), x.1.now)) result (two_at (query_at levels) tokens.now) }
{
    let (left, rest) = query(alloc, levels, tokens)?;
    let (right, rest) = query(alloc, levels, rest)?;
    Ok(((left, right), rest))
}

#[cycle(query)]
#[tactic(auto, unfolding(crate::specs::Reading::join_at))]
fn join(alloc: Global, levels: usize, tokens: &[Placed]) -> Read<'_, Query>
    ensures { Gives (λ x. (x.0, x.1.now)) result (join_at (query_at levels) tokens.now) }
{
    let ((left, right), rest) = two(alloc, levels, tokens)?;
    Ok((Query::Join(boxed(alloc, left)?, boxed(alloc, right)?), rest))
}

#[cycle(query)]
#[tactic(auto, unfolding(crate::specs::Reading::union_at))]
fn union(alloc: Global, levels: usize, tokens: &[Placed]) -> Read<'_, Query>
    ensures { Gives (λ x. (x.0, x.1.now)) result (union_at (query_at levels) tokens.now) }
{
    let ((left, right), rest) = two(alloc, levels, tokens)?;
    Ok((
        Query::Union(boxed(alloc, left)?, boxed(alloc, right)?),
        rest,
    ))
}

#[cycle(query)]
#[tactic(auto, unfolding(crate::specs::Reading::diff_at))]
fn diff(alloc: Global, levels: usize, tokens: &[Placed]) -> Read<'_, Query>
    ensures { Gives (λ x. (x.0, x.1.now)) result (diff_at (query_at levels) tokens.now) }
{
    let ((left, right), rest) = two(alloc, levels, tokens)?;
    Ok((Query::Diff(boxed(alloc, left)?, boxed(alloc, right)?), rest))
}

// What stands behind the operator.
#[cycle(query)]
fn operands(alloc: Global, levels: usize, operator: Operator, tokens: &[Placed]) -> Read<'_, Query>
    ensures { Gives (λ x. (x.0, x.1.now)) result (operands_at operator (query_at levels) tokens.now) }
{
    match operator {
        Operator::Table => table(alloc, tokens),
        Operator::Null => null(alloc, tokens),
        Operator::Eq => eq(alloc, levels, tokens),
        Operator::Ne => ne(alloc, levels, tokens),
        Operator::IsNull => is_null(alloc, levels, tokens),
        Operator::NotNull => not_null(alloc, levels, tokens),
        Operator::Project => project(alloc, levels, tokens),
        Operator::Rename => rename(alloc, levels, tokens),
        Operator::Join => join(alloc, levels, tokens),
        Operator::Union => union(alloc, levels, tokens),
        Operator::Diff => diff(alloc, levels, tokens),
    }
}

// A query without its opening parenthesis.
#[cycle(query)]
#[tactic(auto, unfolding(crate::specs::Reading::inside_at))]
fn inside(alloc: Global, levels: usize, tokens: &[Placed]) -> Read<'_, Query>
    ensures { Gives (λ x. (x.0, x.1.now)) result (inside_at (query_at levels) tokens.now) }
{
    let (operator, rest) = operator(tokens)?;
    let (found, rest) = operands(alloc, levels, operator, rest)?;
    let rest = close(rest)?;
    Ok((found, rest))
}

// A query of so many levels at most.
#[cycle(query)]
fn query(alloc: Global, levels: usize, tokens: &[Placed]) -> Read<'_, Query>
    ensures { Gives (λ x. (x.0, x.1.now)) result (query_at levels tokens.now) }
{
    if levels == 0 {
        return Err(ReadError::At(tokens, false));
    }
    let rest = open(tokens)?;
    inside(alloc, levels - 1, rest)
}

fn all(alloc: Global, tokens: &[Placed]) -> Result<Query, ReadError<'_, Placed>>
    ensures { Gives (λ x. x) result (all_of (query_at (length tokens.now) tokens.now)) }
{
    let (found, rest) = query(alloc, tokens.len(), tokens)?;
    if !rest.is_empty() {
        return Err(ReadError::At(rest, false));
    }
    Ok(found)
}

/// The query that the tokens are, or else their first fault.
pub(crate) fn parse(alloc: Global, tokens: &[Placed]) -> Result<Query, ReadError<'_, Placed>>
    ensures { IsJudged query tokens.now result }
{
    all(alloc, tokens)
}
