// Lists of names, what a foreign key refers to, and keys.
ghost use Rattle.std.specs.Prelude.{◌≡◌};
ghost use Rattle.grammar_dm.specs.Exits.{Gives};
ghost use Rattle.ddl_syntax_dm.specs.Reading.{next_name_at, names_at, list_at, set_action_at, action_at, event_at, rule_at, rules_at, target_at, primary_at, unique_at, foreign_at, key_at, constraint_name_at, after_name_at, named_key_at, skip_name_at, given_list_at};

use crate::reader::{Read, Skip, name, sign, starts_with, starts_with_sign, word};
use crate::syntax::{ForeignKey, Key, Target};
use crate::token::Keyword;
use ddl_tokens_dm::{Placed, Sign, Token};
use grammar_dm::ReadError;
use std::alloc::Global;
use value_dm::{Names, Sequence, Text};

fn skip_name(tokens: &[Placed]) -> Skip<'_>
    ensures { Gives (λ x. (tt, x.now)) result (skip_name_at tokens.now) }
{
    match tokens {
        [first, rest @ ..] => match &first.token {
            Token::Word(_) | Token::Quoted(_) => Ok(rest),
            _ => Err(ReadError::At(tokens, false)),
        },
        [] => Err(ReadError::At(tokens, false)),
    }
}

#[tactic(auto, unfolding(crate::specs::Reading::next_name_at))]
fn next_name(alloc: Global, tokens: &[Placed]) -> Read<'_, Text>
    ensures { Gives (λ x. (x.0, x.1.now)) result (next_name_at tokens.now) }
{
    let rest = sign(tokens, Sign::Comma)?;
    name(alloc, rest)
}

#[tactic(auto, using(crate::proofs::Loops::names_loop), unfolding(crate::specs::Reading::names_at))]
fn names(alloc: Global, tokens: &[Placed]) -> Read<'_, Names>
    ensures { Gives (λ x. (x.0, x.1.now)) result (names_at tokens.now) }
{
    let (first, mut rest) = name(alloc, tokens)?;
    let mut found = Sequence::new(alloc);
    found.push(first)?;
    'names: while starts_with_sign(rest, Sign::Comma) {
        let (next, after) = next_name(alloc, rest)?;
        found.push(next)?;
        rest = after;
    }
    Ok((found, rest))
}

#[tactic(auto, unfolding(crate::specs::Reading::list_at))]
fn list(alloc: Global, tokens: &[Placed]) -> Read<'_, Names>
    ensures { Gives (λ x. (x.0, x.1.now)) result (list_at tokens.now) }
{
    let rest = sign(tokens, Sign::Open)?;
    let (found, rest) = names(alloc, rest)?;
    let rest = sign(rest, Sign::Close)?;
    Ok((found, rest))
}

#[tactic(auto, unfolding(crate::specs::Reading::set_action_at))]
fn set_action(tokens: &[Placed]) -> Skip<'_>
    ensures { Gives (λ x. (tt, x.now)) result (set_action_at tokens.now) }
{
    if starts_with(tokens, Keyword::Null) {
        word(tokens, Keyword::Null)
    } else {
        word(tokens, Keyword::Default)
    }
}

#[tactic(auto, unfolding(crate::specs::Reading::action_at))]
fn action(tokens: &[Placed]) -> Skip<'_>
    ensures { Gives (λ x. (tt, x.now)) result (action_at tokens.now) }
{
    if starts_with(tokens, Keyword::No) {
        let rest = word(tokens, Keyword::No)?;
        word(rest, Keyword::Action)
    } else if starts_with(tokens, Keyword::Restrict) {
        word(tokens, Keyword::Restrict)
    } else if starts_with(tokens, Keyword::Cascade) {
        word(tokens, Keyword::Cascade)
    } else {
        let rest = word(tokens, Keyword::Set)?;
        set_action(rest)
    }
}

#[tactic(auto, unfolding(crate::specs::Reading::event_at))]
fn event(tokens: &[Placed]) -> Skip<'_>
    ensures { Gives (λ x. (tt, x.now)) result (event_at tokens.now) }
{
    if starts_with(tokens, Keyword::Delete) {
        word(tokens, Keyword::Delete)
    } else {
        word(tokens, Keyword::Update)
    }
}

#[tactic(auto, unfolding(crate::specs::Reading::rule_at))]
fn rule(tokens: &[Placed]) -> Skip<'_>
    ensures { Gives (λ x. (tt, x.now)) result (rule_at tokens.now) }
{
    let rest = word(tokens, Keyword::On)?;
    let rest = event(rest)?;
    action(rest)
}

#[tactic(auto, using(crate::proofs::Loops::rules_loop))]
fn rules(tokens: &[Placed]) -> Skip<'_>
    ensures { Gives (λ x. (tt, x.now)) result (rules_at tokens.now) }
{
    let mut rest = tokens;
    'rules: while starts_with(rest, Keyword::On) {
        let after = rule(rest)?;
        rest = after;
    }
    Ok(rest)
}

#[tactic(auto, unfolding(crate::specs::Reading::given_list_at))]
fn given_list(alloc: Global, tokens: &[Placed]) -> Read<'_, Option<Names>>
    ensures { Gives (λ x. (x.0, x.1.now)) result (given_list_at tokens.now) }
{
    if starts_with_sign(tokens, Sign::Open) {
        let (found, rest) = list(alloc, tokens)?;
        Ok((Some(found), rest))
    } else {
        Ok((None, tokens))
    }
}

#[tactic(auto, unfolding(crate::specs::Reading::target_at))]
pub(crate) fn target(alloc: Global, tokens: &[Placed]) -> Read<'_, Target>
    ensures { Gives (λ x. (x.0, x.1.now)) result (target_at tokens.now) }
{
    let rest = word(tokens, Keyword::References)?;
    let (table, rest) = name(alloc, rest)?;
    let (columns, rest) = given_list(alloc, rest)?;
    let rest = rules(rest)?;
    Ok((Target { table, columns }, rest))
}

#[tactic(auto, unfolding(crate::specs::Reading::primary_at))]
fn primary(alloc: Global, tokens: &[Placed]) -> Read<'_, Key>
    ensures { Gives (λ x. (x.0, x.1.now)) result (primary_at tokens.now) }
{
    let rest = word(tokens, Keyword::Primary)?;
    let rest = word(rest, Keyword::Key)?;
    let (found, rest) = list(alloc, rest)?;
    Ok((Key::Primary(found), rest))
}

#[tactic(auto, unfolding(crate::specs::Reading::unique_at))]
fn unique(alloc: Global, tokens: &[Placed]) -> Read<'_, Key>
    ensures { Gives (λ x. (x.0, x.1.now)) result (unique_at tokens.now) }
{
    let rest = word(tokens, Keyword::Unique)?;
    let (found, rest) = list(alloc, rest)?;
    Ok((Key::Unique(found), rest))
}

#[tactic(auto, unfolding(crate::specs::Reading::foreign_at))]
fn foreign(alloc: Global, tokens: &[Placed]) -> Read<'_, Key>
    ensures { Gives (λ x. (x.0, x.1.now)) result (foreign_at tokens.now) }
{
    let rest = word(tokens, Keyword::Foreign)?;
    let rest = word(rest, Keyword::Key)?;
    let (columns, rest) = list(alloc, rest)?;
    let (target, rest) = target(alloc, rest)?;
    Ok((Key::Foreign(ForeignKey { columns, target }), rest))
}

#[tactic(auto, unfolding(crate::specs::Reading::key_at))]
fn key(alloc: Global, tokens: &[Placed]) -> Read<'_, Key>
    ensures { Gives (λ x. (x.0, x.1.now)) result (key_at tokens.now) }
{
    if starts_with(tokens, Keyword::Primary) {
        primary(alloc, tokens)
    } else if starts_with(tokens, Keyword::Unique) {
        unique(alloc, tokens)
    } else {
        foreign(alloc, tokens)
    }
}

#[tactic(auto, unfolding(crate::specs::Reading::constraint_name_at))]
fn constraint_name(tokens: &[Placed]) -> Skip<'_>
    ensures { Gives (λ x. (tt, x.now)) result (constraint_name_at tokens.now) }
{
    let rest = word(tokens, Keyword::Constraint)?;
    skip_name(rest)
}

#[tactic(auto, unfolding(crate::specs::Reading::after_name_at))]
pub(crate) fn after_name(tokens: &[Placed]) -> Skip<'_>
    ensures { Gives (λ x. (tt, x.now)) result (after_name_at tokens.now) }
{
    if starts_with(tokens, Keyword::Constraint) {
        constraint_name(tokens)
    } else {
        Ok(tokens)
    }
}

#[tactic(auto, unfolding(crate::specs::Reading::named_key_at))]
pub(crate) fn named_key(alloc: Global, tokens: &[Placed]) -> Read<'_, Key>
    ensures { Gives (λ x. (x.0, x.1.now)) result (named_key_at tokens.now) }
{
    let rest = after_name(tokens)?;
    key(alloc, rest)
}
