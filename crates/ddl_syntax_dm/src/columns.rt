// Types and columns.
ghost use Rattle.std.specs.Prelude.{◌≡◌};
ghost use Rattle.grammar_dm.specs.Exits.{Gives};
ghost use Rattle.grammar_dm.specs.Reading.{starts};
ghost use Rattle.ddl_syntax_dm.specs.Words.{of_kind, type_word_of, is_varying_text, is_text, is_integer, is_decimal, is_boolean, is_binary, type_word};
ghost use Rattle.ddl_syntax_dm.specs.Reading.{type_word_at, scale_at, after_scale_at, length_at, after_length_at, after_varying_at, zone_at, after_zone_at, bare_type_at, column_type_at, references_at, primary_key_at, is_unique_at, not_null_at, null_at, bare_constraint_at, constraint_at, begins_constraint, constraints_at, column_at};

use crate::keys::{after_name, target};
use crate::reader::{
    Read, Skip, column_name, has_word, is_spelled, number, sign, starts_with, starts_with_sign,
    word,
};
use crate::syntax::{Column, ColumnType, Constraint};
use crate::token::{Keyword, TypeWord};
use ddl_tokens_dm::{Placed, Sign, Token};
use grammar_dm::ReadError;
use std::alloc::Global;
use value_dm::{Sequence, Text};

fn is_varying_text(name: &Text) -> bool
    ensures { result ≡ is_varying_text name.now }
{
    is_spelled(name, "CHAR") || is_spelled(name, "CHARACTER")
}

fn is_text(name: &Text) -> bool
    ensures { result ≡ is_text name.now }
{
    is_spelled(name, "TEXT") || is_spelled(name, "VARCHAR") || is_spelled(name, "CLOB")
}

fn is_integer(name: &Text) -> bool
    ensures { result ≡ is_integer name.now }
{
    is_spelled(name, "INTEGER")
        || is_spelled(name, "INT")
        || is_spelled(name, "SMALLINT")
        || is_spelled(name, "BIGINT")
        || is_spelled(name, "TINYINT")
}

fn is_decimal(name: &Text) -> bool
    ensures { result ≡ is_decimal name.now }
{
    is_spelled(name, "DECIMAL") || is_spelled(name, "NUMERIC")
}

fn is_boolean(name: &Text) -> bool
    ensures { result ≡ is_boolean name.now }
{
    is_spelled(name, "BOOLEAN") || is_spelled(name, "BOOL")
}

fn is_binary(name: &Text) -> bool
    ensures { result ≡ is_binary name.now }
{
    is_spelled(name, "VARBINARY") || is_spelled(name, "BLOB") || is_spelled(name, "BYTEA")
}

fn type_of(kind: ColumnType, varies: bool, zoned: bool) -> Option<TypeWord>
    ensures { result ≡ of_kind kind varies zoned }
{
    Some(TypeWord {
        kind,
        varies,
        zoned,
    })
}

#[tactic(auto, unfolding(crate::specs::Words::type_word))]
fn find_type(name: &Text) -> Option<TypeWord>
    ensures { result ≡ type_word name.now }
{
    if is_varying_text(name) {
        type_of(ColumnType::Text, true, false)
    } else if is_text(name) {
        type_of(ColumnType::Text, false, false)
    } else if is_integer(name) {
        type_of(ColumnType::Integer, false, false)
    } else if is_decimal(name) {
        type_of(ColumnType::Decimal, false, false)
    } else if is_boolean(name) {
        type_of(ColumnType::Boolean, false, false)
    } else if is_spelled(name, "DATE") {
        type_of(ColumnType::Date, false, false)
    } else if is_spelled(name, "TIME") {
        type_of(ColumnType::Time, false, true)
    } else if is_spelled(name, "TIMESTAMP") {
        type_of(ColumnType::DateTime, false, true)
    } else if is_spelled(name, "DATETIME") {
        type_of(ColumnType::DateTime, false, false)
    } else if is_spelled(name, "BINARY") {
        type_of(ColumnType::Binary, true, false)
    } else if is_binary(name) {
        type_of(ColumnType::Binary, false, false)
    } else {
        None
    }
}

fn first_type(token: &Placed) -> Option<TypeWord>
    ensures { result ≡ type_word_of token.now.token }
{
    match &token.token {
        Token::Word(name) => find_type(name),
        _ => None,
    }
}

fn type_word(tokens: &[Placed]) -> Read<'_, TypeWord>
    ensures { Gives (λ x. (x.0, x.1.now)) result (type_word_at tokens.now) }
{
    match tokens {
        [first, rest @ ..] => match first_type(first) {
            Some(found) => Ok((found, rest)),
            None => Err(ReadError::At(tokens, false)),
        },
        [] => Err(ReadError::At(tokens, false)),
    }
}

#[tactic(auto, unfolding(crate::specs::Reading::scale_at))]
fn scale(tokens: &[Placed]) -> Skip<'_>
    ensures { Gives (λ x. (tt, x.now)) result (scale_at tokens.now) }
{
    let rest = sign(tokens, Sign::Comma)?;
    number(rest)
}

#[tactic(auto, unfolding(crate::specs::Reading::after_scale_at))]
fn after_scale(tokens: &[Placed]) -> Skip<'_>
    ensures { Gives (λ x. (tt, x.now)) result (after_scale_at tokens.now) }
{
    if starts_with_sign(tokens, Sign::Comma) {
        scale(tokens)
    } else {
        Ok(tokens)
    }
}

#[tactic(auto, unfolding(crate::specs::Reading::length_at))]
fn length(tokens: &[Placed]) -> Skip<'_>
    ensures { Gives (λ x. (tt, x.now)) result (length_at tokens.now) }
{
    let rest = sign(tokens, Sign::Open)?;
    let rest = number(rest)?;
    let rest = after_scale(rest)?;
    sign(rest, Sign::Close)
}

#[tactic(auto, unfolding(crate::specs::Reading::after_length_at))]
fn after_length(tokens: &[Placed]) -> Skip<'_>
    ensures { Gives (λ x. (tt, x.now)) result (after_length_at tokens.now) }
{
    if starts_with_sign(tokens, Sign::Open) {
        length(tokens)
    } else {
        Ok(tokens)
    }
}

#[tactic(auto, unfolding(crate::specs::Reading::after_varying_at))]
fn after_varying(allowed: bool, tokens: &[Placed]) -> Skip<'_>
    ensures { Gives (λ x. (tt, x.now)) result (after_varying_at allowed tokens.now) }
{
    if allowed && starts_with(tokens, Keyword::Varying) {
        word(tokens, Keyword::Varying)
    } else {
        Ok(tokens)
    }
}

#[tactic(auto, unfolding(crate::specs::Reading::zone_at))]
fn zone(tokens: &[Placed]) -> Skip<'_>
    ensures { Gives (λ x. (tt, x.now)) result (zone_at tokens.now) }
{
    let rest = word(tokens, Keyword::Without)?;
    let rest = word(rest, Keyword::Time)?;
    word(rest, Keyword::Zone)
}

#[tactic(auto, unfolding(crate::specs::Reading::after_zone_at))]
fn after_zone(allowed: bool, tokens: &[Placed]) -> Skip<'_>
    ensures { Gives (λ x. (tt, x.now)) result (after_zone_at allowed tokens.now) }
{
    if allowed && starts_with(tokens, Keyword::Without) {
        zone(tokens)
    } else {
        Ok(tokens)
    }
}

#[tactic(auto, unfolding(crate::specs::Reading::bare_type_at))]
fn bare_type(tokens: &[Placed]) -> Read<'_, ColumnType>
    ensures { Gives (λ x. (x.0, x.1.now)) result (bare_type_at tokens.now) }
{
    let (first, rest) = type_word(tokens)?;
    let rest = after_varying(first.varies, rest)?;
    let rest = after_length(rest)?;
    let rest = after_zone(first.zoned, rest)?;
    Ok((first.kind, rest))
}

#[tactic(auto, unfolding(crate::specs::Reading::column_type_at))]
fn column_type(tokens: &[Placed]) -> Read<'_, ColumnType>
    ensures { Gives (λ x. (x.0, x.1.now)) result (column_type_at tokens.now) }
{
    match bare_type(tokens) {
        Ok((kind, rest)) => Ok((kind, rest)),
        Err(ReadError::Memory) => Err(ReadError::Memory),
        Err(ReadError::At(rest, marked)) => {
            Err(ReadError::At(rest, marked || rest.len() == tokens.len()))
        }
    }
}

#[tactic(auto, unfolding(crate::specs::Reading::references_at))]
fn references(alloc: Global, tokens: &[Placed]) -> Read<'_, Constraint>
    ensures { Gives (λ x. (x.0, x.1.now)) result (references_at tokens.now) }
{
    let (target, rest) = target(alloc, tokens)?;
    Ok((Constraint::References(target), rest))
}

#[tactic(auto, unfolding(crate::specs::Reading::primary_key_at))]
fn primary_key(tokens: &[Placed]) -> Read<'_, Constraint>
    ensures { Gives (λ x. (x.0, x.1.now)) result (primary_key_at tokens.now) }
{
    let rest = word(tokens, Keyword::Primary)?;
    let rest = word(rest, Keyword::Key)?;
    Ok((Constraint::PrimaryKey, rest))
}

#[tactic(auto, unfolding(crate::specs::Reading::is_unique_at))]
fn is_unique(tokens: &[Placed]) -> Read<'_, Constraint>
    ensures { Gives (λ x. (x.0, x.1.now)) result (is_unique_at tokens.now) }
{
    let rest = word(tokens, Keyword::Unique)?;
    Ok((Constraint::Unique, rest))
}

#[tactic(auto, unfolding(crate::specs::Reading::not_null_at))]
fn not_null(tokens: &[Placed]) -> Read<'_, Constraint>
    ensures { Gives (λ x. (x.0, x.1.now)) result (not_null_at tokens.now) }
{
    let rest = word(tokens, Keyword::Not)?;
    let rest = word(rest, Keyword::Null)?;
    Ok((Constraint::NotNull, rest))
}

#[tactic(auto, unfolding(crate::specs::Reading::null_at))]
fn null(tokens: &[Placed]) -> Read<'_, Constraint>
    ensures { Gives (λ x. (x.0, x.1.now)) result (null_at tokens.now) }
{
    let rest = word(tokens, Keyword::Null)?;
    Ok((Constraint::Null, rest))
}

#[tactic(auto, unfolding(crate::specs::Reading::bare_constraint_at))]
fn bare_constraint(alloc: Global, tokens: &[Placed]) -> Read<'_, Constraint>
    ensures { Gives (λ x. (x.0, x.1.now)) result (bare_constraint_at tokens.now) }
{
    if starts_with(tokens, Keyword::Primary) {
        primary_key(tokens)
    } else if starts_with(tokens, Keyword::Unique) {
        is_unique(tokens)
    } else if starts_with(tokens, Keyword::Not) {
        not_null(tokens)
    } else if starts_with(tokens, Keyword::Null) {
        null(tokens)
    } else {
        references(alloc, tokens)
    }
}

#[tactic(auto, unfolding(crate::specs::Reading::constraint_at))]
fn constraint(alloc: Global, tokens: &[Placed]) -> Read<'_, Constraint>
    ensures { Gives (λ x. (x.0, x.1.now)) result (constraint_at tokens.now) }
{
    let rest = after_name(tokens)?;
    bare_constraint(alloc, rest)
}

#[tactic(auto, unfolding(crate::specs::Reading::begins_constraint))]
fn begins_constraint(token: &Placed) -> bool
    ensures { result ≡ begins_constraint token.now }
{
    has_word(token, Keyword::Constraint)
        || has_word(token, Keyword::Primary)
        || has_word(token, Keyword::Unique)
        || has_word(token, Keyword::Not)
        || has_word(token, Keyword::Null)
        || has_word(token, Keyword::References)
}

fn starts_with_constraint(tokens: &[Placed]) -> bool
    ensures { result ≡ starts begins_constraint tokens.now }
{
    match tokens {
        [first, ..] => begins_constraint(first),
        [] => false,
    }
}

#[tactic(auto, using(crate::proofs::Loops::constraints_loop), unfolding(crate::specs::Reading::constraints_at))]
fn constraints(alloc: Global, tokens: &[Placed]) -> Read<'_, Sequence<Constraint>>
    ensures { Gives (λ x. (x.0, x.1.now)) result (constraints_at tokens.now) }
{
    let mut found = Sequence::new(alloc);
    let mut rest = tokens;
    'constraints: while starts_with_constraint(rest) {
        let (next, after) = constraint(alloc, rest)?;
        found.push(next)?;
        rest = after;
    }
    Ok((found, rest))
}

#[tactic(auto, unfolding(crate::specs::Reading::column_at))]
pub(crate) fn column(alloc: Global, tokens: &[Placed]) -> Read<'_, Column>
    ensures { Gives (λ x. (x.0, x.1.now)) result (column_at tokens.now) }
{
    let (name, rest) = column_name(alloc, tokens)?;
    let (kind, rest) = column_type(rest)?;
    let (constraints, rest) = constraints(alloc, rest)?;
    Ok((
        Column {
            name,
            kind,
            constraints,
        },
        rest,
    ))
}
