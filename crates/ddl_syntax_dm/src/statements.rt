// Statements, and all tokens of a file.
ghost use Rattle.std.specs.Prelude.{◌≡◌, ◌++◌, [], ◌∷◌, OnOk};
ghost use Rattle.grammar_dm.specs.Exits.{Gives, IsJudged};
ghost use Rattle.grammar_dm.specs.Reading.{starts, all_of};
ghost use Rattle.ddl_syntax_dm.specs.Grammar.{present, file};
ghost use Rattle.ddl_syntax_dm.specs.Reading.{begins_named_key, item_at, next_item_at, items_at, table_body_at, takes_if, if_not_exists_at, created_at, create_at, added_key_at, not_added, takes_only, altered_at, alter_at, statement_at, begins_statement, optional_statement_at, next_statement_at, file_at};

use crate::columns::column;
use crate::keys::named_key;
use crate::reader::{Read, Skip, has_word, name, sign, starts_with, starts_with_sign, word};
use crate::syntax::{AlterTable, CreateTable, Item, Statement};
use crate::token::Keyword;
use ddl_tokens_dm::{Placed, Sign};
use grammar_dm::ReadError;
use std::alloc::{AllocError, Global};
use value_dm::Sequence;

#[tactic(auto, unfolding(crate::specs::Reading::begins_named_key))]
fn begins_key(token: &Placed) -> bool
    ensures { result ≡ begins_named_key token.now }
{
    has_word(token, Keyword::Constraint)
        || has_word(token, Keyword::Primary)
        || has_word(token, Keyword::Unique)
        || has_word(token, Keyword::Foreign)
}

fn starts_with_key(tokens: &[Placed]) -> bool
    ensures { result ≡ starts begins_named_key tokens.now }
{
    match tokens {
        [first, ..] => begins_key(first),
        [] => false,
    }
}

#[tactic(auto, unfolding(crate::specs::Reading::item_at))]
fn item(alloc: Global, tokens: &[Placed]) -> Read<'_, Item>
    ensures { Gives (λ x. (x.0, x.1.now)) result (item_at tokens.now) }
{
    if starts_with_key(tokens) {
        let (key, rest) = named_key(alloc, tokens)?;
        Ok((Item::Key(key), rest))
    } else {
        let (column, rest) = column(alloc, tokens)?;
        Ok((Item::Column(column), rest))
    }
}

#[tactic(auto, unfolding(crate::specs::Reading::next_item_at))]
fn next_item(alloc: Global, tokens: &[Placed]) -> Read<'_, Item>
    ensures { Gives (λ x. (x.0, x.1.now)) result (next_item_at tokens.now) }
{
    let rest = sign(tokens, Sign::Comma)?;
    item(alloc, rest)
}

#[tactic(auto, using(crate::proofs::Loops::items_loop), unfolding(crate::specs::Reading::items_at))]
fn items(alloc: Global, tokens: &[Placed]) -> Read<'_, Sequence<Item>>
    ensures { Gives (λ x. (x.0, x.1.now)) result (items_at tokens.now) }
{
    let (first, mut rest) = item(alloc, tokens)?;
    let mut found = Sequence::new(alloc);
    found.push(first)?;
    'items: while starts_with_sign(rest, Sign::Comma) {
        let (next, after) = next_item(alloc, rest)?;
        found.push(next)?;
        rest = after;
    }
    Ok((found, rest))
}

#[tactic(auto, unfolding(crate::specs::Reading::table_body_at))]
fn table_body(alloc: Global, tokens: &[Placed]) -> Read<'_, Statement>
    ensures { Gives (λ x. (x.0, x.1.now)) result (table_body_at tokens.now) }
{
    let (name, rest) = name(alloc, tokens)?;
    let rest = sign(rest, Sign::Open)?;
    let (items, rest) = items(alloc, rest)?;
    let rest = sign(rest, Sign::Close)?;
    Ok((Statement::Create(CreateTable { name, items }), rest))
}

/// Whether IF stands here as a key word, and not as a name.
fn takes_if(tokens: &[Placed]) -> bool
    ensures { result ≡ takes_if tokens.now }
{
    match tokens.split_first() {
        Some((first, rest)) => has_word(first, Keyword::If) && starts_with(rest, Keyword::Not),
        None => false,
    }
}

#[tactic(auto, unfolding(crate::specs::Reading::if_not_exists_at))]
fn if_not_exists(tokens: &[Placed]) -> Skip<'_>
    ensures { Gives (λ x. (tt, x.now)) result (if_not_exists_at tokens.now) }
{
    let rest = word(tokens, Keyword::If)?;
    let rest = word(rest, Keyword::Not)?;
    word(rest, Keyword::Exists)
}

#[tactic(auto, unfolding(crate::specs::Reading::created_at))]
fn created(alloc: Global, tokens: &[Placed]) -> Read<'_, Statement>
    ensures { Gives (λ x. (x.0, x.1.now)) result (created_at tokens.now) }
{
    if takes_if(tokens) {
        let rest = if_not_exists(tokens)?;
        table_body(alloc, rest)
    } else {
        table_body(alloc, tokens)
    }
}

#[tactic(auto, unfolding(crate::specs::Reading::create_at))]
fn create(alloc: Global, tokens: &[Placed]) -> Read<'_, Statement>
    ensures { Gives (λ x. (x.0, x.1.now)) result (create_at tokens.now) }
{
    let rest = word(tokens, Keyword::Create)?;
    let rest = word(rest, Keyword::Table)?;
    created(alloc, rest)
}

#[tactic(auto, unfolding(crate::specs::Reading::added_key_at))]
fn added_key(alloc: Global, tokens: &[Placed]) -> Read<'_, Statement>
    ensures { Gives (λ x. (x.0, x.1.now)) result (added_key_at tokens.now) }
{
    let (name, rest) = name(alloc, tokens)?;
    let rest = word(rest, Keyword::Add)?;
    let (key, rest) = named_key(alloc, rest)?;
    Ok((Statement::Alter(AlterTable { name, key }), rest))
}

/// Whether no ADD follows, or one that is a table's name, since another ADD follows it.
fn not_added(tokens: &[Placed]) -> bool
    ensures { result ≡ not_added tokens.now }
{
    match tokens.split_first() {
        Some((first, rest)) => !has_word(first, Keyword::Add) || starts_with(rest, Keyword::Add),
        None => true,
    }
}

/// Whether ONLY stands here as a key word, and not as a name.
fn takes_only(tokens: &[Placed]) -> bool
    ensures { result ≡ takes_only tokens.now }
{
    match tokens.split_first() {
        Some((first, rest)) => has_word(first, Keyword::Only) && not_added(rest),
        None => false,
    }
}

#[tactic(auto, unfolding(crate::specs::Reading::altered_at))]
fn altered(alloc: Global, tokens: &[Placed]) -> Read<'_, Statement>
    ensures { Gives (λ x. (x.0, x.1.now)) result (altered_at tokens.now) }
{
    if takes_only(tokens) {
        let rest = word(tokens, Keyword::Only)?;
        added_key(alloc, rest)
    } else {
        added_key(alloc, tokens)
    }
}

#[tactic(auto, unfolding(crate::specs::Reading::alter_at))]
fn alter(alloc: Global, tokens: &[Placed]) -> Read<'_, Statement>
    ensures { Gives (λ x. (x.0, x.1.now)) result (alter_at tokens.now) }
{
    let rest = word(tokens, Keyword::Alter)?;
    let rest = word(rest, Keyword::Table)?;
    altered(alloc, rest)
}

#[tactic(auto, unfolding(crate::specs::Reading::statement_at))]
fn statement(alloc: Global, tokens: &[Placed]) -> Read<'_, Statement>
    ensures { Gives (λ x. (x.0, x.1.now)) result (statement_at tokens.now) }
{
    if starts_with(tokens, Keyword::Create) {
        create(alloc, tokens)
    } else {
        alter(alloc, tokens)
    }
}

#[tactic(auto, unfolding(crate::specs::Reading::begins_statement))]
fn begins_statement(token: &Placed) -> bool
    ensures { result ≡ begins_statement token.now }
{
    has_word(token, Keyword::Create) || has_word(token, Keyword::Alter)
}

fn starts_with_statement(tokens: &[Placed]) -> bool
    ensures { result ≡ starts begins_statement tokens.now }
{
    match tokens {
        [first, ..] => begins_statement(first),
        [] => false,
    }
}

#[tactic(auto, unfolding(crate::specs::Reading::optional_statement_at))]
fn optional_statement(alloc: Global, tokens: &[Placed]) -> Read<'_, Option<Statement>>
    ensures { Gives (λ x. (x.0, x.1.now)) result (optional_statement_at tokens.now) }
{
    if starts_with_statement(tokens) {
        let (found, rest) = statement(alloc, tokens)?;
        Ok((Some(found), rest))
    } else {
        Ok((None, tokens))
    }
}

#[tactic(auto, unfolding(crate::specs::Reading::next_statement_at))]
fn next_statement(alloc: Global, tokens: &[Placed]) -> Read<'_, Option<Statement>>
    ensures { Gives (λ x. (x.0, x.1.now)) result (next_statement_at tokens.now) }
{
    let rest = sign(tokens, Sign::Semicolon)?;
    optional_statement(alloc, rest)
}

fn push_present(
    found: &mut Sequence<Statement>,
    statement: Option<Statement>,
) -> Result<(), AllocError>
    ensures { OnOk result (found.new ≡ found.old ++ present (statement ∷ [])) }
{
    if let Some(statement) = statement {
        found.push(statement)?;
    }
    Ok(())
}

#[tactic(auto, using(crate::proofs::Loops::file_loop), unfolding(crate::specs::Reading::file_at))]
fn statements(alloc: Global, tokens: &[Placed]) -> Read<'_, Sequence<Statement>>
    ensures { Gives (λ x. (x.0, x.1.now)) result (file_at tokens.now) }
{
    let (first, mut rest) = optional_statement(alloc, tokens)?;
    let mut found = Sequence::new(alloc);
    push_present(&mut found, first)?;
    'statements: while starts_with_sign(rest, Sign::Semicolon) {
        let (next, after) = next_statement(alloc, rest)?;
        push_present(&mut found, next)?;
        rest = after;
    }
    Ok((found, rest))
}

fn all_statements(
    alloc: Global,
    tokens: &[Placed],
) -> Result<Sequence<Statement>, ReadError<'_, Placed>>
    ensures { Gives (λ x. x) result (all_of (file_at tokens.now)) }
{
    let (found, rest) = statements(alloc, tokens)?;
    if !rest.is_empty() {
        return Err(ReadError::At(rest, false));
    }
    Ok(found)
}

/// The statements of a file, in order, where the tokens are one; else the tokens from the first fault on, and
/// whether the type of a column should stand there. Refused for want of memory besides.
pub fn parse(alloc: Global, tokens: &[Placed]) -> Result<Sequence<Statement>, ReadError<'_, Placed>>
    ensures { IsJudged file tokens.now result }
{
    all_statements(alloc, tokens)
}
