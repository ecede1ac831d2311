// What is known of a query's outermost node by what is known of its parts.
ghost use Rattle.std.specs.Prelude.{◌≡◌, ◌≢◌, ◌⊎◌, ◌<◌, ◌≤◌, ℕ, List, [], Any, MatchResult, length, map};
ghost use Rattle.members_dm.specs.Elements.{Repeats};
ghost use Rattle.members_dm.specs.Membership.{IsIn, NoRepeats};
ghost use Rattle.schema_dm.specs.Naming.{column_names};
ghost use Rattle.algebra_dm.specs.Certain.{IsCertainColumn};
ghost use Rattle.algebra_dm.specs.Checking.{AreInOrder, IsNodeAnswer, IsTold};
ghost use Rattle.algebra_dm.specs.declared.query.Query.TheVariants as queries;

use crate::columns::{certain_names, column_names, table_named};
use crate::error::QueryError;
use crate::known::Known;
use crate::name_lists::{has, lacks_some, renamed, repeats, rising, shared, together, with};
use crate::query::Mode;
use schema_dm::{Index, Table};
use std::alloc::Global;
use value_dm::{Names, Text, TryCopy, same};

/// The most attributes that a node of a query has.
pub const MOST_ATTRIBUTES: usize = 1024;

// Refuses too many attributes.
fn narrow(known: Known) -> Result<Known, QueryError>
    ensures { MatchResult result (λ k. (k ≡ known) × (length known.attributes ≤ 1024)) (λ e. (e ≡ QueryError.TooWide) × (1024 < length known.attributes)) }
{
    if known.attributes.len() > MOST_ATTRIBUTES {
        return Err(QueryError::TooWide);
    }
    Ok(known)
}

fn columns_of(alloc: Global, mode: Mode, table: &Table) -> Result<Known, QueryError>
    ensures { IsTold ⊥ ⊥ ⊥ ⊥ (λ a. IsIn a (column_names table.now.columns)) (IsCertainColumn mode table.now) result }
{
    let attributes = rising(column_names(alloc, table.columns.as_slice())?);
    let certain = rising(certain_names(alloc, mode, table)?);
    narrow(Known {
        attributes,
        certain,
    })
}

pub fn table(
    alloc: Global,
    mode: Mode,
    tables: &[Table],
    names: &Index<Text>,
    name: &Text,
) -> Result<Known, QueryError>
    requires named { names.now ≡ map (λ table. table.name) tables.now }
    requires once { NoRepeats (map (λ table. table.name) tables.now) }
    ensures { IsNodeAnswer mode tables.now (queries.Table name.now) result }
{
    match table_named(tables, names, name) {
        None => Err(QueryError::NoSuchTable),
        Some(table) => columns_of(alloc, mode, table),
    }
}

pub fn null(alloc: Global, name: &Text) -> Result<Known, QueryError>
    ensures { IsTold ⊥ ⊥ ⊥ ⊥ (λ a. name.now ≡ a) (λ a. ⊥) result }
{
    let none = Names::new(alloc);
    let attributes = with(alloc, &none, name)?;
    narrow(Known {
        attributes,
        certain: none,
    })
}

/// A selection that leaves no NULL in the attribute.
pub fn compared(alloc: Global, part: Known, name: &Text) -> Result<Known, QueryError>
    requires { AreInOrder part }
    ensures { IsTold ⊥ (¬ IsIn name.now part.attributes) ⊥ ⊥ (λ a. IsIn a part.attributes) (λ a. IsIn a part.certain ⊎ (name.now ≡ a)) result }
{
    if !has(&part.attributes, name) {
        return Err(QueryError::NoSuchColumn);
    }
    let certain = with(alloc, &part.certain, name)?;
    narrow(Known {
        attributes: part.attributes,
        certain,
    })
}

/// A selection of NULL in the attribute.
pub fn null_in(part: Known, name: &Text) -> Result<Known, QueryError>
    requires { AreInOrder part }
    ensures { IsTold ⊥ (¬ IsIn name.now part.attributes) ⊥ ⊥ (λ a. IsIn a part.attributes) (λ a. IsIn a part.certain) result }
{
    if !has(&part.attributes, name) {
        return Err(QueryError::NoSuchColumn);
    }
    narrow(part)
}

pub fn projected(alloc: Global, part: Known, names: &Names) -> Result<Known, QueryError>
    ensures { IsTold (names.now ≡ []) (Any (λ a. ¬ IsIn a part.attributes) names.now) (Repeats names.now) ⊥ (λ a. IsIn a names.now) (λ a. IsIn a part.certain × IsIn a names.now) result }
{
    if names.len() == 0 {
        return Err(QueryError::EmptyProject);
    }
    if lacks_some(alloc, names, &part.attributes)? {
        return Err(QueryError::NoSuchColumn);
    }
    if repeats(alloc, names)? {
        return Err(QueryError::NameTaken);
    }
    let attributes = rising(names.copy(alloc)?.into_vec());
    let certain = shared(alloc, &part.certain, names)?;
    narrow(Known {
        attributes,
        certain,
    })
}

pub fn with_new_name(
    alloc: Global,
    part: Known,
    from: &Text,
    to: &Text,
) -> Result<Known, QueryError>
    ensures { IsTold ⊥ (¬ IsIn from.now part.attributes) (IsIn to.now part.attributes) ⊥
        (λ a. (to.now ≡ a) ⊎ (IsIn a part.attributes × (from.now ≢ a) × (to.now ≢ a)))
        (λ a. ((to.now ≡ a) × IsIn from.now part.certain) ⊎ (IsIn a part.certain × (from.now ≢ a) × (to.now ≢ a))) result }
{
    if !has(&part.attributes, from) {
        return Err(QueryError::NoSuchColumn);
    }
    if has(&part.attributes, to) {
        return Err(QueryError::NameTaken);
    }
    let attributes = renamed(alloc, &part.attributes, from, to)?;
    let certain = renamed(alloc, &part.certain, from, to)?;
    narrow(Known {
        attributes,
        certain,
    })
}

pub fn joined(alloc: Global, left: Known, right: Known) -> Result<Known, QueryError>
    ensures { IsTold ⊥ ⊥ ⊥ ⊥ (λ a. IsIn a left.attributes ⊎ IsIn a right.attributes)
        (λ a. (IsIn a left.certain ⊎ IsIn a right.certain) ⊎ (IsIn a left.attributes × IsIn a right.attributes)) result }
{
    let common = shared(alloc, &left.attributes, &right.attributes)?;
    let either = together(alloc, &left.certain, &right.certain)?;
    let certain = together(alloc, &either, &common)?;
    let attributes = together(alloc, &left.attributes, &right.attributes)?;
    narrow(Known {
        attributes,
        certain,
    })
}

pub fn united(alloc: Global, left: Known, right: Known) -> Result<Known, QueryError>
    requires { AreInOrder left }
    ensures { IsTold ⊥ ⊥ ⊥ (left.attributes ≢ right.attributes) (λ a. IsIn a left.attributes) (λ a. IsIn a left.certain × IsIn a right.certain) result }
{
    if !same(&left.attributes, &right.attributes) {
        return Err(QueryError::NotSameColumns);
    }
    let certain = shared(alloc, &left.certain, &right.certain)?;
    narrow(Known {
        attributes: left.attributes,
        certain,
    })
}

pub fn subtracted(left: Known, right: Known) -> Result<Known, QueryError>
    requires { AreInOrder left }
    ensures { IsTold ⊥ ⊥ ⊥ (left.attributes ≢ right.attributes) (λ a. IsIn a left.attributes) (λ a. IsIn a left.certain) result }
{
    if !same(&left.attributes, &right.attributes) {
        return Err(QueryError::NotSameColumns);
    }
    narrow(left)
}
