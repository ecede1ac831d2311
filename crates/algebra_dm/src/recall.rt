ghost use Rattle.std.specs.Prelude.{◌≡◌, ◌⊎◌, ℕ, List, All, IfOk, IfErr, OnOk, MatchResult, map};
ghost use Rattle.members_dm.specs.Membership.{IsIn, NoRepeats};
ghost use Rattle.algebra_dm.specs.Attributes.{AreAttributes, Lists};
ghost use Rattle.algebra_dm.specs.Certain.{IsCertain, IsNeverNull};
ghost use Rattle.algebra_dm.specs.Checking.{IsAnswer, IsKnown};
ghost use Rattle.algebra_dm.specs.Nodes.{IsFaultless, IsFirstFault, nodes};
ghost use Rattle.algebra_dm.specs.declared.error.QueryError.{QueryError as TheError};

use crate::columns::table_names;
use crate::error::QueryError;
use crate::known::{Known, examine};
use crate::query::{Mode, Query};
use schema_dm::{Index, Schema, Table};
use std::alloc::{AllocError, Global};
use value_dm::{Names, Text};

fn answer_of(alloc: Global, mode: Mode, schema: &Schema, query: &Query) -> Result<Known, QueryError>
    ensures { IsAnswer mode schema.now query.now result }
{
    let tables = schema.tables();
    let names = Index::new(alloc, table_names(alloc, tables)?)?;
    examine(alloc, mode, tables, &names, query)
}

/// Checks a query for the schema. The nodes are looked at with the parts before the whole, and left before right; the first
/// node with a cause gives the refusal. The causes at a node, in the order in which they are told:
///
/// - `NoSuchTable`: the schema hasn't the table;
/// - `EmptyProject`: a projection to no names;
/// - `NoSuchColumn`: a selection, projection or renaming of an attribute that the part hasn't;
/// - `NameTaken`: a renaming to an attribute that is there, the same one included, or a projection with a name twice;
/// - `NotSameColumns`: a union or difference of parts with different attributes;
/// - `TooWide`: more than 1,024 attributes.
///
/// `Memory` may come with any query.
pub fn check_query(alloc: Global, schema: &Schema, query: &Query) -> Result<(), QueryError>
    ensures ok { OnOk result (IsFaultless schema.now query.now) }
    ensures refused { IfErr result (λ error. (error ≡ QueryError.Memory) ⊎ IsFirstFault schema.now (nodes query.now) error) }

    // Of a faultless query nothing but memory is wanting, and of another the one fault is told, or memory is wanting.
    ensures only { IsFaultless schema.now query.now → MatchResult result (λ done. Unit {0}) (λ error. error ≡ QueryError.Memory) }
    ensures first { (error : TheError) → IsFirstFault schema.now (nodes query.now) error →
        MatchResult result (λ done. ⊥) (λ told. (told ≡ error) ⊎ (told ≡ QueryError.Memory)) }
{
    let _known = answer_of(alloc, Mode::Map, schema, query)?;
    Ok(())
}

/// The attributes of a faultless query over the tables, and those of them that are certain in the mode, both in the order of
/// their bytes. The index is that of the tables' names, so that it is made once for many queries. Refused for want of memory
/// alone.
pub fn known_of(
    alloc: Global,
    mode: Mode,
    tables: &[Table],
    names: &Index<Text>,
    query: &Query,
) -> Result<Known, AllocError>
    requires named { names.now ≡ map (λ table. table.name) tables.now }
    requires once { NoRepeats (map (λ table. table.name) tables.now) }
    requires faultless { IsFaultless tables.now query.now }
    ensures { IfOk result (IsKnown mode tables.now query.now) }
{
    match examine(alloc, mode, tables, names, query) {
        Ok(known) => Ok(known),
        Err(_) => Err(AllocError),
    }
}

// What is known of a faultless query.
fn recalled(alloc: Global, mode: Mode, schema: &Schema, query: &Query) -> Result<Known, AllocError>
    requires { IsFaultless schema.now query.now }
    ensures { IfOk result (IsKnown mode schema.now query.now) }
{
    let tables = schema.tables();
    let names = Index::new(alloc, table_names(alloc, tables)?)?;
    known_of(alloc, mode, tables, &names, query)
}

/// The attributes of the query's tuples, in the order of their bytes. Refused for want of memory alone.
pub fn attributes(alloc: Global, schema: &Schema, query: &Query) -> Result<Names, AllocError>
    requires { IsFaultless schema.now query.now }
    ensures { IfOk result (AreAttributes schema.now query.now) }
{
    Ok(recalled(alloc, Mode::Map, schema, query)?.attributes)
}

/// The certain attributes of the query, in the order of their bytes, each once. They are NULL in no tuple of the query, over
/// any database in the mode `MapKeys`, and over a database that keeps its keys in the mode `Map`. Refused for want of memory
/// alone.
///
/// Certain are: of a table the columns with an explicit NOT NULL, and in the mode `Map` those of the primary key; of `Null`
/// none; of `Eq`, `Ne` and `NotNull` the part's and the attribute compared; of `IsNull` and `Diff` those of the (left) part;
/// of `Project` and `Rename` the part's that are kept, by their new names; of `Join` those of either part, and the common
/// attributes; of `Union` those of both parts.
pub fn certain(
    alloc: Global,
    mode: Mode,
    schema: &Schema,
    query: &Query,
) -> Result<Names, AllocError>
    requires { IsFaultless schema.now query.now }
    ensures exact { IfOk result (Lists (IsCertain mode schema.now query.now)) }
    ensures never_null { IfOk result (λ names. (a : List ℕ) → IsIn a names → IsNeverNull mode schema.now query.now a) }
{
    Ok(recalled(alloc, mode, schema, query)?.certain)
}
