ghost use Rattle.std.specs.Prelude.{◌≡◌, IfOk};
ghost use Rattle.algebra_dm.specs.Nodes.{IsWellFormed};
ghost use Rattle.query_text_dm.specs.Answer.{HasOneAnswer, IsAnswer};

use crate::answer::read_text;
use algebra_dm::{Query, QueryError, check_query};
use schema_dm::Schema;
use std::alloc::Global;

/// Reads a query of the algebra over the schema's tables from its text.
///
/// White space is space, tab, CR and LF. A query is an operator and what it is applied to, in parentheses: `(table NAME)`,
/// `(null NAME)`, `(eq query NAME value)`, `(ne query NAME value)`, `(isnull query NAME)`, `(notnull query NAME)`,
/// `(project query NAME ...)`, `(rename query NAME NAME)`, `(join query query)`, `(union query query)`,
/// `(diff query query)`. A name is a bare word (an ASCII letter or `_`, then these and digits), or a quoted text that isn't
/// empty; in quotes a quote is doubled. A value is the word of a kind and a quoted text: that of `text` is taken as it is,
/// and every other is read as a field of a table's file.
///
/// - `TooDeep` names an opening parenthesis inside 64 open ones.
/// - `BadQuery` names the first text that is no token, the first token with which the tokens so far begin no query, or a
///   quoted text that spells no value of its kind; or the byte after the end, where the query isn't whole. Whichever of all
///   these stands first in the text is told, and at one place `TooDeep`.
/// - Else the first fault at a node of the query, as `check_query` tells it.
/// - `Memory` for want of memory.
///
/// Places count bytes from 1. There is one right answer.
pub fn read_query(alloc: Global, schema: &Schema, bytes: &[u8]) -> Result<Query, QueryError>
    ensures answer { IsAnswer schema.now bytes.now result }
    ensures well_formed { IfOk result (IsWellFormed schema.now) }
    ensures one { HasOneAnswer schema.now bytes.now }
{
    let query = read_text(alloc, bytes)?;
    check_query(alloc, schema, &query)?;
    Ok(query)
}
