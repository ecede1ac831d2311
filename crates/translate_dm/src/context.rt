// What a query is translated with.
ghost use Rattle.std.specs.Prelude.{IfOk};
ghost use Rattle.algebra_dm.specs.Checking.{IsKnown};
ghost use Rattle.algebra_dm.specs.Nodes.{IsWellFormed};
ghost use Rattle.translate_dm.specs.Steps.{IsReady};

use algebra_dm::{Known, Mode, Query, known_of};
use names_dm::{Base, Iri};
use schema_dm::{Index, Schema};
use std::alloc::{AllocError, Global};
use value_dm::Text;

/// What the operators of one query share.
#[derive(Drop)]
pub struct Context<'a> {
    pub alloc: Global,
    pub mode: Mode,
    pub base: &'a Base,
    pub schema: &'a Schema,
    /// The names of the schema's tables.
    pub names: &'a Index<Text>,
    /// The IRI of the first class of the graph of the mode.
    pub class: &'a Iri,
}

/// The attributes of the query, and those that are certain. They are asked for anew at each operator, so that no pattern
/// carries them upwards: a query has few levels.
pub fn known(context: &Context, query: &Query) -> Result<Known, AllocError>
    requires ready { IsReady context.now.mode context.now.base.now context.now.schema.now context.now.names.now context.now.class.now }
    requires formed { IsWellFormed context.now.schema.now query.now }
    ensures { IfOk result (IsKnown context.now.mode context.now.schema.now query.now) }
{
    let tables = context.schema.tables();
    known_of(context.alloc, context.mode, tables, context.names, query)
}
