ghost use Rattle.std.specs.Prelude.{◌≡◌, ◌↔◌, IfOk, Some, slice_get};
ghost use Rattle.members_dm.specs.Membership.{IsIn};
ghost use Rattle.table_csv.specs.Databases.{Data, IsDatabase};
ghost use Rattle.algebra_dm.specs.Attributes.{HasTable};
ghost use Rattle.algebra_dm.specs.Certain.{KeepsKeysOf};
ghost use Rattle.algebra_dm.specs.Nodes.{IsWellFormed as IsWellFormedQuery};
ghost use Rattle.algebra_dm.specs.Tuples.{IsTuple, Tuple};
ghost use Rattle.graphs_dm.specs.Graphs.{IsTripleOf};
ghost use Rattle.pattern_dm.specs.Formed.{IsWellFormed};
ghost use Rattle.pattern_dm.specs.Mappings.{Mapping};
ghost use Rattle.pattern_dm.specs.Solution.{Solution};
ghost use Rattle.pattern_dm.specs.declared.pattern.Pattern.{Pattern as ThePattern};
ghost use Rattle.keeping_dm.specs.Keeping.{Agrees};
ghost use Rattle.table_patterns_dm.specs.TablePatterns.{graph_of};
ghost use Rattle.translate_dm.specs.Steps.{IsMade, IsReady};
ghost use Rattle.translate_dm.specs.Translation.{IsNamedPattern, Translates};

use crate::classes::marker_class;
use crate::context::Context;
use crate::laws::queries_are_kept;
use crate::operators::{
    equal, joined, projected, renamed, subtracted, unequal, with_null, without_null,
};
use algebra_dm::{Mode, Query, table_names};
use names_dm::Base;
use pattern_dm::Pattern;
use pattern_parts_dm::{empty, union};
use schema_dm::{Index, Schema};
use sqlite_items::Boxed;
use std::alloc::{AllocError, Global};
use table_translation_dm::table_pattern;
use value_dm::Text;

// Where the name of a table stands.
fn place_of(names: &Index<Text>, name: &Text) -> usize
    requires { IsIn name.now names.now }
    ensures { slice_get names.now result ≡ Some name.now }
{
    names.place(name).unwrap()
}

// The pattern of the table of the name.
fn table(context: &Context, name: &Text) -> Result<Boxed<Pattern>, AllocError>
    requires ready { IsReady context.now.mode context.now.base.now context.now.schema.now context.now.names.now context.now.class.now }
    requires there { HasTable context.now.schema.now name.now }
    ensures { IfOk result (IsNamedPattern context.now.mode context.now.base.now context.now.schema.now name.now) }
{
    let place = place_of(context.names, name);
    table_pattern(
        context.alloc,
        context.mode,
        context.base,
        context.schema,
        place,
    )
}

// The pattern of a query.
fn translated(context: &Context, query: &Query) -> Result<Boxed<Pattern>, AllocError>
    requires ready { IsReady context.now.mode context.now.base.now context.now.schema.now context.now.names.now context.now.class.now }
    requires formed { IsWellFormedQuery context.now.schema.now query.now }
    ensures { IfOk result (IsMade context.now.mode context.now.base.now context.now.schema.now query.now) }
{
    match query {
        Query::Table(name) => table(context, name),
        Query::Null(_) => empty(context.alloc),
        Query::Eq(part, name, value) => {
            let made = translated(context, part.get())?;
            equal(context.alloc, made, name, value)
        }
        Query::Ne(part, name, value) => {
            let made = translated(context, part.get())?;
            unequal(context.alloc, made, name, value)
        }
        Query::IsNull(part, name) => {
            let made = translated(context, part.get())?;
            with_null(context.alloc, made, name)
        }
        Query::NotNull(part, name) => {
            let made = translated(context, part.get())?;
            without_null(context.alloc, made, name)
        }
        Query::Project(part, columns) => {
            let made = translated(context, part.get())?;
            projected(context.alloc, made, columns)
        }
        Query::Rename(part, from, to) => {
            let made = translated(context, part.get())?;
            renamed(context, query, made, from, to)
        }
        Query::Join(left, right) => {
            let left = left.get();
            let right = right.get();
            let first = translated(context, left)?;
            let second = translated(context, right)?;
            joined(context, left, right, first, second)
        }
        Query::Union(left, right) => {
            let left = left.get();
            let right = right.get();
            let first = translated(context, left)?;
            let second = translated(context, right)?;
            union(context.alloc, first, second)
        }
        Query::Diff(left, right) => {
            let left = left.get();
            let right = right.get();
            let first = translated(context, left)?;
            let second = translated(context, right)?;
            subtracted(context, left, right, first, second)
        }
    }
}

/// The pattern of a well-formed query over the graph of the mode, whose solutions are exactly the mappings of the query's
/// tuples: each attribute's variable to the literal of its value, unbound for NULL. So it is over the graph of each
/// database of the schema, where the mode is `Map` of each that keeps its keys. Refused for want of memory alone.
///
/// `Table` of a class is a join of its rows' types and certain columns, with its other columns as optional parts; of a
/// binary relation in the mode `Map`, a join of its links and the columns that their ends have. `Eq`, `Ne`, `IsNull` and
/// `NotNull` are filters, `Project` and `Rename` selections, `Union` is a union, and `Join` a join of the solutions in
/// which the common attributes have values. `Diff` is a difference of patterns where no attribute may be NULL, and else
/// the solutions of the left part that are joined with none of the right part that has the same values and the same NULLs
/// (SPARQL 1.1 Query Language, section 18.2).
pub fn translate(
    alloc: Global,
    mode: Mode,
    base: &Base,
    schema: &Schema,
    query: &Query,
) -> Result<Pattern, AllocError>
    requires { IsWellFormedQuery schema.now query.now }
    ensures pattern { IfOk result (Translates mode base.now schema.now query.now) }
    ensures only { IfOk result (λ pattern. (other : ThePattern) → Translates mode base.now schema.now query.now other → other ≡ pattern) }
    ensures formed { IfOk result IsWellFormed }
    ensures keeps { IfOk result (λ pattern. (D : Data) → IsDatabase D → D.tables ≡ schema.now → KeepsKeysOf mode D → (m : Mapping) →
        Solution (IsTripleOf (graph_of mode) base.now D) pattern m ↔ ((w : Tuple) × IsTuple D query.now w × Agrees m w)) }
{
    queries_are_kept(base);
    let names = Index::new(alloc, table_names(alloc, schema.tables())?)?;
    let class = marker_class(alloc, mode, base, schema)?;
    let context = Context {
        alloc,
        mode,
        base,
        schema,
        names: &names,
        class: &class,
    };
    let made = translated(&context, query)?;
    Ok(made.into_inner())
}
