ghost use Rattle.std.specs.Prelude.{◌≢◌, ◌≤◌, [], IfOk, length, string_bytes};
ghost use Rattle.schema_dm.specs.Schemas.{IsSchema};
ghost use Rattle.algebra_dm.specs.Nodes.{IsWellFormed};
ghost use Rattle.pattern_dm.specs.Formed.{IsWellFormed as IsWellFormedPattern};
ghost use Rattle.translate_dm.specs.Translation.{Translates};
ghost use Rattle.cmd_dm.specs.Answered.{AreAnswersIn, AreVariablesOf, IsPatternText};
ghost use Rattle.cmd_dm.specs.Ask.{ask_script, translate_script};
ghost use Rattle.cmd_dm.specs.Ending.{Ends, result_status, to_output};

use crate::graphs::end_of_puts;
use crate::query::load_query;
use crate::status::Status;
use crate::steps::{load_graph, read_base, read_declared};
use algebra_dm::{Mode, Query, attributes};
use names_dm::{Base, Triples, Vars};
use outside_dm::{Shelf, Sink};
use pattern_dm::{Pattern, sparql_text};
use pattern_lines_dm::solution_lines;
use query_lines_dm::header;
use schema_dm::Schema;
use sqlite_items::Boxed;
use std::alloc::{AllocError, Global};
use translate_dm::translate;
use value_dm::Text;

/// The variables of the query's attributes.
fn variables(alloc: Global, schema: &Schema, query: &Query) -> Result<Vars, AllocError>
    requires { IsWellFormed schema.now query.now }
    ensures are { IfOk result (AreVariablesOf schema.now query.now) }
    ensures some { IfOk result (λ vars. vars ≢ []) }
    ensures schema { IsSchema schema.now }
{
    let _tables = schema.tables();
    let names = attributes(alloc, schema, query)?;
    header(alloc, names.as_slice())
}

/// The query's pattern, in a box, since a bare pattern is dear to own where a call may fail.
fn boxed_pattern(
    alloc: Global,
    mode: Mode,
    base: &Base,
    schema: &Schema,
    query: &Query,
) -> Result<Boxed<Pattern>, AllocError>
    requires { IsWellFormed schema.now query.now }
    ensures pattern { IfOk result (Translates mode base.now schema.now query.now) }
    ensures formed { IfOk result IsWellFormedPattern }
{
    Boxed::new(alloc, translate(alloc, mode, base, schema, query)?)
}

/// The query's pattern as SPARQL text, and a line feed.
fn pattern_text(
    alloc: Global,
    mode: Mode,
    base: &Base,
    schema: &Schema,
    query: &Query,
) -> Result<String, AllocError>
    requires { IsWellFormed schema.now query.now }
    ensures { IfOk result (λ text. IsSchema schema.now × IsPatternText mode base.now schema.now query.now (string_bytes text)) }
{
    let header = variables(alloc, schema, query)?;
    let pattern = boxed_pattern(alloc, mode, base, schema, query)?;
    let mut text = sparql_text(alloc, &header, pattern.get())?;
    text.push_str("\n")?;
    Ok(text)
}

/// The lines of the solutions of the query's pattern over the triples.
fn answer_lines(
    alloc: Global,
    mode: Mode,
    base: &Base,
    schema: &Schema,
    query: &Query,
    triples: Triples,
) -> Result<Vec<u8>, AllocError>
    requires formed { IsWellFormed schema.now query.now }
    requires few { length triples ≤ 16777216 }
    ensures { IfOk result (λ text. IsSchema schema.now × AreAnswersIn mode base.now schema.now query.now triples text.items) }
{
    let header = variables(alloc, schema, query)?;
    let pattern = boxed_pattern(alloc, mode, base, schema, query)?;
    let text = solution_lines(alloc, triples, pattern.get(), &header)?;
    Ok(text)
}

/// `translate MODE BASE FOLDER QUERY`: writes the pattern of the file's query over the folder's tables, as SPARQL text.
pub(crate) fn run_translate<S: Shelf, K: Sink>(
    alloc: Global,
    mode: Mode,
    base: &Text,
    folder: &Text,
    name: &Text,
    shelf: &mut S,
    out: &mut K,
) -> Result<(), Status>
    ensures { Ends to_output (translate_script mode base.now folder.now name.now) (S.state shelf.old) (S.state shelf.new) (K.state out.old) (K.state out.new) (result_status result) }
{
    let base = read_base(alloc, base)?;
    let schema = read_declared(alloc, folder, shelf)?;
    let query = load_query(alloc, name, &schema, shelf)?;
    let text = pattern_text(alloc, mode, &base, &schema, &query)?;
    end_of_puts(out.put(text.as_bytes()))
}

/// `ask MODE BASE FOLDER GRAPH QUERY`: writes the solutions of the pattern of the file's query over the triples of the graph's file,
/// as tab separated values.
pub(crate) fn run_ask<S: Shelf, K: Sink>(
    alloc: Global,
    mode: Mode,
    base: &Text,
    folder: &Text,
    graph: &Text,
    name: &Text,
    shelf: &mut S,
    out: &mut K,
) -> Result<(), Status>
    ensures { Ends to_output (ask_script mode base.now folder.now graph.now name.now) (S.state shelf.old) (S.state shelf.new) (K.state out.old) (K.state out.new) (result_status result) }
{
    let base = read_base(alloc, base)?;
    let schema = read_declared(alloc, folder, shelf)?;
    let query = load_query(alloc, name, &schema, shelf)?;
    let triples = load_graph(alloc, graph, shelf)?;
    let text = answer_lines(alloc, mode, &base, &schema, &query, triples)?;
    end_of_puts(out.put(text.as_slice()))
}
