ghost use Rattle.std.specs.Prelude.{◌≡◌, ◌≤◌, IfOk, IsTrue, length};
ghost use Rattle.algebra_dm.specs.Nodes.{IsWellFormed};
ghost use Rattle.graphs_dm.specs.Graphs.{AreTriplesOf};
ghost use Rattle.graphs_dm.specs.declared.graph_name.GraphName.TheVariants as graph;
ghost use Rattle.keys_dm.specs.Violations.{KeepsKeys};
ghost use Rattle.query_lines_dm.specs.Lines.{AreQueryLines};
ghost use Rattle.bench_lines_dm.specs.Bench.{HasTuples};

use algebra_dm::{Mode, Query, attributes};
use names_dm::{Base, Triples};
use pattern_dm::Pattern;
use pattern_lines_dm::solution_lines;
use query_lines_dm::{header, query_lines};
use query_rows_dm::rows;
use sqlite_items::Boxed;
use std::alloc::{AllocError, Global};
use table_csv::Database;
use translate_dm::translate;
use value_dm::TryCopy;

/// What was found of a query.
#[derive(Clone, Copy)]
pub struct Answer {
    /// The number of its tuples over the tables.
    pub count: usize,

    /// Whether its pattern has the same lines over the graph.
    pub same: bool,
}

// The lines of the solutions of the query's pattern over the triples of the database's map graph.
fn graph_lines(
    alloc: Global,
    base: &Base,
    database: &Database,
    query: &Query,
    triples: &Triples,
) -> Result<Vec<u8>, AllocError>
    requires formed { IsWellFormed database.now.tables query.now }
    requires kept { KeepsKeys database.now }
    requires triples { AreTriplesOf graph.Map base.now database.now triples.now }
    requires few { length triples.now ≤ 16777216 }
    ensures { IfOk result (λ text. AreQueryLines database.now query.now text.items) }
{
    let schema = database.schema();
    let names = attributes(alloc, schema, query)?;
    let header = header(alloc, names.as_slice())?;
    let pattern = Boxed::new(alloc, translate(alloc, Mode::Map, base, schema, query)?)?;
    let copied = triples.copy(alloc)?;
    let text = solution_lines(alloc, copied, pattern.get(), &header)?;
    Ok(text)
}

/// What a query has over the tables, and over the triples of their map graph. Refused for want of memory alone.
pub fn answer_of(
    alloc: Global,
    base: &Base,
    database: &Database,
    query: &Query,
    triples: &Triples,
) -> Result<Answer, AllocError>
    requires formed { IsWellFormed database.now.tables query.now }
    requires kept { KeepsKeys database.now }
    requires triples { AreTriplesOf graph.Map base.now database.now triples.now }
    requires few { length triples.now ≤ 16777216 }
    ensures count { IfOk result (λ found. HasTuples database.now query.now found.count) }
    ensures same { IfOk result (λ found. IsTrue found.same) }
{
    let tuples = rows(alloc, query, database)?;
    let lines = query_lines(alloc, query, database)?;
    let solutions = graph_lines(alloc, base, database, query, triples)?;
    Ok(Answer {
        count: tuples.len(),
        same: solutions == lines,
    })
}
