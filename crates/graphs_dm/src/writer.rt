ghost use Rattle.std.specs.Prelude.{◌≡◌, ◌<◌, ◌++◌, ℕ, List, [], IfOk, length};
ghost use Rattle.members_dm.specs.Places.{levels};
ghost use Rattle.schema_dm.specs.Relations.{IsBinaryRelation};
ghost use Rattle.table_csv.specs.Databases.{rows_at};
ghost use Rattle.keys_dm.specs.TableIndexes.{AreIndexesOf};
ghost use Rattle.keys_dm.specs.Violations.{KeepsKeys};
ghost use Rattle.outside_dm.specs.Putting.{Writes};
ghost use Rattle.pages_dm.specs.Streams.{Streams};
ghost use Rattle.graphs_dm.specs.Graphs.{HasItsTriples, IsDefined, IsGraphText, MarksViolatingRows, PutsGraph, PutsLaterRows, first_row};
ghost use Rattle.graphs_dm.specs.Heads.{AreAllHeads};
ghost use Rattle.graphs_dm.specs.Interpreted.{IsInterpretedWhereKept};
ghost use Rattle.graphs_dm.specs.KeyNodes.{NodesByKeys};
ghost use Rattle.graphs_dm.specs.Levels.{from_first, graph_level, graph_part, relation_row_level, row_level, table_level, tables_level, text_of};
ghost use Rattle.graphs_dm.specs.OwnNodes.{RowsHaveOwnNodes};
ghost use Rattle.graphs_dm.specs.Plans.{AreBinaries};

use crate::GraphName;
use crate::heads::heads_of;
use crate::interpreted::interpreted_where_kept;
use crate::ontology::append_ontology;
use crate::plan::Plan;
use crate::relations::relation_head;
use crate::rows::{Source, append_later_pair, append_later_row};
use facts_dm::naming_laws;
use keys_dm::KeyIndexes;
use names_dm::Base;
use outside_dm::{PutError, Sink};
use pages_dm::{put_if_full, put_rest};
use schema_dm::Binary;
use std::alloc::{AllocError, Global};
use table_csv::Database;

// Gathers the lines of the rows of a class on the page.
fn put_class<K: Sink>(
    source: &Source,
    t: u32,
    page: &mut Vec<u8>,
    out: &mut K,
) -> Result<(), PutError>
    requires table { t < length source.now.database.now.tables }
    requires indexes { AreIndexesOf source.now.database.now source.now.indexes.now }
    requires heads { AreAllHeads source.now.base.now source.now.database.now.tables source.now.heads.now }
    ensures { Streams (text_of source.now.base.now (levels (length (rows_at source.now.database.now.rows t)) (from_first (first_row source.now.first_rows.now t) (row_level source.now.base.now source.now.database.now source.now.plan.now t)))) (K.state out.old) page.old.items (K.state out.new) page.new.items result }
{
    let mut subject = Vec::new(source.alloc);
    for i in 0..source.database.rows_of(t).len() {
        let Ok(()) = append_later_row(source, t, i, &mut subject, page) else {
            return Err(PutError::Memory);
        };
        put_if_full(page, out)?;
    }
    Ok(())
}

// Gathers the lines of the rows of a relation on the page.
fn put_relation<K: Sink>(
    source: &Source,
    t: u32,
    sides: Binary,
    page: &mut Vec<u8>,
    out: &mut K,
) -> Result<(), PutError>
    requires table { t < length source.now.database.now.tables }
    requires relation { IsBinaryRelation source.now.database.now.tables t sides }
    requires indexes { AreIndexesOf source.now.database.now source.now.indexes.now }
    requires heads { AreAllHeads source.now.base.now source.now.database.now.tables source.now.heads.now }
    ensures { Streams (text_of source.now.base.now (levels (length (rows_at source.now.database.now.rows t)) (from_first (first_row source.now.first_rows.now t) (relation_row_level source.now.base.now source.now.database.now t sides)))) (K.state out.old) page.old.items (K.state out.new) page.new.items result }
{
    let Ok(head) = relation_head(source.alloc, source.base, source.database, t, sides) else {
        return Err(PutError::Memory);
    };
    let mut subject = Vec::new(source.alloc);
    for i in 0..source.database.rows_of(t).len() {
        let Ok(()) = append_later_pair(source, t, sides, head.as_slice(), i, &mut subject, page)
        else {
            return Err(PutError::Memory);
        };
        put_if_full(page, out)?;
    }
    Ok(())
}

// Gathers the lines of the rows of a table on the page.
fn put_table<K: Sink>(
    source: &Source,
    t: u32,
    page: &mut Vec<u8>,
    out: &mut K,
) -> Result<(), PutError>
    requires table { t < length source.now.database.now.tables }
    requires binaries { AreBinaries source.now.database.now.tables source.now.plan.now }
    requires indexes { AreIndexesOf source.now.database.now source.now.indexes.now }
    requires heads { AreAllHeads source.now.base.now source.now.database.now.tables source.now.heads.now }
    ensures { Streams (text_of source.now.base.now (table_level source.now.base.now source.now.database.now source.now.plan.now source.now.first_rows.now t)) (K.state out.old) page.old.items (K.state out.new) page.new.items result }
{
    match source.plan.relation_at(t) {
        None => put_class(source, t, page, out),
        Some(sides) => put_relation(source, t, sides, page, out),
    }
}

// Gathers the lines of all rows on the page.
fn put_tables<K: Sink>(source: &Source, page: &mut Vec<u8>, out: &mut K) -> Result<(), PutError>
    requires binaries { AreBinaries source.now.database.now.tables source.now.plan.now }
    requires indexes { AreIndexesOf source.now.database.now source.now.indexes.now }
    requires heads { AreAllHeads source.now.base.now source.now.database.now.tables source.now.heads.now }
    ensures { Streams (text_of source.now.base.now (tables_level source.now.base.now source.now.database.now source.now.plan.now source.now.first_rows.now)) (K.state out.old) page.old.items (K.state out.new) page.new.items result }
{
    for t in 0..source.database.schema().tables().len() {
        put_table(source, t as u32, page, out)?;
    }
    Ok(())
}

// Puts the lines of all rows behind what stands on the page.
fn put_all<K: Sink>(source: &Source, page: &mut Vec<u8>, out: &mut K) -> Result<(), PutError>
    requires binaries { AreBinaries source.now.database.now.tables source.now.plan.now }
    requires indexes { AreIndexesOf source.now.database.now source.now.indexes.now }
    requires heads { AreAllHeads source.now.base.now source.now.database.now.tables source.now.heads.now }
    ensures { Writes (page.old.items ++ text_of source.now.base.now (tables_level source.now.base.now source.now.database.now source.now.plan.now source.now.first_rows.now)) (K.state out.old) (K.state out.new) result }
{
    put_tables(source, page, out)?;
    put_rest(page.as_slice(), out)
}

// The lines of the ontology of a graph, none for the direct graph.
fn ontology_page(
    alloc: Global,
    name: GraphName,
    base: &Base,
    database: &Database,
    plan: &Plan,
) -> Result<Vec<u8>, AllocError>
    requires { AreBinaries database.now.tables plan.now }
    ensures { IfOk result (λ page. page.items ≡ text_of base.now (graph_part name base.now database.now plan.now 0)) }
{
    let mut page = Vec::new(alloc);
    match name {
        GraphName::Direct => Ok(page),
        GraphName::Map => {
            append_ontology(alloc, base, database, plan, &mut page)?;
            Ok(page)
        }
        GraphName::MapKeys => {
            append_ontology(alloc, base, database, plan, &mut page)?;
            Ok(page)
        }
    }
}

// Puts a graph by indexes of its database.
fn put_graph<K: Sink>(
    alloc: Global,
    name: GraphName,
    base: &Base,
    database: &Database,
    indexes: &KeyIndexes,
    out: &mut K,
) -> Result<(), PutError>
    requires indexes { AreIndexesOf database.now indexes.now }
    requires defined { IsDefined name database.now }
    ensures graph { PutsGraph name base.now database.now (K.state out.old) (K.state out.new) result }
    ensures triples { (text : List ℕ) → IsGraphText name base.now database.now text → HasItsTriples name base.now database.now text }
    ensures nodes { RowsHaveOwnNodes base.now database.now }
    ensures keyed { NodesByKeys base.now database.now }
{
    let _schema = database.schema();
    let Ok(plan) = Plan::new(alloc, name, database, indexes) else {
        return Err(PutError::Memory);
    };
    put_plan(alloc, name, base, database, indexes, &plan, out)
}

// Puts a graph by its plan.
fn put_plan<K: Sink>(
    alloc: Global,
    name: GraphName,
    base: &Base,
    database: &Database,
    indexes: &KeyIndexes,
    plan: &Plan,
    out: &mut K,
) -> Result<(), PutError>
    requires indexes { AreIndexesOf database.now indexes.now }
    requires binaries { AreBinaries database.now.tables plan.now }
    ensures { Writes (text_of base.now (graph_level name base.now database.now plan.now)) (K.state out.old) (K.state out.new) result }
{
    let Ok(heads) = heads_of(alloc, base, database.schema().tables()) else {
        return Err(PutError::Memory);
    };
    let Ok(mut page) = ontology_page(alloc, name, base, database, plan) else {
        return Err(PutError::Memory);
    };
    let source = Source {
        alloc,
        base,
        database,
        indexes,
        heads: &heads,
        plan,
        first_rows: &[],
    };
    put_all(&source, &mut page, out)
}

// Puts the lines of the later rows by the graph's plan.
fn put_later_rows<K: Sink>(
    alloc: Global,
    base: &Base,
    database: &Database,
    indexes: &KeyIndexes,
    plan: &Plan,
    first_rows: &[u32],
    out: &mut K,
) -> Result<(), PutError>
    requires indexes { AreIndexesOf database.now indexes.now }
    requires binaries { AreBinaries database.now.tables plan.now }
    ensures { Writes (text_of base.now (tables_level base.now database.now plan.now first_rows.now)) (K.state out.old) (K.state out.new) result }
{
    let Ok(heads) = heads_of(alloc, base, database.schema().tables()) else {
        return Err(PutError::Memory);
    };
    let source = Source {
        alloc,
        base,
        database,
        indexes,
        heads: &heads,
        plan,
        first_rows,
    };
    put_all(&source, &mut Vec::new(alloc), out)
}

// Puts a graph.
fn write_graph<K: Sink>(
    alloc: Global,
    name: GraphName,
    base: &Base,
    database: &Database,
    out: &mut K,
) -> Result<(), PutError>
    requires defined { IsDefined name database.now }
    ensures graph { PutsGraph name base.now database.now (K.state out.old) (K.state out.new) result }
    ensures triples { (text : List ℕ) → IsGraphText name base.now database.now text → HasItsTriples name base.now database.now text }
    ensures nodes { RowsHaveOwnNodes base.now database.now }
    ensures keyed { NodesByKeys base.now database.now }
{
    let _schema = database.schema();
    let Ok(indexes) = KeyIndexes::new(alloc, database) else {
        return Err(PutError::Memory);
    };
    put_graph(alloc, name, base, database, &indexes, out)
}

/// Puts the direct graph of a database as N-Triples (A Direct Mapping of Relational Data to RDF, section 2): the row
/// type, literal and reference triples of all rows, tables in declared order, rows in theirs, and the triples of a row in this
/// order, literals by column and references by foreign key. A row whose primary key
/// has no NULL and isn't repeated in the table has the IRI of that key, and every other row a blank node of its own.
///
/// After a refusal a prefix of that text was put. `Failed` comes only where the sink's faults rose, `Memory` for want of
/// memory alone.
pub fn write_direct<K: Sink>(
    alloc: Global,
    base: &Base,
    database: &Database,
    out: &mut K,
) -> Result<(), PutError>
    ensures graph { PutsGraph GraphName.Direct base.now database.now (K.state out.old) (K.state out.new) result }
    ensures triples { (text : List ℕ) → IsGraphText GraphName.Direct base.now database.now text → HasItsTriples GraphName.Direct base.now database.now text }
    ensures nodes { RowsHaveOwnNodes base.now database.now }
    ensures keyed { NodesByKeys base.now database.now }
{
    write_graph(alloc, GraphName::Direct, base, database, out)
}

/// The same as `write_direct`, by indexes of the database that serve other calls too.
pub fn write_direct_by<K: Sink>(
    alloc: Global,
    base: &Base,
    database: &Database,
    indexes: &KeyIndexes,
    out: &mut K,
) -> Result<(), PutError>
    requires indexes { AreIndexesOf database.now indexes.now }
    ensures graph { PutsGraph GraphName.Direct base.now database.now (K.state out.old) (K.state out.new) result }
    ensures triples { (text : List ℕ) → IsGraphText GraphName.Direct base.now database.now text → HasItsTriples GraphName.Direct base.now database.now text }
    ensures nodes { RowsHaveOwnNodes base.now database.now }
    ensures keyed { NodesByKeys base.now database.now }
{
    put_graph(alloc, GraphName::Direct, base, database, indexes, out)
}

/// Puts the map graph of a database that keeps its keys as N-Triples: first the ontology, tables in declared order, and then
/// the rows as in the direct graph; but a binary relation is one property in the ontology, and each of its rows one link.
///
/// A refusal is as that of `write_direct`.
pub fn write_map<K: Sink>(
    alloc: Global,
    base: &Base,
    database: &Database,
    out: &mut K,
) -> Result<(), PutError>
    requires kept { KeepsKeys database.now }
    ensures graph { PutsGraph GraphName.Map base.now database.now (K.state out.old) (K.state out.new) result }
    ensures triples { (text : List ℕ) → IsGraphText GraphName.Map base.now database.now text → HasItsTriples GraphName.Map base.now database.now text }
    ensures nodes { RowsHaveOwnNodes base.now database.now }
    ensures keyed { NodesByKeys base.now database.now }
{
    write_graph(alloc, GraphName::Map, base, database, out)
}

/// The same as `write_map`, by indexes of the database that serve other calls too.
pub fn write_map_by<K: Sink>(
    alloc: Global,
    base: &Base,
    database: &Database,
    indexes: &KeyIndexes,
    out: &mut K,
) -> Result<(), PutError>
    requires indexes { AreIndexesOf database.now indexes.now }
    requires kept { KeepsKeys database.now }
    ensures graph { PutsGraph GraphName.Map base.now database.now (K.state out.old) (K.state out.new) result }
    ensures triples { (text : List ℕ) → IsGraphText GraphName.Map base.now database.now text → HasItsTriples GraphName.Map base.now database.now text }
    ensures nodes { RowsHaveOwnNodes base.now database.now }
    ensures keyed { NodesByKeys base.now database.now }
{
    put_graph(alloc, GraphName::Map, base, database, indexes, out)
}

/// Puts the lines of the map graph of the rows that aren't before the first row of their table, in the graph's order: what is
/// to be put behind the text of the earlier rows, where each of these references no later row. `first_rows` tells the
/// first row of each table in declared order, counted from 0; of a table behind the last that it tells all rows are put.
///
/// A refusal is as that of `write_direct`.
pub fn write_map_rows<K: Sink>(
    alloc: Global,
    base: &Base,
    database: &Database,
    indexes: &KeyIndexes,
    first_rows: &[u32],
    out: &mut K,
) -> Result<(), PutError>
    requires indexes { AreIndexesOf database.now indexes.now }
    requires kept { KeepsKeys database.now }
    ensures { PutsLaterRows GraphName.Map base.now database.now first_rows.now (K.state out.old) (K.state out.new) result }
{
    let _schema = database.schema();
    let Ok(plan) = Plan::new(alloc, GraphName::Map, database, indexes) else {
        return Err(PutError::Memory);
    };
    put_later_rows(alloc, base, database, indexes, &plan, first_rows, out)
}

/// Puts the map-keys graph of a database as N-Triples: as the map graph with each table as a class, and behind the other
/// triples of a row that violates a key its node marked as different from itself.
///
/// A refusal is as that of `write_direct`.
pub fn write_map_keys<K: Sink>(
    alloc: Global,
    base: &Base,
    database: &Database,
    out: &mut K,
) -> Result<(), PutError>
    ensures graph { PutsGraph GraphName.MapKeys base.now database.now (K.state out.old) (K.state out.new) result }
    ensures triples { (text : List ℕ) → IsGraphText GraphName.MapKeys base.now database.now text → HasItsTriples GraphName.MapKeys base.now database.now text }
    ensures nodes { RowsHaveOwnNodes base.now database.now }
    ensures keyed { NodesByKeys base.now database.now }
    ensures marks { MarksViolatingRows base.now database.now }
    ensures interpreted { IsInterpretedWhereKept base.now database.now }
{
    naming_laws(base);
    interpreted_where_kept(base, database);
    write_graph(alloc, GraphName::MapKeys, base, database, out)
}

/// The same as `write_map_keys`, by indexes of the database that serve other calls too.
pub fn write_map_keys_by<K: Sink>(
    alloc: Global,
    base: &Base,
    database: &Database,
    indexes: &KeyIndexes,
    out: &mut K,
) -> Result<(), PutError>
    requires indexes { AreIndexesOf database.now indexes.now }
    ensures graph { PutsGraph GraphName.MapKeys base.now database.now (K.state out.old) (K.state out.new) result }
    ensures triples { (text : List ℕ) → IsGraphText GraphName.MapKeys base.now database.now text → HasItsTriples GraphName.MapKeys base.now database.now text }
    ensures nodes { RowsHaveOwnNodes base.now database.now }
    ensures keyed { NodesByKeys base.now database.now }
    ensures marks { MarksViolatingRows base.now database.now }
    ensures interpreted { IsInterpretedWhereKept base.now database.now }
{
    naming_laws(base);
    interpreted_where_kept(base, database);
    put_graph(alloc, GraphName::MapKeys, base, database, indexes, out)
}
