ghost use Rattle.std.specs.Prelude.{◌≡◌, ◌+◌, ◌<◌, ◌^◌, ◌++◌, ℕ, None, Some, IfOk, OnOk, decimal, encode_utf8_all, length, map, nat_lt, slice_get, slice_index_or};
ghost use Rattle.std.specs.List.{flat_map};
ghost use Rattle.members_dm.specs.Membership.{IsIn};
ghost use Rattle.members_dm.specs.Places.{levels};
ghost use Rattle.schema_dm.specs.Schemas.{IsTable, table_at};
ghost use Rattle.names_dm.specs.Rows.{key_list, row_iri};
ghost use Rattle.keys_dm.specs.Entries.{positions_of};
ghost use Rattle.keys_dm.specs.TableIndexes.{AreIndexesOf};
ghost use Rattle.keys_dm.specs.declared.index.Entry.{Entry as TheEntry};
ghost use Rattle.ntriples_dm.specs.Written.{iri_text, term_text};
ghost use Rattle.graphs_dm.specs.Heads.{AreAllHeads, AreHeads, added, cell_line, part_head, primary_places, relation_head, still_first, up_to, value_line};
ghost use Rattle.graphs_dm.specs.Graphs.{first_row};
ghost use Rattle.graphs_dm.specs.Levels.{from_first, referenced, relation_row_level, row_group, row_level, text_of};
ghost use Rattle.graphs_dm.specs.Relations.{key_at};
ghost use Rattle.graphs_dm.specs.Lines.{key_line, keys_line, link_line, mark_line};
ghost use Rattle.graphs_dm.specs.Nodes.{key_parts, part_of, primary_parts, row_node};
ghost use Rattle.graphs_dm.specs.OwnNodes.{HasRow};
ghost use Rattle.facts_dm.specs.Facts.{Node, blank, node_term};
ghost use Rattle.table_csv.specs.Cells.{cells_at};
ghost use Rattle.schema_dm.specs.Naming.{name_at};
ghost use Rattle.names_dm.specs.Labels.{row_label};

use crate::heads::{Heads, TableHeads};
use crate::plan::Plan;
use crate::relations::key_of;
use itoa::Buffer;
use keys_dm::{Entry, KeyIndexes, has_null_at, rows_of, table_of};
use lines_dm::{append_part, append_value, line_end};
use names_dm::Base;
use schema_dm::{Binary, Column, ForeignKey, Places, Table};
use std::alloc::{AllocError, Global};
use table_csv::Database;
use value_dm::{Bytes, Cell, Value};

/// What a graph is made from.
#[derive(Drop)]
pub struct Source<'a> {
    pub alloc: Global,
    pub base: &'a Base,
    pub database: &'a Database,
    pub indexes: &'a KeyIndexes,
    pub heads: &'a Heads,
    pub plan: &'a Plan,
    /// The first row of each table that is written, counted from 0; 0 of the tables behind the last that is told.
    pub first_rows: &'a [u32],
}

// Whether the row at this place is before the first row of its table that is written.
fn is_before_first(source: &Source, t: u32, i: usize) -> bool
    ensures { result ≡ nat_lt i (first_row source.now.first_rows.now t) }
{
    match source.first_rows.get(t as usize) {
        None => false,
        Some(first) => i < *first as usize,
    }
}

// ---- literals

// Appends the line of a literal.
#[tactic(auto, unfolding(crate::specs::Heads::value_line))]
fn append_literal(
    alloc: Global,
    subject: &[u8],
    head: &[u8],
    value: &Value,
    out: &mut Vec<u8>,
) -> Result<(), AllocError>
    ensures { OnOk result (out.new.items ≡ out.old.items ++ value_line subject.now head.now value.now) }
{
    out.extend_from_slice(subject)?;
    out.extend_from_slice(head)?;
    append_value(alloc, value, out)?;
    out.extend_from_slice(line_end(value.kind()).as_bytes())
}

// Appends the line of the cell at this place, where there are a column and a value.
fn append_cell(
    alloc: Global,
    subject: &[u8],
    heads: &[Bytes],
    row: &[Cell],
    k: usize,
    out: &mut Vec<u8>,
) -> Result<(), AllocError>
    ensures { OnOk result (out.new.items ≡ out.old.items ++ cell_line subject.now (slice_get heads.now k) (slice_get row.now k)) }
{
    let Some(head) = heads.get(k) else {
        return Ok(());
    };
    match row.get(k) {
        None => Ok(()),
        Some(None) => Ok(()),
        Some(Some(value)) => append_literal(alloc, subject, head.as_slice(), value, out),
    }
}

// Appends the lines of the cells of a row.
fn append_cells(
    alloc: Global,
    subject: &[u8],
    heads: &[Bytes],
    row: &[Cell],
    out: &mut Vec<u8>,
) -> Result<(), AllocError>
    ensures { OnOk result (out.new.items ≡ out.old.items ++ up_to (length heads.now) (λ k. cell_line subject.now (slice_get heads.now k) (slice_get row.now k))) }
{
    for k in 0..heads.len() {
        append_cell(alloc, subject, heads, row, k, out)?;
    }
    Ok(())
}

// ---- nodes

// Appends the column of a key at this place with the row's value there, unless that is NULL. Whether the next one is the
// first.
fn append_place(
    alloc: Global,
    head: &[u8],
    _columns: &[Column],
    row: &[Cell],
    place: u32,
    first: bool,
    out: &mut Vec<u8>,
) -> Result<bool, AllocError>
    requires { head.now ≡ part_head _columns.now place }
    ensures text { OnOk result (out.new.items ≡ out.old.items ++ encode_utf8_all (added first (part_of (name_at _columns.now place) (slice_index_or row.now place None)))) }
    ensures next { IfOk result (λ next. next ≡ still_first first (part_of (name_at _columns.now place) (slice_index_or row.now place None))) }
{
    let Some(Some(value)) = row.get(place as usize) else {
        return Ok(first);
    };
    append_part(alloc, head, value, first, out)?;
    Ok(false)
}

// Appends the columns of a key with the row's values.
fn append_places(
    alloc: Global,
    heads: &[Bytes],
    columns: &[Column],
    row: &[Cell],
    places: &Places,
    out: &mut Vec<u8>,
) -> Result<(), AllocError>
    requires { heads.now ≡ map (part_head columns.now) places.now }
    ensures { OnOk result (out.new.items ≡ out.old.items ++ encode_utf8_all (key_list (key_parts columns.now row.now places.now))) }
{
    let mut first = true;
    for (k, place) in places.as_slice().iter().enumerate() {
        first = append_place(alloc, heads[k].as_slice(), columns, row, *place, first, out)?;
    }
    Ok(())
}

// Appends the columns of the primary key with the row's values.
fn append_primary(
    alloc: Global,
    heads: &[Bytes],
    table: &Table,
    row: &[Cell],
    out: &mut Vec<u8>,
) -> Result<(), AllocError>
    requires { heads.now ≡ map (part_head table.now.columns) (primary_places table.now.primary) }
    ensures { OnOk result (out.new.items ≡ out.old.items ++ encode_utf8_all (key_list (primary_parts table.now.columns row.now table.now.primary))) }
{
    match &table.primary {
        None => Ok(()),
        Some(places) => append_places(alloc, heads, table.columns.as_slice(), row, places, out),
    }
}

// Appends the node that a row has by its primary key.
fn append_key_node(
    alloc: Global,
    _base: &Base,
    table: &Table,
    heads: &TableHeads,
    row: &[Cell],
    out: &mut Vec<u8>,
) -> Result<(), AllocError>
    requires { AreHeads _base.now table.now heads.now }
    ensures { OnOk result (out.new.items ≡ out.old.items ++ iri_text (row_iri _base.now table.now.name (primary_parts table.now.columns row.now table.now.primary))) }
{
    out.extend_from_slice(heads.stem.as_slice())?;
    append_primary(alloc, heads.parts.as_slice(), table, row, out)?;
    out.extend_from_slice(b">")
}

fn append_number(number: u64, out: &mut Vec<u8>) -> Result<(), AllocError>
    ensures { OnOk result (out.new.items ≡ out.old.items ++ decimal number) }
{
    let mut digits = Buffer::new();
    out.extend_from_slice(digits.format(number).as_bytes())
}

// Appends the node that a row has by its number.
fn append_blank(t: u32, i: usize, out: &mut Vec<u8>) -> Result<(), AllocError>
    requires { i + 1 < 2 ^ 64 }
    ensures { OnOk result (out.new.items ≡ out.old.items ++ term_text (node_term (blank (row_label (t + 1) (i + 1))))) }
{
    out.extend_from_slice(b"_:t")?;
    append_number(u64::from(t) + 1, out)?;
    out.extend_from_slice(b"r")?;
    append_number(i as u64 + 1, out)
}

// Appends the node of a row.
fn append_node(source: &Source, t: u32, i: usize, out: &mut Vec<u8>) -> Result<(), AllocError>
    requires has { HasRow source.now.database.now t i }
    requires indexes { AreIndexesOf source.now.database.now source.now.indexes.now }
    requires heads { AreAllHeads source.now.base.now source.now.database.now.tables source.now.heads.now }
    ensures { OnOk result (out.new.items ≡ out.old.items ++ term_text (node_term (row_node source.now.base.now source.now.database.now t i))) }
{
    let table = table_of(source.database, t);
    let row = rows_of(source.database, t).row(i);
    let told = source.indexes.has_own_key(source.database, t, i);
    let heads = &source.heads.as_slice()[t as usize];
    if told {
        append_key_node(source.alloc, source.base, table, heads, row, out)
    } else {
        append_blank(t, i, out)
    }
}

// ---- references

// Appends the line of a reference to the row at this place.
fn append_link(
    source: &Source,
    subject: &[u8],
    head: &[u8],
    t: u32,
    j: usize,
    out: &mut Vec<u8>,
) -> Result<(), AllocError>
    requires has { HasRow source.now.database.now t j }
    requires indexes { AreIndexesOf source.now.database.now source.now.indexes.now }
    requires heads { AreAllHeads source.now.base.now source.now.database.now.tables source.now.heads.now }
    ensures { OnOk result (out.new.items ≡ out.old.items ++ link_line source.now.base.now source.now.database.now subject.now head.now t j) }
{
    out.extend_from_slice(subject)?;
    out.extend_from_slice(head)?;
    append_node(source, t, j, out)?;
    out.extend_from_slice(b" .\n")
}

// Appends the lines of references to the rows of these entries.
fn append_links(
    source: &Source,
    subject: &[u8],
    head: &[u8],
    t: u32,
    entries: &[Entry],
    out: &mut Vec<u8>,
) -> Result<(), AllocError>
    requires rows { (j : ℕ) → IsIn j (positions_of entries.now) → HasRow source.now.database.now t j }
    requires indexes { AreIndexesOf source.now.database.now source.now.indexes.now }
    requires heads { AreAllHeads source.now.base.now source.now.database.now.tables source.now.heads.now }
    ensures { OnOk result (out.new.items ≡ out.old.items ++ flat_map (λ (entry : TheEntry). link_line source.now.base.now source.now.database.now subject.now head.now t entry.row) entries.now) }
{
    for entry in entries {
        append_link(source, subject, head, t, entry.position(), out)?;
    }
    Ok(())
}

// Appends the lines of references of a row of the table by its foreign key at this place.
fn append_key(
    source: &Source,
    t: u32,
    k: usize,
    key: &ForeignKey,
    subject: &[u8],
    head: &[u8],
    row: &[Cell],
    out: &mut Vec<u8>,
) -> Result<(), AllocError>
    requires table { t < length source.now.database.now.tables }
    requires target { key.now.target < length source.now.database.now.tables }
    requires key { slice_get (table_at source.now.database.now.tables t).foreign k ≡ Some key.now }
    requires indexes { AreIndexesOf source.now.database.now source.now.indexes.now }
    requires heads { AreAllHeads source.now.base.now source.now.database.now.tables source.now.heads.now }
    ensures { OnOk result (out.new.items ≡ out.old.items ++ key_line source.now.base.now source.now.database.now subject.now head.now key.now (cells_at key.now.columns row.now)) }
{
    if has_null_at(row, &key.columns) {
        return Ok(());
    }
    let entries = source.indexes.referenced(source.database, t, k, key, row);
    append_links(source, subject, head, key.target, entries, out)
}

// Appends the lines of references of a row of the table.
fn append_keys(
    source: &Source,
    t: u32,
    heads: &[Bytes],
    subject: &[u8],
    row: &[Cell],
    out: &mut Vec<u8>,
) -> Result<(), AllocError>
    requires table { t < length source.now.database.now.tables }
    requires many { length heads.now ≡ length (table_at source.now.database.now.tables t).foreign }
    requires indexes { AreIndexesOf source.now.database.now source.now.indexes.now }
    requires heads { AreAllHeads source.now.base.now source.now.database.now.tables source.now.heads.now }
    ensures { OnOk result (out.new.items ≡ out.old.items ++ up_to (length (table_at source.now.database.now.tables t).foreign) (λ k. keys_line source.now.base.now source.now.database.now subject.now (slice_get heads.now k) (slice_get (table_at source.now.database.now.tables t).foreign k) row.now)) }
{
    let table = table_of(source.database, t);
    for (k, key) in table.foreign.as_slice().iter().enumerate() {
        append_key(source, t, k, key, subject, heads[k].as_slice(), row, out)?;
    }
    Ok(())
}

// Appends the mark of a subject, where it is marked.
#[tactic(auto, unfolding(crate::specs::Lines::mark_line))]
fn append_mark(subject: &[u8], marked: bool, out: &mut Vec<u8>) -> Result<(), AllocError>
    ensures { OnOk result (out.new.items ≡ out.old.items ++ mark_line marked subject.now) }
{
    if !marked {
        return Ok(());
    }
    out.extend_from_slice(subject)?;
    out.extend_from_slice(b" <http://www.w3.org/2002/07/owl#differentFrom> ")?;
    out.extend_from_slice(subject)?;
    out.extend_from_slice(b" .\n")
}

// Appends the lines of a row of the table with this subject.
fn append_lines(
    source: &Source,
    t: u32,
    heads: &TableHeads,
    subject: &[u8],
    row: &[Cell],
    marked: bool,
    out: &mut Vec<u8>,
) -> Result<(), AllocError>
    requires table { t < length source.now.database.now.tables }
    requires lawful { IsTable source.now.database.now.tables (table_at source.now.database.now.tables t) }
    requires own { AreHeads source.now.base.now (table_at source.now.database.now.tables t) heads.now }
    requires indexes { AreIndexesOf source.now.database.now source.now.indexes.now }
    requires heads { AreAllHeads source.now.base.now source.now.database.now.tables source.now.heads.now }
    ensures { (node : Node) → subject.now ≡ term_text (node_term node) →
        OnOk result (out.new.items ≡ out.old.items ++ text_of source.now.base.now (levels 4 (row_group source.now.base.now source.now.database.now node (table_at source.now.database.now.tables t) row.now marked))) }
{
    out.extend_from_slice(subject)?;
    out.extend_from_slice(heads.class_text.as_slice())?;
    append_cells(source.alloc, subject, heads.columns.as_slice(), row, out)?;
    append_keys(source, t, heads.references.as_slice(), subject, row, out)?;
    append_mark(subject, marked, out)
}

// Appends the lines of the row at this place. The subject is written to a buffer of its own, whatever that held.
fn append_row(
    source: &Source,
    t: u32,
    i: usize,
    subject: &mut Vec<u8>,
    out: &mut Vec<u8>,
) -> Result<(), AllocError>
    requires has { HasRow source.now.database.now t i }
    requires indexes { AreIndexesOf source.now.database.now source.now.indexes.now }
    requires heads { AreAllHeads source.now.base.now source.now.database.now.tables source.now.heads.now }
    ensures { OnOk result (out.new.items ≡ out.old.items ++ text_of source.now.base.now (row_level source.now.base.now source.now.database.now source.now.plan.now t i)) }
{
    let row = source.database.rows_of(t).row(i);
    let heads = &source.heads.as_slice()[t as usize];
    subject.clear();
    append_node(source, t, i, subject)?;
    let marked = source.plan.is_marked(t, i);
    append_lines(source, t, heads, subject.as_slice(), row, marked, out)
}

/// Appends the lines of the row at this place, unless it is before the first one of its table. The subject is written to a
/// buffer of its own, whatever that held.
pub fn append_later_row(
    source: &Source,
    t: u32,
    i: usize,
    subject: &mut Vec<u8>,
    out: &mut Vec<u8>,
) -> Result<(), AllocError>
    requires has { HasRow source.now.database.now t i }
    requires indexes { AreIndexesOf source.now.database.now source.now.indexes.now }
    requires heads { AreAllHeads source.now.base.now source.now.database.now.tables source.now.heads.now }
    ensures { OnOk result (out.new.items ≡ out.old.items ++ text_of source.now.base.now (from_first (first_row source.now.first_rows.now t) (row_level source.now.base.now source.now.database.now source.now.plan.now t) i)) }
{
    if is_before_first(source, t, i) {
        return Ok(());
    }
    append_row(source, t, i, subject, out)
}

// ---- rows of relations

// The position of the first row that a row of the table references by its foreign key of this number.
fn first_referenced(source: &Source, t: u32, number: u32, row: &[Cell]) -> Option<usize>
    requires table { t < length source.now.database.now.tables }
    requires number { number < length (table_at source.now.database.now.tables t).foreign }
    requires indexes { AreIndexesOf source.now.database.now source.now.indexes.now }
    ensures { result ≡ slice_get (referenced source.now.database.now (key_at source.now.database.now.tables t number) row.now) 0 }
{
    let key = key_of(source.database, t, number);
    if has_null_at(row, &key.columns) {
        return None;
    }
    let entries = source
        .indexes
        .referenced(source.database, t, number as usize, key, row);
    match entries.get(0) {
        None => None,
        Some(entry) => Some(entry.position()),
    }
}

// Appends the line of the row at this place of the relation that the table is, with this text between the nodes. The first
// node is written to a buffer of its own, whatever that held.
fn append_pair(
    source: &Source,
    t: u32,
    sides: Binary,
    head: &[u8],
    i: usize,
    subject: &mut Vec<u8>,
    out: &mut Vec<u8>,
) -> Result<(), AllocError>
    requires has { HasRow source.now.database.now t i }
    requires left { sides.left < length (table_at source.now.database.now.tables t).foreign }
    requires right { sides.right < length (table_at source.now.database.now.tables t).foreign }
    requires head { head.now ≡ relation_head source.now.base.now source.now.database.now.tables t sides }
    requires indexes { AreIndexesOf source.now.database.now source.now.indexes.now }
    requires heads { AreAllHeads source.now.base.now source.now.database.now.tables source.now.heads.now }
    ensures { OnOk result (out.new.items ≡ out.old.items ++ text_of source.now.base.now (relation_row_level source.now.base.now source.now.database.now t sides i)) }
{
    let row = source.database.rows_of(t).row(i);
    let left = first_referenced(source, t, sides.left, row);
    let right = first_referenced(source, t, sides.right, row);
    match left {
        None => Ok(()),
        Some(j) => match right {
            None => Ok(()),
            Some(l) => {
                let from = key_of(source.database, t, sides.left).target;
                let to = key_of(source.database, t, sides.right).target;
                subject.clear();
                append_node(source, from, j, subject)?;
                append_link(source, subject.as_slice(), head, to, l, out)
            }
        },
    }
}

/// Appends the line of the row at this place of the relation that the table is, with this text between the nodes, unless the
/// row is before the first one of its table. The first node is written to a buffer of its own, whatever that held.
pub fn append_later_pair(
    source: &Source,
    t: u32,
    sides: Binary,
    head: &[u8],
    i: usize,
    subject: &mut Vec<u8>,
    out: &mut Vec<u8>,
) -> Result<(), AllocError>
    requires has { HasRow source.now.database.now t i }
    requires left { sides.left < length (table_at source.now.database.now.tables t).foreign }
    requires right { sides.right < length (table_at source.now.database.now.tables t).foreign }
    requires head { head.now ≡ relation_head source.now.base.now source.now.database.now.tables t sides }
    requires indexes { AreIndexesOf source.now.database.now source.now.indexes.now }
    requires heads { AreAllHeads source.now.base.now source.now.database.now.tables source.now.heads.now }
    ensures { OnOk result (out.new.items ≡ out.old.items ++ text_of source.now.base.now (from_first (first_row source.now.first_rows.now t) (relation_row_level source.now.base.now source.now.database.now t sides) i)) }
{
    if is_before_first(source, t, i) {
        return Ok(());
    }
    append_pair(source, t, sides, head, i, subject, out)
}
