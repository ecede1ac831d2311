ghost use Rattle.std.specs.Prelude.{◌≡◌, ◌≤◌, ◌<◌, ◌↔◌, ◌-◌, ℕ, List, length, IfOk, IsTrue, take, drop, true, false};
ghost use Rattle.std.specs.List.Sorted.{IsPartitionPoint};
ghost use Rattle.keys_dm.specs.Entries as spec;
ghost use Rattle.keys_dm.specs.Entries.{AreEntries, AreSorted, EndsAt, GoesOnAt, IsSortedIndexOf, positions_of};
ghost use Rattle.keys_dm.specs.Indexes.{IsIndexOf};
ghost use Rattle.keys_dm.specs.KeyCells.{AreRowsWith, HasTwin};
ghost use Rattle.table_csv.specs.Cells.{Row, cells_at};
ghost use Rattle.keys_dm.specs.Hashes.{hash_of};

use crate::hashes::hash_at;
use crate::order::{compare_at, row_of};
use crate::twins::twins_of;
use schema_dm::Places;
use std::alloc::{AllocError, Global};
use std::cmp::Ordering;
use table_csv::Rows;
use value_dm::Cell;

/// A row of an index, under the hash of its cells in the columns of the key.
#[derive(Clone, Copy)]
pub struct Entry {
    pub(crate) hash: u32,
    pub(crate) row: u32,
}

impl Entry {
    /// The row's position, counted from 0.
    pub fn position(&self) -> usize
        ensures { result ≡ self.now.row }
    {
        self.row as usize
    }
}

// By hash, then by the cells, then by position. Cells are compared where the hashes are equal.
fn compare_entries(rows: &Rows, places: &[u32], left: Entry, right: Entry) -> Ordering
    ensures { result ≡ spec.entry_cmp rows.now places.now left right }
{
    match left.hash.cmp(&right.hash) {
        Ordering::Equal => {
            let left_row = row_of(rows, left.row);
            let right_row = row_of(rows, right.row);
            match compare_at(left_row, places, right_row, places) {
                Ordering::Equal => left.row.cmp(&right.row),
                other => other,
            }
        }
        other => other,
    }
}

// What an index is asked for: the cells of a row in some columns, with their hash.
#[derive(Clone, Copy)]
struct Query<'a> {
    hash: u32,
    row: &'a [Cell],
    columns: &'a [u32],
}

// How the cells of an entry's row stand to those that are asked for.
fn compare_to(rows: &Rows, places: &[u32], entry: Entry, query: &Query) -> Ordering
    ensures { result ≡ spec.against rows.now places.now query.now.hash (cells_at query.now.columns.now query.now.row.now) entry }
{
    match entry.hash.cmp(&query.hash) {
        Ordering::Equal => compare_at(row_of(rows, entry.row), places, query.row, query.columns),
        other => other,
    }
}

fn entries_in_order(alloc: Global, rows: &Rows, places: &[u32]) -> Result<Vec<Entry>, AllocError>
    requires { length rows.now ≤ 4194304 }
    ensures { IfOk result (λ made. AreEntries rows.now places.now (length rows.now) made.items) }
{
    let mut made = Vec::with_capacity(alloc, rows.len())?;
    for position in 0..rows.len() {
        let row = position as u32;
        let hash = hash_at(row_of(rows, row), places);
        made.push(Entry { hash, row })?;
    }
    Ok(made)
}

fn sort_entries(rows: &Rows, places: &[u32], entries: &mut Vec<Entry>)
    ensures { AreSorted rows.now places.now entries.old.items entries.new.items }
{
    entries.sort_unstable_by(|left, right| compare_entries(rows, places, *left, *right));
}

fn entries_of(alloc: Global, rows: &Rows, places: &[u32]) -> Result<Vec<Entry>, AllocError>
    requires { length rows.now ≤ 4194304 }
    ensures { IfOk result (λ entries. IsSortedIndexOf rows.now places.now entries.items) }
{
    let mut entries = entries_in_order(alloc, rows, places)?;
    sort_entries(rows, places, &mut entries);
    Ok(entries)
}

// Where the entries begin whose cells are those that are asked for.
fn start_of(rows: &Rows, places: &[u32], entries: &[Entry], query: &Query) -> usize
    requires { IsSortedIndexOf rows.now places.now entries.now }
    ensures bound { result ≤ length entries.now }
    ensures point { IsPartitionPoint (λ e. spec.is_before rows.now places.now query.now.hash (cells_at query.now.columns.now query.now.row.now) e ≡ true) (λ e. spec.is_before rows.now places.now query.now.hash (cells_at query.now.columns.now query.now.row.now) e ≡ false) entries.now result }
{
    entries.partition_point(|entry| compare_to(rows, places, *entry, query).is_lt())
}

// Whether no entry from the place on has the cells that are asked for.
fn ends_at(rows: &Rows, places: &[u32], entries: &[Entry], query: &Query, place: usize) -> bool
    ensures behind { result ≡ true → EndsAt rows.now places.now query.now.hash (cells_at query.now.columns.now query.now.row.now) entries.now place }
    ensures here { result ≡ false → GoesOnAt rows.now places.now query.now.hash (cells_at query.now.columns.now query.now.row.now) entries.now place }
{
    match entries.get(place) {
        None => true,
        Some(entry) => compare_to(rows, places, *entry, query).is_gt(),
    }
}

// Where they end. Halves only where more than one entry has the cells.
fn end_of(rows: &Rows, places: &[u32], entries: &[Entry], query: &Query, start: usize) -> usize
    requires sorted { IsSortedIndexOf rows.now places.now entries.now }
    requires low { start ≤ length entries.now }
    requires start { IsPartitionPoint (λ e. spec.is_before rows.now places.now query.now.hash (cells_at query.now.columns.now query.now.row.now) e ≡ true) (λ e. spec.is_before rows.now places.now query.now.hash (cells_at query.now.columns.now query.now.row.now) e ≡ false) entries.now start }
    ensures bound { result ≤ length entries.now }
    ensures point { IsPartitionPoint (λ e. spec.is_not_behind rows.now places.now query.now.hash (cells_at query.now.columns.now query.now.row.now) e ≡ true) (λ e. spec.is_not_behind rows.now places.now query.now.hash (cells_at query.now.columns.now query.now.row.now) e ≡ false) entries.now result }
{
    if ends_at(rows, places, entries, query, start) {
        return start;
    }
    if ends_at(rows, places, entries, query, start + 1) {
        return start + 1;
    }
    entries.partition_point(|entry| compare_to(rows, places, *entry, query).is_le())
}

fn part(entries: &[Entry], start: usize, end: usize) -> &[Entry]
    requires low { start ≤ end }
    requires high { end ≤ length entries.now }
    ensures { result.now ≡ take (end - start) (drop start entries.now) }
{
    &entries[start..end]
}

fn matches_of<'a>(rows: &Rows, places: &[u32], entries: &'a [Entry], query: &Query) -> &'a [Entry]
    requires sorted { IsSortedIndexOf rows.now places.now entries.now }
    requires hash { query.now.hash ≡ hash_of (cells_at query.now.columns.now query.now.row.now) }
    ensures { AreRowsWith rows.now places.now (cells_at query.now.columns.now query.now.row.now) (positions_of result.now) }
{
    let start = start_of(rows, places, entries, query);
    let end = end_of(rows, places, entries, query, start);
    part(entries, start, end)
}

/// The rows of a table by their cells in the columns of a key, 9 bytes a row.
///
/// A look-up halves: it compares hashes, and cells where hashes are equal. Neither it nor the making
/// of an index takes more comparisons than for keys that all differ, whatever the rows hold.
#[derive(Drop)]
pub struct KeyIndex {
    entries: Vec<Entry>,
    twins: Vec<bool>,
}

impl KeyIndex {
    /// The index of the rows by their cells in the columns at the places, counted from 0. Refused for
    /// want of memory alone.
    pub fn new(alloc: Global, rows: &Rows, places: &Places) -> Result<KeyIndex, AllocError>
        requires { length rows.now ≤ 4194304 }
        ensures { IfOk result (IsIndexOf rows.now places.now) }
    {
        let columns = places.as_slice();
        let entries = entries_of(alloc, rows, columns)?;
        let twins = twins_of(alloc, rows, columns, entries.as_slice())?;
        Ok(KeyIndex { entries, twins })
    }

    /// Whether another row has the same cells in the columns of the key as the row at the position,
    /// counted from 0. Takes no memory.
    pub fn has_twin(&self, position: usize) -> bool
        ensures { (rows : List Row) (places : List ℕ) → IsIndexOf rows places self.now → position < length rows → IsTrue result ↔ HasTwin rows places position }
    {
        match self.twins.as_slice().get(position) {
            None => false,
            Some(flag) => *flag,
        }
    }

    /// The entries of the rows with a row's cells in some columns, in rising order of positions. Takes
    /// no memory.
    pub fn matches(&self, rows: &Rows, places: &Places, row: &[Cell], columns: &Places) -> &[Entry]
        requires { IsIndexOf rows.now places.now self.now }
        ensures { AreRowsWith rows.now places.now (cells_at columns.now row.now) (positions_of result.now) }
    {
        let columns = columns.as_slice();
        let query = Query {
            hash: hash_at(row, columns),
            row,
            columns,
        };
        matches_of(rows, places.as_slice(), self.entries.as_slice(), &query)
    }
}
