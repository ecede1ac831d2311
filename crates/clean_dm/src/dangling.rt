ghost use Rattle.std.specs.Prelude.{◌≡◌, ℕ, ◌<◌, ◌+◌, ◌↔◌, IfNone, IfSome, IsTrue, Some, length, slice_get};
ghost use Rattle.members_dm.specs.Membership.{IsIn};
ghost use Rattle.schema_dm.specs.Schemas.{IsForeignKey, table_at};
ghost use Rattle.table_csv.specs.Databases.{rows_at};
ghost use Rattle.keys_dm.specs.Entries.{positions_of};
ghost use Rattle.keys_dm.specs.TableIndexes.{AreIndexesOf};
ghost use Rattle.clean_dm.specs.Parts.{DanglesIn, IsRow};
ghost use Rattle.clean_dm.specs.RowSets.{Has};
ghost use Rattle.clean_dm.specs.Working.{AreCandidates, AreCandidatesBut, Dangles, IsFirstDangling, IsFirstKey, IsLone, KeepsUnique, NoneDangles};

use crate::row_set::RowSet;
use keys_dm::{Entry, KeyIndexes, has_null_at, rows_of, table_of};
use schema_dm::ForeignKey;
use table_csv::Database;
use value_dm::Cell;

/// A row that dangles, by its table's place and its own, counted from 0, with the number of its
/// foreign key, counted from 1.
#[derive(Clone, Copy)]
pub struct DanglingRow {
    pub table: u32,
    pub row: usize,
    pub number: u64,
}

// Whether one of the rows is left. Rows that share a key aren't.
fn has_left(entries: &[Entry], target: u32, left: &RowSet) -> bool
    requires { IsLone (Has left.now target) (positions_of entries.now) }
    ensures { IsTrue result ↔ ((j : ℕ) × IsIn j (positions_of entries.now) × Has left.now target j) }
{
    match entries {
        [only] => left.has(target, only.position()),
        _ => false,
    }
}

// Whether the row's foreign key at the place has no NULL, and none of the rows that it references is
// left.
fn is_dangling(
    database: &Database,
    indexes: &KeyIndexes,
    left: &RowSet,
    table: u32,
    place: usize,
    key: &ForeignKey,
    row: &[Cell],
) -> bool
    requires table { table < length database.now.tables }
    requires key { slice_get (table_at database.now.tables table).foreign place ≡ Some key.now }
    requires lawful { IsForeignKey database.now.tables (table_at database.now.tables table) key.now }
    requires indexed { AreIndexesOf database.now indexes.now }
    requires unique { KeepsUnique database.now left.now }
    ensures { IsTrue result ↔ DanglesIn (Has left.now key.now.target) (rows_at database.now.rows key.now.target) key.now row.now }
{
    if has_null_at(row, &key.columns) {
        return false;
    }
    let referenced = indexes.referenced(database, table, place, key, row);
    !has_left(referenced, key.target, left)
}

// The number of the row's first foreign key that dangles.
fn first_key(
    database: &Database,
    indexes: &KeyIndexes,
    left: &RowSet,
    table: u32,
    row: usize,
) -> Option<u64>
    requires table { table < length database.now.tables }
    requires row { IsRow database.now table row }
    requires there { Has left.now table row }
    requires indexed { AreIndexesOf database.now indexes.now }
    requires unique { KeepsUnique database.now left.now }
    ensures none { IfNone result ((number : ℕ) → ¬ Dangles database.now left.now table row number) }
    ensures some { IfSome result (λ number. IsFirstKey database.now left.now table row number) }
    ensures few { IfSome result (λ _. row < 4194304) }
{
    let cells = rows_of(database, table).row(row);
    for (place, key) in table_of(database, table)
        .foreign
        .as_slice()
        .iter()
        .enumerate()
    {
        if is_dangling(database, indexes, left, table, place, key, cells) {
            return Some(place as u64 + 1);
        }
    }
    None
}

// The same for a row that may have gone.
fn first_key_if_left(
    database: &Database,
    indexes: &KeyIndexes,
    left: &RowSet,
    table: u32,
    row: usize,
) -> Option<u64>
    requires table { table < length database.now.tables }
    requires row { IsRow database.now table row }
    requires indexed { AreIndexesOf database.now indexes.now }
    requires unique { KeepsUnique database.now left.now }
    ensures none { IfNone result (Has left.now table row → (number : ℕ) → ¬ Dangles database.now left.now table row number) }
    ensures some { IfSome result (λ number. IsFirstKey database.now left.now table row number) }
    ensures few { IfSome result (λ _. row < 4194304) }
{
    if !left.has(table, row) {
        return None;
    }
    first_key(database, indexes, left, table, row)
}

/// The first row of those left that dangles, with its first such key. Takes it and all candidates
/// before it out of the candidates.
pub fn next_dangling(
    database: &Database,
    indexes: &KeyIndexes,
    left: &RowSet,
    due: &mut RowSet,
) -> Option<DanglingRow>
    requires indexed { AreIndexesOf database.now indexes.now }
    requires unique { KeepsUnique database.now left.now }
    requires due { AreCandidates database.now left.now due.old }
    ensures none { IfNone result (NoneDangles database.now left.now) }
    ensures some { IfSome result (λ first. IsFirstDangling database.now left.now first.table first.row first.number) }
    ensures rest { IfSome result (λ first. AreCandidatesBut database.now left.now due.new first.table first.row) }
    ensures few { IfSome result (λ first. first.row < 4194304) }
{
    while let Some((table, row)) = due.pop_first() {
        if let Some(number) = first_key_if_left(database, indexes, left, table, row) {
            return Some(DanglingRow { table, row, number });
        }
    }
    None
}
