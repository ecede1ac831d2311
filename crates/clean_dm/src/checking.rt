ghost use Rattle.std.specs.Prelude.{◌≡◌, ◌<◌, ◌≤◌, ◌↔◌, ℕ, ◌+◌, IfOk, IfSome, IsTrue, Some, length, slice_get};
ghost use Rattle.members_dm.specs.Membership.{IsIn};
ghost use Rattle.schema_dm.specs.Schemas.{IsForeignKey, table_at};
ghost use Rattle.table_csv.specs.Cells.{cells_at};
ghost use Rattle.table_csv.specs.Databases.{rows_at};
ghost use Rattle.keys_dm.specs.Entries.{positions_of};
ghost use Rattle.keys_dm.specs.KeyCells.{AreRowsWith, IsRowWith, row_at};
ghost use Rattle.keys_dm.specs.Violations.{HasNumber};
ghost use Rattle.schema_dm.specs.declared.table.ForeignKey.{ForeignKey as TheForeignKey};
ghost use Rattle.keys_dm.specs.TableIndexes.{AreIndexesOf};
ghost use Rattle.clean_dm.specs.Checking.{AgreesAt, HasReason, HaveReasons, HoldsFrom, KeyAgrees, KeysAgree, KnowsGroups, MayBreak, NoneLeftWith, StayUnique, StaysWrongly, TablesAgree};
ghost use Rattle.clean_dm.specs.Kept.{RowsExist};
ghost use Rattle.clean_dm.specs.Parts.{DanglesIn, IsRow};
ghost use Rattle.clean_dm.specs.Removing.{IsCertificate, IsLeft};
ghost use Rattle.clean_dm.specs.Turns.{AreTurns};

use crate::cleaning::is_dangling;
use crate::own_keys::{has_null_key, repeats_key, repeats_unique};
use crate::removal::{Removal, Removals};
use crate::turns::{Turns, row_of, turns_of};
use keys_dm::{
    Entry, KeyIndexes, Violation, ViolationKind, has_null_at, rows_of, table_of, violations_by,
};
use schema_dm::ForeignKey;
use std::alloc::{AllocError, Global};
use table_csv::Database;
use value_dm::Cell;

// From which turn on the row is gone: behind the last where it never goes.
fn gone_from(removals: &Removals, turns: &Turns, table: u32, row: usize) -> usize
    requires { AreTurns removals.now turns.now }
    ensures { HoldsFrom removals.now (λ made. ¬ IsLeft made table row) result }
{
    let count = removals.as_slice().len();
    match turns.get(table, row) {
        None => count + 1,
        Some(turn) => turn + 1,
    }
}

fn later(turn: usize, other: usize) -> usize
    ensures { (k : ℕ) → (result ≤ k) ↔ ((turn ≤ k) × (other ≤ k)) }
{
    if turn < other { other } else { turn }
}

// From which turn on all these rows are gone.
fn all_gone_from(removals: &Removals, turns: &Turns, table: u32, entries: &[Entry]) -> usize
    requires { AreTurns removals.now turns.now }
    ensures { HoldsFrom removals.now (λ made. (j : ℕ) → IsIn j (positions_of entries.now) → ¬ IsLeft made table j) result }
{
    let mut last = 0;
    for entry in entries {
        let turn = gone_from(removals, turns, table, entry.position());
        last = later(last, turn);
    }
    last
}

// The same for all rows with the cells of the first, which are gone through once.
fn group_gone_from(
    database: &Database,
    removals: &Removals,
    turns: &Turns,
    key: &ForeignKey,
    first: usize,
    entries: &[Entry],
    known: &mut Vec<Option<usize>>,
) -> usize
    requires turns { AreTurns removals.now turns.now }
    requires first { first < length known.old.items }
    requires entries { AreRowsWith (rows_at database.now.rows key.now.target) key.now.target_columns (cells_at key.now.target_columns (row_at (rows_at database.now.rows key.now.target) first)) (positions_of entries.now) }
    requires known { KnowsGroups database.now removals.now key.now known.old.items }
    ensures from { HoldsFrom removals.now (NoneLeftWith database.now key.now (cells_at key.now.target_columns (row_at (rows_at database.now.rows key.now.target) first))) result }
    ensures known { KnowsGroups database.now removals.now key.now known.new.items }
    ensures many { length known.new.items ≡ length known.old.items }
{
    match known[first] {
        Some(turn) => turn,
        None => {
            let turn = all_gone_from(removals, turns, key.target, entries);
            known[first] = Some(turn);
            turn
        }
    }
}

// From which turn on the row's foreign key at the place dangles.
fn dangles_from(
    database: &Database,
    indexes: &KeyIndexes,
    removals: &Removals,
    turns: &Turns,
    table: u32,
    place: usize,
    key: &ForeignKey,
    row: &[Cell],
    known: &mut Vec<Option<usize>>,
) -> usize
    requires table { table < length database.now.tables }
    requires key { slice_get (table_at database.now.tables table).foreign place ≡ Some key.now }
    requires lawful { IsForeignKey database.now.tables (table_at database.now.tables table) key.now }
    requires indexed { AreIndexesOf database.now indexes.now }
    requires turns { AreTurns removals.now turns.now }
    requires many { length known.old.items ≡ length (rows_at database.now.rows key.now.target) }
    requires known { KnowsGroups database.now removals.now key.now known.old.items }
    ensures from { HoldsFrom removals.now (λ made. DanglesIn (IsLeft made key.now.target) (rows_at database.now.rows key.now.target) key.now row.now) result }
    ensures known { KnowsGroups database.now removals.now key.now known.new.items }
    ensures many { length known.new.items ≡ length known.old.items }
{
    if has_null_at(row, &key.columns) {
        return removals.as_slice().len() + 1;
    }
    let entries = indexes.referenced(database, table, place, key, row);
    match entries {
        [] => 0,
        [first, ..] => {
            let first = first.position();
            group_gone_from(database, removals, turns, key, first, entries, known)
        }
    }
}

// Whether a row that stays doesn't dangle at the end, and one that goes for the key of this number
// dangles at its turn.
fn agrees_at(removals: &Removals, turn: Option<usize>, number: u64, from: usize) -> bool
    requires { IfSome turn (λ k. k < length removals.now) }
    ensures { IsTrue result ↔ AgreesAt removals.now turn number from }
{
    match turn {
        None => from > removals.len(),
        Some(turn) => {
            let kind = removals.as_slice()[turn].kind;
            kind != ViolationKind::Dangling(number) || from <= turn
        }
    }
}

fn key_agrees(
    alloc: Global,
    database: &Database,
    indexes: &KeyIndexes,
    removals: &Removals,
    turns: &Turns,
    table: u32,
    place: usize,
    number: u64,
    key: &ForeignKey,
) -> Result<bool, AllocError>
    requires number { number ≡ place + 1 }
    requires table { table < length database.now.tables }
    requires key { slice_get (table_at database.now.tables table).foreign place ≡ Some key.now }
    requires lawful { IsForeignKey database.now.tables (table_at database.now.tables table) key.now }
    requires indexed { AreIndexesOf database.now indexes.now }
    requires turns { AreTurns removals.now turns.now }
    ensures { IfOk result (λ agrees. IsTrue agrees ↔ KeyAgrees database.now removals.now turns.now table (place + 1) key.now) }
{
    let mut known = vec![in alloc; None; rows_of(database, key.target).len()]?;
    for (position, row) in rows_of(database, table).as_slice().iter().enumerate() {
        let cells = row.as_slice();
        let from = dangles_from(
            database, indexes, removals, turns, table, place, key, cells, &mut known,
        );
        if !agrees_at(removals, turns.get(table, position), number, from) {
            return Ok(false);
        }
    }
    Ok(true)
}

fn keys_agree(
    alloc: Global,
    database: &Database,
    indexes: &KeyIndexes,
    removals: &Removals,
    turns: &Turns,
    table: u32,
) -> Result<bool, AllocError>
    requires table { table < length database.now.tables }
    requires indexed { AreIndexesOf database.now indexes.now }
    requires turns { AreTurns removals.now turns.now }
    ensures { IfOk result (λ agree. IsTrue agree ↔ KeysAgree database.now removals.now turns.now table) }
{
    for (place, key) in table_of(database, table)
        .foreign
        .as_slice()
        .iter()
        .enumerate()
    {
        let number = place as u64 + 1;
        if !key_agrees(
            alloc, database, indexes, removals, turns, table, place, number, key,
        )? {
            return Ok(false);
        }
    }
    Ok(true)
}

fn tables_agree(
    alloc: Global,
    database: &Database,
    indexes: &KeyIndexes,
    removals: &Removals,
    turns: &Turns,
) -> Result<bool, AllocError>
    requires indexed { AreIndexesOf database.now indexes.now }
    requires turns { AreTurns removals.now turns.now }
    ensures { IfOk result (λ agree. IsTrue agree ↔ TablesAgree database.now removals.now turns.now) }
{
    for table in 0..database.schema().tables().len() {
        if !keys_agree(alloc, database, indexes, removals, turns, table as u32)? {
            return Ok(false);
        }
    }
    Ok(true)
}

// Whether the removal is of a row that violates its primary or unique key, or has a foreign key of
// this number.
fn has_reason(database: &Database, indexes: &KeyIndexes, removal: &Removal) -> bool
    requires { AreIndexesOf database.now indexes.now }
    ensures { IsTrue result ↔ HasReason database.now removal.now }
{
    match row_of(database, removal) {
        None => false,
        Some((table, row)) => may_break(database, indexes, table, row, removal.kind),
    }
}

fn may_break(
    database: &Database,
    indexes: &KeyIndexes,
    table: u32,
    row: usize,
    kind: ViolationKind,
) -> bool
    requires table { table < length database.now.tables }
    requires row { IsRow database.now table row }
    requires indexed { AreIndexesOf database.now indexes.now }
    ensures { IsTrue result ↔ MayBreak database.now table row kind }
{
    match kind {
        ViolationKind::NullKey => has_null_key(database, table, row),
        ViolationKind::RepeatedKey => repeats_key(database, indexes, table, row),
        ViolationKind::RepeatedUnique(number) => {
            repeats_unique(database, indexes, table, row, number)
        }
        ViolationKind::Dangling(number) => has_foreign(database, table, number),
    }
}

// Whether the table has a foreign key of the number, counted from 1.
fn has_foreign(database: &Database, table: u32, number: u64) -> bool
    requires { table < length database.now.tables }
    ensures { IsTrue result ↔ ((key : TheForeignKey) × HasNumber (table_at database.now.tables table).foreign number key) }
{
    0 < number && number <= table_of(database, table).foreign.as_slice().len() as u64
}

fn have_reasons(database: &Database, indexes: &KeyIndexes, removals: &Removals) -> bool
    requires { AreIndexesOf database.now indexes.now }
    ensures { IsTrue result ↔ HaveReasons database.now removals.now }
{
    for removal in removals.as_slice() {
        if !has_reason(database, indexes, removal) {
            return false;
        }
    }
    true
}

// Whether the violation is of a primary or unique key, and its row stays.
fn stays_wrongly(database: &Database, turns: &Turns, violation: &Violation) -> bool
    ensures { IsTrue result ↔ StaysWrongly database.now turns.now violation.now }
{
    let Violation { table, row, kind } = *violation;
    if is_dangling(kind) {
        return false;
    }
    match row_of(database, &Removal { table, row, kind }) {
        None => false,
        Some((table, row)) => turns.get(table, row).is_none(),
    }
}

// Whether no row that stays violates its primary key or a unique key.
fn stay_unique(
    alloc: Global,
    database: &Database,
    indexes: &KeyIndexes,
    turns: &Turns,
) -> Result<bool, AllocError>
    requires { AreIndexesOf database.now indexes.now }
    ensures { IfOk result (λ unique. IsTrue unique ↔ StayUnique database.now turns.now) }
{
    let found = violations_by(alloc, database, indexes)?;
    for violation in found.as_slice() {
        if stays_wrongly(database, turns, violation) {
            return Ok(false);
        }
    }
    Ok(true)
}

// Whether removals with these turns are a certificate.
fn are_certificate(
    alloc: Global,
    database: &Database,
    removals: &Removals,
    turns: &Turns,
) -> Result<bool, AllocError>
    requires { AreTurns removals.now turns.now }
    ensures { IfOk result (λ holds. IsTrue holds ↔ IsCertificate database.now removals.now) }
{
    let _schema = database.schema();
    let indexes = KeyIndexes::new(alloc, database)?;
    if !have_reasons(database, &indexes, removals) {
        return Ok(false);
    }
    if !stay_unique(alloc, database, &indexes, turns)? {
        return Ok(false);
    }
    tables_agree(alloc, database, &indexes, removals, turns)
}

/// Whether the removals are a certificate: their rows exist and are distinct; each with a primary or
/// unique key as its reason violates that key; each with a foreign key has no NULL in it and no match
/// that is left when its turn comes; and no row that is left at the end violates a primary or unique
/// key, or has a foreign key without a NULL and without a match that is left. Refused for want of
/// memory alone.
///
/// With n rows and k keys in the schema it takes time in the order of n k log n.
pub fn check_removals(
    alloc: Global,
    database: &Database,
    removals: &Removals,
) -> Result<bool, AllocError>
    ensures exact { IfOk result (λ holds. IsTrue holds ↔ IsCertificate database.now removals.now) }
    ensures exist { IfOk result (λ holds. IsTrue holds → RowsExist database.now removals.now) }
{
    match turns_of(alloc, database, removals)? {
        None => Ok(false),
        Some(turns) => are_certificate(alloc, database, removals, &turns),
    }
}
