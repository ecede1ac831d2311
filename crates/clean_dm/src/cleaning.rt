ghost use Rattle.std.specs.Prelude.{◌≡◌, ◌↔◌, ℕ, List, ◌<◌, ◌≤◌, [], ◌∷◌, ◌++◌, ◌+◌, ◌-◌, IfOk, IsTrue, OnOk, length};
ghost use Rattle.table_csv.specs.Databases.{IsDatabase};
ghost use Rattle.keys_dm.specs.TableIndexes.{AreIndexesOf};
ghost use Rattle.clean_dm.specs.Kept.{RowsExist};
ghost use Rattle.clean_dm.specs.Parts.{IsLargestPart};
ghost use Rattle.clean_dm.specs.Removing.{IsCertificate, IsCleaning, IsDone, IsLeft, turn_of};
ghost use Rattle.clean_dm.specs.RowSets.{Has, Loses, set_len};
ghost use Rattle.clean_dm.specs.Working.{AreRows, IsSameState, IsUnderWay, IsWithinLimits, KeepsUnique};
ghost use Rattle.clean_dm.specs.declared.removal.Removal.{Removal as TheRemoval};

use crate::candidates::{add_referencing, all_rows};
use crate::dangling::{DanglingRow, next_dangling};
use crate::references::references_of;
use crate::removal::{Removal, Removals};
use crate::row_set::RowSet;
use keys_dm::{KeyIndexes, Violation, ViolationKind, violations_by};
use std::alloc::{AllocError, Global};
use table_csv::Database;

// The removals made so far, and the rows that are left.
#[derive(Drop)]
struct Cleaning {
    removals: Removals,
    left: RowSet,
}

// Removes a row that is left.
fn remove(
    cleaning: &mut Cleaning,
    table: u32,
    row: usize,
    kind: ViolationKind,
) -> Result<(), AllocError>
    requires there { Has cleaning.old.left table row }
    requires row { row < 4194304 }
    ensures removals { OnOk result (cleaning.new.removals ≡ cleaning.old.removals ++ (record { table = table + 1; row = row + 1; kind = kind }) ∷ []) }
    ensures left { OnOk result (Loses cleaning.old.left cleaning.new.left table row) }
    ensures fewer { OnOk result (set_len cleaning.new.left + 1 ≡ set_len cleaning.old.left) }
{
    cleaning.removals.push(Removal {
        table: u64::from(table) + 1,
        row: row as u64 + 1,
        kind,
    })?;
    cleaning.left.remove(table, row);
    Ok(())
}

// Removes the first row that dangles among those left, again and again.
fn remove_dangling(
    alloc: Global,
    database: &Database,
    indexes: &KeyIndexes,
    cleaning: &mut Cleaning,
) -> Result<(), AllocError>
    requires indexed { AreIndexesOf database.now indexes.now }
    requires way { IsUnderWay database.now cleaning.old.removals cleaning.old.left }
    requires unique { KeepsUnique database.now cleaning.old.left }
    ensures way { OnOk result (IsUnderWay database.now cleaning.new.removals cleaning.new.left) }
    ensures done { OnOk result (IsDone database.now cleaning.new.removals) }
{
    let references = references_of(alloc, database)?;
    let mut due = all_rows(alloc, database)?;
    while let Some(first) = next_dangling(database, indexes, &cleaning.left, &mut due) {
        let DanglingRow { table, row, number } = first;
        remove(cleaning, table, row, ViolationKind::Dangling(number))?;
        add_referencing(database, &references, table, row, &mut due)?;
    }
    Ok(())
}

/// Whether the reason is a foreign key.
pub fn is_dangling(kind: ViolationKind) -> bool
    ensures { IsTrue result ↔ (turn_of kind ≡ 1) }
{
    matches!(kind, ViolationKind::Dangling(_))
}

// Removes the rows that violate a primary or unique key, each with its first such violation.
fn remove_repeated(
    alloc: Global,
    database: &Database,
    indexes: &KeyIndexes,
    cleaning: &mut Cleaning,
) -> Result<(), AllocError>
    requires fits { IsDatabase database.now }
    requires indexed { AreIndexesOf database.now indexes.now }
    requires rows { AreRows database.now cleaning.old.left }
    requires way { IsUnderWay database.now cleaning.old.removals cleaning.old.left }
    ensures way { OnOk result (IsUnderWay database.now cleaning.new.removals cleaning.new.left) }
    ensures unique { OnOk result (KeepsUnique database.now cleaning.new.left) }
{
    let found = violations_by(alloc, database, indexes)?;
    for violation in found.as_slice() {
        remove_if_left(cleaning, violation)?;
    }
    Ok(())
}

// Removes a row that violates a primary or unique key, if it is left.
fn remove_if_left(cleaning: &mut Cleaning, violation: &Violation) -> Result<(), AllocError>
    requires { IsWithinLimits violation.now }
    ensures not { (turn_of violation.now.kind ≡ 0 → Has cleaning.old.left (violation.now.table - 1) (violation.now.row - 1) → ⊥) → OnOk result (IsSameState cleaning.old.removals cleaning.old.left cleaning.new.removals cleaning.new.left) }
    ensures left { turn_of violation.now.kind ≡ 0 → Has cleaning.old.left (violation.now.table - 1) (violation.now.row - 1) → OnOk result ((cleaning.new.removals ≡ cleaning.old.removals ++ (record { table = violation.now.table; row = violation.now.row; kind = violation.now.kind }) ∷ []) × Loses cleaning.old.left cleaning.new.left (violation.now.table - 1) (violation.now.row - 1)) }
{
    let Violation { table, row, kind } = *violation;
    let table_place = (table - 1) as u32;
    let row_place = (row - 1) as usize;
    if !is_dangling(kind) && cleaning.left.has(table_place, row_place) {
        remove(cleaning, table_place, row_place, kind)?;
    }
    Ok(())
}

/// The removals by which a database is cleaned: first of each row that violates its primary key or a
/// unique key, by table and row, with its first such violation; then, as long as some row that is
/// left has a foreign key without a NULL and without a match that is left, of the first such row with
/// its first such key. Refused for want of memory alone.
///
/// With n rows and k keys in the schema it takes time in the order of n k log n.
pub fn clean(alloc: Global, database: &Database) -> Result<Removals, AllocError>
    ensures cleaned { IfOk result (IsCleaning database.now) }
    ensures only { IfOk result (λ removals. (other : List TheRemoval) → IsCleaning database.now other → other ≡ removals) }
    ensures exist { IfOk result (RowsExist database.now) }
    ensures certified { IfOk result (IsCertificate database.now) }
    ensures largest { IfOk result (λ removals. IsLargestPart database.now (IsLeft removals)) }
{
    let mut cleaning = Cleaning {
        removals: Removals::new(alloc),
        left: all_rows(alloc, database)?,
    };
    let indexes = KeyIndexes::new(alloc, database)?;
    remove_repeated(alloc, database, &indexes, &mut cleaning)?;
    remove_dangling(alloc, database, &indexes, &mut cleaning)?;
    Ok(cleaning.removals)
}
