ghost use Rattle.std.specs.Prelude.{◌≡◌, ◌<◌, ℕ, None, IfNone, IfOk, IfSome, IsTrue, OnOk, false, length};
ghost use Rattle.clean_dm.specs.Kept.{RowsExist};
ghost use Rattle.clean_dm.specs.Parts.{IsRow};
ghost use Rattle.clean_dm.specs.Removing.{IsCertificate, IsOf};
ghost use Rattle.clean_dm.specs.Turns.{AreTurns, CannotTake, HasTaken, TakesTurn, row_turn};

use crate::removal::{Removal, Removals};
use keys_dm::rows_of;
use std::alloc::{AllocError, Global};
use std::collections::BTreeMap;
use table_csv::Database;

/// The turn of each row that is removed: the place of its removal in the list, counted from 0.
#[derive(Drop)]
pub struct Turns {
    turns: BTreeMap<(u32, usize), usize>,
}

impl Turns {
    /// No row is removed. Takes no memory.
    pub fn new(alloc: Global) -> Turns
        ensures { (t i : ℕ) → row_turn result t i ≡ None }
    {
        Turns {
            turns: BTreeMap::new(alloc),
        }
    }

    /// The turn of the row.
    pub fn get(&self, table: u32, row: usize) -> Option<usize>
        ensures { result ≡ row_turn self.now table row }
    {
        self.turns.get(&(table, row)).copied()
    }

    fn insert(&mut self, table: u32, row: usize, turn: usize) -> Result<(), AllocError>
        ensures { OnOk result (TakesTurn self.old self.new table row turn) }
    {
        self.turns.insert((table, row), turn)?;
        Ok(())
    }
}

/// The row of a removal by its table's place and its own, counted from 0, where there is such a row.
pub fn row_of(database: &Database, removal: &Removal) -> Option<(u32, usize)>
    ensures some { IfSome result (λ row. IsOf row.0 row.1 removal.now × (row.0 < length database.now.tables) × IsRow database.now row.0 row.1) }
    ensures none { IfNone result ((t i : ℕ) → IsOf t i removal.now → ¬ IsRow database.now t i) }
{
    if removal.table == 0 || removal.row == 0 {
        return None;
    }
    let (table, row) = (removal.table - 1, removal.row - 1);
    if table >= database.schema().tables().len() as u64 {
        return None;
    }
    let table = table as u32;
    if row >= rows_of(database, table).len() as u64 {
        return None;
    }
    Some((table, row as usize))
}

// Gives the row of the removal the turn. False where there is no such row, or it has one.
fn take_turn(
    database: &Database,
    removal: &Removal,
    turn: usize,
    turns: &mut Turns,
) -> Result<bool, AllocError>
    ensures taken { IfOk result (λ taken. IsTrue taken → HasTaken database.now removal.now turns.old turns.new turn) }
    ensures refused { IfOk result (λ taken. taken ≡ false → CannotTake database.now removal.now turns.old) }
{
    match row_of(database, removal) {
        None => Ok(false),
        Some((table, row)) => match turns.get(table, row) {
            Some(_) => Ok(false),
            None => {
                turns.insert(table, row, turn)?;
                Ok(true)
            }
        },
    }
}

/// The turns of all rows that are removed. None where a removal is of no row, or of a row that was
/// removed before.
pub fn turns_of(
    alloc: Global,
    database: &Database,
    removals: &Removals,
) -> Result<Option<Turns>, AllocError>
    ensures some { IfOk result (λ found. IfSome found (λ turns. AreTurns removals.now turns)) }
    ensures exist { IfOk result (λ found. IfSome found (λ _. RowsExist database.now removals.now)) }
    ensures none { IfOk result (λ found. IfNone found (¬ IsCertificate database.now removals.now)) }
{
    let mut turns = Turns::new(alloc);
    for (turn, removal) in removals.as_slice().iter().enumerate() {
        if !take_turn(database, removal, turn, &mut turns)? {
            return Ok(None);
        }
    }
    Ok(Some(turns))
}
