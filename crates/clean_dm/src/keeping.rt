ghost use Rattle.std.specs.Prelude.{◌≡◌, ◌↔◌, ℕ, ◌<◌, ◌≤◌, ◌++◌, ◌∷◌, [], if◌then◌else◌, IfOk, OnOk, length};
ghost use Rattle.members_dm.specs.Elements.{HasSome};
ghost use Rattle.members_dm.specs.Membership.{IsIn};
ghost use Rattle.members_dm.specs.Places.{IsListing};
ghost use Rattle.keys_dm.specs.Violations.{KeepsKeys};
ghost use Rattle.clean_dm.specs.Kept.{AreNumbered, AreRowsOfPart, IsKept, RowsExist, StandsIn, with_rows};
ghost use Rattle.clean_dm.specs.Parts.{IsLargestPart};
ghost use Rattle.clean_dm.specs.Removing.{IsCertificate, IsLeft, IsOf};
ghost use Rattle.clean_dm.specs.RowSets.{Has};

use crate::removal::Removals;
use crate::row_set::RowSet;
use std::alloc::{AllocError, Global};
use table_csv::{Database, Rows, RowsList};
use value_dm::{Cells, TryCopy};

// The rows that are removed.
fn gone_of(alloc: Global, removals: &Removals) -> Result<RowSet, AllocError>
    requires { AreNumbered removals.now }
    ensures { IfOk result (λ gone. (t i : ℕ) → Has gone t i ↔ HasSome (IsOf t i) removals.now) }
{
    let mut gone = RowSet::new(alloc);
    for removal in removals.as_slice() {
        gone.insert((removal.table - 1) as u32, (removal.row - 1) as usize)?;
    }
    Ok(gone)
}

fn push_if(alloc: Global, row: &Cells, holds: bool, rows: &mut Rows) -> Result<(), AllocError>
    ensures { OnOk result (rows.new ≡ rows.old ++ (if holds then row.now ∷ [] else [])) }
{
    if holds {
        rows.push(row.copy(alloc)?)?;
    }
    Ok(())
}

// The rows of the table that aren't gone, in order.
fn kept_of(
    alloc: Global,
    database: &Database,
    gone: &RowSet,
    table: u32,
) -> Result<Rows, AllocError>
    requires { table < length database.now.tables }
    ensures { IfOk result (IsListing (StandsIn database.now (IsKept gone.now) table)) }
{
    let mut kept = Rows::new(alloc);
    for (position, row) in database.rows_of(table).as_slice().iter().enumerate() {
        let is_kept = !gone.has(table, position);
        push_if(alloc, row, is_kept, &mut kept)?;
    }
    Ok(kept)
}

/// The rows that the removals leave, for each table in the order of the file. Refused for want of
/// memory alone.
pub fn kept(alloc: Global, database: &Database, removals: &Removals) -> Result<RowsList, AllocError>
    requires { RowsExist database.now removals.now }
    ensures rows { IfOk result (AreRowsOfPart database.now (IsLeft removals.now)) }
    ensures keys { IfOk result (λ rows. IsCertificate database.now removals.now → KeepsKeys (with_rows database.now rows)) }
    ensures largest { IfOk result (λ _. IsCertificate database.now removals.now → IsLargestPart database.now (IsLeft removals.now)) }
{
    let tables = database.schema().tables().len();
    let gone = gone_of(alloc, removals)?;
    let mut lists = RowsList::new(alloc);
    for table in 0..tables {
        lists.push(kept_of(alloc, database, &gone, table as u32)?)?;
    }
    Ok(lists)
}
