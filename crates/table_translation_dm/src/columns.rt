// The columns of a table that are certain, and the others.
ghost use Rattle.std.specs.Prelude.{◌≡◌, ◌⊎◌, ◌↔◌, ◌<◌, ℕ, List, Some, true, IfOk, IsTrue, length};
ghost use Rattle.members_dm.specs.Membership.{IsIn, NoRepeats};
ghost use Rattle.schema_dm.specs.Naming.{column_names, name_at};
ghost use Rattle.algebra_dm.specs.Certain.{IsCertainColumn};
ghost use Rattle.table_translation_dm.specs.Parts.{AreParted};

use algebra_dm::Mode;
use schema_dm::{Places, Table};
use std::alloc::{AllocError, Global};
use value_dm::{Names, TryCopy};

/// The names of a table's columns in declared order, those that are certain apart from the others.
#[derive(Drop)]
pub struct Parted {
    pub certain: Names,
    pub others: Names,
}

// Whether the place is one of the places.
fn is_among(places: &Places, place: usize) -> bool
    ensures { IsTrue result ↔ IsIn place places.now }
{
    places
        .as_slice()
        .iter()
        .any(|other| *other as usize == place)
}

// Whether the column at the place belongs to the primary key.
fn is_of_key(table: &Table, place: usize) -> bool
    ensures { IsTrue result ↔ ((places : List ℕ) × (table.now.primary ≡ Some places) × IsIn place places) }
{
    match &table.primary {
        None => false,
        Some(places) => is_among(places, place),
    }
}

// Whether the column at the place is certain.
fn is_certain(mode: Mode, table: &Table, place: usize) -> bool
    requires place { place < length table.now.columns }
    requires once { NoRepeats (column_names table.now.columns) }
    ensures { IsTrue result ↔ IsCertainColumn mode table.now (name_at table.now.columns place) }
{
    let not_null = table.columns.as_slice()[place].not_null;
    match mode {
        Mode::Map => either(not_null, is_of_key(table, place)),
        Mode::MapKeys => not_null,
    }
}

fn either(first: bool, second: bool) -> bool
    ensures { IsTrue result ↔ ((first ≡ true) ⊎ (second ≡ true)) }
{
    first | second
}

/// The columns' names, the certain ones apart. Refused for want of memory alone.
pub fn parted_columns(alloc: Global, mode: Mode, table: &Table) -> Result<Parted, AllocError>
    requires { NoRepeats (column_names table.now.columns) }
    ensures { IfOk result (AreParted mode table.now) }
{
    let columns = table.columns.as_slice();
    let mut certain = Names::new(alloc);
    let mut others = Names::new(alloc);
    for place in 0..columns.len() {
        let name = columns[place].name.copy(alloc)?;
        if is_certain(mode, table, place) {
            certain.push(name)?;
        } else {
            others.push(name)?;
        }
    }
    Ok(Parted { certain, others })
}
