// Columns under other names.
ghost use Rattle.std.specs.Prelude.{◌≡◌, ◌<◌, ◌↔◌, ℕ, List, IfOk, map};
ghost use Rattle.solutions_dm.specs.Columns.{number_at};
ghost use Rattle.solutions_dm.specs.Selects.{AreTargetsApart, selected, selected_column};
ghost use Rattle.solutions_dm.specs.Table.{HasRow, numbers_in};

use crate::columns::Column;
use crate::numbers::add_numbers;
use crate::solutions::Solutions;
use names_dm::Var;
use std::alloc::{AllocError, Global};
use value_dm::{Sequence, TryCopy};

/// A variable and its new name.
#[derive(Drop)]
pub struct Rename {
    pub from: Var,
    pub to: Var,
}

impl TryCopy for Rename {
    fn copy(&self, alloc: Global) -> Result<Rename, AllocError> {
        Ok(Rename {
            from: self.from.copy(alloc)?,
            to: self.to.copy(alloc)?,
        })
    }
}

/// Renames in order.
pub type Renames = Sequence<Rename>;

// The numbers of a variable in all rows.
fn numbers_of(alloc: Global, rows: &Solutions, name: &Var) -> Result<Sequence<u32>, AllocError>
    ensures { IfOk result (λ numbers. numbers ≡ numbers_in rows.now name.now) }
{
    let mut numbers = Sequence::new(alloc);
    add_numbers(&mut numbers, rows, name)?;
    Ok(numbers)
}

// The columns under their new names.
fn selected_columns(
    alloc: Global,
    rows: &Solutions,
    renames: &[Rename],
) -> Result<Sequence<Column>, AllocError>
    ensures { IfOk result (λ made. made ≡ map (selected_column rows.now) renames.now) }
{
    let mut made = Sequence::new(alloc);
    for rename in renames {
        made.push(Column {
            name: rename.to.copy(alloc)?,
            numbers: numbers_of(alloc, rows, &rename.from)?,
        })?;
    }
    Ok(made)
}

/// For each row the mapping that binds `to` to what the row binds `from` to, for each rename, and nothing else. No two
/// renames have one `to`.
pub fn select(alloc: Global, rows: &Solutions, columns: &Renames) -> Result<Solutions, AllocError>
    requires { AreTargetsApart columns.now }
    ensures { IfOk result (λ s. (m : List ℕ → ℕ) → HasRow s m ↔ ((i : ℕ) × (i < rows.now.rows) × ((x : List ℕ) → m x ≡ selected columns.now (number_at rows.now.columns i) x))) }
{
    let made = selected_columns(alloc, rows, columns.as_slice())?;
    let count = rows.len();
    Ok(Solutions {
        columns: made,
        rows: count,
    })
}
