// The rows of two lists.
ghost use Rattle.std.specs.Prelude.{◌≡◌, ◌↔◌, ◌⊎◌, ℕ, List, IfOk};
ghost use Rattle.solutions_dm.specs.Joint.{built, joint, stacked};
ghost use Rattle.solutions_dm.specs.Table.{HasRow};

use crate::columns::Column;
use crate::joint::joint_names;
use crate::numbers::add_numbers;
use crate::solutions::Solutions;
use names_dm::Var;
use std::alloc::{AllocError, Global};
use value_dm::{Sequence, TryCopy};

// The numbers of a variable in all rows of left, and then in those of right.
fn stacked_numbers(
    alloc: Global,
    left: &Solutions,
    right: &Solutions,
    name: &Var,
) -> Result<Sequence<u32>, AllocError>
    ensures { IfOk result (λ numbers. numbers ≡ stacked left.now right.now name.now) }
{
    let mut numbers = Sequence::new(alloc);
    add_numbers(&mut numbers, left, name)?;
    add_numbers(&mut numbers, right, name)?;
    Ok(numbers)
}

// The columns of these variables.
fn stacked_columns(
    alloc: Global,
    left: &Solutions,
    right: &Solutions,
    names: &[Var],
) -> Result<Sequence<Column>, AllocError>
    ensures { IfOk result (λ columns. columns ≡ built (stacked left.now right.now) names.now) }
{
    let mut columns = Sequence::new(alloc);
    for name in names {
        columns.push(Column {
            name: name.copy(alloc)?,
            numbers: stacked_numbers(alloc, left, right, name)?,
        })?;
    }
    Ok(columns)
}

/// The rows of both (SPARQL 1.1 Query Language, section 18.5, Union).
pub fn union(alloc: Global, left: &Solutions, right: &Solutions) -> Result<Solutions, AllocError>
    ensures { IfOk result (λ s. (m : List ℕ → ℕ) → HasRow s m ↔ (HasRow left.now m ⊎ HasRow right.now m)) }
{
    let Some(rows) = left.rows.checked_add(right.rows) else {
        return Err(AllocError);
    };
    let names = joint_names(alloc, left, right)?;
    let columns = stacked_columns(alloc, left, right, names.as_slice())?;
    Ok(Solutions { columns, rows })
}
