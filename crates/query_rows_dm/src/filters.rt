// The rows that have a number under a variable, and those that have another.
ghost use Rattle.std.specs.Prelude.{◌≡◌, ◌≢◌, ◌==◌, ◌↔◌, ℕ, List, IfOk, not, map, replicate};
ghost use Rattle.lanes_dm.specs.Flags.{flag};
ghost use Rattle.solutions_dm.specs.Columns.{number_at};
ghost use Rattle.solutions_dm.specs.Table.{HasRow};
ghost use Rattle.query_rows_dm.specs.Operators.{Marks};

use lanes_dm::{mask_eq, mask_ne};
use names_dm::Var;
use solutions_dm::{Solutions, keep};
use std::alloc::{AllocError, Global};

// One flag for all rows.
fn filled(alloc: Global, rows: usize, value: bool) -> Result<Vec<u8>, AllocError>
    ensures { IfOk result (λ mask. mask.items ≡ replicate rows (flag value)) }
{
    vec![in alloc; u8::from(value); rows]
}

fn equal(alloc: Global, numbers: &[u32], id: u32) -> Result<Vec<u8>, AllocError>
    ensures { IfOk result (λ mask. mask.items ≡ map (λ x. flag (x == id)) numbers.now) }
{
    let mut mask = vec![in alloc; 0u8; numbers.len()]?;
    mask_eq(numbers, id, &mut mask);
    Ok(mask)
}

fn unequal(alloc: Global, numbers: &[u32], id: u32) -> Result<Vec<u8>, AllocError>
    ensures { IfOk result (λ mask. mask.items ≡ map (λ x. flag (not (x == id))) numbers.now) }
{
    let mut mask = vec![in alloc; 0u8; numbers.len()]?;
    mask_ne(numbers, id, &mut mask);
    Ok(mask)
}

// Marks the rows with the number. A variable without a column has 0.
fn equal_rows(alloc: Global, rows: &Solutions, var: &Var, id: u32) -> Result<Vec<u8>, AllocError>
    ensures { IfOk result (λ mask. Marks rows.now.rows (λ i. number_at rows.now.columns i var.now ≡ id) mask.items) }
{
    match rows.column(var) {
        None => filled(alloc, rows.len(), id == 0),
        Some(numbers) => equal(alloc, numbers, id),
    }
}

// Marks the rows with another number.
fn unequal_rows(alloc: Global, rows: &Solutions, var: &Var, id: u32) -> Result<Vec<u8>, AllocError>
    ensures { IfOk result (λ mask. Marks rows.now.rows (λ i. number_at rows.now.columns i var.now ≢ id) mask.items) }
{
    match rows.column(var) {
        None => filled(alloc, rows.len(), id != 0),
        Some(numbers) => unequal(alloc, numbers, id),
    }
}

/// The rows with the number under the variable. Refused for want of memory alone.
pub fn with_number(
    alloc: Global,
    rows: &Solutions,
    var: &Var,
    id: u32,
) -> Result<Solutions, AllocError>
    ensures { IfOk result (λ s. (m : List ℕ → ℕ) → HasRow s m ↔ (HasRow rows.now m × (m var.now ≡ id))) }
{
    let mask = equal_rows(alloc, rows, var, id)?;
    keep(alloc, rows, mask.as_slice())
}

/// The rows with another number under the variable. Refused for want of memory alone.
pub fn without_number(
    alloc: Global,
    rows: &Solutions,
    var: &Var,
    id: u32,
) -> Result<Solutions, AllocError>
    ensures { IfOk result (λ s. (m : List ℕ → ℕ) → HasRow s m ↔ (HasRow rows.now m × (m var.now ≢ id))) }
{
    let mask = unequal_rows(alloc, rows, var, id)?;
    keep(alloc, rows, mask.as_slice())
}
