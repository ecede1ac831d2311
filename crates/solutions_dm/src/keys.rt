// Rows under keys: the numbers of some variables, in the order of these.
ghost use Rattle.std.specs.Prelude.{◌≡◌, ◌<◌, IfOk, All, IsTrue, length, map};
ghost use Rattle.solutions_dm.specs.Columns.{AreApart, IsFilled};
ghost use Rattle.solutions_dm.specs.Keys.{IsKeyed, ArePlaces, key_at};
ghost use Rattle.members_dm.specs.InOrder.{positions_below};

use crate::columns::column_of;
use crate::solutions::Solutions;
use lanes_dm::has_zero;
use names_dm::Var;
use std::alloc::{AllocError, Global};
use value_dm::{Sequence, TryCopy};

/// The place of a row, under its key.
#[derive(PartialEq, Eq, PartialOrd, Ord, Drop)]
pub struct Keyed {
    pub key: Vec<u32>,
    pub row: usize,
}

// Whether a variable has a column in which no row is 0.
fn is_filled(rows: &Solutions, name: &Var) -> bool
    ensures { IsTrue result → IsFilled rows.now.columns rows.now.rows name.now }
{
    match column_of(rows.columns.as_slice(), name) {
        None => false,
        Some(numbers) => !has_zero(numbers),
    }
}

// The variables that each row of both sides binds.
pub fn shared_names(
    alloc: Global,
    left: &Solutions,
    right: &Solutions,
) -> Result<Sequence<Var>, AllocError>
    ensures left { IfOk result (λ names. All (IsFilled left.now.columns left.now.rows) names) }
    ensures right { IfOk result (λ names. All (IsFilled right.now.columns right.now.rows) names) }
    ensures apart { IfOk result (λ _. AreApart left.now.columns) }
{
    let mut names = Sequence::new(alloc);
    for column in left.columns.as_slice() {
        if is_filled(left, &column.name) && is_filled(right, &column.name) {
            names.push(column.name.copy(alloc)?)?;
        }
    }
    Ok(names)
}

// The numbers of a row under some variables.
fn key_of(
    alloc: Global,
    rows: &Solutions,
    row: usize,
    names: &[Var],
) -> Result<Vec<u32>, AllocError>
    requires { row < rows.now.rows }
    ensures { IfOk result (λ key. key.items ≡ key_at rows.now.columns names.now row) }
{
    let mut key = Vec::new(alloc);
    for name in names {
        key.push(rows.number(row, name))?;
    }
    Ok(key)
}

// The rows in order, each under its key.
fn keyed_in_order(alloc: Global, rows: &Solutions, names: &[Var]) -> Result<Vec<Keyed>, AllocError>
    ensures { IfOk result (λ made. ArePlaces (key_at rows.now.columns names.now) rows.now.rows made.items) }
{
    let mut made = Vec::new(alloc);
    for row in 0..rows.rows {
        let key = key_of(alloc, rows, row, names)?;
        made.push(Keyed { key, row })?;
    }
    Ok(made)
}

/// The rows, each under its key, sorted by their keys.
pub fn sorted_by_key(
    alloc: Global,
    rows: &Solutions,
    names: &[Var],
) -> Result<Vec<Keyed>, AllocError>
    ensures { IfOk result (λ made. IsKeyed (key_at rows.now.columns names.now) rows.now.rows made.items) }
{
    let mut made = keyed_in_order(alloc, rows, names)?;
    made.sort_unstable();
    Ok(made)
}
