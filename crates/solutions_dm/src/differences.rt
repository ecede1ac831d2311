// The difference of two lists of rows.
ghost use Rattle.std.specs.Prelude.{◌≡◌, ◌<◌, ◌↔◌, ◌++◌, ◌∷◌, [], ℕ, List, All, IfOk, OnOk, not, if◌then◌else◌};
ghost use Rattle.std.specs.List.{list_any};
ghost use Rattle.solutions_dm.specs.Columns.{HaveRows, IsFilled};
ghost use Rattle.solutions_dm.specs.Differences as spec;
ghost use Rattle.solutions_dm.specs.Keys.{AreRows, IsKeyed, key_at, rows_of};
ghost use Rattle.solutions_dm.specs.Table.{HasRow};

use crate::columns::{Column, are_compatible};
use crate::keys::{Keyed, shared_names, sorted_by_key};
use crate::picks::picked;
use crate::runs::{first_above, first_not_below};
use crate::solutions::Solutions;
use names_dm::Var;
use std::alloc::{AllocError, Global};

// Whether two rows bind a variable both.
fn share(left: &[Column], left_rows: usize, i: usize, right: &Solutions, j: usize) -> bool
    requires left_row { i < left_rows }
    requires left_filled { HaveRows left.now left_rows }
    requires right_row { j < right.now.rows }
    ensures { result ≡ spec.shares left.now i right.now.columns j }
{
    match left {
        [] => false,
        [first, rest @ ..] => {
            let a = first.numbers.as_slice()[i];
            let b = right.number(j, &first.name);
            both_bound(a, b) || share(rest, left_rows, i, right, j)
        }
    }
}

fn both_bound(a: u32, b: u32) -> bool
    ensures { result ≡ spec.both_bound a b }
{
    a != 0 && b != 0
}

// Whether a row of right takes a row of left away.
fn blocks(left: &Solutions, i: usize, right: &Solutions, j: usize) -> bool
    requires left_row { i < left.now.rows }
    requires right_row { j < right.now.rows }
    ensures { result ≡ spec.blocks left.now.columns i right.now.columns j }
{
    are_compatible(
        left.columns.as_slice(),
        left.rows,
        i,
        right.columns.as_slice(),
        right.rows,
        j,
    ) && share(left.columns.as_slice(), left.rows, i, right, j)
}

// Whether one of some rows of right takes a row of left away.
fn any_blocks(left: &Solutions, i: usize, right: &Solutions, run: &[Keyed]) -> bool
    requires left_row { i < left.now.rows }
    requires right_rows { AreRows right.now.rows run.now }
    ensures { result ≡ list_any (λ j. spec.blocks left.now.columns i right.now.columns j) (rows_of run.now) }
{
    let mut found = false;
    for one in run {
        found |= blocks(left, i, right, one.row);
    }
    found
}

// Adds a place, unless it is blocked.
fn add_unless(kept: &mut Vec<usize>, row: usize, blocked: bool) -> Result<(), AllocError>
    ensures { OnOk result (kept.new.items ≡ kept.old.items ++ (if not blocked then row ∷ [] else [])) }
{
    if !blocked {
        kept.push(row)?;
    }
    Ok(())
}

// The rows of left that no row of right takes away, from two lists of rows that are sorted by the numbers of the same
// variables, which each row binds.
fn unblocked(
    alloc: Global,
    names: &[Var],
    left: &Solutions,
    left_rows: &[Keyed],
    right: &Solutions,
    right_rows: &[Keyed],
) -> Result<Vec<usize>, AllocError>
    requires left_filled { All (IsFilled left.now.columns left.now.rows) names.now }
    requires right_filled { All (IsFilled right.now.columns right.now.rows) names.now }
    requires left_keyed { IsKeyed (key_at left.now.columns names.now) left.now.rows left_rows.now }
    requires right_keyed { IsKeyed (key_at right.now.columns names.now) right.now.rows right_rows.now }
    ensures { IfOk result (λ kept. kept.items ≡ spec.unblocked left.now.columns right.now.columns (rows_of left_rows.now) (rows_of right_rows.now)) }
{
    let mut kept = Vec::new(alloc);
    let mut start = 0;
    for one in left_rows {
        start = first_not_below(right_rows, one.key.as_slice(), start);
        let end = first_above(right_rows, one.key.as_slice(), start);
        let blocked = any_blocks(left, one.row, right, &right_rows[start..end]);
        add_unless(&mut kept, one.row, blocked)?;
    }
    Ok(kept)
}

/// The rows of left for which each row of right disagrees on a variable, or binds none that the row binds.
pub fn minus(alloc: Global, left: &Solutions, right: &Solutions) -> Result<Solutions, AllocError>
    ensures { IfOk result (λ s. (m : List ℕ → ℕ) → HasRow s m ↔ (HasRow left.now m × spec.IsLeft right.now m)) }
{
    let names = shared_names(alloc, left, right)?;
    let left_rows = sorted_by_key(alloc, left, names.as_slice())?;
    let right_rows = sorted_by_key(alloc, right, names.as_slice())?;
    let kept = unblocked(
        alloc,
        names.as_slice(),
        left,
        left_rows.as_slice(),
        right,
        right_rows.as_slice(),
    )?;
    picked(alloc, left, kept.as_slice())
}
