// The unions of pairs of rows.
ghost use Rattle.std.specs.Prelude.{◌≡◌, All, IfOk, map};
ghost use Rattle.solutions_dm.specs.Joint.{built, joint};
ghost use Rattle.solutions_dm.specs.Merge as spec;
ghost use Rattle.solutions_dm.specs.Merge.{AreInRange, HasPlace, IsMerge, merged, number_in};
ghost use Rattle.solutions_dm.specs.declared.row_pair.RowPair.{RowPair as ThePair};

use crate::columns::Column;
use crate::joint::joint_names;
use crate::row_pair::{PairList, RowPair};
use crate::solutions::Solutions;
use names_dm::Var;
use std::alloc::{AllocError, Global};
use value_dm::{Sequence, TryCopy};

// The first number, or the second where the first is 0.
fn first_bound(a: u32, b: u32) -> u32
    ensures { result ≡ spec.first_bound a b }
{
    if a == 0 { b } else { a }
}

// The number at a place, 0 where there is no column.
fn number_in(column: Option<&[u32]>, row: usize) -> u32
    requires { HasPlace column row }
    ensures { result ≡ number_in column.entry row }
{
    match column {
        None => 0,
        Some(numbers) => numbers[row],
    }
}

// The number of each pair that is bound, the left one where both are.
fn merged_numbers(
    alloc: Global,
    left: Option<&[u32]>,
    right: Option<&[u32]>,
    pairs: &[RowPair],
) -> Result<Sequence<u32>, AllocError>
    requires left_places { All (λ (p : ThePair). HasPlace left p.left) pairs.now }
    requires right_places { All (λ (p : ThePair). HasPlace right p.right) pairs.now }
    ensures { IfOk result (λ numbers. numbers ≡ map (λ (p : ThePair). spec.first_bound (number_in left.entry p.left) (number_in right.entry p.right)) pairs.now) }
{
    let mut numbers = Sequence::new(alloc);
    for pair in pairs {
        let a = number_in(left, pair.left as usize);
        let b = number_in(right, pair.right as usize);
        numbers.push(first_bound(a, b))?;
    }
    Ok(numbers)
}

// The numbers of a variable in the union of each pair.
fn merged_column(
    alloc: Global,
    left: &Solutions,
    right: &Solutions,
    pairs: &[RowPair],
    name: &Var,
) -> Result<Sequence<u32>, AllocError>
    requires { AreInRange left.now right.now pairs.now }
    ensures { IfOk result (λ numbers. numbers ≡ merged left.now right.now pairs.now name.now) }
{
    merged_numbers(alloc, left.column(name), right.column(name), pairs)
}

// The columns of these variables.
fn merged_columns(
    alloc: Global,
    left: &Solutions,
    right: &Solutions,
    pairs: &[RowPair],
    names: &[Var],
) -> Result<Sequence<Column>, AllocError>
    requires { AreInRange left.now right.now pairs.now }
    ensures { IfOk result (λ columns. columns ≡ built (merged left.now right.now pairs.now) names.now) }
{
    let mut columns = Sequence::new(alloc);
    for name in names {
        columns.push(Column {
            name: name.copy(alloc)?,
            numbers: merged_column(alloc, left, right, pairs, name)?,
        })?;
    }
    Ok(columns)
}

/// The union of each pair of rows, in order: it binds what either row binds, and where both bind a variable, it has the
/// number of left, which is that of right too where the rows are compatible.
pub fn merge(
    alloc: Global,
    left: &Solutions,
    right: &Solutions,
    pairs: &PairList,
) -> Result<Solutions, AllocError>
    requires { AreInRange left.now right.now pairs.now }
    ensures { IfOk result (λ s. IsMerge left.now right.now pairs.now s) }
{
    let names = joint_names(alloc, left, right)?;
    let columns = merged_columns(alloc, left, right, pairs.as_slice(), names.as_slice())?;
    Ok(Solutions {
        columns,
        rows: pairs.len(),
    })
}
