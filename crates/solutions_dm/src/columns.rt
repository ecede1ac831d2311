ghost use Rattle.std.specs.Prelude.{◌≡◌, ◌<◌, length, slice_index};
ghost use Rattle.solutions_dm.specs.Columns as spec;
ghost use Rattle.solutions_dm.specs.Columns.{HaveRows, IsColumnOf, compatible};

use names_dm::Var;
use std::alloc::{AllocError, Global};
use value_dm::{Sequence, TryCopy, same};

/// The numbers of a variable, one for each row, where 0 is unbound.
#[derive(Drop)]
pub struct Column {
    pub name: Var,
    pub numbers: Sequence<u32>,
}

impl TryCopy for Column {
    fn copy(&self, alloc: Global) -> Result<Column, AllocError> {
        Ok(Column {
            name: self.name.copy(alloc)?,
            numbers: self.numbers.copy(alloc)?,
        })
    }
}

// The number of a variable in a row, 0 where it has no column.
pub fn number_at(columns: &[Column], rows: usize, row: usize, name: &Var) -> u32
    requires in_range { row < rows }
    requires filled { HaveRows columns.now rows }
    ensures { result ≡ spec.number_at columns.now row name.now }
{
    match columns {
        [] => 0,
        [first, rest @ ..] => {
            if same(&first.name, name) {
                first.numbers.as_slice()[row]
            } else {
                number_at(rest, rows, row, name)
            }
        }
    }
}

// The numbers of a variable, None where it has no column.
pub fn column_of<'a>(columns: &'a [Column], name: &Var) -> Option<&'a [u32]>
    ensures { IsColumnOf columns.now name.now result }
{
    match columns {
        [] => None,
        [first, rest @ ..] => {
            if same(&first.name, name) {
                Some(first.numbers.as_slice())
            } else {
                column_of(rest, name)
            }
        }
    }
}

// Whether two rows agree on each variable that both bind.
pub fn are_compatible(
    left: &[Column],
    left_rows: usize,
    i: usize,
    right: &[Column],
    right_rows: usize,
    j: usize,
) -> bool
    requires left_row { i < left_rows }
    requires left_filled { HaveRows left.now left_rows }
    requires right_row { j < right_rows }
    requires right_filled { HaveRows right.now right_rows }
    ensures { result ≡ compatible left.now i right.now j }
{
    match left {
        [] => true,
        [first, rest @ ..] => {
            let a = first.numbers.as_slice()[i];
            let b = number_at(right, right_rows, j, &first.name);
            is_same_if_bound(a, b) && are_compatible(rest, left_rows, i, right, right_rows, j)
        }
    }
}

// Whether two numbers are one where neither is 0.
fn is_same_if_bound(a: u32, b: u32) -> bool
    ensures { result ≡ spec.same_if_bound a b }
{
    a == 0 || b == 0 || a == b
}
