// Rows at some places.
ghost use Rattle.std.specs.Prelude.{◌≡◌, ◌<◌, All, IfOk, length, map, slice_index};
ghost use Rattle.solutions_dm.specs.Columns.{AreApart};
ghost use Rattle.solutions_dm.specs.Picks.{IsPicked, picked_column};

use crate::columns::Column;
use crate::solutions::Solutions;
use std::alloc::{AllocError, Global};
use value_dm::{Sequence, TryCopy};

// The numbers at some places, in the order of these.
fn picked_numbers(
    alloc: Global,
    numbers: &[u32],
    places: &[usize],
) -> Result<Sequence<u32>, AllocError>
    requires { All (λ i. i < length numbers.now) places.now }
    ensures { IfOk result (λ picked. picked ≡ map (slice_index numbers.now) places.now) }
{
    let mut picked = Sequence::new(alloc);
    for place in places {
        picked.push(numbers[*place])?;
    }
    Ok(picked)
}

// The columns at some places.
fn picked_columns(
    alloc: Global,
    rows: &Solutions,
    places: &[usize],
) -> Result<Sequence<Column>, AllocError>
    requires { All (λ i. i < rows.now.rows) places.now }
    ensures columns { IfOk result (λ picked. picked ≡ map (picked_column places.now) rows.now.columns) }
    ensures apart { IfOk result (λ _. AreApart rows.now.columns) }
{
    let mut picked = Sequence::new(alloc);
    for column in rows.columns.as_slice() {
        picked.push(Column {
            name: column.name.copy(alloc)?,
            numbers: picked_numbers(alloc, column.numbers.as_slice(), places)?,
        })?;
    }
    Ok(picked)
}

// The rows at some places, in the order of these.
pub fn picked(alloc: Global, rows: &Solutions, places: &[usize]) -> Result<Solutions, AllocError>
    requires { All (λ i. i < rows.now.rows) places.now }
    ensures { IfOk result (λ s. IsPicked rows.now places.now s) }
{
    let columns = picked_columns(alloc, rows, places)?;
    Ok(Solutions {
        columns,
        rows: places.len(),
    })
}
