// The numbers of one variable in all rows, and the variables.
ghost use Rattle.std.specs.Prelude.{◌≡◌, ◌++◌, IfOk, OnOk, map};
ghost use Rattle.members_dm.specs.InOrder.{positions_below};
ghost use Rattle.solutions_dm.specs.Columns.{AreApart, names_of};
ghost use Rattle.solutions_dm.specs.Table.{numbers_in};

use crate::solutions::Solutions;
use names_dm::Var;
use std::alloc::{AllocError, Global};
use value_dm::{Sequence, TryCopy};

// The variables that have a column, in the order of the columns.
pub fn all_names(alloc: Global, rows: &Solutions) -> Result<Sequence<Var>, AllocError>
    ensures names { IfOk result (λ names. names ≡ names_of rows.now.columns) }
    ensures apart { IfOk result (λ _. AreApart rows.now.columns) }
{
    let mut names = Sequence::new(alloc);
    for column in rows.columns.as_slice() {
        names.push(column.name.copy(alloc)?)?;
    }
    Ok(names)
}

// Adds a 0 for each row.
fn add_unbound(numbers: &mut Sequence<u32>, rows: usize) -> Result<(), AllocError>
    ensures { OnOk result (numbers.new ≡ numbers.old ++ map (λ _. 0) (positions_below rows)) }
{
    for row in 0..rows {
        numbers.push(0)?;
    }
    Ok(())
}

// Adds the numbers in order.
fn add_column(numbers: &mut Sequence<u32>, column: &[u32]) -> Result<(), AllocError>
    ensures { OnOk result (numbers.new ≡ numbers.old ++ column.now) }
{
    for number in column {
        numbers.push(*number)?;
    }
    Ok(())
}

// Adds the numbers of a variable in all rows.
pub fn add_numbers(
    numbers: &mut Sequence<u32>,
    rows: &Solutions,
    name: &Var,
) -> Result<(), AllocError>
    ensures { OnOk result (numbers.new ≡ numbers.old ++ numbers_in rows.now name.now) }
{
    match rows.column(name) {
        None => add_unbound(numbers, rows.len()),
        Some(column) => add_column(numbers, column),
    }
}
