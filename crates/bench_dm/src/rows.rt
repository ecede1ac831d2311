ghost use Rattle.std.specs.Prelude.{◌≡◌, ◌≤◌, ◌<◌, ◌++◌, [], ◌∷◌, IfOk, OnOk};
ghost use Rattle.bench_dm.specs.Rows.{boss_of, dept_of, dept_row, member_row, name_of, note_row, person_row, rows_to, size_of};

use crate::cells::{push_integer, push_null, push_numbered};
use std::alloc::{AllocError, Global};
use table_csv::Rows;
use value_dm::Cells;

fn dept_row(alloc: Global, j: u32) -> Result<Cells, AllocError>
    ensures { IfOk result (λ row. row ≡ dept_row j) }
{
    let mut row = Cells::new(alloc);
    push_integer(&mut row, j)?;
    push_numbered(alloc, &mut row, "d", j)?;
    Ok(row)
}

fn push_name(alloc: Global, row: &mut Cells, i: u32) -> Result<(), AllocError>
    ensures { OnOk result (row.new ≡ row.old ++ name_of i ∷ []) }
{
    if i % 7 == 0 {
        push_null(row)
    } else {
        push_numbered(alloc, row, "p", i)
    }
}

fn push_dept(row: &mut Cells, departments: u32, i: u32) -> Result<(), AllocError>
    requires { 0 < departments }
    ensures { OnOk result (row.new ≡ row.old ++ dept_of departments i ∷ []) }
{
    if i % 5 == 0 {
        push_null(row)
    } else {
        push_integer(row, 1 + i % departments)
    }
}

fn push_boss(row: &mut Cells, i: u32) -> Result<(), AllocError>
    ensures { OnOk result (row.new ≡ row.old ++ boss_of i ∷ []) }
{
    if i == 1 {
        push_null(row)
    } else {
        push_integer(row, i / 2)
    }
}

fn person_row(alloc: Global, departments: u32, i: u32) -> Result<Cells, AllocError>
    requires { 0 < departments }
    ensures { IfOk result (λ row. row ≡ person_row departments i) }
{
    let mut row = Cells::new(alloc);
    push_integer(&mut row, i)?;
    push_name(alloc, &mut row, i)?;
    push_dept(&mut row, departments, i)?;
    push_boss(&mut row, i)?;
    Ok(row)
}

fn member_row(alloc: Global, departments: u32, i: u32) -> Result<Cells, AllocError>
    requires some { 0 < departments }
    requires few { i ≤ 50000 }
    ensures { IfOk result (λ row. row ≡ member_row departments i) }
{
    let mut row = Cells::new(alloc);
    push_integer(&mut row, i)?;
    push_integer(&mut row, 1 + 3 * i % departments)?;
    Ok(row)
}

fn push_size(row: &mut Cells, i: u32) -> Result<(), AllocError>
    ensures { OnOk result (row.new ≡ row.old ++ size_of i ∷ []) }
{
    if i % 3 == 0 {
        push_null(row)
    } else {
        push_integer(row, i % 3)
    }
}

fn note_row(alloc: Global, i: u32) -> Result<Cells, AllocError>
    ensures { IfOk result (λ row. row ≡ note_row i) }
{
    let mut row = Cells::new(alloc);
    push_numbered(alloc, &mut row, "n", i % 10)?;
    push_size(&mut row, i)?;
    Ok(row)
}

/// The rows of Dept. Refused for want of memory alone.
pub fn dept_rows(alloc: Global, count: u32) -> Result<Rows, AllocError>
    ensures { IfOk result (λ rows. rows ≡ rows_to dept_row count) }
{
    let mut rows = Rows::new(alloc);
    for k in 0..count {
        rows.push(dept_row(alloc, k + 1)?)?;
    }
    Ok(rows)
}

/// The rows of Person. Refused for want of memory alone.
pub fn person_rows(alloc: Global, departments: u32, count: u32) -> Result<Rows, AllocError>
    requires { 0 < departments }
    ensures { IfOk result (λ rows. rows ≡ rows_to (person_row departments) count) }
{
    let mut rows = Rows::new(alloc);
    for k in 0..count {
        rows.push(person_row(alloc, departments, k + 1)?)?;
    }
    Ok(rows)
}

/// The rows of Member. Refused for want of memory alone.
pub fn member_rows(alloc: Global, departments: u32, count: u32) -> Result<Rows, AllocError>
    requires some { 0 < departments }
    requires few { count ≤ 50000 }
    ensures { IfOk result (λ rows. rows ≡ rows_to (member_row departments) count) }
{
    let mut rows = Rows::new(alloc);
    for k in 0..count {
        rows.push(member_row(alloc, departments, k + 1)?)?;
    }
    Ok(rows)
}

/// The rows of Note. Refused for want of memory alone.
pub fn note_rows(alloc: Global, count: u32) -> Result<Rows, AllocError>
    ensures { IfOk result (λ rows. rows ≡ rows_to note_row count) }
{
    let mut rows = Rows::new(alloc);
    for k in 0..count {
        rows.push(note_row(alloc, k + 1)?)?;
    }
    Ok(rows)
}
