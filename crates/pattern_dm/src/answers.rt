// Solutions as rows of terms under a header.
ghost use Rattle.std.specs.Prelude.{◌≡◌, ◌<◌, ◌≤◌, IfOk, length, map};
ghost use Rattle.store_dm.specs.Terms.{term_at};
ghost use Rattle.pattern_dm.specs.Grids.{grid_of};
ghost use Rattle.pattern_dm.specs.Solved.{AreNumbers, mapping_at};

use grids_dm::{Grid, GridRow};
use names_dm::{Term, Var, Vars};
use solutions_dm::Solutions;
use std::alloc::{AllocError, Global};
use store_dm::Graph;
use value_dm::TryCopy;

// The term of a number, None for 0.
fn term_of(alloc: Global, number: u32, graph: &Graph) -> Result<Option<Term>, AllocError>
    requires { number ≤ length graph.now.terms }
    ensures { IfOk result (λ term. term ≡ term_at graph.now.terms number) }
{
    if number == 0 {
        Ok(None)
    } else {
        Ok(Some(graph.term_of(number).copy(alloc)?))
    }
}

// The term of a variable in a row.
fn cell(
    alloc: Global,
    name: &Var,
    solutions: &Solutions,
    row: usize,
    graph: &Graph,
) -> Result<Option<Term>, AllocError>
    requires row { row < solutions.now.rows }
    requires numbers { AreNumbers graph.now.terms solutions.now }
    ensures { IfOk result (λ term. term ≡ mapping_at graph.now.terms solutions.now row name.now) }
{
    match solutions.column(name) {
        None => Ok(None),
        Some(numbers) => term_of(alloc, numbers[row], graph),
    }
}

// The terms of the header's variables in a row.
fn grid_row(
    alloc: Global,
    header: &[Var],
    solutions: &Solutions,
    row: usize,
    graph: &Graph,
) -> Result<GridRow, AllocError>
    requires row { row < solutions.now.rows }
    requires numbers { AreNumbers graph.now.terms solutions.now }
    ensures { IfOk result (λ cells. cells ≡ map (mapping_at graph.now.terms solutions.now row) header.now) }
{
    let mut cells = GridRow::new(alloc);
    for name in header {
        cells.push(cell(alloc, name, solutions, row, graph)?)?;
    }
    Ok(cells)
}

/// For each row, in order, the terms of the header's variables, None where a variable is unbound or has no column. Each
/// number is 0 or a term's, as of solutions over the same graph. Refused for want of memory alone.
pub fn answer_grid(
    alloc: Global,
    header: &Vars,
    solutions: &Solutions,
    graph: &Graph,
) -> Result<Grid, AllocError>
    requires { AreNumbers graph.now.terms solutions.now }
    ensures { IfOk result (λ grid. grid ≡ grid_of graph.now.terms header.now solutions.now) }
{
    let mut grid = Grid::new(alloc);
    for row in 0..solutions.len() {
        grid.push(grid_row(alloc, header.as_slice(), solutions, row, graph)?)?;
    }
    Ok(grid)
}
