ghost use Rattle.std.specs.Prelude.{◌≡◌, IfOk, map};
ghost use Rattle.query_rows_dm.specs.Grids.{grid_of, term_in, term_of};

use facts_dm::literal_type;
use grids_dm::{Grid, GridRow};
use names_dm::{Literal, Term};
use std::alloc::{AllocError, Global};
use table_csv::Rows;
use value_dm::{Cell, Text, Value, lexical};

// The literal of a value.
fn term_of(alloc: Global, value: &Value) -> Result<Term, AllocError>
    ensures { IfOk result (λ term. term ≡ term_of value.now) }
{
    let text = Text::from_string(lexical(alloc, value)?);
    let kind = literal_type(alloc, value.kind())?;
    Ok(Term::Literal(Literal::new(text, kind)))
}

fn term_in(alloc: Global, cell: &Cell) -> Result<Option<Term>, AllocError>
    ensures { IfOk result (λ term. term ≡ term_in cell.now) }
{
    match cell {
        None => Ok(None),
        Some(value) => Ok(Some(term_of(alloc, value)?)),
    }
}

fn grid_row(alloc: Global, cells: &[Cell]) -> Result<GridRow, AllocError>
    ensures { IfOk result (λ row. row ≡ map term_in cells.now) }
{
    let mut row = GridRow::new(alloc);
    for cell in cells {
        row.push(term_in(alloc, cell)?)?;
    }
    Ok(row)
}

/// The rows as terms, in their order: each value as its natural literal (R2RML, section 10.2), and None for NULL. Refused
/// for want of memory alone.
pub fn grid(alloc: Global, rows: &Rows) -> Result<Grid, AllocError>
    ensures { IfOk result (λ grid. grid ≡ grid_of rows.now) }
{
    let mut grid = Grid::new(alloc);
    for row in rows.as_slice() {
        grid.push(grid_row(alloc, row.as_slice())?)?;
    }
    Ok(grid)
}
