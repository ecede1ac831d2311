ghost use Rattle.std.specs.Prelude.{◌≡◌, ◌++◌, IfOk, OnOk, map};
ghost use Rattle.std.specs.List.{flat_map};
ghost use Rattle.tsv_dm.specs.Cells.{cell_text};
ghost use Rattle.tsv_dm.specs.Lines.{IsTsv, line};

use crate::cells::{names_of, row_of};
use crate::rows::{TextRow, push_line, rising};
use grids_dm::Grid;
use names_dm::Vars;
use std::alloc::{AllocError, Global};

// The texts of the rows.
fn rows_of(alloc: Global, grid: &Grid) -> Result<Vec<TextRow>, AllocError>
    ensures { IfOk result (λ rows. rows.items ≡ map (map cell_text) grid.now) }
{
    let mut rows = Vec::new(alloc);
    for row in grid.as_slice() {
        rows.push(row_of(alloc, row)?)?;
    }
    Ok(rows)
}

// Adds the lines of rows.
fn push_lines(out: &mut Vec<u8>, rows: &[TextRow]) -> Result<(), AllocError>
    ensures { OnOk result (out.new.items ≡ out.old.items ++ flat_map line rows.now) }
{
    for row in rows {
        push_line(out, row)?;
    }
    Ok(())
}

/// Rows of terms under their variables as tab separated values, in UTF-8 (after SPARQL 1.1 Query Results CSV and TSV Formats,
/// section 4). The first line has the variables, each behind a question mark, and each further line a row; a row that stands
/// more than once is written once, and rows are in the order of the list of their cells, cells compared by their bytes. A
/// cell is the written form of its term, a tab in it as `\t`, and nothing where there is no term. Cells have a tab between
/// them, and each line ends with LF. Refused for want of memory alone.
pub fn tsv(alloc: Global, header: &Vars, grid: &Grid) -> Result<Vec<u8>, AllocError>
    ensures { IfOk result (λ text. IsTsv header.now grid.now text.items) }
{
    let names = names_of(alloc, header.as_slice())?;
    let rows = rising(rows_of(alloc, grid)?);
    let mut out = Vec::new(alloc);
    push_line(&mut out, &names)?;
    push_lines(&mut out, rows.as_slice())?;
    Ok(out)
}
