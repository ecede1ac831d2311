// The texts of cells.
ghost use Rattle.std.specs.Prelude.{◌≡◌, ◌++◌, IfOk, OnOk, Some, map};
ghost use Rattle.std.specs.List.{flat_map};
ghost use Rattle.tsv_dm.specs.Cells.{cell_text, name_cell, tabbed};

use crate::rows::TextRow;
use grids_dm::GridRow;
use names_dm::{Term, Var};
use ntriples_dm::term_text;
use std::alloc::{AllocError, Global};
use value_dm::Bytes;

// Adds a byte of a term.
fn push_byte(out: &mut Vec<u8>, byte: u8) -> Result<(), AllocError>
    ensures { OnOk result (out.new.items ≡ out.old.items ++ tabbed byte) }
{
    if byte == b'\t' {
        out.extend_from_slice(b"\\t")
    } else {
        out.push(byte)?;
        Ok(())
    }
}

// Adds the bytes of a term.
fn push_bytes(out: &mut Vec<u8>, text: &[u8]) -> Result<(), AllocError>
    ensures { OnOk result (out.new.items ≡ out.old.items ++ flat_map tabbed text.now) }
{
    for byte in text {
        push_byte(out, *byte)?;
    }
    Ok(())
}

fn term_cell(alloc: Global, term: &Term) -> Result<Bytes, AllocError>
    ensures { IfOk result (λ cell. cell ≡ cell_text (Some term.now)) }
{
    let text = term_text(alloc, term)?;
    let mut out = Vec::new(alloc);
    push_bytes(&mut out, text.as_bytes())?;
    Ok(Bytes::from_vec(out))
}

// The text of a cell.
fn cell_of(alloc: Global, cell: &Option<Term>) -> Result<Bytes, AllocError>
    ensures { IfOk result (λ text. text ≡ cell_text cell.now) }
{
    match cell {
        None => Ok(Bytes::new(alloc)),
        Some(term) => term_cell(alloc, term),
    }
}

/// The texts of a row's cells. Refused for want of memory alone.
pub fn row_of(alloc: Global, row: &GridRow) -> Result<TextRow, AllocError>
    ensures { IfOk result (λ cells. cells ≡ map cell_text row.now) }
{
    let mut cells = Vec::new(alloc);
    for cell in row.as_slice() {
        cells.push(cell_of(alloc, cell)?)?;
    }
    Ok(TextRow::new(cells))
}

// A variable with its question mark.
fn name_of(alloc: Global, name: &Var) -> Result<Bytes, AllocError>
    ensures { IfOk result (λ cell. cell ≡ name_cell name.now) }
{
    let mut out = Vec::new(alloc);
    out.push(b'?')?;
    out.extend_from_slice(name.as_str().as_bytes())?;
    Ok(Bytes::from_vec(out))
}

/// The variables of a header. Refused for want of memory alone.
pub fn names_of(alloc: Global, header: &[Var]) -> Result<TextRow, AllocError>
    ensures { IfOk result (λ cells. cells ≡ map name_cell header.now) }
{
    let mut cells = Vec::new(alloc);
    for name in header {
        cells.push(name_of(alloc, name)?)?;
    }
    Ok(TextRow::new(cells))
}
