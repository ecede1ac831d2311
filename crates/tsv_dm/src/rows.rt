// Rows of cells' texts, and their order.
ghost use Rattle.std.specs.Prelude.{◌≡◌, ◌++◌, ◌∷◌, OnOk};
ghost use Rattle.std.specs.List.{flat_map};
ghost use Rattle.tsv_dm.specs.Lines.{AreRising, line};

use std::alloc::AllocError;
use std::cmp::Ordering;
use std::marker::Model;
use value_dm::Bytes;

/// The texts of the cells of a row. Rows are ordered by the list of their cells, and cells by their bytes.
#[derive(Drop)]
pub struct TextRow {
    cells: Vec<Bytes>,
}

impl Model for TextRow {
    ghost use Rattle.std.specs.Prelude.{List, ℕ};

    ghost Value = { List (List ℕ) };

    ghost view = { λ row. row.cells.items };
}

impl TextRow {
    /// The row of these cells. Takes no memory.
    pub fn new(cells: Vec<Bytes>) -> TextRow
        ensures { result ≡ cells.items }
    {
        TextRow { cells }
    }

    /// The cells in order.
    pub fn as_slice(&self) -> &[Bytes]
        ensures { result.now ≡ self.now }
    {
        self.cells.as_slice()
    }
}

impl PartialEq for TextRow {
    ghost use Rattle.std.specs.Prelude.{nat_eq};
    ghost use Rattle.std.specs.Cmp.{partial_equiv_from_equiv};
    ghost use Rattle.std.specs.Cmp.Lexicographic.{pointwise, lists_equiv, nat_list_eq_equiv};

    ghost eq = { pointwise (pointwise nat_eq) };

    ghost laws = { partial_equiv_from_equiv (lists_equiv nat_list_eq_equiv) };

    fn eq(&self, other: &TextRow) -> bool {
        self.cells == other.cells
    }
}

impl Eq for TextRow {
    ghost use Rattle.std.specs.Cmp.Lexicographic.{lists_equiv, nat_list_eq_equiv};

    ghost laws = { lists_equiv nat_list_eq_equiv };
}

impl Ord for TextRow {
    ghost use Rattle.std.specs.Ordering.{nat_cmp};
    ghost use Rattle.std.specs.Cmp.Lexicographic.{slice_cmp};
    ghost use Rattle.std.specs.Cmp.Rules.{comparing};
    ghost use Rattle.std.proofs.Common.{rules};
    ghost use Rattle.tsv_dm.specs.Lines.{rows_tie};

    ghost cmp = { slice_cmp (slice_cmp nat_cmp) };

    ghost total = { Prim.search (comparing, rules) };

    ghost matches_partial_cmp = { Prim.search (comparing, rules) };

    ghost matches_eq = { rows_tie };

    fn cmp(&self, other: &TextRow) -> Ordering {
        self.cells.cmp(&other.cells)
    }
}

impl PartialOrd for TextRow {
    ghost use Rattle.std.specs.Ordering.{as_partial_cmp, nat_cmp};
    ghost use Rattle.std.specs.Cmp.Lexicographic.{slice_cmp};
    ghost use Rattle.std.specs.Cmp.Rules.{comparing};
    ghost use Rattle.std.specs.Cmp.{partial_order_from_own_ties};
    ghost use Rattle.std.proofs.Common.{rules};
    ghost use Rattle.tsv_dm.specs.Lines.{rows_tie};

    ghost partial_cmp = { as_partial_cmp (slice_cmp (slice_cmp nat_cmp)) };

    ghost laws = { partial_order_from_own_ties (Prim.search (comparing, rules)) rows_tie };

    fn partial_cmp(&self, other: &TextRow) -> Option<Ordering> {
        Some(self.cmp(other))
    }
}

/// The rows in their order, each once.
pub fn rising(rows: Vec<TextRow>) -> Vec<TextRow>
    ensures { AreRising rows.items result.items }
{
    let mut rows = rows;
    rows.sort_unstable();
    rows.dedup();
    rows
}

/// Adds the line of a row: its cells joined by tabs, and LF.
pub fn push_line(out: &mut Vec<u8>, row: &TextRow) -> Result<(), AllocError>
    ensures { OnOk result (out.new.items ≡ out.old.items ++ line row.now) }
{
    if let Some((first, others)) = row.as_slice().split_first() {
        out.extend_from_slice(first.as_slice())?;
        push_others(out, others)?;
    }
    out.push(b'\n')?;
    Ok(())
}

// Adds cells, each behind a tab.
fn push_others(out: &mut Vec<u8>, cells: &[Bytes]) -> Result<(), AllocError>
    ensures { OnOk result (out.new.items ≡ out.old.items ++ flat_map (λ cell. 9 ∷ cell) cells.now) }
{
    for cell in cells {
        push_other(out, cell)?;
    }
    Ok(())
}

fn push_other(out: &mut Vec<u8>, cell: &Bytes) -> Result<(), AllocError>
    ensures { OnOk result (out.new.items ≡ out.old.items ++ 9 ∷ cell.now) }
{
    out.push(b'\t')?;
    out.extend_from_slice(cell.as_slice())
}
