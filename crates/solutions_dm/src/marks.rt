// Rows that a mask keeps, and rows that stand in no pair.
ghost use Rattle.std.specs.Prelude.{◌≡◌, ◌≢◌, ◌<◌, ◌↔◌, ◌==◌, ℕ, List, All, Contains, IfOk, filter, length, not, slice_index};
ghost use Rattle.members_dm.specs.InOrder.{positions_below};
ghost use Rattle.solutions_dm.specs.Columns.{number_at};
ghost use Rattle.solutions_dm.specs.Marks.{AreMarked};
ghost use Rattle.solutions_dm.specs.Table.{HasRow};
ghost use Rattle.solutions_dm.specs.declared.row_pair.RowPair.{RowPair as ThePair};

use crate::picks::picked;
use crate::row_pair::{PairList, RowPair};
use crate::solutions::Solutions;
use std::alloc::{AllocError, Global};

// The places whose byte is not 0.
fn marked(alloc: Global, mask: &[u8]) -> Result<Vec<usize>, AllocError>
    ensures { IfOk result (λ places. places.items ≡ filter (λ i. not (slice_index mask.now i == 0)) (positions_below (length mask.now))) }
{
    let mut places = Vec::new(alloc);
    for i in 0..mask.len() {
        if mask[i] != 0 {
            places.push(i)?;
        }
    }
    Ok(places)
}

/// The rows whose byte is not 0.
pub fn keep(alloc: Global, rows: &Solutions, mask: &[u8]) -> Result<Solutions, AllocError>
    requires { length mask.now ≡ rows.now.rows }
    ensures { IfOk result (λ s. (m : List ℕ → ℕ) → HasRow s m ↔ ((i : ℕ) × (i < rows.now.rows) × (slice_index mask.now i ≢ 0) × ((x : List ℕ) → m x ≡ number_at rows.now.columns i x))) }
{
    let places = marked(alloc, mask)?;
    picked(alloc, rows, places.as_slice())
}

// Marks each row of left that stands in a pair.
fn mark_pairs(alloc: Global, left_rows: usize, pairs: &[RowPair]) -> Result<Vec<u8>, AllocError>
    requires { All (λ (p : ThePair). p.left < left_rows) pairs.now }
    ensures { IfOk result (λ mask. AreMarked pairs.now left_rows mask.items) }
{
    let mut mask = vec![in alloc; 1u8; left_rows]?;
    for pair in pairs {
        mask[pair.left as usize] = 0;
    }
    Ok(mask)
}

/// The rows of left that stand in no pair.
pub fn unmatched(alloc: Global, left: &Solutions, pairs: &PairList) -> Result<Solutions, AllocError>
    requires { All (λ (p : ThePair). p.left < left.now.rows) pairs.now }
    ensures { IfOk result (λ s. (m : List ℕ → ℕ) → HasRow s m ↔ ((i : ℕ) × (i < left.now.rows) × ((p : ThePair) → Contains pairs.now p → p.left ≢ i) × ((x : List ℕ) → m x ≡ number_at left.now.columns i x))) }
{
    let mask = mark_pairs(alloc, left.len(), pairs.as_slice())?;
    keep(alloc, left, mask.as_slice())
}
