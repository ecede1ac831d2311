// Pairs of rows, from the runs of one key in two sorted lists.
ghost use Rattle.std.specs.Prelude.{◌≡◌, ◌≢◌, ◌<◌, ◌≤◌, ◌++◌, ◌↔◌, All, AllPairs, Contains, IfOk, OnOk, true, false, length, slice_index_or, map};
ghost use Rattle.std.specs.List.{AllWithin};
ghost use Rattle.solutions_dm.specs.Columns.{IsFilled};
ghost use Rattle.solutions_dm.specs.Keys.{IsKeyed, AreRows, is_below, key_at, rows_of};
ghost use Rattle.solutions_dm.specs.Merge.{AreInRange};
ghost use Rattle.solutions_dm.specs.Pairs.{IsPair, joined, row_pairs};
ghost use Rattle.solutions_dm.specs.declared.keys.Keyed.{Keyed as TheKeyed};
ghost use Rattle.solutions_dm.specs.declared.row_pair.RowPair.{RowPair as ThePair};

use crate::columns::are_compatible;
use crate::keys::{Keyed, shared_names, sorted_by_key};
use crate::row_pair::{PairList, RowPair};
use crate::solutions::Solutions;
use names_dm::Var;
use std::alloc::{AllocError, Global};

// Whether a key comes before another.
fn is_below(a: &[u32], b: &[u32]) -> bool
    ensures { result ≡ is_below a.now b.now }
{
    a.cmp(&b).is_lt()
}

// The first place from `from` on whose key is not below this one.
pub fn first_not_below(rows: &[Keyed], key: &[u32], from: usize) -> usize
    requires { from ≤ length rows.now }
    ensures low { from ≤ result }
    ensures high { result ≤ length rows.now }
    ensures skipped { AllWithin (λ (k : TheKeyed). is_below k.key.items key.now ≡ true) rows.now from result }
{
    let mut at = from;
    'skip: while at < rows.len() && is_below(rows[at].key.as_slice(), key) {
        at += 1;
    }
    at
}

// The first place from `from` on whose key is above this one.
pub fn first_above(rows: &[Keyed], key: &[u32], from: usize) -> usize
    requires { from ≤ length rows.now }
    ensures low { from ≤ result }
    ensures high { result ≤ length rows.now }
    ensures passed { AllWithin (λ (k : TheKeyed). is_below key.now k.key.items ≡ false) rows.now from result }
    ensures stopped { (d : TheKeyed) → result < length rows.now → is_below key.now (slice_index_or rows.now result d).key.items ≡ true }
{
    let mut at = from;
    'run: while at < rows.len() && !is_below(key, rows[at].key.as_slice()) {
        at += 1;
    }
    at
}

// Adds the pairs of a row of left with the compatible ones of some rows of right.
fn add_pairs(
    pairs: &mut PairList,
    left: &Solutions,
    i: usize,
    right: &Solutions,
    run: &[Keyed],
) -> Result<(), AllocError>
    requires left_row { i < left.now.rows }
    requires right_rows { AreRows right.now.rows run.now }
    ensures { OnOk result (pairs.new ≡ pairs.old ++ row_pairs left.now.columns right.now.columns i (rows_of run.now)) }
{
    for one in run {
        if are_compatible(
            left.columns.as_slice(),
            left.rows,
            i,
            right.columns.as_slice(),
            right.rows,
            one.row,
        ) {
            pairs.push(RowPair {
                left: i as u64,
                right: one.row as u64,
            })?;
        }
    }
    Ok(())
}

// The pairs of two lists of rows that are sorted by the numbers of the same variables, which each row binds.
fn merged_runs(
    alloc: Global,
    names: &[Var],
    left: &Solutions,
    left_rows: &[Keyed],
    right: &Solutions,
    right_rows: &[Keyed],
) -> Result<PairList, AllocError>
    requires left_filled { All (IsFilled left.now.columns left.now.rows) names.now }
    requires right_filled { All (IsFilled right.now.columns right.now.rows) names.now }
    requires left_keyed { IsKeyed (key_at left.now.columns names.now) left.now.rows left_rows.now }
    requires right_keyed { IsKeyed (key_at right.now.columns names.now) right.now.rows right_rows.now }
    ensures { IfOk result (λ ps. ps ≡ joined left.now.columns right.now.columns (rows_of left_rows.now) (rows_of right_rows.now)) }
{
    let mut pairs = PairList::new(alloc);
    let mut start = 0;
    for one in left_rows {
        start = first_not_below(right_rows, one.key.as_slice(), start);
        let end = first_above(right_rows, one.key.as_slice(), start);
        add_pairs(&mut pairs, left, one.row, right, &right_rows[start..end])?;
    }
    Ok(pairs)
}

/// The places of all compatible rows (SPARQL 1.1 Query Language, section 18.3), each pair once. Two rows are compatible
/// where they agree on each variable that both bind.
pub fn pairs(alloc: Global, left: &Solutions, right: &Solutions) -> Result<PairList, AllocError>
    ensures exact { IfOk result (λ ps. (p : ThePair) → Contains ps p ↔ IsPair left.now right.now p) }
    ensures once { IfOk result (λ ps. AllPairs (λ p q. p ≢ q) ps) }
    ensures left_rows { IfOk result (λ ps. All (λ (p : ThePair). p.left < left.now.rows) ps) }
    ensures in_range { IfOk result (λ ps. AreInRange left.now right.now ps) }
{
    let names = shared_names(alloc, left, right)?;
    let left_rows = sorted_by_key(alloc, left, names.as_slice())?;
    let right_rows = sorted_by_key(alloc, right, names.as_slice())?;
    merged_runs(
        alloc,
        names.as_slice(),
        left,
        left_rows.as_slice(),
        right,
        right_rows.as_slice(),
    )
}
