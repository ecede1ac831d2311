// Each row once.
ghost use Rattle.std.specs.Prelude.{◌≡◌, IfOk, length};
ghost use Rattle.solutions_dm.specs.Keys.{IsKeyed, key_at};
ghost use Rattle.solutions_dm.specs.Repeats.{IsDistinct, AreOfEach};

use crate::keys::{Keyed, sorted_by_key};
use crate::numbers::all_names;
use crate::picks::picked;
use crate::runs::first_above;
use crate::solutions::Solutions;
use names_dm::Var;
use std::alloc::{AllocError, Global};

// The first row of each key.
fn first_rows(
    alloc: Global,
    rows: &Solutions,
    names: &[Var],
    keyed: &[Keyed],
) -> Result<Vec<usize>, AllocError>
    requires { IsKeyed (key_at rows.now.columns names.now) rows.now.rows keyed.now }
    ensures { IfOk result (λ kept. AreOfEach (key_at rows.now.columns names.now) rows.now.rows keyed.now (length keyed.now) kept.items) }
{
    let mut kept = Vec::new(alloc);
    let mut at = 0;
    'runs: while at < keyed.len() {
        let first = &keyed[at];
        kept.push(first.row)?;
        at = first_above(keyed, first.key.as_slice(), at + 1);
    }
    Ok(kept)
}

/// Each mapping once (SPARQL 1.1 Query Language, section 18.5, Distinct).
pub fn distinct(alloc: Global, rows: &Solutions) -> Result<Solutions, AllocError>
    ensures { IfOk result (λ s. IsDistinct rows.now s) }
{
    let names = all_names(alloc, rows)?;
    let keyed = sorted_by_key(alloc, rows, names.as_slice())?;
    let kept = first_rows(alloc, rows, names.as_slice(), keyed.as_slice())?;
    picked(alloc, rows, kept.as_slice())
}
