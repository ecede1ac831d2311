// The operators on solutions, each mapping once.
ghost use Rattle.std.specs.Prelude.{◌≡◌, ◌≢◌, ◌↔◌, ◌⊎◌, ◌<◌, ◌++◌, ◌∷◌, [], ℕ, List, Contains, IfOk, OnOk, Some, None, true, false, length, slice_get, slice_index, if◌then◌else◌};
ghost use Rattle.names_dm.specs.declared.term.Term.{Term as TheTerm};
ghost use Rattle.solutions_dm.specs.declared.row_pair.RowPair.{RowPair as ThePair};
ghost use Rattle.solutions_dm.specs.Selects.{AreTargetsApart};
ghost use Rattle.store_dm.specs.Graphs.{IsLawful};
ghost use Rattle.store_dm.specs.Terms.{AreOneToOne};
ghost use Rattle.pattern_dm.specs.Operators.{Join, LeftJoin, Minus, Select};
ghost use Rattle.pattern_dm.specs.Passing.{ArePassing};
ghost use Rattle.pattern_dm.specs.Says.{Says};
ghost use Rattle.pattern_dm.specs.Solved.{AreNumbers, HasSolution, IsOutcome};

use crate::conditions::masks_of;
use crate::pattern::Condition;
use solutions_dm::{
    PairList, Renames, RowPair, Solutions, distinct, keep, merge, minus, pairs, select, union,
    unit, unmatched,
};
use std::alloc::{AllocError, Global};
use store_dm::Graph;

// One row that binds nothing.
pub fn empty(alloc: Global) -> Result<Solutions, AllocError>
    ensures { IfOk result (λ s. (terms : List TheTerm) → IsOutcome terms (λ m. (x : List ℕ) → m x ≡ None) s) }
{
    let rows = unit(alloc)?;
    distinct(alloc, &rows)
}

// The unions of compatible rows.
pub fn joined(alloc: Global, left: &Solutions, right: &Solutions) -> Result<Solutions, AllocError>
    ensures { IfOk result (λ s. (terms : List TheTerm) → AreOneToOne terms → AreNumbers terms left.now → AreNumbers terms right.now → IsOutcome terms (Join (HasSolution terms left.now) (HasSolution terms right.now)) s) }
{
    let places = pairs(alloc, left, right)?;
    let unions = merge(alloc, left, right, &places)?;
    distinct(alloc, &unions)
}

// The rows of both.
pub fn either(alloc: Global, left: &Solutions, right: &Solutions) -> Result<Solutions, AllocError>
    ensures { IfOk result (λ s. (terms : List TheTerm) → AreNumbers terms left.now → AreNumbers terms right.now → IsOutcome terms (λ m. HasSolution terms left.now m ⊎ HasSolution terms right.now m) s) }
{
    let rows = union(alloc, left, right)?;
    distinct(alloc, &rows)
}

// The rows of left that no row of right takes away.
pub fn without(alloc: Global, left: &Solutions, right: &Solutions) -> Result<Solutions, AllocError>
    ensures { IfOk result (λ s. (terms : List TheTerm) → AreOneToOne terms → AreNumbers terms left.now → AreNumbers terms right.now → IsOutcome terms (Minus (HasSolution terms left.now) (HasSolution terms right.now)) s) }
{
    let rows = minus(alloc, left, right)?;
    distinct(alloc, &rows)
}

// The rows under other names.
pub fn selected(alloc: Global, rows: &Solutions, renames: &Renames) -> Result<Solutions, AllocError>
    requires { AreTargetsApart renames.now }
    ensures { IfOk result (λ s. (terms : List TheTerm) → AreNumbers terms rows.now → IsOutcome terms (Select (HasSolution terms rows.now) renames.now) s) }
{
    let made = select(alloc, rows, renames)?;
    distinct(alloc, &made)
}

// The rows for which the condition is true.
pub fn filtered(
    alloc: Global,
    rows: &Solutions,
    condition: &Condition,
    graph: &Graph,
) -> Result<Solutions, AllocError>
    requires lawful { IsLawful graph.now }
    requires numbers { AreNumbers graph.now.terms rows.now }
    ensures { IfOk result (λ s. IsOutcome graph.now.terms (λ m. HasSolution graph.now.terms rows.now m × Says condition.now true m) s) }
{
    let masks = masks_of(alloc, condition, rows, graph)?;
    let kept = keep(alloc, rows, masks.holds.as_slice())?;
    distinct(alloc, &kept)
}

// Adds a pair, if it is to be kept.
fn add_if(list: &mut PairList, pair: RowPair, wanted: bool) -> Result<(), AllocError>
    ensures { OnOk result (list.new ≡ list.old ++ (if wanted then pair ∷ [] else [])) }
{
    if wanted {
        list.push(pair)?;
    }
    Ok(())
}

// The pairs whose byte is not 0.
fn passing(alloc: Global, places: &[RowPair], mask: &[u8]) -> Result<PairList, AllocError>
    requires { length mask.now ≡ length places.now }
    ensures { IfOk result (λ ps. ArePassing places.now mask.now (length places.now) ps) }
{
    let mut list = PairList::new(alloc);
    for i in 0..places.len() {
        add_if(&mut list, places[i], mask[i] != 0)?;
    }
    Ok(list)
}

// The unions of compatible rows for which the condition is true, and the rows of left that are in none.
pub fn left_joined(
    alloc: Global,
    left: &Solutions,
    right: &Solutions,
    condition: &Condition,
    graph: &Graph,
) -> Result<Solutions, AllocError>
    requires lawful { IsLawful graph.now }
    requires lefts { AreNumbers graph.now.terms left.now }
    requires rights { AreNumbers graph.now.terms right.now }
    ensures { IfOk result (λ s. IsOutcome graph.now.terms (LeftJoin (HasSolution graph.now.terms left.now) (HasSolution graph.now.terms right.now) condition.now) s) }
{
    let places = pairs(alloc, left, right)?;
    let unions = merge(alloc, left, right, &places)?;
    let masks = masks_of(alloc, condition, &unions, graph)?;
    let kept = keep(alloc, &unions, masks.holds.as_slice())?;
    let passed = passing(alloc, places.as_slice(), masks.holds.as_slice())?;
    let alone = unmatched(alloc, left, &passed)?;
    let rows = union(alloc, &kept, &alone)?;
    distinct(alloc, &rows)
}
