// Joins, in which NULL is equal to nothing.
ghost use Rattle.std.specs.Prelude.{◌≡◌, ◌≢◌, ◌↔◌, ℕ, List, IfOk, IsTrue};
ghost use Rattle.members_dm.specs.Membership.{IsIn};
ghost use Rattle.solutions_dm.specs.Merge.{first_bound};
ghost use Rattle.solutions_dm.specs.Columns.{SameIfBound};
ghost use Rattle.solutions_dm.specs.Table.{HasRow};
ghost use Rattle.query_rows_dm.specs.Operators.{AreJoined, AreTogether};

use crate::dictionary::NULL;
use crate::filters::without_number;
use crate::relation::Relation;
use names_dm::{Var, Vars};
use solutions_dm::{Solutions, merge, pairs};
use std::alloc::{AllocError, Global};
use value_dm::{TryCopy, same};

// Whether the variable is one of these.
fn has(vars: &[Var], var: &Var) -> bool
    ensures { IsTrue result ↔ IsIn var.now vars.now }
{
    vars.iter().any(|other| same(other, var))
}

// The variables that are in both lists.
fn shared(alloc: Global, left: &[Var], right: &[Var]) -> Result<Vars, AllocError>
    ensures { IfOk result (λ vars. (x : List ℕ) → IsIn x vars ↔ (IsIn x left.now × IsIn x right.now)) }
{
    let mut vars = Vars::new(alloc);
    for var in left {
        if has(right, var) {
            vars.push(var.copy(alloc)?)?;
        }
    }
    Ok(vars)
}

// The variables of left, and those of right that left hasn't.
fn together(alloc: Global, left: &Vars, right: &[Var]) -> Result<Vars, AllocError>
    ensures { IfOk result (λ vars. AreTogether left.now right.now vars) }
{
    let mut vars = left.copy(alloc)?;
    for var in right {
        if !has(left.as_slice(), var) {
            vars.push(var.copy(alloc)?)?;
        }
    }
    Ok(vars)
}

// The rows that have no NULL under these variables.
fn without_nulls(alloc: Global, rows: Solutions, vars: &[Var]) -> Result<Solutions, AllocError>
    ensures { IfOk result (λ s. (m : List ℕ → ℕ) → HasRow s m ↔ (HasRow rows m × ((x : List ℕ) → IsIn x vars.now → m x ≢ 1))) }
{
    let mut rows = rows;
    for var in vars {
        rows = without_number(alloc, &rows, var, NULL)?;
    }
    Ok(rows)
}

// The unions of rows that have one number in each variable of both.
fn merged(alloc: Global, left: &Solutions, right: &Solutions) -> Result<Solutions, AllocError>
    ensures { IfOk result (λ s. (m : List ℕ → ℕ) → HasRow s m ↔ ((u v : List ℕ → ℕ) × HasRow left.now u × HasRow right.now v × ((x : List ℕ) → SameIfBound (u x) (v x)) × ((x : List ℕ) → m x ≡ first_bound (u x) (v x)))) }
{
    let places = pairs(alloc, left, right)?;
    merge(alloc, left, right, &places)
}

/// The natural join. Refused for want of memory alone.
pub fn joined(alloc: Global, left: Relation, right: &Relation) -> Result<Relation, AllocError>
    ensures { IfOk result (λ r. AreJoined left right.now r) }
{
    let common = shared(
        alloc,
        left.attributes.as_slice(),
        right.attributes.as_slice(),
    )?;
    let attributes = together(alloc, &left.attributes, right.attributes.as_slice())?;
    let kept = without_nulls(alloc, left.rows, common.as_slice())?;
    let rows = merged(alloc, &kept, &right.rows)?;
    Ok(Relation { attributes, rows })
}
