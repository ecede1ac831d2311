// The variables of two lists of rows.
ghost use Rattle.std.specs.Prelude.{◌≡◌, IfOk};
ghost use Rattle.solutions_dm.specs.Columns.{AreApart};
ghost use Rattle.solutions_dm.specs.Joint.{joint};

use crate::numbers::all_names;
use crate::solutions::Solutions;
use names_dm::Var;
use std::alloc::{AllocError, Global};
use value_dm::{Sequence, TryCopy};

// The variables of left, and then those of right that left hasn't.
pub fn joint_names(
    alloc: Global,
    left: &Solutions,
    right: &Solutions,
) -> Result<Sequence<Var>, AllocError>
    ensures names { IfOk result (λ names. names ≡ joint left.now.columns right.now.columns) }
    ensures left { IfOk result (λ _. AreApart left.now.columns) }
    ensures right { IfOk result (λ _. AreApart right.now.columns) }
{
    let mut names = all_names(alloc, left)?;
    for other in right.columns.as_slice() {
        if left.column(&other.name).is_none() {
            names.push(other.name.copy(alloc)?)?;
        }
    }
    Ok(names)
}
