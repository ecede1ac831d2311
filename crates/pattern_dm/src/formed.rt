// Whether a pattern is well-formed.
ghost use Rattle.std.specs.Prelude.{◌≡◌, ◌≢◌, ◌↔◌, ◌&&◌, [], IsTrue};
ghost use Rattle.solutions_dm.specs.Selects as selects;
ghost use Rattle.solutions_dm.specs.Selects.{AreTargetsApart};
ghost use Rattle.pattern_dm.specs.Formed.{AreSelectable, IsWellFormed};

use crate::pattern::Pattern;
use names_dm::Var;
use solutions_dm::Rename;
use value_dm::same;

// Whether one of the renames has this target.
fn is_target(renames: &[Rename], name: &Var) -> bool
    ensures { result ≡ selects.is_target renames.now name.now }
{
    match renames {
        [] => false,
        [first, rest @ ..] => same(&first.to, name) || is_target(rest, name),
    }
}

// Whether no two renames have one target.
fn are_apart(renames: &[Rename]) -> bool
    ensures { IsTrue result ↔ AreTargetsApart renames.now }
{
    match renames {
        [] => true,
        [first, rest @ ..] => !is_target(rest, &first.to) && are_apart(rest),
    }
}

// Whether there are renames, and no two have one target.
fn are_selectable(renames: &[Rename]) -> bool
    ensures { IsTrue result ↔ AreSelectable renames.now }
{
    !renames.is_empty() && are_apart(renames)
}

fn both(a: bool, b: bool) -> bool
    ensures { result ≡ (a && b) }
{
    a & b
}

/// Whether the list of each `Select` is not empty and has no target twice.
pub fn is_well_formed(pattern: &Pattern) -> bool
    ensures { IsTrue result ↔ IsWellFormed pattern.now }
{
    match pattern {
        Pattern::Empty => true,
        Pattern::Triple(_, _, _) => true,
        Pattern::And(left, right) => {
            both(is_well_formed(left.get()), is_well_formed(right.get()))
        }
        Pattern::LeftJoin(left, right, _) => {
            both(is_well_formed(left.get()), is_well_formed(right.get()))
        }
        Pattern::Union(left, right) => {
            both(is_well_formed(left.get()), is_well_formed(right.get()))
        }
        Pattern::Minus(left, right) => {
            both(is_well_formed(left.get()), is_well_formed(right.get()))
        }
        Pattern::Filter(part, _) => is_well_formed(part.get()),
        Pattern::Select(part, renames) => {
            both(
                is_well_formed(part.get()),
                are_selectable(renames.as_slice()),
            )
        }
    }
}
